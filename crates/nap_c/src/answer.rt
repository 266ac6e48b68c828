//! Answers of the library for C (docs/LIBRARY.md).
ghost use Rattle.std.specs.Prelude.{◌≡◌, length, MatchResult};
ghost use Rattle.nap_c.specs.Answers.{IsGiven, Offers, accepted_answer, ended_answer, refused_answer, zero_padded};
ghost use Rattle.nap_command.specs.Failures.{fault_text};

use nap_command::batch::PlacesText;
use nap_command::fault_name;
use nap_reader::{Fault, Refusal};

/// The number of bytes that an answer has for a name, its final zero included.
pub(crate) const NAME: usize = 32;

/// Returns the name of a refusal, padded with zeros.
pub(crate) fn padded_name(fault: Fault) -> [u8; NAME]
    ensures { result ≡ zero_padded (fault_text fault) }
{
    let text = fault_name(fault).as_bytes();
    let mut name = [0; NAME];
    name[..text.len()].copy_from_slice(text);
    name
}

/// Status: the page is accepted.
pub(crate) const ACCEPTED: u32 = 0;

/// Status: the page is refused.
pub(crate) const REFUSED: u32 = 1;

/// Status: the room is too small for the text.
pub(crate) const SMALL: u32 = 2;

/// Status: there is no such budget.
pub(crate) const NO_BUDGET: u32 = 3;

/// Status: no page is begun.
pub(crate) const NOT_BEGUN: u32 = 4;

/// The answer to a call on a page, as C sees it.
#[repr(C)]
#[derive(Clone, Copy, Drop)]
pub struct Answer {
    /// 0 accepted, 1 refused, 2 the room is too small for the text, 3 no such budget, 4 no page is begun.
    pub status: u32,
    /// The number of the refusal, or 0.
    pub number: u32,
    /// The place of the refusal: the offset of a byte, or the length of the page.
    pub place: u64,
    /// The number of bytes of the text, or the number of entries.
    pub length: u64,
    /// The name of the refusal, padded with zeros.
    pub name: [u8; NAME],
}

impl Answer {
    /// Returns the answer for an accepted page, with a text of this length or this number of entries.
    pub(crate) fn accepted_answer(length: u64) -> Answer
        ensures { result ≡ accepted_answer length }
    {
        Answer {
            status: ACCEPTED,
            number: 0,
            place: 0,
            length,
            name: [0; NAME],
        }
    }

    /// Returns the answer for a refused page, with a text of this length.
    pub(crate) fn refused_answer(refusal: Refusal, length: u64) -> Answer
        ensures { result ≡ refused_answer refusal length }
    {
        Answer {
            status: REFUSED,
            number: u32::from(refusal.fault.number()),
            place: refusal.place,
            length,
            name: padded_name(refusal.fault),
        }
    }

    /// Returns the answer for a page that was read with this result, with a text of this length.
    fn ended_answer(ended: Result<usize, Refusal>, length: u64) -> Answer
        ensures { result ≡ ended_answer ended length }
    {
        match ended {
            Ok(_) => Answer::accepted_answer(length),
            Err(refusal) => Answer::refused_answer(refusal, length),
        }
    }

    /// Returns the answer with this status alone.
    pub(crate) fn bare_answer(status: u32) -> Answer
        ensures { result ≡ record (accepted_answer 0) { status = status } }
    {
        Answer {
            status,
            ..Answer::accepted_answer(0)
        }
    }
}

/// Copies a text to the beginning of a room that is large enough, and returns whether it is.
pub(crate) fn copy_if_fits(text: &[u8], room: &mut [u8]) -> bool
    ensures { IsGiven text.now room.old room.new result }
{
    if text.len() > room.len() {
        return false;
    }
    room[..text.len()].copy_from_slice(text);
    true
}

/// Copies a text to the beginning of a room and returns its answer, or returns that the room is too small.
pub(crate) fn copy_and_answer(text: &[u8], room: &mut [u8], answer: Answer) -> Answer
    ensures { Offers text.now room.old room.new answer result }
{
    if !copy_if_fits(text, room) {
        return Answer {
            status: SMALL,
            ..answer
        };
    }
    answer
}

/// Copies the text of a page to a room and returns its answer, or the answer for its refusal.
pub(crate) fn answer_text(found: Result<Vec<u8>, Refusal>, room: &mut [u8]) -> Answer
    ensures { MatchResult found
        (λ text. Offers text.items room.old room.new (accepted_answer (length text.items)) result)
        (λ refusal. (result ≡ refused_answer refusal 0) × (room.new ≡ room.old)) }
{
    match found {
        Ok(text) => {
            let text = text.as_slice();
            copy_and_answer(text, room, Answer::accepted_answer(text.len() as u64))
        }
        Err(refusal) => Answer::refused_answer(refusal, 0),
    }
}

/// Copies the places of a page to a room and returns the answer.
pub(crate) fn answer_placed(placed: PlacesText, room: &mut [u8]) -> Answer
    ensures { let text = placed.text.items in Offers text room.old room.new (ended_answer placed.ended (length text)) result }
{
    let text = placed.text.as_slice();
    copy_and_answer(
        text,
        room,
        Answer::ended_answer(placed.ended, text.len() as u64),
    )
}
