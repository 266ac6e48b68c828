//! The pages among other bytes (docs/LIBRARY.md).
ghost use Rattle.std.specs.Prelude.{◌≡◌};
ghost use Rattle.nap_c.specs.Answers.{CopiesFinds, found_answer};

use crate::answer::{Answer, copy_and_answer};
use crate::call::memory_refusal_at_end;
use nap_command::batch::find_pages;
use std::alloc::{AllocError, Global};

/// Returns the answer for finds that bytes that follow may change from this place on, with a text of this length.
fn found_answer(place: u64, length: u64) -> Answer
    ensures { result ≡ found_answer place length }
{
    Answer {
        place,
        ..Answer::accepted_answer(length)
    }
}

/// Copies to a room the lines of the pages among other bytes that have at least this number of entries, and the last
/// line.
#[unsafe(no_mangle)]
pub extern "C" fn naplps_find(alloc: Global, least: u32, bytes: &[u8], room: &mut [u8]) -> Answer
    ensures { CopiesFinds least bytes.now room.old room.new result }
{
    match find_pages(alloc, least, bytes) {
        Ok(found) => {
            let text = found.text.as_slice();
            let answer = found_answer(found.open, text.len() as u64);
            copy_and_answer(text, room, answer)
        }
        Err(AllocError) => Answer::refused_answer(memory_refusal_at_end(bytes), 0),
    }
}
