//! The calls of the library on a page in memory (docs/LIBRARY.md).
ghost use Rattle.std.specs.Prelude.{◌≡◌, ◌↔◌, IsTrue, MatchResult};
ghost use Rattle.nap_reader.specs.Breaking.{BreaksWithin};
ghost use Rattle.nap_canon.specs.Plain.{IsPlain};
ghost use Rattle.nap_canon.specs.Streams.{list_of};
ghost use Rattle.nap_canon.specs.Text.{text, text1};
ghost use Rattle.nap_lines.specs.Listing.{lines};
ghost use Rattle.nap_c.specs.Answers.{AnswersCount, AnswersPlaces, AnswersText, IsRefusal, IsTextOf, LacksForText, memory_refusal_at_end};

use crate::answer::{Answer, NO_BUDGET, answer_placed, answer_text};
use nap_canon::{CanonFault, canon_form1, page_text};
use nap_command::batch::read_places;
use nap_lines::LineSink;
use nap_list::CountSink;
use nap_reader::{Budget, Fault, Refusal, read_all, read_stream};
use std::alloc::{AllocError, Global};

/// Returns the refusal for lack of memory for a text, which is placed at the end of the page.
pub(crate) fn memory_refusal_at_end(page: &[u8]) -> Refusal
    ensures { result ≡ memory_refusal_at_end page.now }
{
    Refusal {
        fault: Fault::Memory,
        place: page.len() as u64,
    }
}

/// Returns the lines of a page's entries, or its refusal.
pub(crate) fn list_text(alloc: Global, budget: Budget, page: &[u8]) -> Result<Vec<u8>, Refusal>
    ensures { MatchResult result
        (λ found. IsTextOf budget page.now (lines (list_of budget page.now)) found.items)
        (IsRefusal budget page.now (BreaksWithin budget page.now)) }
{
    let sink = read_stream(alloc, budget, page, LineSink::new(alloc))?;
    Ok(sink.into_text())
}

/// Returns the canonical text of a page, or its refusal.
pub(crate) fn canon_text(alloc: Global, budget: Budget, page: &[u8]) -> Result<Vec<u8>, Refusal>
    ensures { MatchResult result
        (λ found. IsTextOf budget page.now (text (list_of budget page.now)) found.items)
        (IsRefusal budget page.now (LacksForText budget page.now)) }
{
    match page_text(alloc, budget, page) {
        Ok(Ok(found)) => Ok(found.text),
        Ok(Err(refusal)) => Err(refusal),
        Err(AllocError) => Err(memory_refusal_at_end(page)),
    }
}

/// Returns the text of a page's list in form 1, or its refusal.
pub(crate) fn form1_text(alloc: Global, budget: Budget, page: &[u8]) -> Result<Vec<u8>, Refusal>
    ensures { MatchResult result
        (λ found. IsTextOf budget page.now (text1 (list_of budget page.now)) found.items)
        (IsRefusal budget page.now (LacksForText budget page.now)) }
{
    let list = read_all(alloc, budget, page)?;
    match canon_form1(alloc, &list) {
        Ok(text) => Ok(text),
        Err(CanonFault::Memory) => Err(memory_refusal_at_end(page)),
        // The list of an accepted page is legal.
        Err(CanonFault::Illegal(_)) => unreachable!(),
    }
}

/// Counts the entries of a page.
#[unsafe(no_mangle)]
pub extern "C" fn naplps_check(alloc: Global, budget: u32, page: &[u8]) -> Answer
    ensures { AnswersCount budget page.now result }
{
    let Some(budget) = Budget::new(budget) else {
        return Answer::bare_answer(NO_BUDGET);
    };
    match read_stream(alloc, budget, page, CountSink::new()) {
        Ok(sink) => Answer::accepted_answer(sink.count()),
        Err(refusal) => Answer::refused_answer(refusal, 0),
    }
}

/// Copies the lines of a page's entries to a room.
#[unsafe(no_mangle)]
pub extern "C" fn naplps_list(alloc: Global, budget: u32, page: &[u8], room: &mut [u8]) -> Answer
    ensures { let accepted = lines (list_of budget page.now) in
        AnswersText budget page.now (BreaksWithin budget page.now) accepted room.old room.new result }
{
    let Some(budget) = Budget::new(budget) else {
        return Answer::bare_answer(NO_BUDGET);
    };
    answer_text(list_text(alloc, budget, page), room)
}

/// Copies the canonical stream of a page to a room.
#[unsafe(no_mangle)]
pub extern "C" fn naplps_canon(alloc: Global, budget: u32, page: &[u8], room: &mut [u8]) -> Answer
    ensures { let accepted = text (list_of budget page.now) in
        AnswersText budget page.now (LacksForText budget page.now) accepted room.old room.new result }
{
    let Some(budget) = Budget::new(budget) else {
        return Answer::bare_answer(NO_BUDGET);
    };
    answer_text(canon_text(alloc, budget, page), room)
}

/// Copies the text of a page's list in form 1 to a room.
#[unsafe(no_mangle)]
pub extern "C" fn naplps_canon_form1(
    alloc: Global,
    budget: u32,
    page: &[u8],
    room: &mut [u8],
) -> Answer
    ensures { let accepted = text1 (list_of budget page.now) in
        AnswersText budget page.now (LacksForText budget page.now) accepted room.old room.new result }
{
    let Some(budget) = Budget::new(budget) else {
        return Answer::bare_answer(NO_BUDGET);
    };
    answer_text(form1_text(alloc, budget, page), room)
}

/// Copies the lines of a page's entries to a room, each after the place of the byte that added it, also those before a
/// refusal.
#[unsafe(no_mangle)]
pub extern "C" fn naplps_places(alloc: Global, budget: u32, page: &[u8], room: &mut [u8]) -> Answer
    ensures { AnswersPlaces budget page.now room.old room.new result }
{
    let Some(budget) = Budget::new(budget) else {
        return Answer::bare_answer(NO_BUDGET);
    };
    match read_places(alloc, budget, page) {
        Ok(placed) => answer_placed(placed, room),
        Err(AllocError) => Answer::refused_answer(memory_refusal_at_end(page), 0),
    }
}

/// Whether a page is plain.
#[unsafe(no_mangle)]
pub extern "C" fn naplps_is_plain(page: &[u8]) -> bool
    ensures { IsTrue result ↔ IsPlain page.now }
{
    nap_canon::is_plain(page)
}
