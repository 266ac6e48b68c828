//! The calls of the library on a page in pieces (docs/LIBRARY.md).
ghost use Rattle.std.specs.Prelude.{◌≡◌, ◌+◌, ◌<◌, ◌^◌, None, IfSome, length, ◌++◌, ℕ, List, []};
ghost use Rattle.nap_c.specs.Checks.{BeginsPage, FeedsPiece, FinishesPage, fed};

use crate::answer::{Answer, NO_BUDGET, NOT_BEGUN};
use crate::call::memory_refusal_at_end;
use crate::checking::Checking;
use nap_list::CountSink;
use nap_reader::{Budget, Reader};
use std::alloc::Global;

/// What is known of a page so far.
#[derive(Drop)]
pub struct Check {
    reader: Reader<CountSink>,
}

impl Check {
    ghost use Rattle.nap_c.specs.Answers.{CountsInBudget};
    ghost use Rattle.nap_c.specs.Checks.{HasChecked, IsSoFar, fed};

    /// Returns the check of a page of which no byte has come.
    pub(crate) fn new(alloc: Global, budget: Budget) -> Check
        ensures { HasChecked result budget [] }
    {
        Check {
            reader: Reader::new(alloc, budget, CountSink::new()),
        }
    }

    /// Takes the next piece.
    pub(crate) fn feed(&mut self, piece: &[u8]) -> Answer
        requires { fed self.old + length piece.now < 2 ^ 63 }
        ensures has_checked { (budget : ℕ) (p : List ℕ) → HasChecked self.old budget p → HasChecked self.new budget (p ++ piece.now) }
        ensures answer { (budget : ℕ) (p : List ℕ) → HasChecked self.old budget p → IsSoFar budget (p ++ piece.now) result }
    {
        match self.reader.feed(piece) {
            Ok(()) => Answer::accepted_answer(0),
            Err(refusal) => Answer::refused_answer(refusal, 0),
        }
    }

    /// Ends the page.
    pub(crate) fn finish(self) -> Answer
        ensures { (budget : ℕ) (p : List ℕ) → HasChecked self budget p → CountsInBudget budget p result }
    {
        let Check { reader } = self;
        match reader.finish() {
            Ok(sink) => Answer::accepted_answer(sink.count()),
            Err(stopped) => Answer::refused_answer(stopped.refusal, 0),
        }
    }
}

/// Begins a page in pieces, and drops the one that was begun.
#[unsafe(no_mangle)]
pub extern "C" fn naplps_check_begin(page: &mut Checking, alloc: Global, budget: u32) -> Answer
    ensures { BeginsPage budget page.new.check result }
{
    drop(page.take(alloc));
    let Some(budget) = Budget::new(budget) else {
        return Answer::bare_answer(NO_BUDGET);
    };
    match Box::new(alloc, Check::new(alloc, budget)) {
        Ok(check) => {
            page.put(alloc, check);
            Answer::accepted_answer(0)
        }
        Err(_) => Answer::refused_answer(memory_refusal_at_end(&[]), 0),
    }
}

/// Takes the next piece of a page.
#[unsafe(no_mangle)]
pub extern "C" fn naplps_check_feed(page: &mut Checking, alloc: Global, piece: &[u8]) -> Answer
    requires { IfSome page.old.check (λ check. fed check + length piece.now < 2 ^ 63) }
    ensures { FeedsPiece page.old.check page.new.check piece.now result }
{
    let Some(mut check) = page.take(alloc) else {
        return Answer::bare_answer(NOT_BEGUN);
    };
    let answer = check.feed(piece);
    page.put(alloc, check);
    answer
}

/// Ends a page in pieces, and counts its entries. No page is begun afterwards.
#[unsafe(no_mangle)]
pub extern "C" fn naplps_check_finish(page: &mut Checking, alloc: Global) -> Answer
    ensures none { page.new.check ≡ None }
    ensures answer { FinishesPage page.old.check result }
{
    match page.take(alloc) {
        Some(check) => Box::into_inner(check).finish(),
        None => Answer::bare_answer(NOT_BEGUN),
    }
}

/// Drops a page in pieces, if one is begun.
#[unsafe(no_mangle)]
pub extern "C" fn naplps_check_drop(page: &mut Checking, alloc: Global)
    ensures { page.new.check ≡ None }
{
    drop(page.take(alloc));
}
