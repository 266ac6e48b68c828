//! Readings of bytes as a page.
ghost use Rattle.std.specs.Prelude.{◌≡◌, IfOk, None, Some};
ghost use Rattle.nap_mend.specs.Pages.{is_whole_page, is_stream, mend_budget};
ghost use Rattle.nap_mend.specs.Counts.{CountsStream};

use nap_list::CountSink;
use nap_reader::{Budget, Fault, read_stream};
use std::alloc::{AllocError, Global};

/// The bytes of macro bodies that a page may be charged.
const MEND_BUDGET: u32 = 1_048_576;

/// Returns the budget of a reading.
fn mend_budget() -> Budget
    ensures { result ≡ mend_budget }
{
    match Budget::new(MEND_BUDGET) {
        Some(budget) => budget,
        None => unreachable!(),
    }
}

/// Returns the number of entries of a stream, if it is accepted.
fn count_of(alloc: Global, bytes: &[u8]) -> Result<Option<u64>, AllocError>
    ensures { IfOk result (λ found. CountsStream bytes.now found) }
{
    match read_stream(alloc, mend_budget(), bytes, CountSink::new()) {
        Ok(sink) => Ok(Some(sink.count())),
        Err(refusal) => match refusal.fault {
            Fault::Memory | Fault::Sink => Err(AllocError),
            _ => Ok(None),
        },
    }
}

/// Whether bytes are an accepted stream.
pub(crate) fn is_stream(alloc: Global, bytes: &[u8]) -> Result<bool, AllocError>
    ensures { IfOk result (λ found. found ≡ is_stream bytes.now) }
{
    match count_of(alloc, bytes)? {
        Some(_) => Ok(true),
        None => Ok(false),
    }
}

/// Whether bytes are an accepted stream with an entry.
#[tactic(auto, unfolding(crate::specs::Pages::is_whole_page))]
pub(crate) fn is_whole_page(alloc: Global, bytes: &[u8]) -> Result<bool, AllocError>
    ensures { IfOk result (λ found. found ≡ is_whole_page bytes.now) }
{
    match count_of(alloc, bytes)? {
        Some(count) => Ok(count > 0),
        None => Ok(false),
    }
}
