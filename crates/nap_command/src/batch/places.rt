//! The places of the entries of a page.
ghost use Rattle.std.specs.Prelude.{◌≡◌, ◌≢◌, ◌++◌, ◌+◌, ◌^◌, ◌<◌, ◌≤◌, ℕ, List, [], Err, IfOk, length};
ghost use Rattle.nap_list.specs.declared.entry.Entry.{Entry};
ghost use Rattle.nap_reader.specs.Looking.{bytes_ahead};
ghost use Rattle.nap_command.specs.Answers.{IsPlaced};
ghost use Rattle.nap_command.specs.Placing.{AreNew, lines_on, step_of};

use crate::batch::written::Written;
use nap_lines::LineSink;
use nap_reader::{Ahead, Budget, Fault, Reader, Refusal};
use std::alloc::{AllocError, Global};

/// The lines of a page's entries, each after its place, and the number of entries or the refusal.
#[derive(Drop)]
pub struct PlacesText {
    /// The lines; empty if reading lacked memory.
    pub text: Vec<u8>,
    /// The number of entries, or the refusal.
    pub ended: Result<usize, Refusal>,
}

/// Returns what comes of a page that is refused, given the lines of its entries. If memory ran out, nothing is written.
fn stopped_places(
    alloc: Global,
    written: Written,
    place: usize,
    step: usize,
    lines: &[u8],
    refusal: Refusal,
) -> Result<PlacesText, AllocError>
    requires near { step ≤ 1 }
    requires small { place + length lines.now < 2 ^ 64 }
    ensures ended { IfOk result (λ r. r.ended ≡ Err refusal) }
    ensures memory { IfOk result (λ r. refusal.fault ≡ Fault.Memory → r.text.items ≡ []) }
    ensures own { IfOk result (λ r. refusal.fault ≢ Fault.Memory → (es : List Entry) → AreNew written.known lines.now es →
        r.text.items ≡ written.text.items ++ lines_on place step es) }
{
    if refusal.fault == Fault::Memory {
        return Ok(PlacesText {
            text: Vec::new(alloc),
            ended: Err(refusal),
        });
    }
    let mut written = written;
    written.write_new(place, step, lines)?;
    Ok(PlacesText {
        text: written.text,
        ended: Err(refusal),
    })
}

/// Returns the number of bytes ahead whose entries come alike, and the distance from the place of one entry to that of
/// the next.
#[inline(always)]
fn stride_of(ahead: Ahead) -> (usize, usize)
    ensures count { result.0 ≡ bytes_ahead ahead }
    ensures step { result.1 ≡ step_of ahead }
    ensures near { result.1 ≤ 1 }
{
    match ahead {
        Ahead::First(count) => (count, 0),
        Ahead::Each(count) => (count, 1),
    }
}

/// Reads a page, and writes the lines of each byte's entries after its place.
pub fn read_places(alloc: Global, budget: Budget, page: &[u8]) -> Result<PlacesText, AllocError>
    ensures { IfOk result (λ r. IsPlaced budget page.now r.text.items r.ended) }
{
    let mut written = Written::new(alloc)?;
    let mut reader = Reader::new(alloc, budget, LineSink::new(alloc));
    let mut place = 0;
    while place < page.len() {
        let rest = &page[place..];
        let (count, step) = stride_of(reader.ahead(rest));
        if let Err(refusal) = reader.feed(&rest[..count]) {
            let lines = reader.sink().text();
            return stopped_places(alloc, written, place, step, lines, refusal);
        }
        written.write_new(place, step, reader.sink().text())?;
        place += count;
    }
    match reader.finish() {
        Ok(sink) => {
            written.write_new(place, 0, sink.text())?;
            Ok(PlacesText {
                ended: Ok(written.count),
                text: written.text,
            })
        }
        Err(end) => stopped_places(alloc, written, place, 0, end.sink.text(), end.refusal),
    }
}
