//! Readings of bytes as a page.
ghost use Rattle.std.specs.Prelude.{◌≡◌, ◌+◌, ◌<◌, ◌≤◌, ◌^◌, ◌++◌, ◌&&◌, nat_le, ℕ, List, [], None, Some, IfOk, IsTrue, IfSome, MatchOption, if◌then◌else◌, length, true, false};
ghost use Rattle.nap_reader.specs.ReaderAnswers.{HasRead, budget_of, fed_of, refusal_of, sink_of};
ghost use Rattle.nap_reader.specs.Stream.{begun};
ghost use Rattle.nap_find.specs.Readings.{IsExtent, IsReadTo, IsTried, find_budget, idle_limit, is_idle, is_page, nothing_drawn, reach, reads_and_draws};
ghost use Rattle.nap_find.specs.Shapes.{CountsDrawn};

use crate::drawn_sink::DrawnSink;
use crate::find::Asked;
use nap_reader::{Budget, Fault, Reader};
use std::alloc::{AllocError, Global};

/// The bytes of macro bodies that a reading may be charged.
const FIND_BUDGET: u32 = 65_536;

/// The bytes in which a page has drawn a shape, if it is longer.
pub(crate) const IDLE_LIMIT: usize = 8_192;

/// How far bytes are read.
#[derive(Clone, Copy, Drop)]
pub(crate) enum Extent {
    /// The first bytes, as many as the limit, draw no shape, and more follow.
    Idle,
    /// This many bytes are read, and the next one is refused.
    Refused(usize),
    /// All bytes are read. If they are accepted, whether they are a page.
    Whole(Option<bool>),
}

/// Returns the budget of a reading.
fn find_budget() -> Budget
    ensures { result ≡ find_budget }
{
    match Budget::new(FIND_BUDGET) {
        Some(budget) => budget,
        None => unreachable!(),
    }
}

/// Feeds a reader that has refused nothing, and returns the index of the byte that is refused, if one is.
fn refused_index(reader: &mut Reader<DrawnSink>, piece: &[u8]) -> Result<Option<usize>, AllocError>
    requires unrefused { refusal_of reader.old ≡ None }
    requires few { fed_of reader.old + length piece.now < 2 ^ 63 }
    requires budget { budget_of reader.old ≡ find_budget }
    ensures read { IfOk result (λ found. (s : DrawnSink) (p : List ℕ) → HasRead reader.old s p → IsReadTo (p ++ piece.now) found) }
    ensures has_read { (s : DrawnSink) (p : List ℕ) → HasRead reader.old s p → HasRead reader.new s (p ++ piece.now) }
    ensures unrefused { IfOk result (λ found. found ≡ None → refusal_of reader.new ≡ None) }
    ensures fed { IfOk result (λ found. found ≡ None → fed_of reader.new ≡ fed_of reader.old + length piece.now) }
    ensures budget { budget_of reader.new ≡ find_budget }
    ensures drawn { IfOk result (λ _. (s : DrawnSink) (p : List ℕ) → HasRead reader.old s p → CountsDrawn s (begun find_budget (p ++ piece.now)).entries (sink_of reader.new)) }
{
    match reader.feed(piece) {
        Ok(()) => Ok(None),
        Err(refusal) => match refusal.fault {
            Fault::Memory | Fault::Sink => Err(AllocError),
            _ => Ok(Some(reader.fed() as usize - 1)),
        },
    }
}

/// Whether an accepted stream of this length and with these counts is what is asked for.
fn is_enough(asked: &Asked, count: usize, counts: &DrawnSink) -> bool
    ensures enough { result ≡ (nat_le asked.now.bytes count && nat_le asked.now.entries counts.now.entries && nat_le asked.now.shapes counts.now.shapes) }
    ensures entries { asked.now.entries < 2 ^ 64 }
    ensures shapes { asked.now.shapes < 2 ^ 64 }
{
    let entries = asked.entries;
    let shapes = asked.shapes;
    count >= asked.bytes && counts.entries >= entries && counts.shapes >= shapes
}

/// Ends a reader that has read all bytes, and returns whether they are a page, if they are accepted.
fn tried(asked: &Asked, count: usize, reader: Reader<DrawnSink>) -> Result<Option<bool>, AllocError>
    requires { budget_of reader ≡ find_budget }
    ensures { IfOk result (λ found. (s : DrawnSink) (p : List ℕ) → s ≡ nothing_drawn → HasRead reader s p → length p ≡ count → IsTried asked.now p found) }
{
    match reader.finish() {
        Ok(counts) => Ok(Some(is_enough(asked, count, &counts))),
        Err(stopped) => match stopped.refusal.fault {
            Fault::Memory | Fault::Sink => Err(AllocError),
            _ => Ok(None),
        },
    }
}

/// Returns how far the bytes are read.
pub(crate) fn extent_of(alloc: Global, asked: &Asked, bytes: &[u8]) -> Result<Extent, AllocError>
    ensures { IfOk result (λ found. IsExtent asked.now bytes.now found) }
{
    let mut reader = Reader::new(alloc, find_budget(), DrawnSink::new());
    let count = bytes.len().min(IDLE_LIMIT);
    if let Some(index) = refused_index(&mut reader, &bytes[..count])? {
        return Ok(Extent::Refused(index));
    }
    if count == bytes.len() {
        let found = tried(asked, bytes.len(), reader)?;
        return Ok(Extent::Whole(found));
    }
    if reader.sink().shapes == 0 {
        return Ok(Extent::Idle);
    }
    if let Some(index) = refused_index(&mut reader, &bytes[count..])? {
        return Ok(Extent::Refused(index));
    }
    let found = tried(asked, bytes.len(), reader)?;
    Ok(Extent::Whole(found))
}

/// Whether so many of the bytes are read, and they or the further ones draw a shape.
#[tactic(auto, unfolding(crate::specs::Readings::reads_and_draws))]
pub(crate) fn reads_and_draws(alloc: Global, bytes: &[u8], least: usize) -> Result<bool, AllocError>
    requires { least ≤ length bytes.now }
    ensures { IfOk result (λ found. found ≡ reads_and_draws bytes.now least) }
{
    let mut reader = Reader::new(alloc, find_budget(), DrawnSink::new());
    if let Some(_) = refused_index(&mut reader, &bytes[..least])? {
        return Ok(false);
    }
    if reader.sink().shapes > 0 {
        return Ok(true);
    }
    refused_index(&mut reader, &bytes[least..])?;
    Ok(reader.sink().shapes > 0)
}

/// Returns whether the bytes are a page, if they are accepted.
pub(crate) fn try_page(
    alloc: Global,
    asked: &Asked,
    bytes: &[u8],
) -> Result<Option<bool>, AllocError>
    ensures { IfOk result (λ found. IsTried asked.now bytes.now found) }
{
    let mut reader = Reader::new(alloc, find_budget(), DrawnSink::new());
    refused_index(&mut reader, bytes)?;
    tried(asked, bytes.len(), reader)
}

/// Whether the bytes are a page.
pub(crate) fn is_page(alloc: Global, asked: &Asked, bytes: &[u8]) -> Result<bool, AllocError>
    ensures { IfOk result (λ found. found ≡ is_page asked.now bytes.now) }
{
    match try_page(alloc, asked, bytes)? {
        Some(found) => Ok(found),
        None => Ok(false),
    }
}
