//! Reading of a page from an input, without keeping its bytes.
ghost use Rattle.std.specs.Prelude.{◌≡◌, ◌+◌, ◌*◌, ◌^◌, ◌<◌, ◌≤◌, ℕ, List, [], None, false, length, ◌-◌};
ghost use Rattle.std.specs.Io.KnownBytes.{Consumes};
ghost use Rattle.nap_reader.specs.Names.{reading, reads_limit, start};
ghost use Rattle.nap_reader.specs.declared.feeding.FeedFault.TheVariants.{Refused};
ghost use Rattle.nap_reader.specs.Feeding.{FailsBy, Feeds};
ghost use Rattle.nap_reader.specs.ReaderAnswers.{HasRead, budget_of, fed_of, refusal_of, sink_of};
ghost use Rattle.nap_reader.specs.Collecting.{IsCollected, IsRead, IsDrained};

use crate::budget::Budget;
use crate::fault::Refusal;
use crate::reader::Reader;
use nap_list::{Inlet, READ_SIZE, READS, Sink};
use std::alloc::Global;
use thiserror::Error;

/// Why an input wasn't read to its end.
#[derive(Clone, Copy, PartialEq, Eq, Debug, Drop, Error)]
pub enum FeedFault {
    /// The stream is refused.
    #[error("{0}")]
    Refused(Refusal),
    /// A read failed, or there were as many reads as one input may have.
    #[error("the input failed")]
    Read,
}

impl From<Refusal> for FeedFault {
    ghost from_gives = { λ refusal e. e ≡ Refused refusal };

    fn from(refusal: Refusal) -> Self {
        FeedFault::Refused(refusal)
    }
}

/// Feeds a new reader all that an input gives, reading into `room`. Nothing is read after a refusal or a failed read.
pub fn feed_from<I: Inlet, S: Sink>(
    reader: &mut Reader<S>,
    input: &mut I,
    room: &mut [u8],
) -> Result<(), FeedFault>
    requires calls { I.calls input.old < 2 ^ 63 }
    requires new { fed_of reader.old ≡ 0 }
    requires unrefused { refusal_of reader.old ≡ None }
    requires room { 0 < length room.old }
    requires small { reads_limit * length room.old < 2 ^ 63 }
    ensures few { I.calls input.new ≤ I.calls input.old + reads_limit }
    ensures budget { budget_of reader.new ≡ budget_of reader.old }
    ensures more { I.calls input.old ≤ I.calls input.new }
    ensures feeds { (p : List ℕ) × Consumes (I.left input.old) (I.left input.new) p
        × ((s : S) → HasRead reader.old s [] → Feeds I.Inlet reader.old reader.new s p input.old input.new result) }
    ensures fails { S.failed (sink_of reader.old) ≡ false → FailsBy (S.failed (sink_of reader.new)) result }
{
    for _ in 0..READS {
        let Ok(count) = input.read(room) else {
            return Err(FeedFault::Read);
        };
        if count == 0 {
            return Ok(());
        }
        reader.feed(&room[..count])?;
    }
    Err(FeedFault::Read)
}

/// A read failed, or there were as many reads as one input may have.
#[derive(Clone, Copy, PartialEq, Eq, Drop)]
pub struct ReadFault;

/// Reads and drops the rest of the input, with at most `most` reads.
fn drain<I: Inlet>(input: &mut I, buffer: &mut [u8], most: u64) -> Result<(), ReadFault>
    requires calls { I.calls input.old + most < 2 ^ 64 - 1 }
    requires space { 0 < length buffer.old }
    ensures few { I.calls input.new ≤ I.calls input.old + most }
    ensures more { I.calls input.old ≤ I.calls input.new }
    ensures read { let seen = reading I.Inlet input.old input.new in
        (p : List ℕ) × Consumes (I.left input.old) (I.left input.new) p × IsDrained most p seen result }
{
    for _ in 0..most {
        let Ok(count) = input.read(buffer) else {
            return Err(ReadFault);
        };
        if count == 0 {
            return Ok(());
        }
    }
    Err(ReadFault)
}

/// Returns the sink with all entries of the page that an input gives, or the page's refusal. Reads all of the input.
pub fn read_input<I: Inlet, S: Sink + Drop>(
    alloc: Global,
    budget: Budget,
    input: &mut I,
    sink: S,
) -> Result<Result<S, Refusal>, ReadFault>
    requires calls { I.calls input.old < 2 ^ 63 }
    requires start { S.state sink ≡ start }
    requires works { S.failed sink ≡ false }
    ensures few { I.calls input.new ≤ I.calls input.old + reads_limit }
    ensures collected { let seen = reading I.Inlet input.old input.new in
        (p : List ℕ) × Consumes (I.left input.old) (I.left input.new) p × IsCollected S.Sink sink budget p seen result }
{
    let before = input.calls();
    let mut reader = Reader::new(alloc, budget, sink);
    let mut buffer = [0; READ_SIZE];
    match feed_from(&mut reader, input, &mut buffer) {
        Ok(()) => match reader.finish() {
            Ok(sink) => Ok(Ok(sink)),
            Err(stopped) => Ok(Err(stopped.refusal)),
        },
        Err(FeedFault::Read) => Err(ReadFault),
        // A failed read replaces a refusal.
        Err(FeedFault::Refused(refusal)) => {
            drain(input, &mut buffer, READS - (input.calls() - before))?;
            Ok(Err(refusal))
        }
    }
}

/// Returns the sink with all entries of a stream, or the stream's refusal.
pub fn read_stream<S: Sink + Drop>(
    alloc: Global,
    budget: Budget,
    stream: &[u8],
    sink: S,
) -> Result<S, Refusal>
    requires start { S.state sink ≡ start }
    requires works { S.failed sink ≡ false }
    ensures { IsRead S.Sink sink budget stream.now result }
{
    let mut reader = Reader::new(alloc, budget, sink);
    reader.feed(stream)?;
    match reader.finish() {
        Ok(sink) => Ok(sink),
        Err(stopped) => Err(stopped.refusal),
    }
}
