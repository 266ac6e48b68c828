//! Reading of a page into one sink, and, if it is accepted, into another.
ghost use Rattle.std.specs.Prelude.{◌≡◌, ◌+◌, [], None, false, IfErr, OnOk, ◌≢◌, ◌<◌, ◌^◌, Some, length, IfOk};
ghost use Rattle.nap_list.specs.State.{start};
ghost use Rattle.nap_reader.specs.Pieces.{HasMemory, Overcharges};
ghost use Rattle.nap_reader.specs.ReaderAnswers.{HasRead, budget_of, charged_of, fed_of, refusal_of, sink_of};
ghost use Rattle.nap_reader.specs.Stream.{begun, means};
ghost use Rattle.nap_reader.specs.Twice.{IsReadTwice, ReadsPage};
ghost use Rattle.nap_reader.specs.Breaking.{BreaksWithin};

use crate::budget::Budget;
use crate::fault::{Fault, Refusal};
use crate::reader::Reader;
use nap_list::{Entry, ListSink, Sink};
use std::alloc::Global;
use thiserror::Error;

/// Reads a whole stream, with a reader that has read nothing.
fn read_whole<S: Sink>(reader: &mut Reader<S>, stream: &[u8]) -> Result<(), Refusal>
    requires unread { fed_of reader.old ≡ 0 }
    requires unrefused { refusal_of reader.old ≡ None }
    ensures reads { (s : S) → HasRead reader.old s [] → ReadsPage S.Sink s (budget_of reader.old) stream.now (sink_of reader.new) result }
    ensures charged { OnOk result ((s : S) → HasRead reader.old s [] → charged_of reader.new + (begun (budget_of reader.old) stream.now).machine.left ≡ budget_of reader.old) }
    ensures lacks { IfErr result (λ r. r.fault ≡ Fault.Memory → HasMemory reader.old → Overcharges reader.old stream.now) }
{
    reader.feed(stream)?;
    reader.end()?;
    Ok(())
}

/// Why a page wasn't read twice.
#[derive(Clone, Copy, PartialEq, Eq, Debug, Drop, Error)]
pub enum TwiceFault {
    /// The stream is refused, or a reading broke.
    #[error("{0}")]
    Refused(Refusal),
    /// There was no memory for the second reading, which wasn't begun.
    #[error("no memory")]
    Memory,
}

/// Reads a stream into the first of these sinks and, if it is accepted, again into the second. The memory of the second
/// reading is reserved before it begins, so that it can only break at its sink. Returns the second sink, and the first one
/// if both took all entries.
#[inline(always)]
pub fn read_twice<S: Sink + Drop, T: Sink + Drop>(
    alloc: Global,
    budget: Budget,
    stream: &[u8],
    sinks: (S, T),
) -> (T, Result<S, TwiceFault>)
    requires start { S.state sinks.0 ≡ start }
    requires works { S.failed sinks.0 ≡ false }
    requires again { T.state sinks.1 ≡ start }
    ensures { IsReadTwice S.Sink T.Sink sinks.0 sinks.1 budget stream.now result.0 result.1 }
{
    let (first, second) = sinks;
    let mut reader = Reader::new(alloc, budget, first);
    if let Err(refusal) = read_whole(&mut reader, stream) {
        return (second, Err(TwiceFault::Refused(refusal)));
    }
    let (first, mut reader) = match reader.again(budget, second) {
        Ok(made) => made,
        Err((_, second)) => return (second, Err(TwiceFault::Memory)),
    };
    let read = read_whole(&mut reader, stream);
    let second = reader.into_sink();
    match read {
        Ok(()) => (second, Ok(first)),
        Err(refusal) => (second, Err(TwiceFault::Refused(refusal))),
    }
}

/// Returns the display list of a stream, or its refusal (PROFILE.md, How a stream is read).
#[tactic(auto, unfolding(nap_list::specs::State::walk))]
pub fn read_all(alloc: Global, budget: Budget, bytes: &[u8]) -> Result<Vec<Entry>, Refusal>
    requires { length bytes.now < 2 ^ 63 }
    ensures accepted { IfOk result (λ list. (means budget bytes.now).refusal ≡ None) }
    ensures list { IfOk result (λ list. list.items ≡ (means budget bytes.now).entries) }
    ensures refused { IfErr result (λ r. r.fault ≢ Fault.Memory → (means budget bytes.now).refusal ≡ Some r) }
    // Lack of memory has the place of a byte that was read, or of the opcode that acted there or at the end.
    ensures breaks { IfErr result (λ r. r.fault ≡ Fault.Memory → BreaksWithin budget bytes.now r.place) }
{
    let mut reader = Reader::new(alloc, budget, ListSink::new(alloc));
    reader.feed(bytes)?;
    match reader.finish() {
        Ok(sink) => Ok(sink.into_list()),
        Err(stopped) => Err(stopped.refusal),
    }
}
