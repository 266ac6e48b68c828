//! Conversion of a stream to its canonical stream as it is read (PROFILE.md, Streaming).
ghost use Rattle.std.specs.Prelude.{◌≡◌, ◌+◌, ◌^◌, ◌<◌, ◌≤◌, ℕ, List, true, false, ◌≢◌, ◌↔◌, Some, length, IfOk, IfErr};
ghost use Rattle.std.specs.Io.KnownBytes.{Appends, Consumes};
ghost use Rattle.nap_canon.specs.Names.{FlushedOnce, means, reading, reads_limit};
ghost use Rattle.nap_canon.specs.Converting.{Converts, StopsAtOnce};
ghost use Rattle.nap_canon.specs.Concluding.{Concludes, EndsOutput};
ghost use Rattle.nap_canon.specs.Laws.{IsReadAs};
ghost use Rattle.nap_canon.specs.Plain.{IsPlain};
ghost use Rattle.nap_canon.specs.Streams.{list_of, IsCanonicalOf, LacksMemoryAt};

use crate::canon_sink::CanonSink;
use crate::text::page_text;
use nap_list::{CountSink, Inlet, Outlet, STREAM_READ_SIZE};
use nap_reader::{Budget, Fault, FeedFault, Reader, Refusal, feed_from, read_stream};
use std::alloc::{AllocError, Global};
use thiserror::Error;

/// Why a stream wasn't converted to its end, and how many bytes the output took before, saturating at the greatest
/// `u64`.
#[derive(Clone, Copy, PartialEq, Eq, Debug, Drop, Error)]
pub enum ConvertFault {
    /// The stream is refused. The text of the entries before the refusal is written.
    #[error("{refusal}, once {written} bytes were written")]
    Refused {
        /// The refusal.
        refusal: Refusal,
        /// The number of bytes that the output took.
        written: u64,
    },
    /// A read failed, or there were as many reads as one input may have. The text of the entries so far is written.
    #[error("the input failed, once {written} bytes were written")]
    Read {
        /// The number of bytes that the output took.
        written: u64,
    },
    /// A write or the flush failed.
    #[error("the output failed, once it had taken {written} bytes")]
    Write {
        /// The number of bytes that the output took.
        written: u64,
    },
}

/// Flushes the output, unless a write has failed, and returns it with the answer.
fn conclude<O: Outlet + Drop>(
    sink: CanonSink<O>,
    fed: Result<(), FeedFault>,
) -> (O, Result<u64, ConvertFault>)
    ensures ends { EndsOutput O.Outlet sink.outlet result.0 }
    ensures answer { Concludes sink.written fed (O.failed result.0) result.1 }
{
    let (output, ended) = sink.finish();
    let answer = match ended {
        Err(written) => Err(ConvertFault::Write { written }),
        Ok(written) => match fed {
            Ok(()) => Ok(written),
            Err(FeedFault::Refused(refusal)) => Err(ConvertFault::Refused { refusal, written }),
            Err(FeedFault::Read) => Err(ConvertFault::Read { written }),
        },
    };
    (output, answer)
}

/// Writes the canonical stream of what the input gives, as it is read, and flushes the output. Returns the output, and
/// the number of bytes that it took. Keeps no entry, so its memory doesn't grow with the stream (PROFILE.md,
/// Streaming).
pub fn convert<I: Inlet, O: Outlet + Drop>(
    alloc: Global,
    input: &mut I,
    output: O,
    budget: Budget,
) -> (O, Result<u64, ConvertFault>)
    requires calls { I.calls input.old < 2 ^ 63 }
    requires works { O.failed output ≡ false }
    ensures few { I.calls input.new ≤ I.calls input.old + reads_limit }
    ensures sent { O.failed result.0 ≡ false → O.sent result.0 ≡ true }
    ensures converts { let seen = reading I.Inlet input.old input.new in
        (p : List ℕ) × (q : List ℕ) × Consumes (I.left input.old) (I.left input.new) p × Appends (O.taken output) (O.taken result.0) q
        × Converts budget p seen q (O.failed result.0) result.1
        × StopsAtOnce I.Inlet budget p input.old input.new q
        × FlushedOnce O.Outlet output result.0 }
{
    let mut reader = Reader::new(alloc, budget, CanonSink::new(output));
    if reader.sink().failed() {
        return conclude(reader.into_sink(), Ok(()));
    }
    match feed_from(&mut reader, input, &mut [0; STREAM_READ_SIZE]) {
        Ok(()) => match reader.finish() {
            Ok(sink) => conclude(sink, Ok(())),
            Err(stopped) => conclude(stopped.sink, Err(FeedFault::Refused(stopped.refusal))),
        },
        Err(fault) => conclude(reader.into_sink(), Err(fault)),
    }
}

/// Returns the refusal of a stream whose text lacks memory: that of the stream, or else Memory at its end.
fn refusal_or_memory(alloc: Global, budget: Budget, bytes: &[u8]) -> Refusal
    ensures refused { result.fault ≢ Fault.Memory → (means budget bytes.now).refusal ≡ Some result }
    ensures memory { result.fault ≡ Fault.Memory → LacksMemoryAt budget bytes.now result.place }
{
    match read_stream(alloc, budget, bytes, CountSink::new()) {
        Ok(_) => Refusal {
            fault: Fault::Memory,
            place: bytes.len() as u64,
        },
        Err(refusal) => refusal,
    }
}

/// Returns the canonical stream of a stream: the canonical text of its display list. Lack of memory for the text is
/// refused as Memory where the text is written, or at the end of the stream (PROFILE.md, Canonical text).
pub fn normalise(alloc: Global, budget: Budget, bytes: &[u8]) -> Result<Vec<u8>, Refusal>
    requires { length bytes.now < 2 ^ 63 }
    ensures canonical { IfOk result (λ c. IsCanonicalOf budget c.items bytes.now) }
    ensures plain { IfOk result (λ c. IsPlain c.items) }
    // The result is accepted with the same list, under any budget, and is its own canonical stream.
    ensures read_again { IfOk result (λ c. (other : ℕ) → IsReadAs other c.items (list_of budget bytes.now)) }
    ensures own { IfOk result (λ c. (other : ℕ) → IsCanonicalOf other c.items c.items) }
    // The result equals another canonical stream exactly if the display lists are equal.
    ensures equal { IfOk result (λ c. (other : ℕ) (d q : List ℕ) → IsCanonicalOf other d q →
        (c.items ≡ d) ↔ (list_of budget bytes.now ≡ list_of other q)) }
    ensures refused { IfErr result (λ r. r.fault ≢ Fault.Memory → (means budget bytes.now).refusal ≡ Some r) }
    ensures memory { IfErr result (λ r. r.fault ≡ Fault.Memory → LacksMemoryAt budget bytes.now r.place) }
{
    match page_text(alloc, budget, bytes) {
        Ok(Ok(found)) => Ok(found.text),
        Ok(Err(refusal)) => Err(refusal),
        Err(AllocError) => Err(refusal_or_memory(alloc, budget, bytes)),
    }
}
