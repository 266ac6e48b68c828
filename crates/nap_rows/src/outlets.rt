//! Streams whose canonical text is written to outlets with little space.
use crate::answer::{Cut, read_into};
use crate::report::Report;
use crate::row::{Row, Stop};
use nap_canon::CanonSink;
use nap_list::Target;
use nap_reader::{Fault, Reader, Refusal};
use nap_tests::devices::{End, Taker};
use std::alloc::AllocError;

/// Longer texts are written only to outlets with space for all of it.
const LONG: usize = 1_024;

/// Writes the text to an outlet with space for `space` bytes, which takes at most `most` bytes at a write, and checks
/// that it took all that it has space for, and where the reading stops.
fn check_outlet(
    report: &mut Report,
    row: &Row<'_>,
    text: &[u8],
    space: usize,
    most: usize,
    stop: Option<Stop>,
) {
    let taker = Taker::new(report.alloc, space, most, End::Fails);
    let reader = Reader::new(report.alloc, row.budget, CanonSink::new(Target::new(taker)));
    let (sink, answer) = read_into(report, reader, &row.stream, Cut::Whole);
    let (failed, written) = (sink.failed(), sink.written());
    let Taker { kept, flushes, .. } = sink.close().into_inner();
    let prefix = text.get(..space).unwrap_or(text);
    report.check(kept.as_slice() == prefix, "it has other bytes");
    report.same_count("written", prefix.len() as u64, written);
    report.same_count("flushes", 0, flushes);
    report.check(failed == (space < text.len()), "whether it failed");
    let wanted = match stop {
        Some(Stop { place, .. }) => Some(Refusal {
            fault: Fault::Sink,
            place,
        }),
        None if failed => answer.refusal,
        None => None,
    };
    report.check(answer.refusal == wanted, "it ends otherwise");
}

/// Checks that outlets with any space take the text, or as much of it as they have space for.
pub fn check_outlets(report: &mut Report, row: &Row<'_>, text: &[u8]) -> Result<(), AllocError> {
    for most in [1, 2, 3, 5, 64, 4_096] {
        report.try_now("into an outlet that takes at a write", most);
        check_outlet(report, row, text, usize::MAX, most, None);
    }
    let breaks = row.stops(report, "breaks")?;
    if text.len() > LONG {
        return Ok(());
    }
    for space in 0..text.len() {
        report.try_now("into an outlet with room for", space);
        for most in [1, 3, 5, 100] {
            check_outlet(report, row, text, space, most, breaks.get(space).copied());
        }
    }
    Ok(())
}
