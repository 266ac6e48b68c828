//! Streams that are read into sinks with little space.
use crate::answer::{Answer, Cut, read_into};
use crate::report::Report;
use crate::row::{Row, Stop};
use nap_list::{Entry, SinkFault};
use nap_reader::{Fault, Reader, Refusal};
use nap_tests::faltering::Faltering;
use std::alloc::AllocError;

/// Returns the refusal for a fault of a sink at this place.
fn refusal_at(fault: SinkFault, place: u64) -> Refusal {
    let fault = match fault {
        SinkFault::Memory => Fault::Memory,
        SinkFault::Write => Fault::Sink,
    };
    Refusal { fault, place }
}

/// The number of entries that a sink has space for, and how it fails then; or a sink that has failed before.
#[derive(Clone, Copy, Drop)]
struct Limit {
    space: usize,
    fault: SinkFault,
    failed: bool,
}

/// Checks that a sink with this limit stops the reading of a stream in these pieces as wanted, and has these entries.
#[tactic(auto, unfolding(nap_list::specs::State::walk))]
fn check_stop(
    report: &mut Report,
    row: &Row<'_>,
    cut: Cut,
    limit: Limit,
    stop: Option<Stop>,
    list: &[Entry],
) {
    let fault = limit.fault;
    let sink = Faltering {
        failed: limit.failed,
        ..Faltering::new(report.alloc, limit.space, fault)
    };
    let reader = Reader::new(report.alloc, row.budget, sink);
    let (sink, answer) = read_into(report, reader, &row.stream, cut);
    let wanted = stop.map(|stop| refusal_at(fault, stop.place));
    report.check(answer.refusal == wanted, "it ends otherwise");
    if let Some(stop) = stop {
        let all = row.stream.len() as u64;
        report.same_count("fed", stop.fed.unwrap_or(all), answer.fed);
        report.same_count("turns", stop.turns.unwrap_or(all), answer.turns);
        report.check(answer.early == stop.fed.is_some(), "whether it stops early");
        report.check(sink.failed == (fault == SinkFault::Write), "how it stops");
    }
    let is_list = sink.list.into_list().as_slice() == list;
    report.check(is_list, "it has other entries");
}

/// Checks that a sink with this limit stops the reading as wanted, of the stream in one piece and byte by byte.
fn check_limit(
    report: &mut Report,
    row: &Row<'_>,
    limit: Limit,
    stop: Option<Stop>,
    list: &[Entry],
) {
    for cut in [Cut::Whole, Cut::Single(true)] {
        check_stop(report, row, cut, limit, stop, list);
    }
}

/// Checks that sinks for no entry, for one, for two and so on stop the reading as the row says, for lack of memory and
/// at their device. A sink that has failed stops it as one for no entry does, and a stream without entries isn't
/// stopped.
pub fn check_stops(report: &mut Report, row: &Row<'_>, answer: &Answer) -> Result<(), AllocError> {
    let stops = row.stops(report, "stops")?;
    if !stops.is_empty() || (answer.list.is_empty() && answer.refusal.is_none()) {
        report.try_now("over a sink that has failed", 1);
        let limit = Limit {
            space: 1,
            fault: SinkFault::Write,
            failed: true,
        };
        check_limit(report, row, limit, stops.first().copied(), &[]);
    }
    for (space, stop) in stops.iter().enumerate() {
        report.try_now("over a sink that takes", space);
        let list = answer.list.get(..space).unwrap_or(&[]);
        for fault in [SinkFault::Write, SinkFault::Memory] {
            let limit = Limit {
                space,
                fault,
                failed: false,
            };
            check_limit(report, row, limit, Some(*stop), list);
        }
    }
    Ok(())
}
