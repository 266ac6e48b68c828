//! A sink of canonical text whose writer fails.
use super::entries::{DOT, entry_of};
use crate::devices::{End, Taker};
use nap_canon::CanonSink;
use nap_list::{Entry, SinkFault, State, Target};
use std::alloc::Global;
use std::test::Fail;

/// Whether a sink over an outlet with space for `space` bytes, which takes at most `most` bytes at a write, fails at an
/// entry, and then again.
fn fails_twice(alloc: Global, entry: &Entry, space: usize, most: usize) -> bool {
    if !State::start().fits(entry) {
        return false;
    }
    let mut sink = CanonSink::new(Target::new(Taker::new(alloc, space, most, End::Fails)));
    let at_once = sink.failed() == (space < 3);
    let fails = sink.put_ref(entry) == Err(SinkFault::Write);
    if !fails || !at_once || (sink.failed(), sink.written()) != (true, space as u64) {
        return false;
    }
    let again = sink.put_ref(entry) == Err(SinkFault::Write);
    let stays = (sink.failed(), sink.written()) == (true, space as u64);
    let kept = sink.close().into_inner().kept;
    again && stays && kept.as_slice() == &b"\x0E!_&R"[..space.min(5)]
}

#[test]
fn a_failed_sink_stays_failed(rt: HostRuntime) -> Result<(), Fail> {
    let alloc = rt.alloc();
    let entry = entry_of(alloc, DOT)?;
    let fails = [
        fails_twice(alloc, &entry, 0, 64),
        fails_twice(alloc, &entry, 2, 64),
        fails_twice(alloc, &entry, 5, 64),
        fails_twice(alloc, &entry, 5, 1),
    ];
    assert!(rt; fails == [true; 4]);
    Ok(())
}
