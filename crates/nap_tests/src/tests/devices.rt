//! Devices that give and take a few bytes, and fail.
use super::givers::Giver;
use crate::devices::{End, Taker};
use nap_list::{DeviceFault, Inlet, Outlet, Source, Target};
use std::alloc::Global;
use std::io::{ErrorKind, Read, Write};
use std::process::Abort;

/// Two faults, which are reported in the same way.
const FAULTS: [ErrorKind; 2] = [ErrorKind::Other, ErrorKind::Interrupted];

const FAILED: Result<usize, DeviceFault> = Err(DeviceFault);

/// The result of a read, the room afterwards, the number of reads of the source, and whether it has failed.
type ReadRow = (Result<usize, DeviceFault>, [u8; 4], u64, bool);

/// Checks that each read in turn is as its row says, and returns the reader.
fn reads<R: Read + Drop>(rt: &impl Abort, reader: R, rows: &[ReadRow]) -> R {
    let mut room = [0; 4];
    let mut source = Source::new(reader);
    for row in rows {
        let answer = source.read(&mut room);
        let found = (answer, room, source.calls(), source.failed()) == *row;
        assert!(rt; found, "{row:?}");
    }
    source.into_inner()
}

/// Two bytes, and the end.
const WHOLE: &[ReadRow] = &[
    (Ok(2), [0x0E, 0x26, 0, 0], 1, false),
    (Ok(0), [0x0E, 0x26, 0, 0], 2, false),
];

/// A byte, a failure, a byte and the end.
const FALTERING: &[ReadRow] = &[
    (Ok(1), [1, 0, 0, 0], 1, false),
    (FAILED, [1, 0, 0, 0], 2, true),
    (Ok(1), [3, 0, 0, 0], 3, true),
    (Ok(0), [3, 0, 0, 0], 4, true),
];

#[test]
fn a_source_counts_its_reads_and_tells_a_failure(rt: HostRuntime) {
    let rest = reads(&rt, b"\x0E\x26".as_slice(), WHOLE);
    assert!(rt; rest.is_empty());
    for fault in FAULTS {
        let giver = Giver {
            fault,
            ..Giver::new(b"\x01\x03", 1, 2)
        };
        let giver = reads(&rt, giver, FALTERING);
        assert!(rt; giver.reads == 4);
    }
}

/// A piece to write, or none for a flush; the result of the call, and whether the target has failed afterwards.
type CallRow = (Option<&'static [u8]>, Result<usize, DeviceFault>, bool);

/// Checks that each call in turn is as its row says, and returns the writer.
fn takes<W: Write + Drop>(rt: &impl Abort, writer: W, rows: &[CallRow]) -> W {
    let mut target = Target::new(writer);
    for (piece, answer, failed) in rows {
        let took = match piece {
            Some(piece) => target.write(piece),
            None => match target.flush() {
                Ok(()) => Ok(0),
                Err(fault) => Err(fault),
            },
        };
        assert!(rt; took == *answer && target.failed() == *failed, "{piece:?}");
    }
    target.into_inner()
}

/// Two bytes, and a flush.
const TAKEN: &[CallRow] = &[
    (Some(b""), Ok(0), false),
    (Some(b"\x0E\x26"), Ok(2), false),
    (None, Ok(0), false),
];

#[test]
fn a_target_gives_its_bytes_to_the_writer(rt: HostRuntime) {
    let kept = takes(&rt, Vec::new(rt.alloc()), TAKEN);
    assert!(rt; kept.as_slice() == b"\x0E\x26".as_slice());
}

fn taker(alloc: Global, fault: ErrorKind) -> Taker {
    Taker {
        fault,
        good_flushes: 1,
        ..Taker::new(alloc, 1, 1, End::ClosesOnce)
    }
}

/// A target that took nothing has failed.
const CLOSED: &[CallRow] = &[
    (Some(b"\x0E\x26"), Ok(1), false),
    (Some(b"\x26"), FAILED, true),
    (Some(b"\x26"), FAILED, true),
];

/// A flush reaches the writer once.
const FLUSHED: &[CallRow] = &[(None, Ok(0), false), (None, FAILED, true)];

#[test]
fn a_target_tells_a_failure(rt: HostRuntime) {
    for fault in FAULTS {
        let closed = takes(&rt, taker(rt.alloc(), fault), CLOSED);
        let flushed = takes(&rt, taker(rt.alloc(), fault), FLUSHED);
        assert!(rt; (closed.writes, flushed.flushes) == (3, 2));
    }
}
