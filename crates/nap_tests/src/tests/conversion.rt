//! Conversions of inputs that give little at a read or fail, into outputs that take little at a write or fail.
use super::givers::{Giver, Nuls};
use crate::devices::{End, Taker};
use nap_canon::{ConvertFault, convert, normalise};
use nap_list::{Inlet, Source, Target};
use nap_reader::{Budget, Fault, Refusal};
use std::alloc::{AllocError, Global};
use std::io::Read;
use std::test::Fail;

/// A point in the middle, and its canonical stream.
const POINT: &[u8] = b"\x0E\x26\x52\x40\x40";

const CANONICAL: &[u8] = b"\x0E\x21\x5F\x26\x52\x40\x40\x40\x40\x40\x40\x40";

/// The point, and an opcode whose operand is missing.
const MISSING: &[u8] = b"\x0E\x26\x52\x0E\x24";

/// The point, and a hundred NULs.
const LONG: &[u8] = b"\x0E\x26\x52\x40\x40\
\0\0\0\0\0\0\0\0\0\0\0\0\0\0\0\0\0\0\0\0\0\0\0\0\0\0\0\0\0\0\0\0\0\0\0\0\0\0\0\0\0\0\0\0\0\0\0\0\0\0\
\0\0\0\0\0\0\0\0\0\0\0\0\0\0\0\0\0\0\0\0\0\0\0\0\0\0\0\0\0\0\0\0\0\0\0\0\0\0\0\0\0\0\0\0\0\0\0\0\0\0\
";

/// The point, with a hundred NULs before it and after it.
const LATE: &[u8] = b"\
\0\0\0\0\0\0\0\0\0\0\0\0\0\0\0\0\0\0\0\0\0\0\0\0\0\0\0\0\0\0\0\0\0\0\0\0\0\0\0\0\0\0\0\0\0\0\0\0\0\0\
\0\0\0\0\0\0\0\0\0\0\0\0\0\0\0\0\0\0\0\0\0\0\0\0\0\0\0\0\0\0\0\0\0\0\0\0\0\0\0\0\0\0\0\0\0\0\0\0\0\0\
\x0E\x26\x52\x40\x40\
\0\0\0\0\0\0\0\0\0\0\0\0\0\0\0\0\0\0\0\0\0\0\0\0\0\0\0\0\0\0\0\0\0\0\0\0\0\0\0\0\0\0\0\0\0\0\0\0\0\0\
\0\0\0\0\0\0\0\0\0\0\0\0\0\0\0\0\0\0\0\0\0\0\0\0\0\0\0\0\0\0\0\0\0\0\0\0\0\0\0\0\0\0\0\0\0\0\0\0\0\0\
";

/// The point by a macro of three bytes.
const MACRO: &[u8] = b"\x1B\x40\x21\x0E\x26\x52\x1B\x45\x1B\x2F\x7A\x1D\x21\x40\x40";

const NO_OPERAND: ConvertFault = ConvertFault::Refused {
    refusal: Refusal {
        fault: Fault::Missing,
        place: 4,
    },
    written: 12,
};

const TOO_MUCH: ConvertFault = ConvertFault::Refused {
    refusal: Refusal {
        fault: Fault::Budget,
        place: 12,
    },
    written: 3,
};

/// A conversion, its devices, and what it leaves.
#[derive(Clone, Copy, Drop)]
struct Row {
    input: &'static [u8],
    budget: u32,
    /// The number of bytes of a read, and which read fails.
    gives: (usize, u64),
    /// The space of the output, and the number of bytes of a write.
    takes: (usize, usize),
    end: End,
    /// The number of flushes that are done.
    good_flushes: u64,
    answer: Result<u64, ConvertFault>,
    /// The number of bytes of the canonical stream that are written.
    kept: usize,
    flushes: u64,
    /// The number of reads and of writes, if the row says so.
    calls: Option<u64>,
    writes: Option<u64>,
}

/// The conversion of the point.
const USUAL: Row = Row {
    input: POINT,
    budget: Budget::USUAL,
    gives: (64, 0),
    takes: (usize::MAX, usize::MAX),
    end: End::Fails,
    good_flushes: u64::MAX,
    answer: Ok(12),
    kept: 12,
    flushes: 1,
    calls: None,
    writes: None,
};

const ROWS: &[Row] = &[
    // A stream is read and written in pieces of any size.
    Row {
        input: b"\x0E\x26\x52",
        gives: (64, 0),
        takes: (64, 64),
        ..USUAL
    },
    Row {
        input: b"\x0E\x26\x52",
        gives: (1, 0),
        takes: (64, 64),
        ..USUAL
    },
    Row {
        input: b"\x0E\x26\x52",
        gives: (64, 0),
        takes: (64, 1),
        ..USUAL
    },
    Row {
        input: b"\x0E\x26\x52",
        gives: (1, 0),
        takes: (64, 1),
        ..USUAL
    },
    Row {
        input: b"\x0E\x26\x52",
        gives: (2, 0),
        takes: (64, 5),
        ..USUAL
    },
    Row {
        input: POINT,
        gives: (64, 0),
        takes: (64, 64),
        ..USUAL
    },
    Row {
        input: POINT,
        gives: (1, 0),
        takes: (64, 64),
        ..USUAL
    },
    Row {
        input: POINT,
        gives: (64, 0),
        takes: (64, 1),
        ..USUAL
    },
    Row {
        input: POINT,
        gives: (1, 0),
        takes: (64, 1),
        ..USUAL
    },
    Row {
        input: POINT,
        gives: (2, 0),
        takes: (64, 5),
        ..USUAL
    },
    // The entries before a refusal are written.
    Row {
        input: MISSING,
        gives: (64, 0),
        takes: (64, 64),
        answer: Err(NO_OPERAND),
        ..USUAL
    },
    Row {
        input: MISSING,
        gives: (1, 0),
        takes: (64, 64),
        answer: Err(NO_OPERAND),
        ..USUAL
    },
    Row {
        input: MISSING,
        gives: (64, 0),
        takes: (64, 1),
        answer: Err(NO_OPERAND),
        ..USUAL
    },
    Row {
        input: MISSING,
        gives: (1, 0),
        takes: (64, 1),
        answer: Err(NO_OPERAND),
        ..USUAL
    },
    Row {
        input: MISSING,
        gives: (2, 0),
        takes: (64, 5),
        answer: Err(NO_OPERAND),
        ..USUAL
    },
    // A failed flush is a write fault.
    Row {
        input: POINT,
        gives: (1, 0),
        good_flushes: 0,
        answer: Err(ConvertFault::Write { written: 12 }),
        ..USUAL
    },
    Row {
        input: MISSING,
        gives: (1, 0),
        good_flushes: 0,
        answer: Err(ConvertFault::Write { written: 12 }),
        ..USUAL
    },
    Row {
        input: POINT,
        gives: (1, 3),
        good_flushes: 0,
        answer: Err(ConvertFault::Write { written: 3 }),
        kept: 3,
        ..USUAL
    },
    // What was read is written before more is read, and nothing is read or flushed after a failed write.
    Row {
        input: LONG,
        gives: (1, 0),
        takes: (0, 64),
        answer: Err(ConvertFault::Write { written: 0 }),
        kept: 0,
        flushes: 0,
        calls: Some(0),
        ..USUAL
    },
    Row {
        input: LONG,
        gives: (1, 0),
        takes: (2, 64),
        answer: Err(ConvertFault::Write { written: 2 }),
        kept: 2,
        flushes: 0,
        calls: Some(0),
        ..USUAL
    },
    Row {
        input: LONG,
        gives: (1, 0),
        takes: (3, 64),
        answer: Err(ConvertFault::Write { written: 3 }),
        kept: 3,
        flushes: 0,
        calls: Some(6),
        ..USUAL
    },
    Row {
        input: LONG,
        gives: (1, 0),
        takes: (11, 64),
        answer: Err(ConvertFault::Write { written: 11 }),
        kept: 11,
        flushes: 0,
        calls: Some(6),
        ..USUAL
    },
    Row {
        input: LONG,
        gives: (2, 0),
        takes: (3, 64),
        answer: Err(ConvertFault::Write { written: 3 }),
        kept: 3,
        flushes: 0,
        calls: Some(3),
        ..USUAL
    },
    Row {
        input: LATE,
        gives: (64, 0),
        takes: (3, 64),
        answer: Err(ConvertFault::Write { written: 3 }),
        kept: 3,
        flushes: 0,
        calls: Some(2),
        ..USUAL
    },
    // Any read may fail. An opcode whose operands may continue isn't executed then.
    Row {
        input: POINT,
        gives: (1, 1),
        answer: Err(ConvertFault::Read { written: 3 }),
        kept: 3,
        calls: Some(1),
        ..USUAL
    },
    Row {
        input: POINT,
        gives: (1, 2),
        answer: Err(ConvertFault::Read { written: 3 }),
        kept: 3,
        calls: Some(2),
        ..USUAL
    },
    Row {
        input: POINT,
        gives: (1, 3),
        answer: Err(ConvertFault::Read { written: 3 }),
        kept: 3,
        calls: Some(3),
        ..USUAL
    },
    Row {
        input: POINT,
        gives: (1, 4),
        answer: Err(ConvertFault::Read { written: 3 }),
        kept: 3,
        calls: Some(4),
        ..USUAL
    },
    Row {
        input: POINT,
        gives: (1, 5),
        answer: Err(ConvertFault::Read { written: 3 }),
        kept: 3,
        calls: Some(5),
        ..USUAL
    },
    Row {
        input: POINT,
        gives: (1, 6),
        answer: Err(ConvertFault::Read { written: 3 }),
        kept: 3,
        calls: Some(6),
        ..USUAL
    },
    // A body is charged to the budget.
    Row {
        input: MACRO,
        budget: 2,
        gives: (1, 0),
        answer: Err(TOO_MUCH),
        kept: 3,
        ..USUAL
    },
    Row {
        input: MACRO,
        budget: 3,
        gives: (1, 0),
        ..USUAL
    },
];

/// What a conversion leaves.
#[derive(Drop)]
struct Left {
    output: Taker,
    answer: Result<u64, ConvertFault>,
    calls: u64,
}

impl Left {
    /// Whether it is what the row says.
    fn is(&self, row: &Row) -> bool {
        let Left {
            output,
            answer,
            calls,
        } = self;
        *answer == row.answer
            && output.kept.as_slice() == &CANONICAL[..row.kept.min(12)]
            && output.flushes == row.flushes
            && *calls == row.calls.unwrap_or(*calls)
            && output.writes == row.writes.unwrap_or(output.writes)
    }
}

/// Converts what this reader gives.
fn converted<R: Read + Drop>(alloc: Global, row: &Row, reader: R) -> Left {
    let budget = Budget::new(row.budget).unwrap_or(Budget::usual());
    let taker = Taker {
        good_flushes: row.good_flushes,
        ..Taker::new(alloc, row.takes.0, row.takes.1, row.end)
    };
    let mut input = Source::new(reader);
    let (output, answer) = convert(alloc, &mut input, Target::new(taker), budget);
    Left {
        output: output.into_inner(),
        answer,
        calls: input.calls(),
    }
}

/// Whether a conversion from this reader leaves what the row says.
fn leaves<R: Read + Drop>(alloc: Global, row: &Row, reader: R) -> bool {
    converted(alloc, row, reader).is(row)
}

#[test]
fn conversions_end_as_their_devices_let_them(rt: HostRuntime) {
    let mut number: u64 = 0;
    for row in ROWS {
        number = number.wrapping_add(1);
        let giver = Giver::new(row.input, row.gives.0, row.gives.1);
        assert!(rt; leaves(rt.alloc(), row, giver), "row {number}");
    }
}

// After a failed write, no more is written or flushed.
#[test]
fn any_write_may_fail(rt: HostRuntime) {
    for (input, end) in [
        (POINT, End::Fails),
        (POINT, End::Closes),
        (MISSING, End::Fails),
        (MISSING, End::Closes),
    ] {
        for space in 0..12_u8 {
            let written = u64::from(space);
            let row = Row {
                takes: (usize::from(space), 1),
                end,
                answer: Err(ConvertFault::Write { written }),
                kept: usize::from(space),
                flushes: 0,
                writes: Some(written.saturating_add(1)),
                ..USUAL
            };
            let giver = Giver::new(input, 64, 0);
            assert!(rt; leaves(rt.alloc(), &row, giver), "with space for {space}");
        }
    }
}

/// As many reads as a conversion may make, the last of which doesn't find the end.
const ENDLESS: Row = Row {
    answer: Err(ConvertFault::Read { written: 3 }),
    kept: 3,
    calls: Some(1_048_576),
    ..USUAL
};

// The last of the reads that a conversion may make has to find the end.
#[test]
fn an_endless_input_is_a_read_fault(rt: HostRuntime) {
    let row = Row {
        answer: Ok(3),
        ..ENDLESS
    };
    let ends = leaves(rt.alloc(), &row, Nuls::new(1_048_575, 1));
    let fails = leaves(rt.alloc(), &ENDLESS, Nuls::new(1_048_576, 1));
    assert!(rt; ends && fails);
}

/// Appends copies of a piece.
fn repeat(bytes: &mut Vec<u8>, piece: &[u8], count: usize) -> Result<(), AllocError> {
    for _ in 0..count {
        bytes.extend_from_slice(piece)?;
    }
    Ok(())
}

/// Returns 5,000 points of one run.
fn many_points(alloc: Global) -> Result<Vec<u8>, AllocError> {
    let mut bytes = Vec::from_slice(alloc, b"\x0E\x26")?;
    repeat(&mut bytes, &POINT[2..], 5_000)?;
    Ok(bytes)
}

/// Returns their canonical stream, in runs of at most 2,048 points.
fn text_of_many_points(alloc: Global) -> Result<Vec<u8>, AllocError> {
    let mut text = Vec::from_slice(alloc, b"\x0E\x21\x5F")?;
    for count in [2_048, 2_048, 904] {
        text.push(0x26)?;
        repeat(&mut text, &CANONICAL[4..], count)?;
    }
    Ok(text)
}

/// Whether a conversion writes this text, from an input that gives so many bytes at a read.
fn writes(alloc: Global, bytes: &[u8], text: &[u8], most: usize) -> bool {
    let mut input = Source::new(Giver::new(bytes, most, 0));
    let output = Target::new(Taker::wide(alloc));
    let (output, answer) = convert(alloc, &mut input, output, Budget::usual());
    let taker = output.into_inner();
    answer == Ok(40_006) && taker.flushes == 1 && taker.kept.as_slice() == text
}

#[test]
fn a_stream_may_be_longer_than_a_read(rt: HostRuntime) -> Result<(), Fail> {
    let alloc = rt.alloc();
    let (bytes, text) = (many_points(alloc)?, text_of_many_points(alloc)?);
    let found = normalise(alloc, Budget::usual(), &bytes);
    assert!(rt; found.is_ok_and(|found| found == text));
    for most in [1, 7, bytes.len()] {
        assert!(rt; writes(alloc, &bytes, &text, most), "by {most}");
    }
    Ok(())
}
