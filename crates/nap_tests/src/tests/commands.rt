//! Commands on inputs and outputs that fail, give and take little at a call, and count their calls.
use super::givers::{Giver, Nuls};
use crate::devices::{End, Taker};
use nap_command::{Action, Command, Failure, execute, write_whole};
use nap_list::{Source, Target};
use nap_reader::Budget;
use std::alloc::Global;
use std::io::Read;

const POINT: &[u8] = b"\x0E\x26\x52";

const POINT_TEXT: &[u8] = b"\x0E\x21\x5F\x26\x52\x40\x40\x40\x40\x40\x40\x40";

const REFUSED: &[u8] = b"refused 1 EighthBit at 0\n";

const ALL: usize = usize::MAX;

/// A command, its input, its devices, and how it ends.
#[derive(Clone, Copy, Drop)]
struct Row {
    action: Action,
    hex: bool,
    stream: bool,
    budget: Option<u32>,
    input: &'static [u8],
    /// The number of bytes of a read, and which read fails.
    gives: (usize, u64),
    /// The space of the output, and the number of bytes of a write.
    takes: (usize, usize),
    end: End,
    good_flushes: u64,
    /// The space of standard error. It takes a byte at a write, unless it takes all.
    error_space: usize,
    /// What is printed.
    out: &'static [u8],
    /// What is reported.
    reported: &'static [u8],
    status: u8,
    /// The number of reads, if the row says so.
    reads: Option<u64>,
    /// The number of flushes of the output and of standard error, if the row says so.
    flushes: Option<(u64, u64)>,
}

/// `check` of nothing.
const USUAL: Row = Row {
    action: Action::Check,
    hex: false,
    stream: false,
    budget: None,
    input: b"",
    gives: (ALL, 0),
    takes: (ALL, ALL),
    end: End::Fails,
    good_flushes: u64::MAX,
    error_space: ALL,
    out: b"",
    reported: b"",
    status: 0,
    reads: None,
    flushes: None,
};

const LIST: Row = Row {
    action: Action::List,
    ..USUAL
};

const CANON: Row = Row {
    action: Action::Canon,
    ..USUAL
};

const POINT_LINE: &[u8] = b"POINT 4194304,4194304 pel=0,0 colour=own-start\n";

/// The point, and characters after it.
const PAGE: &[u8] = b"\x0E\x26\x52\x40\x40\x00\x00\x00";

const ROWS: &[Row] = &[
    // A failed output is a write fault.
    Row {
        input: POINT,
        takes: (5, 1),
        out: b"\x0E\x21\x5F\x26\x52",
        reported: b"write fault after 5 bytes\n",
        status: 3,
        ..CANON
    },
    Row {
        input: POINT,
        takes: (0, 1),
        end: End::Closes,
        reported: b"write fault after 0 bytes\n",
        status: 3,
        ..CANON
    },
    Row {
        input: POINT,
        takes: (5, 1),
        end: End::Closes,
        out: b"POINT",
        reported: b"write fault after 5 bytes\n",
        status: 3,
        ..LIST
    },
    Row {
        takes: (5, 1),
        good_flushes: 0,
        reported: b"write fault after 0 bytes\n",
        status: 3,
        ..LIST
    },
    Row {
        input: POINT,
        takes: (8, 1),
        out: b"accepted",
        reported: b"write fault after 8 bytes\n",
        status: 3,
        ..USUAL
    },
    Row {
        input: b"\x80",
        takes: (7, 1),
        out: b"refused",
        reported: b"write fault after 7 bytes\n",
        status: 3,
        ..USUAL
    },
    Row {
        input: b"\x80",
        takes: (7, 1),
        good_flushes: 0,
        reported: b"write fault after 0 bytes\n",
        status: 3,
        ..LIST
    },
    Row {
        input: b"\x80",
        takes: (7, 1),
        good_flushes: 0,
        reported: b"write fault after 0 bytes\n",
        status: 3,
        ..CANON
    },
    // An output that fails only later takes all.
    Row {
        input: POINT,
        takes: (12, 1),
        out: POINT_TEXT,
        ..CANON
    },
    Row {
        takes: (19, 1),
        out: b"accepted 0 entries\n",
        ..USUAL
    },
    Row {
        input: b"\x80",
        takes: (0, 1),
        reported: REFUSED,
        status: 1,
        ..LIST
    },
    // A failed read isn't repeated, wherever it comes, although the bytes after it would make a page.
    Row {
        input: POINT,
        gives: (1, 1),
        reported: b"read fault\n",
        status: 3,
        reads: Some(1),
        ..LIST
    },
    Row {
        input: POINT,
        gives: (1, 2),
        reported: b"read fault\n",
        status: 3,
        reads: Some(2),
        ..LIST
    },
    Row {
        input: POINT,
        gives: (1, 3),
        reported: b"read fault\n",
        status: 3,
        reads: Some(3),
        ..LIST
    },
    Row {
        input: POINT,
        gives: (1, 4),
        reported: b"read fault\n",
        status: 3,
        reads: Some(4),
        ..LIST
    },
    Row {
        input: POINT,
        gives: (1, 1),
        reported: b"read fault\n",
        status: 3,
        reads: Some(1),
        ..USUAL
    },
    Row {
        input: POINT,
        gives: (1, 2),
        reported: b"read fault\n",
        status: 3,
        reads: Some(2),
        ..USUAL
    },
    Row {
        input: POINT,
        gives: (1, 3),
        reported: b"read fault\n",
        status: 3,
        reads: Some(3),
        ..USUAL
    },
    Row {
        input: POINT,
        gives: (1, 4),
        reported: b"read fault\n",
        status: 3,
        reads: Some(4),
        ..USUAL
    },
    Row {
        input: POINT,
        gives: (1, 1),
        reported: b"read fault\n",
        status: 3,
        reads: Some(1),
        ..CANON
    },
    Row {
        input: POINT,
        gives: (1, 2),
        reported: b"read fault\n",
        status: 3,
        reads: Some(2),
        ..CANON
    },
    Row {
        input: POINT,
        gives: (1, 3),
        reported: b"read fault\n",
        status: 3,
        reads: Some(3),
        ..CANON
    },
    Row {
        input: POINT,
        gives: (1, 4),
        reported: b"read fault\n",
        status: 3,
        reads: Some(4),
        ..CANON
    },
    // After a refusal the rest is read all the same, and a read that fails there is reported instead.
    Row {
        input: b"\x80\x0E\x26",
        gives: (1, 3),
        reported: b"read fault\n",
        status: 3,
        reads: Some(3),
        ..LIST
    },
    Row {
        input: b"\x80\x0E\x26",
        gives: (1, 4),
        reported: b"read fault\n",
        status: 3,
        reads: Some(4),
        ..LIST
    },
    Row {
        input: b"\x80\x0E\x26",
        gives: (1, 100),
        reported: REFUSED,
        status: 1,
        reads: Some(4),
        ..LIST
    },
    Row {
        input: b"\x80\x0E\x26",
        gives: (1, 3),
        reported: b"read fault\n",
        status: 3,
        reads: Some(3),
        ..USUAL
    },
    Row {
        input: b"\x80\x0E\x26",
        gives: (1, 4),
        reported: b"read fault\n",
        status: 3,
        reads: Some(4),
        ..USUAL
    },
    Row {
        input: b"\x80\x0E\x26",
        gives: (1, 100),
        out: REFUSED,
        status: 1,
        reads: Some(4),
        ..USUAL
    },
    Row {
        input: b"\x80\x0E\x26",
        gives: (1, 3),
        reported: b"read fault\n",
        status: 3,
        reads: Some(3),
        ..CANON
    },
    Row {
        input: b"\x80\x0E\x26",
        gives: (1, 4),
        reported: b"read fault\n",
        status: 3,
        reads: Some(4),
        ..CANON
    },
    Row {
        input: b"\x80\x0E\x26",
        gives: (1, 100),
        reported: REFUSED,
        status: 1,
        reads: Some(4),
        ..CANON
    },
    // A failed standard error changes no status. It takes three bytes. The last input gives a byte and then fails.
    Row {
        hex: true,
        takes: (100, 1),
        error_space: 3,
        out: b"accepted 0 entries\n",
        status: 0,
        ..USUAL
    },
    Row {
        hex: true,
        input: b"80",
        takes: (100, 1),
        error_space: 3,
        out: REFUSED,
        status: 1,
        ..USUAL
    },
    Row {
        hex: true,
        input: b"80",
        takes: (100, 1),
        error_space: 3,
        reported: b"ref",
        status: 1,
        ..LIST
    },
    Row {
        hex: true,
        input: b"80",
        takes: (100, 1),
        error_space: 3,
        reported: b"ref",
        status: 1,
        ..CANON
    },
    Row {
        hex: true,
        input: b"8",
        takes: (100, 1),
        error_space: 3,
        reported: b"hex",
        status: 3,
        ..CANON
    },
    Row {
        hex: true,
        takes: (2, 1),
        error_space: 3,
        out: b"0e",
        reported: b"wri",
        status: 3,
        ..CANON
    },
    Row {
        input: b"\x0E",
        gives: (ALL, 2),
        takes: (100, 1),
        error_space: 3,
        reported: b"rea",
        status: 3,
        ..LIST
    },
    // Answers are flushed.
    Row {
        hex: true,
        input: b"0E2652",
        out: POINT_LINE,
        flushes: Some((1, 0)),
        ..LIST
    },
    Row {
        hex: true,
        flushes: Some((1, 0)),
        ..LIST
    },
    Row {
        hex: true,
        input: b"0E2652",
        out: b"accepted 1 entries\n",
        flushes: Some((1, 0)),
        ..USUAL
    },
    Row {
        hex: true,
        input: b"80",
        out: REFUSED,
        status: 1,
        flushes: Some((1, 0)),
        ..USUAL
    },
    Row {
        hex: true,
        input: b"0E2652",
        out: b"0e215f265240404040404040\n",
        flushes: Some((1, 0)),
        ..CANON
    },
    Row {
        budget: Some(0),
        out: b"\x0E\x21\x5F",
        flushes: Some((1, 0)),
        ..CANON
    },
    // Reports of failures are flushed, and the empty output.
    Row {
        hex: true,
        input: b"80",
        reported: REFUSED,
        status: 1,
        flushes: Some((1, 1)),
        ..LIST
    },
    Row {
        hex: true,
        input: b"80",
        reported: REFUSED,
        status: 1,
        flushes: Some((1, 1)),
        ..CANON
    },
    Row {
        hex: true,
        input: b"8",
        reported: b"hex fault\n",
        status: 3,
        flushes: Some((1, 1)),
        ..LIST
    },
    Row {
        hex: true,
        input: b"8",
        reported: b"hex fault\n",
        status: 3,
        flushes: Some((1, 1)),
        ..USUAL
    },
    Row {
        hex: true,
        input: b"8",
        reported: b"hex fault\n",
        status: 3,
        flushes: Some((1, 1)),
        ..CANON
    },
    // An output whose write failed isn't flushed any more; the report of that is.
    Row {
        hex: true,
        input: b"0E2652",
        takes: (0, ALL),
        reported: b"write fault after 0 bytes\n",
        status: 3,
        flushes: Some((0, 1)),
        ..LIST
    },
    Row {
        hex: true,
        input: b"0E2652",
        takes: (0, ALL),
        reported: b"write fault after 0 bytes\n",
        status: 3,
        flushes: Some((0, 1)),
        ..USUAL
    },
    Row {
        hex: true,
        input: b"0E2652",
        takes: (0, ALL),
        reported: b"write fault after 0 bytes\n",
        status: 3,
        flushes: Some((0, 1)),
        ..CANON
    },
    // Failures leave what was printed: of the whole page, of one whose read fails in the open run of the point and
    // after it, and of one whose write fails, where nothing more is read.
    Row {
        stream: true,
        input: PAGE,
        gives: (1, 0),
        takes: (100, ALL),
        out: POINT_TEXT,
        reads: Some(9),
        flushes: Some((1, 0)),
        ..CANON
    },
    Row {
        stream: true,
        input: PAGE,
        gives: (1, 5),
        takes: (100, ALL),
        out: b"\x0E\x21\x5F",
        reported: b"read fault\n",
        status: 3,
        reads: Some(5),
        flushes: Some((1, 1)),
        ..CANON
    },
    Row {
        stream: true,
        input: PAGE,
        gives: (1, 8),
        takes: (100, ALL),
        out: POINT_TEXT,
        reported: b"read fault\n",
        status: 3,
        reads: Some(8),
        flushes: Some((1, 1)),
        ..CANON
    },
    Row {
        stream: true,
        input: PAGE,
        gives: (1, 0),
        takes: (5, ALL),
        out: b"\x0E\x21\x5F\x26\x52",
        reported: b"write fault after 5 bytes\n",
        status: 3,
        reads: Some(6),
        flushes: Some((0, 1)),
        ..CANON
    },
    Row {
        stream: true,
        input: PAGE,
        gives: (1, 0),
        takes: (3, ALL),
        out: b"\x0E\x21\x5F",
        reported: b"write fault after 3 bytes\n",
        status: 3,
        reads: Some(6),
        flushes: Some((0, 1)),
        ..CANON
    },
    Row {
        stream: true,
        input: PAGE,
        gives: (1, 0),
        takes: (2, ALL),
        out: b"\x0E\x21",
        reported: b"write fault after 2 bytes\n",
        status: 3,
        reads: Some(0),
        flushes: Some((0, 1)),
        ..CANON
    },
    // Hexadecimal text isn't streamed.
    Row {
        hex: true,
        stream: true,
        input: b"0E",
        reported: b"--hex and --stream exclude each other\n",
        status: 2,
        reads: Some(0),
        flushes: Some((0, 1)),
        ..CANON
    },
];

/// What a command leaves.
#[derive(Drop)]
struct Ended<R> {
    input: R,
    output: Taker,
    errors: Taker,
    status: u8,
}

impl<R> Ended<R> {
    /// Whether this was printed and reported, with this status.
    fn is(&self, row: &Row) -> bool {
        let Ended { output, errors, .. } = self;
        let flushes = (output.flushes, errors.flushes);
        output.kept.as_slice() == row.out
            && errors.kept.as_slice() == row.reported
            && self.status == row.status
            && row.flushes.unwrap_or(flushes) == flushes
    }

    /// Whether the last flushes found all that was taken.
    fn is_sent(&self) -> bool {
        let Ended { output, errors, .. } = self;
        (output.flushes == 0 || output.sent == output.kept.len())
            && (errors.flushes == 0 || errors.sent == errors.kept.len())
    }
}

fn run<R: Read + Drop>(alloc: Global, row: &Row, input: R) -> Ended<R> {
    let usual = Budget::usual();
    let command = Command {
        action: row.action,
        hex: row.hex,
        stream: row.stream,
        budget: Budget::new(row.budget.unwrap_or(usual.get())).unwrap_or(usual),
    };
    let output = Taker {
        good_flushes: row.good_flushes,
        ..Taker::new(alloc, row.takes.0, row.takes.1, row.end)
    };
    let mut input = Source::new(input);
    let most = if row.error_space == ALL { ALL } else { 1 };
    let mut errors = Target::new(Taker::new(alloc, row.error_space, most, End::Fails));
    let (output, status) = execute(
        alloc,
        &command,
        &mut input,
        Target::new(output),
        &mut errors,
    );
    Ended {
        input: input.into_inner(),
        output: output.into_inner(),
        errors: errors.into_inner(),
        status,
    }
}

#[test]
fn commands_end_as_their_devices_let_them(rt: HostRuntime) {
    let mut number: u64 = 0;
    for row in ROWS {
        number = number.wrapping_add(1);
        let input = Giver::new(row.input, row.gives.0, row.gives.1);
        let ended = run(rt.alloc(), row, input);
        let reads = ended.input.reads;
        let found = ended.is(row) && ended.is_sent() && row.reads.unwrap_or(reads) == reads;
        assert!(rt; found, "row {number}");
    }
}

// The read that finds the end is the last, also of an input with more bytes than a command may make reads.
#[test]
fn a_long_input_is_read_once_past_its_bytes(rt: HostRuntime) {
    let row = Row {
        out: b"accepted 0 entries\n",
        ..USUAL
    };
    let ended = run(rt.alloc(), &row, Nuls::new(1_100_000, ALL));
    assert!(rt; ended.is(&row) && ended.input.reads == 18);
}

/// The space of an output, its good flushes, the number of bytes taken, the number of flushes and what the last found,
/// and the result.
const TEXTS: &[(usize, u64, usize, (u64, usize), Option<Failure>)] = &[
    (ALL, 1, 12, (1, 12), None),
    (ALL, 0, 12, (1, 12), Some(Failure::Write(12))),
    (6, 1, 6, (0, 0), Some(Failure::Write(6))),
    (0, 1, 0, (0, 0), Some(Failure::Write(0))),
];

// Help and wrong words are printed and reported in this way. An output whose write failed isn't flushed any more.
#[test]
fn a_text_is_taken_whole_and_sent_on(rt: HostRuntime) {
    for (space, good_flushes, kept, flushed, fault) in TEXTS {
        let mut output = Target::new(Taker {
            good_flushes: *good_flushes,
            ..Taker::new(rt.alloc(), *space, ALL, End::Fails)
        });
        let written = write_whole(&mut output, POINT_TEXT).err();
        let taker = output.into_inner();
        let found = written == *fault
            && taker.kept.as_slice() == &POINT_TEXT[..*kept]
            && (taker.flushes, taker.sent) == *flushed;
        assert!(rt; found, "with space for {space}");
    }
}
