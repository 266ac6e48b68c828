//! The failures of a command.
ghost use Rattle.std.specs.Prelude.{◌≡◌, ◌≤◌, ◌+◌, ◌++◌, ◌∷◌, [], codes, decimal, length, ◌<◌};
ghost use Rattle.nap_command.specs.declared.failure.Failure.TheVariants.{Memory, Read, Refused, Write};
ghost use Rattle.nap_command.specs.Failures.{failure_text, refusal_text, status_of, fault_text, left_text};

use arrayvec::ArrayString;
use itoa::Buffer;
use nap_codes::Left;
use nap_reader::{Fault, ReadFault, Refusal};
use std::alloc::AllocError;

/// Returns the name of a code that is left out, after that of its refusal.
fn left_name(left: Left) -> &'static str
    ensures name { result.now ≡ codes "LeftOut " ++ left_text left }
    ensures short { length result.now < 32 }
{
    match left {
        Left::Can => "LeftOut CAN",
        Left::Sdc => "LeftOut SDC",
        Left::Nsr => "LeftOut NSR",
        Left::Deft => "LeftOut DEFT",
        Left::Unprotect => "LeftOut UNPROTECT",
        Left::Edc1 => "LeftOut EDC1",
        Left::Edc2 => "LeftOut EDC2",
        Left::Edc3 => "LeftOut EDC3",
        Left::Edc4 => "LeftOut EDC4",
        Left::IncrementalPoint => "LeftOut INCREMENTAL-POINT",
        Left::IncrementalLine => "LeftOut INCREMENTAL-LINE",
        Left::IncrementalPoly => "LeftOut INCREMENTAL-POLY",
    }
}

/// Returns the name of a refusal as the program prints it, with the name of a code that is left out.
pub fn fault_name(fault: Fault) -> &'static str
    ensures name { result.now ≡ fault_text fault }
    ensures short { length result.now < 32 }
{
    match fault {
        Fault::LeftOut(left) => left_name(left),
        fault => fault.name(),
    }
}

/// The greatest number of bytes of the line of a failure, rounded up.
pub const FAILURE_LINE_SIZE: usize = 96;

/// Why a command fails.
#[derive(Clone, Copy, PartialEq, Eq, Drop)]
pub enum Failure {
    /// `--hex` and `--stream` were both given.
    Excluded,
    /// A read failed, or there were as many reads as one input may have.
    Read,
    /// The input isn't hexadecimal text.
    Hex,
    /// The stream is refused.
    Refused(Refusal),
    /// No entry has the line of this number; the column before which it begins the line of one.
    Line(u64, u64),
    /// The entry of the line with this number doesn't fit.
    Misfit(u64),
    /// The lines end with the first number, inside the definition that the line of the second opens.
    Open(u64, u64),
    /// The output failed, after it had taken this number of bytes.
    Write(u64),
    /// Memory ran out, but not in reading the stream.
    Memory,
}

impl From<AllocError> for Failure {
    ghost from_gives = { λ _ e. e ≡ Memory };

    fn from(_: AllocError) -> Self {
        Failure::Memory
    }
}

impl From<ReadFault> for Failure {
    ghost from_gives = { λ _ e. e ≡ Read };

    fn from(_: ReadFault) -> Self {
        Failure::Read
    }
}

impl From<Refusal> for Failure {
    ghost from_gives = { λ refusal e. e ≡ Refused refusal };

    fn from(refusal: Refusal) -> Self {
        Failure::Refused(refusal)
    }
}

impl Failure {
    /// Returns the exit status.
    pub fn status(self) -> u8
        ensures { result ≡ status_of self }
    {
        match self {
            Failure::Refused(_) => 1,
            Failure::Line(..) | Failure::Misfit(_) | Failure::Open(..) => 1,
            Failure::Excluded => 2,
            _ => 3,
        }
    }

    /// Returns the line that reports the failure, with LF. Takes no memory.
    pub fn line(self) -> ArrayString<FAILURE_LINE_SIZE>
        ensures { result.bytes ≡ failure_text self ++ 10 ∷ [] }
    {
        let mut line = ArrayString::new();
        match self {
            Failure::Excluded => line.push_str("--hex and --stream exclude each other"),
            Failure::Read => line.push_str("read fault"),
            Failure::Hex => line.push_str("hex fault"),
            Failure::Refused(refusal) => push_refusal(&mut line, refusal),
            Failure::Line(number, column) => {
                line = numbered(number);
                line.push_str(": no line of a list, at column ");
                push_number(&mut line, column);
            }
            Failure::Misfit(number) => {
                line = numbered(number);
                line.push_str(": can't come here");
            }
            Failure::Open(number, opening) => {
                line = numbered(number);
                line.push_str(": the definition of line ");
                push_number(&mut line, opening);
                line.push_str(" isn't ended");
            }
            Failure::Write(taken) => push_write(&mut line, taken),
            Failure::Memory => line.push_str("no memory"),
        }
        line.push('\n');
        line
    }
}

/// Appends the decimal digits of a number to a line.
fn push_number(line: &mut ArrayString<FAILURE_LINE_SIZE>, number: u64)
    requires { length line.old.bytes + 20 ≤ 96 }
    ensures bytes { line.new.bytes ≡ line.old.bytes ++ decimal number }
    ensures most { length line.new.bytes ≤ length line.old.bytes + 20 }
{
    let mut digits = Buffer::new();
    line.push_str(digits.format(number));
}

/// Appends the number, name and place of a refusal.
fn push_refusal(line: &mut ArrayString<FAILURE_LINE_SIZE>, refusal: Refusal)
    requires { line.old.bytes ≡ [] }
    ensures text { line.new.bytes ≡ refusal_text refusal }
    ensures short { length line.new.bytes ≤ 90 }
{
    line.push_str("refused ");
    push_number(line, u64::from(refusal.fault.number()));
    line.push_str(" ");
    line.push_str(fault_name(refusal.fault));
    line.push_str(" at ");
    push_number(line, refusal.place);
}

/// Appends how many bytes an output took before it failed.
fn push_write(line: &mut ArrayString<FAILURE_LINE_SIZE>, taken: u64)
    requires { line.old.bytes ≡ [] }
    ensures text { line.new.bytes ≡ failure_text (Write taken) }
    ensures short { length line.new.bytes ≤ 90 }
{
    line.push_str("write fault after ");
    push_number(line, taken);
    line.push_str(" bytes");
}

/// Returns the beginning of the report of a line of a list.
fn numbered(number: u64) -> ArrayString<FAILURE_LINE_SIZE>
    ensures text { result.bytes ≡ codes "line " ++ decimal number }
    ensures few { length result.bytes ≤ 25 }
{
    let mut line = ArrayString::new();
    line.push_str("line ");
    push_number(&mut line, number);
    line
}
