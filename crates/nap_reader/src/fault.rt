//! Refusals (PROFILE.md, Refusals).
ghost use Rattle.std.specs.Prelude.{◌≡◌};
ghost use Rattle.nap_draw.specs.Draws.{fault_of};
ghost use Rattle.nap_reader.specs.Faults.{number_of, name_of, code_fault, draw_fault};

use nap_codes::{CodeFault, Left};
use nap_draw::DrawFault;
use nap_list::SinkFault;
use std::fmt;
use thiserror::Error;

/// Why a stream is refused (PROFILE.md, Refusals). Its `Display` text says what is wrong; `name` returns the name of
/// its number.
#[derive(Clone, Copy, PartialEq, Eq, Debug, Drop, Error)]
pub enum Fault {
    /// A byte `80` to `FF`.
    EighthBit,
    /// A byte that continues no escape sequence of the profile.
    BadEscape,
    /// A byte below `20` after SS2 or SS3.
    ShiftAlone,
    /// A code of the PDI set under a single shift, also an opcode that is left out.
    ShiftedCode,
    /// A code that the profile leaves out by name.
    LeftOut(Left),
    /// An argument outside its range.
    BadArgument,
    /// DOMAIN in three dimensions: b6 of its word is set.
    ThreeD,
    /// A required operand of an opcode is missing.
    Missing,
    /// SET COLOR with more than one operand.
    ManyColours,
    /// A point of the opcode isn't on the unit screen.
    Outside,
    /// The opcode starts at the pen, whose position isn't known after text, RESET, CS or FIELD.
    PenUnknown,
    /// SET COLOR without an address to set, since a reset selected the colour.
    NoAddress,
    /// More than `RUN_LIMIT` operand bytes of one opcode.
    LongRun,
    /// More displacements than an arc or polygon may have.
    ManyPoints,
    /// REPEAT or REPEAT TO EOL where the last entry isn't a character.
    NothingToRepeat,
    /// An operand word outside a run.
    Stray,
    /// A call or presentation would exceed the budget.
    Budget,
    /// The macro bodies would exceed their limit.
    Store,
    /// The input ends inside a code.
    Cut,
    /// The input ends inside a macro body or a definition.
    Unended,
    /// Memory ran out.
    Memory,
    /// The sink's device failed.
    Sink,
}

impl Fault {
    /// Returns the number of the refusal, from 1.
    pub fn number(self) -> u8
        ensures { result ≡ number_of self }
    {
        match self {
            Fault::EighthBit => 1,
            Fault::BadEscape => 2,
            Fault::ShiftAlone => 3,
            Fault::ShiftedCode => 4,
            Fault::BadArgument => 5,
            Fault::LeftOut(_) => 6,
            Fault::ThreeD => 7,
            Fault::Missing => 8,
            Fault::ManyColours => 9,
            Fault::Outside => 10,
            Fault::PenUnknown => 11,
            Fault::NoAddress => 12,
            Fault::LongRun => 13,
            Fault::ManyPoints => 14,
            Fault::NothingToRepeat => 15,
            Fault::Stray => 16,
            Fault::Budget => 17,
            Fault::Store => 18,
            Fault::Cut => 19,
            Fault::Unended => 20,
            Fault::Memory => 21,
            Fault::Sink => 22,
        }
    }

    /// Returns the name of the refusal, without the name of a code that is left out.
    pub fn name(self) -> &'static str
        ensures { result.now ≡ name_of self }
    {
        match self {
            Fault::EighthBit => "EighthBit",
            Fault::BadEscape => "BadEscape",
            Fault::ShiftAlone => "ShiftAlone",
            Fault::ShiftedCode => "ShiftedCode",
            Fault::BadArgument => "BadArgument",
            Fault::LeftOut(_) => "LeftOut",
            Fault::ThreeD => "ThreeD",
            Fault::Missing => "Missing",
            Fault::ManyColours => "ManyColours",
            Fault::Outside => "Outside",
            Fault::PenUnknown => "PenUnknown",
            Fault::NoAddress => "NoAddress",
            Fault::LongRun => "LongRun",
            Fault::ManyPoints => "ManyPoints",
            Fault::NothingToRepeat => "NothingToRepeat",
            Fault::Stray => "Stray",
            Fault::Budget => "Budget",
            Fault::Store => "Store",
            Fault::Cut => "Cut",
            Fault::Unended => "Unended",
            Fault::Memory => "Memory",
            Fault::Sink => "Sink",
        }
    }
}

impl fmt::Display for Fault {
    fn fmt<W: fmt::Write>(&self, f: &mut fmt::Formatter<W>) -> fmt::Result {
        f.write_str(match self {
            Fault::EighthBit => "a byte has its eighth bit set",
            Fault::BadEscape => "unknown escape sequence",
            Fault::ShiftAlone => "a control character follows a single shift",
            Fault::ShiftedCode => "a drawing code follows a single shift",
            Fault::BadArgument => "an argument is out of range",
            Fault::LeftOut(left) => return write!(f, "{left} is not supported"),
            Fault::ThreeD => "three-dimensional coordinates are not supported",
            Fault::Missing => "an operand is missing",
            Fault::ManyColours => "more than one colour is set",
            Fault::Outside => "a point lies outside the unit square",
            Fault::PenUnknown => "the position of the pen is unknown",
            Fault::NoAddress => "no colour map address is selected",
            Fault::LongRun => "an opcode has too many operand bytes",
            Fault::ManyPoints => "a shape has too many points",
            Fault::NothingToRepeat => "there is no character to repeat",
            Fault::Stray => "an operand byte has no opcode",
            Fault::Budget => "the macros exceed the budget",
            Fault::Store => "the macros exceed the memory for definitions",
            Fault::Cut => "the stream ends inside a code",
            Fault::Unended => "the stream ends inside a definition",
            Fault::Memory => "no memory",
            Fault::Sink => "the output device failed",
        })
    }
}

impl From<CodeFault> for Fault {
    ghost from_gives = { λ fault e. e ≡ code_fault fault };

    fn from(fault: CodeFault) -> Self {
        match fault {
            CodeFault::EighthBit => Fault::EighthBit,
            CodeFault::BadEscape => Fault::BadEscape,
            CodeFault::ShiftAlone => Fault::ShiftAlone,
            CodeFault::ShiftedCode => Fault::ShiftedCode,
            CodeFault::BadArgument => Fault::BadArgument,
            CodeFault::LeftOut(left) => Fault::LeftOut(left),
        }
    }
}

impl From<DrawFault> for Fault {
    ghost from_gives = { λ fault e. e ≡ draw_fault fault };

    fn from(fault: DrawFault) -> Self {
        match fault {
            DrawFault::ThreeD => Fault::ThreeD,
            DrawFault::Missing => Fault::Missing,
            DrawFault::ManyColours => Fault::ManyColours,
            DrawFault::Outside => Fault::Outside,
            DrawFault::PenUnknown => Fault::PenUnknown,
            DrawFault::NoAddress => Fault::NoAddress,
            DrawFault::ManyPoints => Fault::ManyPoints,
            DrawFault::NothingToRepeat => Fault::NothingToRepeat,
            DrawFault::Memory => Fault::Memory,
            DrawFault::Sink => Fault::Sink,
        }
    }
}

impl From<SinkFault> for Fault {
    ghost from_gives = { λ fault e. e ≡ draw_fault (fault_of fault) };

    fn from(fault: SinkFault) -> Self {
        Fault::from(DrawFault::from(fault))
    }
}

/// A refusal: its fault and its place (PROFILE.md, Refusals).
#[derive(Clone, Copy, PartialEq, Eq, Debug, Drop, Error)]
#[error("{fault} at {place}")]
pub struct Refusal {
    /// The fault.
    pub fault: Fault,
    /// The offset of a byte of the input, or the length of the input for what is found at its end.
    pub place: u64,
}
