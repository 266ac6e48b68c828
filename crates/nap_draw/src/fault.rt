//! The refusals of a code.
ghost use Rattle.std.specs.Prelude.{◌≡◌};
ghost use Rattle.nap_draw.specs.declared.fault.DrawFault.TheVariants.{Memory};
ghost use Rattle.nap_draw.specs.Draws.{fault_of};

use nap_list::{BatchFault, SinkFault};
use std::alloc::AllocError;
use std::fmt;
use thiserror::Error;

/// Why a code is refused. If several apply to an opcode, the first in the order here is given (PROFILE.md, Refusals).
#[derive(Clone, Copy, PartialEq, Eq, Debug, Drop, Error)]
pub enum DrawFault {
    /// DOMAIN in three dimensions.
    ThreeD,
    /// A required operand is missing entirely.
    Missing,
    /// SET COLOR with more than one operand.
    ManyColours,
    /// SET COLOR without an address to set, since a reset selected the colour.
    NoAddress,
    /// More displacements than an arc or polygon may have.
    ManyPoints,
    /// An opcode starts at the pen, whose position isn't known after text, RESET, CS or FIELD.
    PenUnknown,
    /// A point isn't on the unit screen.
    Outside,
    /// REPEAT or REPEAT TO EOL where the last entry isn't a character.
    NothingToRepeat,
    /// Memory ran out.
    Memory,
    /// The sink's device failed.
    Sink,
}

/// The answer of a code, or why it is refused.
pub(crate) type Drawn = Result<(), DrawFault>;

impl fmt::Display for DrawFault {
    fn fmt<W: fmt::Write>(&self, f: &mut fmt::Formatter<W>) -> fmt::Result {
        f.write_str(match self {
            DrawFault::ThreeD => "three-dimensional coordinates are not supported",
            DrawFault::Missing => "an operand is missing",
            DrawFault::ManyColours => "more than one colour is set",
            DrawFault::Outside => "a point lies outside the unit square",
            DrawFault::PenUnknown => "the position of the pen is unknown",
            DrawFault::NoAddress => "no colour map address is selected",
            DrawFault::ManyPoints => "a shape has too many points",
            DrawFault::NothingToRepeat => "there is no character to repeat",
            DrawFault::Memory => "no memory",
            DrawFault::Sink => "the output device failed",
        })
    }
}

impl From<AllocError> for DrawFault {
    ghost from_gives = { λ _ fault. fault ≡ Memory };

    fn from(_: AllocError) -> Self {
        DrawFault::Memory
    }
}

impl From<BatchFault> for DrawFault {
    ghost from_gives = { λ why fault. fault ≡ fault_of why.fault };

    fn from(why: BatchFault) -> Self {
        DrawFault::from(why.fault)
    }
}

impl From<SinkFault> for DrawFault {
    ghost from_gives = { λ why fault. fault ≡ fault_of why };

    fn from(why: SinkFault) -> Self {
        match why {
            SinkFault::Memory => DrawFault::Memory,
            SinkFault::Write => DrawFault::Sink,
        }
    }
}
