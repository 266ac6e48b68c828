//! Lists whose lines an input or memory gives.
ghost use Rattle.std.specs.Prelude.{◌≡◌, ◌+◌, ◌^◌, ◌<◌, ◌≤◌, ℕ, List, [], OnOk, false, length};
ghost use Rattle.std.specs.Io.KnownBytes.{Consumes};
ghost use Rattle.nap_make.specs.Types.{reading, reads_limit, start};
ghost use Rattle.nap_make.specs.ListMaking.{FeedsFrom, HasReadLines, IsReady, Makes, PutsLines};
ghost use Rattle.nap_make.specs.declared.lines.ListFault.TheVariants.{Lines};
ghost use Rattle.nap_make.specs.declared.lines.MakeFault.TheVariants.{Memory};

use crate::lines::reader::LineReader;
use nap_list::{Inlet, READS, Sink};
use std::alloc::{AllocError, Global};
use thiserror::Error;

/// Why lines aren't those of a list (PROFILE.md, Lines that make a page). Lines and columns are counted from 1.
#[derive(Clone, Copy, PartialEq, Eq, Debug, Drop, Error)]
pub enum MakeFault {
    /// A line that no entry has. The column is that of the first field that is wrong with what has to stand behind it.
    #[error("line {line}: no line of a list, at column {column}")]
    Line { line: usize, column: usize },
    /// A line whose entry doesn't fit.
    #[error("line {line}: can't come here")]
    Misfit { line: usize },
    /// The last line is inside the definition that the line `opening` opens.
    #[error("line {line}: the definition of line {opening} isn't ended")]
    Open { line: usize, opening: usize },
    /// Memory ran out.
    #[error("no memory")]
    Memory,
    /// The sink's device failed.
    #[error("the device failed")]
    Write,
}

impl From<AllocError> for MakeFault {
    ghost from_gives = { λ _ e. e ≡ Memory };

    fn from(_: AllocError) -> Self {
        MakeFault::Memory
    }
}

/// Why an input doesn't give the lines of a list.
#[derive(Clone, Copy, PartialEq, Eq, Debug, Drop, Error)]
pub enum ListFault {
    /// Its lines aren't those of a list.
    #[error("{0}")]
    Lines(MakeFault),
    /// A read failed, or there were as many reads as one input may have.
    #[error("the input failed")]
    Read,
}

impl From<MakeFault> for ListFault {
    ghost from_gives = { λ fault e. e ≡ Lines fault };

    fn from(fault: MakeFault) -> Self {
        ListFault::Lines(fault)
    }
}

mod maker;
mod reader;

/// Feeds a reader all that an input gives, reading into `buffer`. Nothing is read after a wrong line or a failed read.
fn feed_from<I: Inlet, S: Sink>(
    alloc: Global,
    reader: &mut LineReader<S>,
    input: &mut I,
    buffer: &mut [u8],
) -> Result<(), ListFault>
    requires calls { I.calls input.old < 2 ^ 63 }
    requires buffer { 0 < length buffer.old }
    requires ready { IsReady S.Sink reader.old }
    ensures few { I.calls input.new ≤ I.calls input.old + reads_limit }
    ensures more { I.calls input.old ≤ I.calls input.new }
    ensures ready { OnOk result (IsReady S.Sink reader.new) }
    ensures feeds { let seen = reading I.Inlet input.old input.new in
        (p : List ℕ) × Consumes (I.left input.old) (I.left input.new) p
        × ((s : S) → HasReadLines S.Sink s [] reader.old → FeedsFrom S.Sink s p seen reader.new result) }
{
    for _ in 0..READS {
        let Ok(count) = input.read(buffer) else {
            return Err(ListFault::Read);
        };
        if count == 0 {
            return Ok(());
        }
        reader.feed(alloc, &buffer[..count])?;
    }
    Err(ListFault::Read)
}

/// Puts the entries of the lines that an input gives into a sink, as they are read into `buffer`, and returns the sink.
/// Keeps one line at most (PROFILE.md, Lines that make a page).
pub fn make_list<I: Inlet, S: Sink + Drop>(
    alloc: Global,
    input: &mut I,
    sink: S,
    buffer: &mut [u8],
) -> (S, Result<(), ListFault>)
    requires calls { I.calls input.old < 2 ^ 63 }
    requires buffer { 0 < length buffer.old }
    requires start { S.state sink ≡ start }
    requires works { S.failed sink ≡ false }
    ensures few { I.calls input.new ≤ I.calls input.old + reads_limit }
    ensures more { I.calls input.old ≤ I.calls input.new }
    ensures makes { let seen = reading I.Inlet input.old input.new in
        (p : List ℕ) × Consumes (I.left input.old) (I.left input.new) p × Makes S.Sink sink p seen result.0 result.1 }
{
    let mut reader = LineReader::new(alloc, sink);
    if let Err(fault) = feed_from(alloc, &mut reader, input, buffer) {
        return (reader.into_sink(), Err(fault));
    }
    let made = reader.finish(alloc);
    let sink = reader.into_sink();
    match made {
        Ok(_) => (sink, Ok(())),
        Err(fault) => (sink, Err(ListFault::Lines(fault))),
    }
}

/// Puts the entries of these lines into a sink, and returns it with their number (PROFILE.md, Lines that make a page).
pub fn put_lines<S: Sink + Drop>(
    alloc: Global,
    lines: &[u8],
    sink: S,
) -> (S, Result<usize, MakeFault>)
    requires start { S.state sink ≡ start }
    requires works { S.failed sink ≡ false }
    ensures { PutsLines S.Sink sink lines.now result.0 result.1 }
{
    let mut reader = LineReader::new(alloc, sink);
    if let Err(fault) = reader.feed(alloc, lines) {
        return (reader.into_sink(), Err(fault));
    }
    let made = reader.finish(alloc);
    (reader.into_sink(), made)
}
