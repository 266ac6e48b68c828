//! Why a line gives no entry.
use thiserror::Error;

/// Why a line gives no entry.
#[derive(Clone, Copy, PartialEq, Eq, Debug, Drop, Error)]
pub enum LineFault {
    /// No entry has this line. The column, counted from 1, is that of the first field that is wrong with what has to stand
    /// behind it (PROFILE.md, Lines that make a page); what is before it begins the line of an entry.
    #[error("no line of a list, at column {0}")]
    Line(usize),
    /// Memory ran out for the points of a shape.
    #[error("no memory")]
    Memory,
}
