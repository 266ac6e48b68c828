//! The end of the text so far.
ghost use Rattle.std.specs.Prelude.{ℕ, ◌≡◌, ◌<◌, ◌≤◌, nat_le};
ghost use Rattle.nap_canon.specs.Text.{gl_of, run_length_of, joins_open_run};
ghost use Rattle.nap_canon.specs.Buffers.{buffer_limit};

use nap_codes::GSet;
use nap_draw::RUN_LIMIT;

/// A run of operand bytes after their opcode.
#[derive(Clone, Copy, PartialEq, Eq, Drop)]
pub(crate) struct Run {
    /// The byte of the opcode.
    pub(crate) opcode: u8,
    /// The number of operand bytes.
    pub(crate) length: usize,
}

/// How the text so far ends.
#[derive(Clone, Copy, PartialEq, Eq, Drop)]
pub(crate) enum TextEnd {
    /// Outside a run that operands can join, with this set in GL.
    NoRun(GSet),
    /// In a run that operands can join. The PDI set is in GL.
    InRun(Run),
}

impl TextEnd {
    /// Returns the register in GL.
    pub(crate) fn gl(self) -> GSet
        ensures { result ≡ gl_of self }
    {
        match self {
            TextEnd::NoRun(gl) => gl,
            TextEnd::InRun(_) => GSet::G1,
        }
    }

    /// Whether `count` operand bytes join the run: it has the same opcode, and space for them.
    pub(crate) fn joins(self, opcode: u8, count: usize) -> bool
        requires few { count ≤ buffer_limit }
        ensures { result ≡ joins_open_run self opcode count }
    {
        match self {
            TextEnd::NoRun(_) => false,
            TextEnd::InRun(run) => run.opcode == opcode && run.length <= RUN_LIMIT - count,
        }
    }

    /// Returns how many operand bytes can still join the run: none if its opcode is another.
    pub(crate) fn run_space(self, opcode: u8) -> usize
        ensures { (count : ℕ) → 0 < count → joins_open_run self opcode count ≡ nat_le count result }
    {
        match self {
            TextEnd::InRun(run) if run.opcode == opcode => RUN_LIMIT.saturating_sub(run.length),
            _ => 0,
        }
    }

    /// Returns the length of the last run.
    pub(crate) fn run_length(self) -> usize
        ensures { result ≡ run_length_of self }
    {
        match self {
            TextEnd::NoRun(_) => 0,
            TextEnd::InRun(run) => run.length,
        }
    }
}
