//! Lines that are read in pieces.
ghost use Rattle.std.specs.Prelude.{◌≡◌, ◌≢◌, ◌≤◌, ◌++◌, ◌∷◌, ℕ, List, [], All, IfErr, IfOk, MatchResult, OnOk, length, false};
ghost use Rattle.nap_make.specs.Types.{Entry, lines, start};
ghost use Rattle.nap_make.specs.Laws.{longest_line};
ghost use Rattle.nap_make.specs.ListMaking.{FeedsLines, Finishes, HasLineMemory, MakerHasPut, IsReady, KeepsPart, HasReadLines, StopsLines};
ghost use Rattle.nap_make.specs.Runs.{LeavesRest, TakesLines};

use crate::cutting::split_at_byte;
use crate::lines::MakeFault;
use crate::lines::maker::{LineMaker, Rest};
use nap_list::{Sink, State};
use std::alloc::Global;
use std::cmp::min;

/// The greatest number of bytes of a line.
const LONGEST_LINE: usize = 32_112;

/// Reads lines in any pieces, and puts their entries into a sink as they are read.
#[derive(Drop)]
pub(crate) struct LineReader<S> {
    /// Puts the entries of the lines.
    pub(crate) maker: LineMaker<S>,
    /// The bytes of a line whose end isn't read yet.
    pub(crate) part: Vec<u8>,
}

impl<S: Sink> LineReader<S> {
    /// Returns a reader that has read nothing.
    pub(crate) fn new(alloc: Global, sink: S) -> LineReader<S>
        requires start { S.state sink ≡ start }
        requires works { S.failed sink ≡ false }
        ensures has_read { HasReadLines S.Sink sink [] result }
        ensures ready { IsReady S.Sink result }
    {
        LineReader {
            maker: LineMaker {
                sink,
                state: State::start(),
                lines: 0,
                opening: 0,
            },
            part: Vec::new(alloc),
        }
    }

    /// Reads bytes of a line. Keeps at most one byte more than a line may have, and takes memory for so many at the first.
    fn keep_part(&mut self, alloc: Global, bytes: &[u8]) -> Result<(), MakeFault>
        requires { IsReady S.Sink self.old × All (λ b. b ≢ 10) bytes.now }
        ensures part { OnOk result (self.new.part.items ≡ self.old.part.items ++ bytes.now) }
        ensures maker { OnOk result (self.new.maker ≡ self.old.maker) }
        ensures short { OnOk result (length self.new.part.items ≤ longest_line) }
        ensures memory { OnOk result (HasLineMemory self.new.part) }
        ensures keeps { IfErr result (λ f. (s : S) (es : List Entry) → MakerHasPut S.Sink s es self.old.maker → KeepsPart S.Sink s es self.old.part.items bytes.now self.new.maker f) }
    {
        if bytes.is_empty() {
            return Ok(());
        }
        let room = LONGEST_LINE + 1 - self.part.len();
        self.part.reserve(room)?;
        let kept = min(room, bytes.len());
        self.part.extend_from_slice(&bytes[..kept])?;
        if self.part.len() > LONGEST_LINE {
            // No line of an entry is as long.
            return Err(self.maker.unended_line_fault(alloc, self.part.as_slice()));
        }
        Ok(())
    }

    /// Reads the last bytes of a line, which LF follows, and the lines alike behind it. Returns what follows them.
    fn end_line<'a>(&mut self, alloc: Global, bytes: &[u8], more: &'a [u8]) -> Rest<'a>
        requires { IsReady S.Sink self.old × All (λ b. b ≢ 10) bytes.now }
        ensures part { OnOk result (self.new.part.items ≡ []) }
        ensures leaves { IfOk result (λ rest. LeavesRest S.Sink self.new.maker more.now rest.now) }
        ensures takes { (s : S) (es : List Entry) → MakerHasPut S.Sink s es self.old.maker → let all = (self.old.part.items ++ bytes.now) ++ 10 ∷ more.now in MatchResult result (λ rest. TakesLines S.Sink s es all self.new.maker rest.now) (StopsLines S.Sink s (lines es ++ all) self.new.maker.sink) }
    {
        if self.part.len() == 0 {
            return self.maker.take_line(alloc, bytes, more);
        }
        self.keep_part(alloc, bytes)?;
        let rest = self.maker.take_line(alloc, self.part.as_slice(), more)?;
        self.part.clear();
        Ok(rest)
    }

    /// Reads the next piece of the input.
    pub(crate) fn feed(&mut self, alloc: Global, piece: &[u8]) -> Result<(), MakeFault>
        requires { IsReady S.Sink self.old }
        ensures ready { OnOk result (IsReady S.Sink self.new) }
        ensures feeds { (s : S) (p : List ℕ) → HasReadLines S.Sink s p self.old → FeedsLines S.Sink s (p ++ piece.now) self.new result }
    {
        let mut rest = piece;
        while let Some(next) = split_at_byte(rest, b'\n') {
            let (prefix, more) = next;
            rest = self.end_line(alloc, prefix, more)?;
        }
        self.keep_part(alloc, rest)
    }

    /// Returns the sink.
    pub(crate) fn into_sink(self) -> S
        ensures { result ≡ self.maker.sink }
    {
        let LineReader { maker, .. } = self;
        let LineMaker { sink, .. } = maker;
        sink
    }

    /// Ends the input, and returns the number of lines.
    pub(crate) fn finish(&self, alloc: Global) -> Result<usize, MakeFault>
        requires { IsReady S.Sink self.now }
        ensures { (s : S) (p : List ℕ) → HasReadLines S.Sink s p self.now → Finishes S.Sink s p self.now.maker.sink result }
    {
        let part = self.part.as_slice();
        if !part.is_empty() {
            return Err(self.maker.unended_line_fault(alloc, part));
        }
        if self.maker.state.definition.is_some() {
            return Err(MakeFault::Open {
                line: self.maker.lines,
                opening: self.maker.opening,
            });
        }
        Ok(self.maker.lines)
    }
}
