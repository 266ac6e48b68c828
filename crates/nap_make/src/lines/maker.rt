//! Entries of lines that come one after another.
ghost use Rattle.std.specs.Prelude.{◌≡◌, ◌≢◌, ◌+◌, ◌^◌, ◌<◌, ◌++◌, List, [], ◌∷◌, All, IfOk, IsSome, MatchResult, OnOk, length, IfSome, MatchOption, codes};
ghost use Rattle.nap_make.specs.Types.{Entry, Fits, IsCode, after, line, lines, set_text, text_entries};
ghost use Rattle.nap_make.specs.Entries.{IsProper};
ghost use Rattle.nap_make.specs.ListMaking.{IsUnendedLine, MakerHasPut, PutsEntry, StopsLines};
ghost use Rattle.nap_make.specs.Runs.{FollowsLine, LeavesRest, PutsEntries, TakesLines, fault_of_sink, HasCharLine, IsNoCharLine, code_line, code_lines};

use crate::cutting::rest_after;
use crate::fault::LineFault;
use crate::lines::MakeFault;
use crate::number::code;
use crate::reading::entry_of_line;
use arrayvec::ArrayVec;
use nap_codes::CharSet;
use nap_list::{Batch, Entry, Hand, Pen, Sink, SinkFault, State};
use std::alloc::Global;

/// What follows the lines taken, or why they aren't a list's.
pub(crate) type Rest<'a> = Result<&'a [u8], MakeFault>;

/// The greatest number of lines that are taken together after one.
pub(crate) const RUN: usize = 256;

/// The line of a character after text, without its code.
#[derive(Clone, Copy, Drop)]
pub(crate) struct CharLine<'a> {
    /// The set of the character.
    pub(crate) set: CharSet,
    /// What is before the code.
    pub(crate) front: &'a [u8],
    /// What is behind it.
    pub(crate) back: &'a [u8],
}

/// Returns how many bytes of a character's line are before its code.
fn code_index(set: CharSet) -> usize
    ensures { result ≡ length (codes "CHAR " ++ set_text set ++ codes " ") }
{
    match set {
        CharSet::Primary => 13,
        CharSet::Supplementary => 19,
        CharSet::Mosaic => 12,
        CharSet::Drcs => 10,
    }
}

/// Returns the line of an entry without its code, if it is a character after text.
pub(crate) fn char_line<'a>(entry: &Entry, bytes: &'a [u8]) -> Option<CharLine<'a>>
    requires { bytes.now ≡ line entry.now }
    ensures { MatchOption result (IsNoCharLine entry.now) (λ l. HasCharLine l entry.now) }
{
    match entry {
        Entry::Char {
            set,
            hand: Hand {
                pen: Pen::After,
                ..
            },
            ..
        } => {
            let index = code_index(*set);
            Some(CharLine {
                set: *set,
                front: &bytes[..index],
                back: &bytes[index + 2..],
            })
        }
        _ => None,
    }
}

/// Reads a line with LF that has these parts, and returns its code and what follows.
fn next_code<'a>(line: &CharLine, bytes: &'a [u8]) -> Option<(u8, &'a [u8])>
    ensures { IfSome result (λ r. IsCode r.0 × (bytes.now ≡ code_line line.now r.0 ++ r.1.now)) }
{
    let others = rest_after(bytes, line.front)?;
    let (digits, others) = others.split_at_checked(2)?;
    let code = code(digits)?;
    let others = rest_after(others, line.back)?;
    let more = rest_after(others, b"\n")?;
    Some((code, more))
}

/// Reads the lines in front that have these parts, and returns what follows them.
fn read_codes<'a>(codes: &mut ArrayVec<u8, RUN>, line: &CharLine, bytes: &'a [u8]) -> &'a [u8]
    requires { codes.old.items ≡ [] }
    ensures codes { All IsCode codes.new.items }
    ensures lines { bytes.now ≡ code_lines line.now codes.new.items ++ result.now }
{
    let mut rest = bytes;
    while codes.len() < RUN {
        let Some((code, more)) = next_code(line, rest) else {
            return rest;
        };
        codes.push(code);
        rest = more;
    }
    rest
}

/// Returns the fault of a sink as that of lines.
fn fault_of_sink(fault: SinkFault) -> MakeFault
    ensures { result ≡ fault_of_sink fault }
{
    match fault {
        SinkFault::Memory => MakeFault::Memory,
        SinkFault::Write => MakeFault::Write,
    }
}

/// Puts the entries of lines into a sink. Its state is what the next entry has to fit.
#[derive(Drop)]
pub(crate) struct LineMaker<S> {
    /// The sink.
    pub(crate) sink: S,
    /// The state that the entries leave.
    pub(crate) state: State,
    /// The number of lines taken.
    pub(crate) lines: usize,
    /// The line that opened the open definition.
    pub(crate) opening: usize,
}

impl<S: Sink> LineMaker<S> {
    /// Returns the line that opened the definition that is open after this line, if one is.
    fn opening_after(&self, line: usize) -> usize
        ensures open { IsSome self.now.state.definition → result ≡ self.now.opening }
        ensures closed { (IsSome self.now.state.definition → ⊥) → result ≡ line }
    {
        if self.state.definition.is_some() {
            return self.opening;
        }
        line
    }

    /// Puts the entry of the next line, which has this number.
    fn put_entry(&mut self, line: usize, entry: Entry) -> Result<(), MakeFault>
        requires agrees { S.state self.old.sink ≡ self.old.state }
        requires line { line ≡ self.old.lines + 1 }
        ensures agrees { OnOk result (S.state self.new.sink ≡ self.new.state) }
        ensures fits { OnOk result (Fits self.old.state entry) }
        ensures after { OnOk result (self.new.state ≡ after self.old.state entry) }
        ensures puts { (s : S) (es : List Entry) → MakerHasPut S.Sink s es self.old → IsProper entry → PutsEntry S.Sink s es entry self.new result }
    {
        if !self.state.fits(&entry) {
            return Err(MakeFault::Misfit { line });
        }
        self.opening = self.opening_after(line);
        self.lines = line;
        self.state.step(&entry);
        match self.sink.put(entry) {
            Ok(()) => Ok(()),
            Err(SinkFault::Memory) => Err(MakeFault::Memory),
            Err(SinkFault::Write) => Err(MakeFault::Write),
        }
    }

    /// Puts characters with the current attributes, whose lines were read.
    fn put_codes(&mut self, line: &CharLine, codes: &[u8]) -> Result<(), MakeFault>
        requires follows { FollowsLine S.Sink line.now self.old }
        requires codes { All IsCode codes.now }
        ensures agrees { OnOk result (S.state self.new.sink ≡ self.new.state) }
        ensures puts { (s : S) (es : List Entry) → MakerHasPut S.Sink s es self.old → PutsEntries S.Sink s es (text_entries self.old.state.drawing Pen.After line.now.set codes.now) self.new result }
    {
        let Some((last, _)) = codes.split_last() else {
            return Ok(());
        };
        let Some(lines) = self.lines.checked_add(codes.len()) else {
            return Err(MakeFault::Memory);
        };
        let drawing = self.state.drawing;
        let batch = Batch::Text {
            set: line.set,
            codes,
            pen: Pen::After,
            drawing: &drawing,
        };
        if let Err(stop) = self.sink.put_batch(&batch) {
            return Err(fault_of_sink(stop.fault));
        }
        self.lines = lines;
        self.state.step(&Entry::Char {
            set: line.set,
            code: *last,
            hand: Hand {
                pen: Pen::After,
                colour: drawing.colour,
                text: drawing.text,
            },
        });
        Ok(())
    }

    /// Takes the lines in front that differ from this one in their character alone, and returns what follows them.
    fn take_alike<'a>(&mut self, line: &CharLine, more: &'a [u8]) -> Rest<'a>
        requires { FollowsLine S.Sink line.now self.old }
        ensures leaves { IfOk result (λ rest. LeavesRest S.Sink self.new more.now rest.now) }
        ensures takes { (s : S) (es : List Entry) → MakerHasPut S.Sink s es self.old → MatchResult result (λ rest. TakesLines S.Sink s es more.now self.new rest.now) (StopsLines S.Sink s (lines es ++ more.now) self.new.sink) }
    {
        let mut codes: ArrayVec<u8, RUN> = ArrayVec::new();
        let rest = read_codes(&mut codes, line, more);
        self.put_codes(line, codes.as_slice())?;
        Ok(rest)
    }

    /// Takes the next line, without LF, and those alike behind it, and returns what follows them.
    pub(crate) fn take_line<'a>(&mut self, alloc: Global, bytes: &[u8], more: &'a [u8]) -> Rest<'a>
        requires agrees { S.state self.old.sink ≡ self.old.state }
        requires whole { All (λ b. b ≢ 10) bytes.now }
        ensures leaves { IfOk result (λ rest. LeavesRest S.Sink self.new more.now rest.now) }
        ensures takes { (s : S) (es : List Entry) → MakerHasPut S.Sink s es self.old → MatchResult result (λ rest. TakesLines S.Sink s es (bytes.now ++ 10 ∷ more.now) self.new rest.now) (StopsLines S.Sink s (lines es ++ (bytes.now ++ 10 ∷ more.now)) self.new.sink) }
    {
        let Some(line) = self.lines.checked_add(1) else {
            return Err(MakeFault::Memory);
        };
        let entry = match entry_of_line(alloc, bytes) {
            Ok(entry) => entry,
            Err(LineFault::Line(column)) => return Err(MakeFault::Line { line, column }),
            Err(LineFault::Memory) => return Err(MakeFault::Memory),
        };
        let text = char_line(&entry, bytes);
        self.put_entry(line, entry)?;
        match text {
            Some(text) => self.take_alike(&text, more),
            None => Ok(more),
        }
    }

    /// Returns the fault of a last line without LF.
    pub(crate) fn unended_line_fault(&self, alloc: Global, bytes: &[u8]) -> MakeFault
        requires { length bytes.now < 2 ^ 63 }
        ensures { (s : S) (es : List Entry) → MakerHasPut S.Sink s es self.now → IsUnendedLine es bytes.now result }
    {
        let Some(line) = self.lines.checked_add(1) else {
            return MakeFault::Memory;
        };
        let whole = MakeFault::Line {
            line,
            column: bytes.len() + 1,
        };
        match entry_of_line(alloc, bytes) {
            Ok(_) => whole,
            Err(LineFault::Line(column)) => MakeFault::Line { line, column },
            // It is a line but for its LF.
            Err(LineFault::Memory) => whole,
        }
    }
}
