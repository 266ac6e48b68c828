//! The rule of each character and control (PROFILE.md, Characters and controls).
ghost use Rattle.std.specs.Prelude.{All, IfErr, IsErrOf, MatchResult, Ok, OnOk, [], false, true, ◌++◌, ◌∷◌, ◌≡◌};
ghost use Rattle.nap_draw.specs.Names.{IsCode, IsTextByte, Put, StatesAgree, WellMade, last_char_of_text, sink_model_of};
ghost use Rattle.nap_draw.specs.Acts.{Acts, GivesSome, WantsBy};
ghost use Rattle.nap_draw.specs.Codes.{code_rule, IsMade, PutsOwnEntry, drawn_text, definition_ended, definition_result};
ghost use Rattle.nap_draw.specs.Execution.{clears_nothing, AppliesControl, PutsList, definition_start};
ghost use Rattle.nap_draw.specs.Rule.{rule_result};
ghost use Rattle.nap_codes.specs.declared.code.Code.TheVariants as codes;

use crate::fault::{DrawFault, Drawn};
use crate::work::Work;
use nap_codes::{CharSet, Code, TextStep};
use nap_list::{Batch, BatchFault, CharSize, Definition, Entry, LastChar, Pen, Sink, SinkFault};
use nap_values::Word;

impl Work {
    /// Executes a character as `text` does, and advances this work. On an error the work is unchanged.
    #[inline(always)]
    pub fn text<S: Sink>(&mut self, set: CharSet, code: u8, sink: &mut S) -> Result<(), DrawFault>
        requires agrees { StatesAgree self.old.state (S.state sink.old) }
        requires made { IsCode code }
        ensures acts { Acts S.Sink clears_nothing (code_rule self.old (codes.Char set code)) self.old self.new sink.old sink.new result }
        ensures memory { IsErrOf result DrawFault.Memory → WantsBy S.Sink (code_rule self.old (codes.Char set code)) sink.old sink.new }
        ensures gives { IsErrOf result DrawFault.Sink → GivesSome (code_rule self.old (codes.Char set code)) }
        ensures failed { IsErrOf result DrawFault.Sink → S.failed sink.new ≡ true }
        ensures kept { IfErr result (λ fault. S.failed sink.old ≡ false → S.failed sink.new ≡ true → fault ≡ DrawFault.Sink) }
        ensures clear { OnOk result (S.failed sink.old ≡ false → S.failed sink.new ≡ false) }
    {
        self.character(set, code, sink)
    }

    /// Executes BEL as `control` does, and advances this work. On an error the work is unchanged.
    #[inline]
    pub fn bell<S: Sink>(&mut self, sink: &mut S) -> Result<(), DrawFault>
        requires { StatesAgree self.old.state (S.state sink.old) }
        ensures acts { Acts S.Sink clears_nothing (code_rule self.old codes.Bell) self.old self.new sink.old sink.new result }
        ensures memory { IsErrOf result DrawFault.Memory → WantsBy S.Sink (code_rule self.old codes.Bell) sink.old sink.new }
        ensures gives { IsErrOf result DrawFault.Sink → GivesSome (code_rule self.old codes.Bell) }
        ensures failed { IsErrOf result DrawFault.Sink → S.failed sink.new ≡ true }
        ensures kept { IfErr result (λ fault. S.failed sink.old ≡ false → S.failed sink.new ≡ true → fault ≡ DrawFault.Sink) }
        ensures clear { OnOk result (S.failed sink.old ≡ false → S.failed sink.new ≡ false) }
    {
        self.put_and_set_pen(Entry::Bell, self.state.drawing.pen, sink)
    }

    /// Executes a character or a control as `control` does, and advances this work. On an error the work is unchanged.
    #[inline(always)]
    pub fn control<S: Sink>(&mut self, code: &Code, sink: &mut S) -> Result<(), DrawFault>
        requires agrees { StatesAgree self.old.state (S.state sink.old) }
        requires made { IsMade code.now }
        ensures acts { Acts S.Sink clears_nothing (code_rule self.old code.now) self.old self.new sink.old sink.new result }
        ensures memory { IsErrOf result DrawFault.Memory → WantsBy S.Sink (code_rule self.old code.now) sink.old sink.new }
        ensures gives { IsErrOf result DrawFault.Sink → GivesSome (code_rule self.old code.now) }
        ensures failed { IsErrOf result DrawFault.Sink → S.failed sink.new ≡ true }
        ensures kept { IfErr result (λ fault. S.failed sink.old ≡ false → S.failed sink.new ≡ true → fault ≡ DrawFault.Sink) }
        ensures clear { OnOk result (S.failed sink.old ≡ false → S.failed sink.new ≡ false) }
    {
        self.apply_control(code, sink)
    }

    /// Executes a code by the rule of its row.
    #[inline(always)]
    fn apply_control<S: Sink>(&mut self, code: &Code, sink: &mut S) -> Drawn
        requires agrees { StatesAgree self.old.state (S.state sink.old) }
        requires made { IsMade code.now }
        ensures { AppliesControl S.Sink (code_rule self.old code.now) self.old self.new sink.old sink.new result }
    {
        match *code {
            Code::Char(set, code) => return self.character(set, code, sink),
            Code::Repeat(count) => return self.repeat(count, sink),
            Code::ToEol => return self.repeat_to_end(sink),
            Code::DefGlyph(code) => return self.begin_definition(Definition::Glyph(code), sink),
            Code::DefMask(mask) => return self.begin_definition(Definition::Mask(mask), sink),
            Code::End | Code::DefMacro { .. } => return self.end_definition(sink),
            Code::Step(step) => return self.move_text(step, sink),
            Code::Clear | Code::Bell | Code::BlinkMark(_) | Code::Cursor(_) => {
                return self.put_control(code, sink);
            }
            Code::Named(size) => self.state.drawing.text.size = CharSize::Named(size),
            Code::Reverse(on) => self.state.drawing.text.reverse = on,
            Code::Underline(on) => self.state.drawing.text.underline = on,
            Code::Wrap(on) => self.state.drawing.text.wrap = on,
            Code::Scroll(on) => self.state.drawing.text.scroll = on,
            _ => {}
        }
        Ok(())
    }

    /// Puts a format effector.
    #[inline(never)]
    fn move_text<S: Sink>(&mut self, step: TextStep, sink: &mut S) -> Drawn
        requires agrees { StatesAgree self.old.state (S.state sink.old) }
        requires made { IsMade (codes.Step step) }
        ensures { AppliesControl S.Sink (code_rule self.old (codes.Step step)) self.old self.new sink.old sink.new result }
    {
        let hand = self.hand();
        self.put_and_set_pen(Entry::TextMove { step, hand }, Pen::After, sink)
    }

    /// Executes a control that puts an entry of its own.
    #[inline(never)]
    fn put_control<S: Sink>(&mut self, code: &Code, sink: &mut S) -> Drawn
        requires agrees { StatesAgree self.old.state (S.state sink.old) }
        requires made { IsMade code.now }
        requires own { PutsOwnEntry code.now }
        ensures { AppliesControl S.Sink (code_rule self.old code.now) self.old self.new sink.old sink.new result }
    {
        let pen = self.state.drawing.pen;
        let colour = self.state.drawing.colour;
        match *code {
            Code::Clear => self.put_and_set_pen(Entry::Clear { pen }, Pen::After, sink),
            Code::BlinkMark(on) => self.put_and_set_pen(Entry::BlinkMark { on, colour }, pen, sink),
            Code::Cursor(kind) => self.put_and_set_pen(Entry::Cursor(kind), pen, sink),
            _ => self.put_and_set_pen(Entry::Bell, pen, sink),
        }
    }

    /// Puts the entries of the bytes of a text: characters of a set, and format effectors of one byte among them, as
    /// `text` and `control` put each. The error has the number of entries put; on an error the work is unchanged.
    #[inline(always)]
    pub fn characters<S: Sink>(
        &mut self,
        set: CharSet,
        codes: &[u8],
        sink: &mut S,
    ) -> Result<(), BatchFault>
        requires agrees { StatesAgree self.old.state (S.state sink.old) }
        requires made { All IsTextByte codes.now }
        ensures put { Put (sink_model_of S.Sink) (drawn_text self.old.state set codes.now) sink.old sink.new result }
        ensures work { MatchResult result (λ _. self.new ≡ (rule_result self.old (drawn_text self.old.state set codes.now)).work) (λ _. self.new ≡ self.old) }
        ensures agree { OnOk result (StatesAgree self.new.state (S.state sink.new)) }
    {
        let drawing = &self.state.drawing;
        let pen = drawing.pen;
        sink.put_batch(&Batch::Text {
            set,
            codes,
            pen,
            drawing,
        })?;
        let Some((code, _)) = codes.split_last() else {
            return Ok(());
        };
        self.state.drawing.pen = Pen::After;
        self.state.last = last_char(set, *code);
        Ok(())
    }

    /// Puts a character. Afterwards the pen is at a position that only a terminal knows.
    #[inline(never)]
    fn character<S: Sink>(&mut self, set: CharSet, code: u8, sink: &mut S) -> Drawn
        requires agrees { StatesAgree self.old.state (S.state sink.old) }
        requires made { IsCode code }
        ensures { AppliesControl S.Sink (code_rule self.old (codes.Char set code)) self.old self.new sink.old sink.new result }
    {
        let hand = self.hand();
        self.put(Entry::Char { set, code, hand }, sink)?;
        self.state.drawing.pen = Pen::After;
        self.state.last = Some(LastChar { set, code });
        Ok(())
    }

    /// REPEAT: puts the last character again, `count` times.
    #[inline(never)]
    fn repeat<S: Sink>(&mut self, count: Word, sink: &mut S) -> Drawn
        requires { StatesAgree self.old.state (S.state sink.old) }
        ensures { AppliesControl S.Sink (code_rule self.old (codes.Repeat count)) self.old self.new sink.old sink.new result }
    {
        let Some(last) = self.state.last else {
            return Err(DrawFault::NothingToRepeat);
        };
        if count.get() == 0 {
            return Ok(());
        }
        if self.count_copies(last, usize::from(count.get()), sink) {
            return Ok(());
        }
        let copies = [last.code; COPIES];
        self.characters(last.set, &copies[..usize::from(count.get())], sink)?;
        Ok(())
    }

    /// REPEAT TO EOL: puts the repetition of the last character to the end of the line.
    #[inline(never)]
    fn repeat_to_end<S: Sink>(&mut self, sink: &mut S) -> Drawn
        requires { StatesAgree self.old.state (S.state sink.old) }
        ensures { AppliesControl S.Sink (code_rule self.old codes.ToEol) self.old self.new sink.old sink.new result }
    {
        if self.state.last.is_none() {
            return Err(DrawFault::NothingToRepeat);
        }
        let hand = self.hand();
        self.put_and_set_pen(Entry::ToEol { hand }, Pen::After, sink)
    }

    /// Executes END: ends the open definition, if there is one.
    #[inline(never)]
    fn end_definition<S: Sink>(&mut self, sink: &mut S) -> Drawn
        requires { StatesAgree self.old.state (S.state sink.old) }
        ensures { AppliesControl S.Sink (Ok (definition_ended self.old)) self.old self.new sink.old sink.new result }
    {
        if self.state.definition.is_none() {
            return Ok(());
        }
        self.put(Entry::DefEnd, sink)?;
        self.restore_saved();
        Ok(())
    }

    /// Executes DEF DRCS or DEF TEXTURE: ends the open definition, if there is one, and opens another.
    #[inline(never)]
    fn begin_definition<S: Sink>(&mut self, what: Definition, sink: &mut S) -> Drawn
        requires agrees { StatesAgree self.old.state (S.state sink.old) }
        requires made { WellMade (definition_start what) }
        ensures { AppliesControl S.Sink (definition_result self.old (definition_start what)) self.old self.new sink.old sink.new result }
    {
        self.put_start(what, sink)?;
        self.restore_saved();
        self.state.step(&definition_start(what));
        self.saved = self.domain;
        Ok(())
    }

    /// Puts the entry that ends the open definition, if there is one, and the entry that opens the next.
    fn put_start<S: Sink>(&self, what: Definition, sink: &mut S) -> Result<(), SinkFault>
        requires agrees { StatesAgree self.now.state (S.state sink.old) }
        requires made { WellMade (definition_start what) }
        ensures { PutsList S.Sink ((definition_ended self.now).entries ++ definition_start what ∷ []) sink.old sink.new result }
    {
        let start = definition_start(what);
        if self.state.definition.is_none() {
            return self.put(start, sink);
        }
        sink.put(Entry::DefEnd)?;
        sink.put(start)
    }

    /// Restores the attributes and operand lengths that the open definition saved, if there is one.
    fn restore_saved(&mut self)
        ensures { self.new ≡ (definition_ended self.old).work }
    {
        if self.state.definition.is_some() {
            self.state.step(&Entry::DefEnd);
            self.domain = self.saved;
        }
    }
}

/// Returns the character that a byte of a text leaves as the last one, or `None` for a format effector.
#[inline(always)]
fn last_char(set: CharSet, code: u8) -> Option<LastChar>
    requires { IsTextByte code }
    ensures { result ≡ last_char_of_text set code }
{
    if code < 0x20 {
        return None;
    }
    Some(LastChar { set, code })
}

/// The greatest number of copies that REPEAT makes.
const COPIES: usize = 63;

/// Returns the entry that opens a definition.
fn definition_start(what: Definition) -> Entry
    ensures { result ≡ definition_start what }
{
    match what {
        Definition::Glyph(code) => Entry::GlyphStart(code),
        Definition::Mask(mask) => Entry::MaskStart(mask),
    }
}
