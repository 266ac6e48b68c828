//! The opcodes of attributes, and RESET (PROFILE.md, RESET, Colours, DOMAIN and Opcodes).
ghost use Rattle.std.specs.Prelude.{if◌then◌else◌, option_map, slice_get, unwrap_or, ◌%◌, ◌==◌, ◌≡◌};
ghost use Rattle.nap_draw.specs.Names.{StatesAgree, operand_words};
ghost use Rattle.nap_draw.specs.Rule.{start_domain, rule, domain_in, selected_colour, map_rule};
ghost use Rattle.nap_draw.specs.Acts.{clears_macros};
ghost use Rattle.nap_draw.specs.Execution.{ActsByRule, SetsWork, clears_nothing};
ghost use Rattle.nap_draw.specs.Operands.{addresses};

use crate::fault::{DrawFault, Drawn};
use crate::operands::{first_move, word_at, word_or, words_from};
use crate::work::Work;
use nap_codes::Opcode;
use nap_list::{Base, CharSize, Colour, Entry, Sink, TextLook, Texture};
use nap_values::{Addr, Domain, Grb, Move, Word, colour_bytes, single_bytes};

impl Work {
    /// Executes RESET, and returns whether all macros are cleared.
    pub(crate) fn reset<S: Sink>(&mut self, run: &[u8], sink: &mut S) -> Result<bool, DrawFault>
        requires { StatesAgree self.old.state (S.state sink.old) }
        ensures { ActsByRule S.Sink clears_macros ⊥ (rule self.old Opcode.Reset (operand_words run.now)) self.old self.new sink.old sink.new result }
    {
        let first = word_at(run, 0);
        let second = word_at(run, 1);
        let pen = self.state.drawing.pen;
        let domain = domain_after(self.domain, first);
        self.put(Entry::Reset { first, second, pen }, sink)?;
        self.state.drawing.reset(first, second);
        self.state.last = None;
        self.state.known.reset(first);
        self.domain = domain;
        Ok(second.get() / 16 % 2 == 1)
    }

    pub(crate) fn set_text(&mut self, run: &[u8]) -> Drawn
        ensures { SetsWork (rule self.old Opcode.Text (operand_words run.now)) self.old self.new result }
    {
        let size = first_move(self.domain, words_from(run, 2));
        self.state.drawing.text = text_after(self.state.drawing.text, run, size);
        Ok(())
    }

    pub(crate) fn set_texture(&mut self, run: &[u8]) -> Drawn
        ensures { SetsWork (rule self.old Opcode.Texture (operand_words run.now)) self.old self.new result }
    {
        let texture = self.state.drawing.texture;
        self.state.drawing.texture = Texture {
            word: word_or(run, 0, texture.word),
            mask: first_move(self.domain, words_from(run, 1)).or(texture.mask),
        };
        Ok(())
    }

    pub(crate) fn set_domain(&mut self, run: &[u8]) -> Drawn
        ensures { SetsWork (rule self.old Opcode.Domain (operand_words run.now)) self.old self.new result }
    {
        let Some((word, words)) = run.split_first() else {
            return Err(DrawFault::Missing);
        };
        let word = Word::of_byte(*word);
        if word.get() / 32 == 1 {
            return Err(DrawFault::ThreeD);
        }
        self.domain = domain_in(word);
        let pel = self.state.drawing.pel;
        self.state.drawing.pel = first_move(self.domain, words).unwrap_or(pel);
        Ok(())
    }

    pub(crate) fn select_color(&mut self, run: &[u8]) -> Drawn
        ensures { SetsWork (rule self.old Opcode.SelectColor (operand_words run.now)) self.old self.new result }
    {
        self.state.drawing.colour = selected_colour(self.state.drawing.base, self.domain, run);
        Ok(())
    }

    pub(crate) fn set_color<S: Sink>(&mut self, run: &[u8], sink: &mut S) -> Drawn
        requires { StatesAgree self.old.state (S.state sink.old) }
        ensures { ActsByRule S.Sink clears_nothing ⊥ (rule self.old Opcode.SetColor (operand_words run.now)) self.old self.new sink.old sink.new result }
    {
        let size = self.domain.multi();
        if run.is_empty() {
            return Err(DrawFault::Missing);
        }
        if run.len() > usize::from(size) {
            return Err(DrawFault::ManyColours);
        }
        let grb = colour_bytes(run);
        let colour = self.state.drawing.colour;
        match colour {
            Colour::Own(_) | Colour::Direct(_) => {
                self.state.drawing.base = Base::Direct(grb);
                self.state.drawing.colour = Colour::Direct(grb);
                Ok(())
            }
            Colour::Front(addr) => self.put_map(addr, grb, sink),
            Colour::Pair(addr, _) => self.put_map(addr, grb, sink),
            Colour::ByReset(_) => Err(DrawFault::NoAddress),
        }
    }

    /// Sets the colour at an address. Puts no entry if it is known to be there already (PROFILE.md, Known colours of
    /// the map).
    fn put_map<S: Sink>(&mut self, addr: Addr, grb: Grb, sink: &mut S) -> Drawn
        requires { StatesAgree self.old.state (S.state sink.old) }
        ensures { ActsByRule S.Sink clears_nothing ⊥ (map_rule self.old addr grb) self.old self.new sink.old sink.new result }
    {
        if self.state.known.has(addr, grb) {
            return Ok(());
        }
        self.put(Entry::Map { addr, grb }, sink)?;
        self.state.last = None;
        self.state.known.set(addr, grb);
        Ok(())
    }
}

/// Returns the operand lengths after RESET with this first word.
fn domain_after(domain: Domain, first: Word) -> Domain
    ensures { result ≡ (if first % 2 == 1 then start_domain else domain) }
{
    if first.get() % 2 == 1 {
        Domain::START
    } else {
        domain
    }
}

/// Returns the text attributes with the words of the run, if it has them, and with the size.
fn text_after(look: TextLook, run: &[u8], size: Option<Move>) -> TextLook
    ensures { result ≡ record look { first = unwrap_or (slice_get (operand_words run.now) 0) look.first; second = unwrap_or (slice_get (operand_words run.now) 1) look.second; size = unwrap_or (option_map CharSize.Given size) look.size } }
{
    TextLook {
        first: word_or(run, 0, look.first),
        second: word_or(run, 1, look.second),
        size: match size {
            Some(size) => CharSize::Given(size),
            None => look.size,
        },
        ..look
    }
}

/// Returns the operand lengths that the word of DOMAIN sets.
fn domain_in(word: Word) -> Domain
    ensures { result ≡ domain_in word }
{
    let bits = word.get();
    Domain::try_new(bits / 4 % 8 + 1, bits % 4 + 1).unwrap()
}

/// Returns the colour that the operands of SELECT COLOR select.
fn selected_colour(base: Base, domain: Domain, run: &[u8]) -> Colour
    ensures { result ≡ selected_colour base (addresses domain.single (operand_words run.now)) }
{
    let size = domain.single();
    // Most have one word.
    if let [_] = run {
        return Colour::Front(single_bytes(run));
    }
    let mut addresses = run.chunks(usize::from(size));
    let Some(first) = addresses.next() else {
        return match base {
            Base::Own(origin) => Colour::Own(origin),
            Base::Direct(grb) => Colour::Direct(grb),
        };
    };
    let first = single_bytes(first);
    match addresses.next() {
        None => Colour::Front(first),
        Some(second) => Colour::Pair(first, single_bytes(second)),
    }
}
