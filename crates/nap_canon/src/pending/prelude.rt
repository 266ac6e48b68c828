//! The prelude of an entry, which makes its attributes current.
ghost use Rattle.std.specs.Prelude.{◌≡◌, ◌↔◌, ◌≤◌, ◌+◌, [], ◌∷◌, length, Some, IsTrue};
ghost use Rattle.nap_canon.specs.Names.{AreCurrent, addr_bytes, attributes, grb_bytes, hand_attributes, ink_attributes, ink_of, point_attributes};
ghost use Rattle.nap_canon.specs.Commands.{Command};
ghost use Rattle.nap_canon.specs.Preludes.{unless, base_commands, colour_commands, given_size_commands, named_size_commands, flag_commands, mask_commands, pen_prelude, pel_prelude, colour_prelude, texture_prelude, text_prelude, prelude};
ghost use Rattle.nap_canon.specs.Equality.{same_base};
ghost use Rattle.nap_canon.specs.Spelling.{size_byte, flag_byte, opcode};
ghost use Rattle.nap_canon.specs.Writing.{AppendsPiece, AppendsCommands};
ghost use Rattle.nap_canon.specs.Buffers.{piece_limit, buffer_limit};

use crate::current::{hand_is_current, ink_is_current, is_colour, point_is_current};
use crate::pending::{LENGTHS, Pending, opcodes, word_byte};
use nap_codes::Size;
use nap_list::{Base, CharSize, Colour, Drawing, Entry, Hand, Ink, Pen, TextLook, Texture};
use nap_values::{Addr, Grb, Move, Point, Word, put_addr, put_grb, put_move, put_point};

/// A flag of the text attributes, set by controls of the C1 set.
#[derive(Clone, Copy, Drop)]
pub(crate) enum Flag {
    /// REVERSE VIDEO and NORMAL VIDEO.
    Reverse,
    /// UNDERLINE START and UNDERLINE STOP.
    Underline,
    /// WORD WRAP ON and WORD WRAP OFF.
    Wrap,
    /// SCROLL ON and SCROLL OFF.
    Scroll,
}

/// Returns the control of a named size.
fn size_byte(size: Size) -> u8
    ensures { result ≡ size_byte size }
{
    match size {
        Size::Small => 0x4A,
        Size::Medium => 0x4B,
        Size::Normal => 0x4C,
        Size::Tall => 0x4D,
        Size::Double => 0x4F,
    }
}

/// Returns the control that sets a flag on or off.
fn flag_byte(flag: Flag, on: bool) -> u8
    ensures { result ≡ flag_byte flag on }
{
    let byte = match flag {
        Flag::Reverse => 0x48,
        Flag::Underline => 0x59,
        Flag::Wrap => 0x55,
        Flag::Scroll => 0x57,
    };
    if on { byte } else { byte + 1 }
}

impl Pending {
    /// Appends SET COLOR.
    #[inline(always)]
    pub(super) fn append_set_color(&mut self, grb: Grb)
        requires { length self.old.bytes + 10 ≤ buffer_limit }
        ensures appends { AppendsPiece (opcode 0x3C (grb_bytes grb)) self.old self.new }
        ensures most { length self.new.bytes ≤ length self.old.bytes + 10 }
    {
        self.append_opcode_and_operands(opcodes::SET_COLOR, &[], &put_grb(grb)[..8]);
    }

    /// Appends SELECT COLOR with an address.
    #[inline(always)]
    fn append_select_front(&mut self, addr: Addr)
        requires { length self.old.bytes + 6 ≤ buffer_limit }
        ensures appends { AppendsPiece (opcode 0x3E (addr_bytes addr)) self.old self.new }
        ensures most { length self.new.bytes ≤ length self.old.bytes + 6 }
    {
        self.append_opcode_and_operands(opcodes::SELECT_COLOR, &[], &put_addr(addr)[..4]);
    }

    /// Appends the prelude of a pen.
    #[tactic(auto, unfolding(crate::specs::Text::pieces_bytes, crate::specs::Text::text_end_after, crate::specs::Preludes::pen_prelude))]
    #[inline(always)]
    pub(super) fn append_pen_prelude(&mut self, old: Pen, pen: Pen)
        requires space { length self.old.bytes + piece_limit ≤ buffer_limit }
        ensures appends { AppendsCommands (pen_prelude old (Some pen)) self.old self.new }
        ensures most { length self.new.bytes ≤ length self.old.bytes + piece_limit }
    {
        if old == pen {
            return;
        }
        if let Pen::At(point) = pen {
            self.append_opcode_and_operands(opcodes::POINT_SET_ABS, &[], &put_point(point));
        }
    }

    /// Appends the prelude of a pel.
    #[tactic(auto, unfolding(crate::specs::Text::pieces_bytes, crate::specs::Text::text_end_after, crate::specs::Preludes::pel_prelude))]
    #[inline(always)]
    fn append_pel_prelude(&mut self, old: Move, pel: Move)
        requires space { length self.old.bytes + piece_limit ≤ buffer_limit }
        ensures appends { AppendsCommands (pel_prelude old (Some pel)) self.old self.new }
        ensures most { length self.new.bytes ≤ length self.old.bytes + piece_limit }
    {
        if old == pel {
            return;
        }
        self.append_opcode_and_operands(opcodes::DOMAIN, &[LENGTHS], &put_move(pel));
    }

    /// Appends TEXTURE with its word, and with the size of the mask if it isn't the old one.
    #[inline(always)]
    fn append_mask(&mut self, word: Word, old: Option<Move>, mask: Option<Move>)
        requires space { length self.old.bytes + piece_limit ≤ buffer_limit }
        ensures appends { AppendsCommands (mask_commands word old mask) self.old self.new }
        ensures most { length self.new.bytes ≤ length self.old.bytes + piece_limit }
    {
        let byte = word_byte(word);
        match mask {
            Some(mask) if old != Some(mask) => {
                self.append_opcode_and_operands(opcodes::TEXTURE, &[byte], &put_move(mask));
            }
            _ => self.append_opcode_and_operands(opcodes::TEXTURE, &[], &[byte]),
        }
    }

    /// Appends the prelude of a texture.
    #[tactic(auto, unfolding(crate::specs::Text::pieces_bytes, crate::specs::Text::text_end_after, crate::specs::Preludes::texture_prelude))]
    #[inline(always)]
    fn append_texture_prelude(&mut self, old: Texture, texture: Texture)
        requires space { length self.old.bytes + piece_limit ≤ buffer_limit }
        ensures appends { AppendsCommands (texture_prelude old (Some texture)) self.old self.new }
        ensures most { length self.new.bytes ≤ length self.old.bytes + piece_limit }
    {
        if old == texture {
            return;
        }
        self.append_mask(texture.word, old.mask, texture.mask);
    }

    /// Appends the selection of the colour of mode 0, unless the old colour is of that mode.
    #[tactic(auto, unfolding(crate::specs::Text::pieces_bytes, crate::specs::Text::text_end_after))]
    #[inline(always)]
    fn append_select_base(&mut self, old: Colour)
        requires space { length self.old.bytes + 2 ≤ buffer_limit }
        ensures appends { AppendsCommands (base_commands old) self.old self.new }
        ensures most { length self.new.bytes ≤ length self.old.bytes + 2 }
    {
        match old {
            Colour::Own(_) | Colour::Direct(_) => {}
            _ => self.append_opcode_and_operands(opcodes::SELECT_COLOR, &[], &[]),
        }
    }

    /// Appends SET COLOR, unless this is the colour of mode 0.
    #[tactic(auto, unfolding(crate::specs::Text::pieces_bytes, crate::specs::Text::text_end_after))]
    #[inline(always)]
    fn append_base(&mut self, base: Base, grb: Grb)
        requires space { length self.old.bytes + 10 ≤ buffer_limit }
        ensures appends { AppendsCommands (unless (same_base base (Base.Direct grb)) (Command.set_color grb ∷ [])) self.old self.new }
        ensures most { length self.new.bytes ≤ length self.old.bytes + 10 }
    {
        if base == Base::Direct(grb) {
            return;
        }
        self.append_set_color(grb);
    }

    /// Appends the commands that set a colour.
    #[tactic(auto, unfolding(crate::specs::Text::pieces_bytes, crate::specs::Text::text_end_after))]
    #[inline(never)]
    fn append_colour(&mut self, old: &Drawing, colour: &Colour)
        requires space { length self.old.bytes + 36 ≤ buffer_limit }
        ensures appends { AppendsCommands (colour_commands old.now.base old.now.colour colour.now) self.old self.new }
        ensures most { length self.new.bytes ≤ length self.old.bytes + 36 }
    {
        match *colour {
            Colour::Own(_) => self.append_opcode_and_operands(opcodes::SELECT_COLOR, &[], &[]),
            Colour::Direct(grb) => {
                self.append_select_base(old.colour);
                self.append_base(old.base, grb);
            }
            Colour::Front(addr) => self.append_select_front(addr),
            Colour::Pair(front, back) => {
                self.append_opcode_and_operands(
                    opcodes::SELECT_COLOR,
                    &put_addr(front),
                    &put_addr(back),
                );
            }
            Colour::ByReset(_) => {}
        }
    }

    /// Appends the prelude of a colour.
    #[tactic(auto, unfolding(crate::specs::Text::pieces_bytes, crate::specs::Text::text_end_after, crate::specs::Preludes::colour_prelude))]
    #[inline(always)]
    pub(super) fn append_colour_prelude(&mut self, old: &Drawing, colour: &Colour)
        requires space { length self.old.bytes + 36 ≤ buffer_limit }
        ensures appends { AppendsCommands (colour_prelude old.now.base old.now.colour (Some colour.now)) self.old self.new }
        ensures most { length self.new.bytes ≤ length self.old.bytes + 36 }
    {
        if is_colour(&old.colour, colour) {
            return;
        }
        self.append_colour(old, colour);
    }

    /// Appends the words of text and a given size, if they have to be set.
    #[tactic(auto, unfolding(crate::specs::Text::pieces_bytes, crate::specs::Text::text_end_after))]
    #[inline(always)]
    fn append_given_size(&mut self, old: &TextLook, look: &TextLook)
        requires space { length self.old.bytes + piece_limit ≤ buffer_limit }
        ensures appends { AppendsCommands (given_size_commands old.now look.now look.now.size) self.old self.new }
        ensures most { length self.new.bytes ≤ length self.old.bytes + piece_limit }
    {
        let words = [word_byte(look.first), word_byte(look.second)];
        match look.size {
            CharSize::Given(size) if old.size != look.size => {
                self.append_opcode_and_operands(opcodes::TEXT, &words, &put_move(size));
            }
            _ if old.first == look.first && old.second == look.second => {}
            _ => self.append_opcode_and_operands(opcodes::TEXT, &[], &words),
        }
    }

    /// Appends the control of a named size, if it has to be set.
    #[tactic(auto, unfolding(crate::specs::Text::pieces_bytes, crate::specs::Text::text_end_after))]
    #[inline(always)]
    fn append_named_size(&mut self, old: CharSize, size: CharSize)
        requires space { length self.old.bytes + 2 ≤ buffer_limit }
        ensures appends { AppendsCommands (named_size_commands old size) self.old self.new }
        ensures most { length self.new.bytes ≤ length self.old.bytes + 2 }
    {
        match size {
            CharSize::Named(name) if old != size => self.append_control(&[0x1B, size_byte(name)]),
            _ => {}
        }
    }

    /// Appends the control of a flag, if it has to be set.
    #[tactic(auto, unfolding(crate::specs::Text::pieces_bytes, crate::specs::Text::text_end_after))]
    #[inline(always)]
    fn append_flag(&mut self, flag: Flag, old: bool, on: bool)
        requires space { length self.old.bytes + 2 ≤ buffer_limit }
        ensures appends { AppendsCommands (flag_commands flag old on) self.old self.new }
        ensures most { length self.new.bytes ≤ length self.old.bytes + 2 }
    {
        if old == on {
            return;
        }
        self.append_control(&[0x1B, flag_byte(flag, on)]);
    }

    /// Appends the prelude of text attributes, some of which aren't current.
    #[inline(never)]
    fn append_other_look_prelude(&mut self, old: &TextLook, look: &TextLook)
        requires space { length self.old.bytes + 108 ≤ buffer_limit }
        ensures appends { AppendsCommands (text_prelude old.now (Some look.now)) self.old self.new }
        ensures most { length self.new.bytes ≤ length self.old.bytes + 108 }
    {
        self.append_given_size(old, look);
        self.append_named_size(old.size, look.size);
        self.append_flag(Flag::Reverse, old.reverse, look.reverse);
        self.append_flag(Flag::Underline, old.underline, look.underline);
        self.append_flag(Flag::Wrap, old.wrap, look.wrap);
        self.append_flag(Flag::Scroll, old.scroll, look.scroll);
    }

    /// Appends the prelude of text attributes.
    #[inline(always)]
    pub(super) fn append_look_prelude(&mut self, old: &TextLook, look: &TextLook)
        requires space { length self.old.bytes + 108 ≤ buffer_limit }
        ensures appends { AppendsCommands (text_prelude old.now (Some look.now)) self.old self.new }
        ensures most { length self.new.bytes ≤ length self.old.bytes + 108 }
    {
        if old.is_look(look) {
            return;
        }
        self.append_other_look_prelude(old, look);
    }

    /// Appends the prelude of a pel and a colour, which may not be current.
    #[inline(always)]
    pub(super) fn append_other_point_prelude(&mut self, old: &Drawing, pel: Move, colour: &Colour)
        requires { length self.old.bytes + 54 ≤ buffer_limit }
        ensures appends { AppendsCommands (prelude old.now (point_attributes pel colour.now)) self.old self.new }
        ensures most { length self.new.bytes ≤ length self.old.bytes + 54 }
    {
        self.append_pel_prelude(old.pel, pel);
        self.append_colour_prelude(old, colour);
    }

    /// Appends the prelude of a pel and a colour. Returns whether both are current, so that nothing is appended.
    #[inline(always)]
    pub(crate) fn append_point_prelude(
        &mut self,
        old: &Drawing,
        pel: &Move,
        colour: &Colour,
    ) -> bool
        requires { length self.old.bytes + 54 ≤ buffer_limit }
        ensures appends { AppendsCommands (prelude old.now (point_attributes pel.now colour.now)) self.old self.new }
        ensures most { length self.new.bytes ≤ length self.old.bytes + 54 }
        ensures current { IsTrue result ↔ AreCurrent (point_attributes pel.now colour.now) old.now }
    {
        if point_is_current(old, *pel, *colour) {
            return true;
        }
        self.append_other_point_prelude(old, *pel, colour);
        false
    }

    /// Appends the prelude of attributes for lines and areas, some of which aren't current.
    #[inline(always)]
    pub(super) fn append_other_ink_prelude(
        &mut self,
        old: &Drawing,
        pel: Move,
        colour: &Colour,
        texture: Texture,
    )
        requires { length self.old.bytes + 72 ≤ buffer_limit }
        ensures appends { AppendsCommands (prelude old.now (ink_attributes (record { pel = pel; colour = colour.now; texture = texture }))) self.old self.new }
        ensures most { length self.new.bytes ≤ length self.old.bytes + 72 }
    {
        self.append_other_point_prelude(old, pel, colour);
        self.append_texture_prelude(old.texture, texture);
    }

    /// Appends the prelude of attributes for lines and areas. Returns whether all are current, so that nothing is
    /// appended.
    #[inline(always)]
    pub(crate) fn append_ink_prelude(&mut self, old: &Drawing, ink: &Ink) -> bool
        requires { length self.old.bytes + 72 ≤ buffer_limit }
        ensures appends { AppendsCommands (prelude old.now (ink_attributes ink.now)) self.old self.new }
        ensures most { length self.new.bytes ≤ length self.old.bytes + 72 }
        ensures current { IsTrue result ↔ AreCurrent (ink_attributes ink.now) old.now }
    {
        if ink_is_current(old, ink) {
            return true;
        }
        self.append_other_ink_prelude(old, ink.pel, &ink.colour, ink.texture);
        false
    }

    /// Appends the prelude of the attributes for lines and areas of these ones. Returns whether all are current, so that
    /// nothing is appended. Copies the attributes only where some aren't.
    #[inline(always)]
    pub(crate) fn append_drawing_prelude(&mut self, old: &Drawing, drawing: &Drawing) -> bool
        requires { length self.old.bytes + 72 ≤ buffer_limit }
        ensures appends { AppendsCommands (prelude old.now (ink_attributes (ink_of drawing.now))) self.old self.new }
        ensures most { length self.new.bytes ≤ length self.old.bytes + 72 }
        ensures current { IsTrue result ↔ AreCurrent (ink_attributes (ink_of drawing.now)) old.now }
    {
        if ink_is_current(old, &drawing.ink()) {
            return true;
        }
        self.append_other_ink_prelude(old, drawing.pel, &drawing.colour, drawing.texture);
        false
    }

    /// Appends the prelude of a pen, a colour and text attributes. Returns whether all are current, so that nothing is
    /// appended.
    #[inline(always)]
    pub(crate) fn append_hand_prelude(&mut self, old: &Drawing, hand: &Hand) -> bool
        requires { length self.old.bytes + 162 ≤ buffer_limit }
        ensures appends { AppendsCommands (prelude old.now (hand_attributes hand.now)) self.old self.new }
        ensures most { length self.new.bytes ≤ length self.old.bytes + 162 }
        ensures current { IsTrue result ↔ AreCurrent (hand_attributes hand.now) old.now }
    {
        if hand_is_current(old, hand) {
            return true;
        }
        self.append_other_hand_prelude(old, hand);
        false
    }

    /// Appends the prelude of a pen, a colour and text attributes, some of which may not be current.
    #[inline(never)]
    fn append_other_hand_prelude(&mut self, old: &Drawing, hand: &Hand)
        requires { length self.old.bytes + 162 ≤ buffer_limit }
        ensures appends { AppendsCommands (prelude old.now (hand_attributes hand.now)) self.old self.new }
        ensures most { length self.new.bytes ≤ length self.old.bytes + 162 }
    {
        self.append_pen_prelude(old.pen, hand.pen);
        self.append_colour_prelude(old, &hand.colour);
        self.append_look_prelude(&old.text, &hand.text);
    }

    /// Appends the prelude of an entry. Builds no `Attributes`.
    #[tactic(auto, unfolding(crate::specs::Text::pieces_bytes, crate::specs::Text::text_end_after, crate::specs::Preludes::prelude, crate::specs::Preludes::pen_prelude, crate::specs::Preludes::pel_prelude, crate::specs::Preludes::colour_prelude, crate::specs::Preludes::texture_prelude, crate::specs::Preludes::text_prelude))]
    #[inline(always)]
    pub(crate) fn append_prelude(&mut self, old: &Drawing, entry: &Entry)
        requires { length self.old.bytes + 162 ≤ buffer_limit }
        ensures appends { AppendsCommands (prelude old.now (attributes entry.now)) self.old self.new }
        ensures most { length self.new.bytes ≤ length self.old.bytes + 162 }
    {
        match entry {
            Entry::Point { pel, colour, .. } => {
                self.append_other_point_prelude(old, *pel, colour);
            }
            Entry::Line { ink, .. }
            | Entry::Arc { ink, .. }
            | Entry::Rect { ink, .. }
            | Entry::Poly { ink, .. } => {
                self.append_other_ink_prelude(old, ink.pel, &ink.colour, ink.texture);
            }
            Entry::Char { hand, .. } | Entry::TextMove { hand, .. } | Entry::ToEol { hand } => {
                self.append_other_hand_prelude(old, hand);
            }
            Entry::Blink { colour, .. }
            | Entry::BlinkEnd { colour }
            | Entry::BlinkMark { colour, .. } => self.append_colour_prelude(old, colour),
            Entry::Field { pen, .. } | Entry::Reset { pen, .. } | Entry::Clear { pen } => {
                self.append_pen_prelude(old.pen, *pen);
            }
            Entry::Map { .. } | Entry::Wait(_) | Entry::Bell | Entry::Cursor(_) => {}
            Entry::GlyphStart(_) | Entry::MaskStart(_) | Entry::DefEnd => {}
        }
    }
}
