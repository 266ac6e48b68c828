//! The spelling of each entry whose attributes are current (PROFILE.md, Canonical text).
ghost use Rattle.std.specs.Prelude.{◌≡◌, true, ◌≤◌, ◌+◌, ◌++◌, [], ◌∷◌, length, ◌<◌, if◌then◌else◌};
ghost use Rattle.nap_canon.specs.Names.{addr_bytes, attributes, hand_attributes, hand_of, point_bytes, with_attributes};
ghost use Rattle.nap_canon.specs.Spelling.{word_byte, mask_byte, cursor_byte, area_bytes, domain_again, opcode, map_pieces, spelling_pieces, step_bytes, primary, char_piece, text_byte_piece, control, shape_bytes, joinable_piece, line_piece, rect_piece};
ghost use Rattle.nap_canon.specs.Writing.{AppendsPieces, AppendsPiece, is_short, AppendsCommands, PathOf};
ghost use Rattle.nap_canon.specs.Buffers.{piece_limit, buffer_limit};
ghost use Rattle.nap_canon.specs.Preludes.{prelude};

use crate::pending::{LENGTHS, Pending, opcodes, word_byte};
use crate::text::Form;
use nap_codes::{CharSet, CursorKind, Mask, TextStep, format_effector};
use nap_list::{Area, Colour, Drawing, Entry, Pen};
use nap_values::{Addr, Grb, Point, Word, put_addr, put_move, put_point};

/// Returns the argument of DEF TEXTURE.
fn mask_byte(mask: Mask) -> u8
    ensures { result ≡ mask_byte mask }
{
    0x41 + mask as u8
}

fn cursor_byte(kind: CursorKind) -> u8
    ensures { result ≡ cursor_byte kind }
{
    0x5B + kind as u8
}

impl Pending {
    /// Appends SET COLOR at an address, after the selection of that address if it isn't the colour.
    #[inline(always)]
    pub(crate) fn append_map(&mut self, old: &Drawing, addr: Addr, grb: Grb)
        requires { length self.old.bytes + 46 ≤ buffer_limit }
        ensures { AppendsPieces (map_pieces old.now addr grb) self.old self.new }
    {
        self.append_colour_prelude(old, &Colour::Front(addr));
        self.append_set_color(grb);
    }

    /// Appends BLINK with an address and its times.
    #[inline(always)]
    fn append_blink(&mut self, addr: Addr, on: Word, off: Word, delay: Word)
        requires { length self.old.bytes + 9 ≤ buffer_limit }
        ensures { AppendsPiece (opcode 0x3F (addr_bytes addr ++ word_byte on ∷ word_byte off ∷ word_byte delay ∷ [])) self.old self.new }
    {
        self.append_opcode_and_operands(
            opcodes::BLINK,
            &put_addr(addr)[..4],
            &[word_byte(on), word_byte(off), word_byte(delay)],
        );
    }

    /// Appends DOMAIN again after RESET with this word, if that resets the operand lengths.
    #[tactic(auto, unfolding(crate::specs::Text::pieces_bytes, crate::specs::Text::text_end_after))]
    #[inline(always)]
    fn append_domain_again(&mut self, first: Word)
        requires { length self.old.bytes + 3 ≤ buffer_limit }
        ensures { AppendsPieces (domain_again first) self.old self.new }
    {
        if first.get() % 2 == 1 {
            self.append_opcode_and_operands(opcodes::DOMAIN, &[], &[LENGTHS]);
        }
    }

    /// Appends RESET, and DOMAIN again if that resets the operand lengths.
    #[inline(always)]
    fn append_reset(&mut self, first: Word, second: Word)
        requires { length self.old.bytes + 7 ≤ buffer_limit }
        ensures { AppendsPieces (opcode 0x20 (word_byte first ∷ word_byte second ∷ []) ∷ domain_again first) self.old self.new }
    {
        let words = [word_byte(first), word_byte(second)];
        self.append_opcode_and_operands(opcodes::RESET, &[], &words);
        self.append_domain_again(first);
    }

    /// Appends FIELD with its area.
    #[inline(always)]
    fn append_field(&mut self, area: Area)
        requires { length self.old.bytes + piece_limit ≤ buffer_limit }
        ensures { AppendsPiece (opcode 0x38 (area_bytes area)) self.old self.new }
    {
        match area {
            Area::Whole => self.append_opcode_and_operands(opcodes::FIELD, &[], &[]),
            Area::Part { from, to } => {
                self.append_opcode_and_operands(
                    opcodes::FIELD,
                    &put_point(from),
                    &put_move(from.to(to)),
                );
            }
        }
    }

    /// Appends the spelling of an entry that isn't an arc or polygon, whose attributes are current.
    #[tactic(auto, unfolding(crate::specs::Text::pieces_bytes, crate::specs::Text::text_end_after))]
    #[inline(always)]
    pub(crate) fn append_spelling(&mut self, form: Form, old: &Drawing, entry: &Entry)
        requires short { is_short entry.now ≡ true }
        requires space { length self.old.bytes + 46 ≤ buffer_limit }
        ensures { AppendsPieces (spelling_pieces form (with_attributes old.now (attributes entry.now)) entry.now) self.old self.new }
    {
        match entry {
            Entry::Point { at, .. } => self.append_point(form, *at),
            Entry::Line { from, to, .. } => self.append_line(form, old.pen, *from, *to),
            Entry::Rect {
                filled,
                from,
                to,
                ..
            } => self.append_rect(form, *filled, *from, *to),
            Entry::Char { set, code, .. } => self.character(*set, *code),
            Entry::TextMove { step, .. } => self.append_text_move(*step),
            Entry::ToEol { .. } => self.append_control(&[0x1B, 0x47]),
            Entry::Map { addr, grb } => self.append_map(old, *addr, *grb),
            Entry::Blink {
                addr,
                on,
                off,
                delay,
                ..
            } => self.append_blink(*addr, *on, *off, *delay),
            Entry::BlinkEnd { .. } => self.append_opcode_and_operands(opcodes::BLINK, &[], &[]),
            Entry::BlinkMark { on, .. } => self.append_control(&[
                0x1B,
                if *on { 0x4E } else { 0x5E },
            ]),
            Entry::Wait(word) => self.append_opcode_and_operands(
                opcodes::WAIT,
                &[],
                &[word_byte(*word)],
            ),
            Entry::Bell => self.append_control(&[0x07]),
            Entry::Cursor(kind) => self.append_control(&[0x1B, cursor_byte(*kind)]),
            Entry::Field { area, .. } => self.append_field(*area),
            Entry::Reset { first, second, .. } => self.append_reset(*first, *second),
            Entry::Clear { .. } => self.append_control(&[0x0C]),
            Entry::GlyphStart(code) => self.append_control(&[0x1B, 0x43, *code]),
            Entry::MaskStart(mask) => self.append_control(&[0x1B, 0x44, mask_byte(*mask)]),
            Entry::DefEnd => self.append_control(&[0x1B, 0x45]),
            Entry::Arc { .. } | Entry::Poly { .. } => unreachable!(),
        }
    }

    /// Appends a code of the primary characters, after SI if G0 isn't in GL.
    #[inline(always)]
    fn append_primary(&mut self, code: u8)
        requires { length self.old.bytes + 2 ≤ buffer_limit }
        ensures { AppendsPiece (primary code) self.old self.new }
    {
        self.append_shift_in();
        self.bytes.push(code);
    }

    /// Appends a character: after SS2 one of G2, after SS3 one of G3, which holds the DRCS only for that time.
    #[inline(always)]
    pub(crate) fn character(&mut self, set: CharSet, code: u8)
        requires { length self.old.bytes + 8 ≤ buffer_limit }
        ensures { AppendsPiece (char_piece set code) self.old self.new }
    {
        match set {
            CharSet::Primary => self.append_primary(code),
            CharSet::Supplementary => self.append_control(&[0x19, code]),
            CharSet::Mosaic => self.append_control(&[0x1D, code]),
            CharSet::Drcs => self.append_control(&[0x1B, 0x2B, 0x7B, 0x1D, code, 0x1B, 0x2B, 0x7D]),
        }
    }

    /// Appends a format effector.
    #[inline(always)]
    pub(crate) fn append_text_move(&mut self, step: TextStep)
        requires { length self.old.bytes + 3 ≤ buffer_limit }
        ensures { AppendsPiece (control (step_bytes step)) self.old self.new }
    {
        match step {
            TextStep::Apb => self.append_control(&[0x08]),
            TextStep::Apf => self.append_control(&[0x09]),
            TextStep::Apd => self.append_control(&[0x0A]),
            TextStep::Apu => self.append_control(&[0x0B]),
            TextStep::Apr => self.append_control(&[0x0D]),
            TextStep::Aph => self.append_control(&[0x1E]),
            TextStep::Aps(a, b) => self.append_control(&[0x1C, a, b]),
        }
    }

    /// Appends a byte of a text: a format effector, else a character of the set. Most are primary characters.
    #[inline(always)]
    pub(crate) fn append_text_byte(&mut self, set: CharSet, code: u8)
        requires { length self.old.bytes + 8 ≤ buffer_limit }
        ensures { AppendsPiece (text_byte_piece set code) self.old self.new }
    {
        if set == CharSet::Primary && code >= 0x20 {
            return self.append_primary(code);
        }
        self.append_other_text_byte(set, code);
    }

    /// Appends a byte of a text: a format effector, else a character of the set.
    #[inline(never)]
    fn append_other_text_byte(&mut self, set: CharSet, code: u8)
        requires { length self.old.bytes + 8 ≤ buffer_limit }
        ensures { AppendsPiece (text_byte_piece set code) self.old self.new }
    {
        match format_effector(code) {
            Some(step) => self.append_text_move(step),
            None => self.character(set, code),
        }
    }

    /// Appends the prelude of a text at this pen.
    #[inline(always)]
    pub(super) fn append_text_prelude(&mut self, old: &Drawing, pen: Pen, drawing: &Drawing)
        requires space { length self.old.bytes + 162 ≤ buffer_limit }
        ensures appends { AppendsCommands (prelude old.now (hand_attributes (record (hand_of drawing.now) { pen = pen }))) self.old self.new }
        ensures most { length self.new.bytes ≤ length self.old.bytes + 162 }
    {
        self.append_pen_prelude(old.pen, pen);
        self.append_colour_prelude(old, &drawing.colour);
        self.append_look_prelude(&old.text, &drawing.text);
    }

    /// Appends a shape through a few points.
    #[inline(always)]
    pub(crate) fn append_shape(&mut self, code: u8, first: Point, others: &[Point])
        requires few { length others.now ≤ 100 }
        requires space { length self.old.bytes + 810 ≤ buffer_limit }
        ensures { AppendsPiece (opcode code (shape_bytes (first ∷ others.now))) self.old self.new }
    {
        self.append_opcode_and_operands(code, &[], &put_point(first));
        self.bytes.append_displacements(first, others);
    }

    /// Appends a line. In form 2 a line that starts at the pen has only its end.
    #[inline(always)]
    pub(crate) fn append_line(&mut self, form: Form, pen: Pen, from: Point, to: Point)
        requires { length self.old.bytes + piece_limit ≤ buffer_limit }
        ensures { AppendsPiece (line_piece form pen from to) self.old self.new }
    {
        if form == Form::Two && pen == Pen::At(from) {
            return self.append_joinable(form, opcodes::LINE_ABS, &[], &put_point(to));
        }
        self.append_joinable(
            form,
            opcodes::SET_LINE_ABS,
            &put_point(from),
            &put_point(to),
        );
    }

    /// Appends a point.
    #[inline(always)]
    pub(crate) fn append_point(&mut self, form: Form, at: Point)
        requires { length self.old.bytes + 10 ≤ buffer_limit }
        ensures { AppendsPiece (joinable_piece form 0x26 (point_bytes at)) self.old self.new }
    {
        self.append_joinable(form, opcodes::POINT_ABS, &[], &put_point(at));
    }

    /// Appends a rectangle.
    #[inline(always)]
    pub(crate) fn append_rect(&mut self, form: Form, filled: bool, from: Point, to: Point)
        requires { length self.old.bytes + piece_limit ≤ buffer_limit }
        ensures { AppendsPiece (rect_piece form filled from to) self.old self.new }
    {
        let code = shape_opcode(opcodes::SET_RECT, filled);
        self.append_joinable(form, code, &put_point(from), &put_move(from.to(to)));
    }
}

/// A shape: its opcode and its points.
#[derive(Clone, Copy, Drop)]
pub(crate) struct Path<'a> {
    pub(crate) opcode: u8,
    pub(crate) points: &'a [Point],
}

/// Returns the shape of an entry, if it is an arc or polygon.
#[inline(always)]
pub(crate) fn path_of<'a>(entry: &'a Entry) -> Option<Path<'a>>
    ensures { PathOf result entry.now }
{
    let (outlined, filled, points) = match entry {
        Entry::Arc { filled, points, .. } => (opcodes::SET_ARC, *filled, points),
        Entry::Poly { filled, points, .. } => (opcodes::SET_POLY, *filled, points),
        _ => return None,
    };
    Some(Path {
        opcode: shape_opcode(outlined, filled),
        points: points.as_slice(),
    })
}

/// Returns the opcode of a shape: that of the filled one follows that of the outlined one.
pub(crate) fn shape_opcode(outlined: u8, filled: bool) -> u8
    requires { outlined < 255 }
    ensures { result ≡ if filled then (outlined + 1) else outlined }
{
    if filled { outlined + 1 } else { outlined }
}
