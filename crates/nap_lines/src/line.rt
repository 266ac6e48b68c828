//! The line of an entry (PROFILE.md, Lines of list).
ghost use Rattle.std.specs.Prelude.{◌≡◌, ◌+◌, ◌*◌, ◌≤◌, [], ◌∷◌, ◌++◌, IfOk, OnOk, OnErr, codes, length, string_bytes};
ghost use Rattle.std.specs.Str.{IsUtf8};
ghost use Rattle.nap_lines.specs.Lines.{line, points_text, fill_text, ink_text};
ghost use Rattle.nap_lines.specs.Parts.{closing_points, first_part, last_part, shape_name};
ghost use Rattle.nap_lines.specs.Writing.{AppendsText, NeedsUpTo, Pushes, line_limit, shape_size};
ghost use Rattle.nap_list.specs.Shapes.{entry_of_shape, shape_points};

use crate::backward_buffer::{BackwardBuffer, Buffer};
use crate::block::slice_part;
use crate::field::{POINTS_AT_ONCE, fill_name};
use nap_codes::{CharSet, CursorKind, Mask, TextStep};
use nap_list::{Area, Colour, Entry, Hand, Ink, Pen, Points, Shape, ShapeKind};
use nap_values::{Addr, Grb, Move, Point, Word};
use std::alloc::{AllocError, Global};

/// Whether memory was enough.
type Written = Result<(), AllocError>;

// Each method requires the space that its line may take.
impl BackwardBuffer {
    fn push_point_line(&mut self, at: Point, pel: Move, colour: &Colour)
        requires { length self.old + 102 ≤ line_limit }
        ensures { self.new ≡ line (Entry.Point at pel colour.now) ++ self.old }
    {
        self.push_point_end(pel, colour);
        self.push_point_front(at);
    }

    // Prepends a space and the part INK of a Line, a Rect or a shape.
    pub(crate) fn push_ink_part(&mut self, ink: &Ink)
        requires { length self.old + 118 ≤ line_limit }
        ensures { Pushes 118 (codes " " ++ ink_text ink.now) self.old self.new }
    {
        match ink.texture.mask {
            None => self.push("/none"),
            Some(size) => {
                self.push_displacement(size);
                self.push("/");
            }
        }
        self.push_word(ink.texture.word);
        self.push(" texture=");
        self.push_colour_field(&ink.colour);
        self.push_displacement(ink.pel);
        self.push(" pel=");
    }

    fn push_line_line(&mut self, from: Point, to: Point, ink: &Ink)
        requires { length self.old + 166 ≤ line_limit }
        ensures { self.new ≡ line (Entry.Line from to ink.now) ++ self.old }
    {
        self.push_ink_part(ink);
        self.push_line_front(from, to);
    }

    fn push_rect_line(&mut self, filled: bool, from: Point, to: Point, ink: &Ink)
        requires { length self.old + 175 ≤ line_limit }
        ensures { self.new ≡ line (Entry.Rect filled from to ink.now) ++ self.old }
    {
        self.push_ink_part(ink);
        self.push_point(to);
        self.push(" ");
        self.push_point(from);
        self.push(" ");
        self.push(fill_name(filled));
        self.push("RECT-");
    }

    fn push_char_line(&mut self, set: CharSet, code: u8, hand: &Hand)
        requires { length self.old + 150 ≤ line_limit }
        ensures { self.new ≡ line (Entry.Char set code hand.now) ++ self.old }
    {
        self.push_hand(hand);
        self.push(" ");
        self.push_char_front(set, code);
    }

    fn push_text_move_line(&mut self, step: TextStep, hand: &Hand)
        requires { length self.old + 143 ≤ line_limit }
        ensures { self.new ≡ line (Entry.TextMove step hand.now) ++ self.old }
    {
        self.push_hand(hand);
        self.push(" ");
        self.push_move_front(step);
    }

    fn push_to_eol_line(&mut self, hand: &Hand)
        requires { length self.old + 135 ≤ line_limit }
        ensures { self.new ≡ line (Entry.ToEol hand.now) ++ self.old }
    {
        self.push_hand(hand);
        self.push("TO-EOL ");
    }

    fn push_map_line(&mut self, addr: Addr, grb: Grb)
        requires { length self.old + 47 ≤ line_limit }
        ensures { self.new ≡ line (Entry.Map addr grb) ++ self.old }
    {
        self.push_grb(grb);
        self.push(" ");
        self.push_addr(addr);
        self.push("MAP ");
    }

    fn push_blink_line(&mut self, addr: Addr, on: Word, off: Word, delay: Word, colour: &Colour)
        requires { length self.old + 96 ≤ line_limit }
        ensures { self.new ≡ line (Entry.Blink addr on off delay colour.now) ++ self.old }
    {
        self.push_colour_field(colour);
        self.push_word(delay);
        self.push(",");
        self.push_word(off);
        self.push(",");
        self.push_word(on);
        self.push(" ");
        self.push_addr(addr);
        self.push("BLINK ");
    }

    fn push_blink_end_line(&mut self, colour: &Colour)
        requires { length self.old + 56 ≤ line_limit }
        ensures { self.new ≡ line (Entry.BlinkEnd colour.now) ++ self.old }
    {
        self.push_colour_field(colour);
        self.push("BLINK-END");
    }

    fn push_blink_mark_line(&mut self, on: bool, colour: &Colour)
        requires { length self.old + 58 ≤ line_limit }
        ensures { self.new ≡ line (Entry.BlinkMark on colour.now) ++ self.old }
    {
        self.push_colour_field(colour);
        if on {
            self.push("START");
        } else {
            self.push("STOP");
        }
        self.push("BLINK-");
    }

    fn push_wait_line(&mut self, tenths: Word)
        requires { length self.old + 15 ≤ line_limit }
        ensures { self.new ≡ line (Entry.Wait tenths) ++ self.old }
    {
        self.push_word(tenths);
        self.push("WAIT ");
    }

    fn push_cursor_line(&mut self, kind: CursorKind)
        requires { length self.old + 13 ≤ line_limit }
        ensures { self.new ≡ line (Entry.Cursor kind) ++ self.old }
    {
        match kind {
            CursorKind::Flash => self.push("flash"),
            CursorKind::Steady => self.push("steady"),
            CursorKind::Off => self.push("off"),
        }
        self.push("CURSOR ");
    }

    fn push_field_line(&mut self, area: Area, pen: Pen)
        requires { length self.old + 75 ≤ line_limit }
        ensures { self.new ≡ line (Entry.Field area pen) ++ self.old }
    {
        self.push_pen(pen);
        self.push(" pen=");
        match area {
            Area::Whole => self.push("whole"),
            Area::Part { from, to } => {
                self.push_point(to);
                self.push(" ");
                self.push_point(from);
            }
        }
        self.push("FIELD ");
    }

    fn push_reset_line(&mut self, first: Word, second: Word, pen: Pen)
        requires { length self.old + 53 ≤ line_limit }
        ensures { self.new ≡ line (Entry.Reset first second pen) ++ self.old }
    {
        self.push_pen(pen);
        self.push(" pen=");
        self.push_word(second);
        self.push(" ");
        self.push_word(first);
        self.push("RESET ");
    }

    fn push_clear_line(&mut self, pen: Pen)
        requires { length self.old + 31 ≤ line_limit }
        ensures { self.new ≡ line (Entry.Clear pen) ++ self.old }
    {
        self.push_pen(pen);
        self.push("CLEAR pen=");
    }

    fn push_glyph_line(&mut self, code: u8)
        requires { length self.old + 8 ≤ line_limit }
        ensures { self.new ≡ line (Entry.GlyphStart code) ++ self.old }
    {
        self.push_code(code);
        self.push("GLYPH ");
    }

    fn push_mask_line(&mut self, mask: Mask)
        requires { length self.old + 6 ≤ line_limit }
        ensures { self.new ≡ line (Entry.MaskStart mask) ++ self.old }
    {
        match mask {
            Mask::A => self.push("A"),
            Mask::B => self.push("B"),
            Mask::C => self.push("C"),
            Mask::D => self.push("D"),
        }
        self.push("MASK ");
    }

    // Prepends what follows the points of a shape, or all of any other line.
    fn push_last_part(&mut self, entry: &Entry)
        requires { length self.old ≤ 1 }
        ensures { self.new ≡ last_part entry.now ++ self.old }
    {
        match entry {
            Entry::Point { at, pel, colour } => self.push_point_line(*at, *pel, colour),
            Entry::Line { from, to, ink } => self.push_line_line(*from, *to, ink),
            Entry::Arc { ink, .. } => self.push_ink_part(ink),
            Entry::Rect {
                filled,
                from,
                to,
                ink,
            } => self.push_rect_line(*filled, *from, *to, ink),
            Entry::Poly { ink, .. } => self.push_ink_part(ink),
            Entry::Char { set, code, hand } => self.push_char_line(*set, *code, hand),
            Entry::TextMove { step, hand } => self.push_text_move_line(*step, hand),
            Entry::ToEol { hand } => self.push_to_eol_line(hand),
            Entry::Map { addr, grb } => self.push_map_line(*addr, *grb),
            Entry::Blink {
                addr,
                on,
                off,
                delay,
                colour,
            } => self.push_blink_line(*addr, *on, *off, *delay, colour),
            Entry::BlinkEnd { colour } => self.push_blink_end_line(colour),
            Entry::BlinkMark { on, colour } => self.push_blink_mark_line(*on, colour),
            Entry::Wait(tenths) => self.push_wait_line(*tenths),
            Entry::Bell => self.push("BELL"),
            Entry::Cursor(kind) => self.push_cursor_line(*kind),
            Entry::Field { area, pen } => self.push_field_line(*area, *pen),
            Entry::Reset { first, second, pen } => self.push_reset_line(*first, *second, *pen),
            Entry::Clear { pen } => self.push_clear_line(*pen),
            Entry::GlyphStart(code) => self.push_glyph_line(*code),
            Entry::MaskStart(mask) => self.push_mask_line(*mask),
            Entry::DefEnd => self.push("END"),
        }
    }
}

// Appends points, each after a space.
fn write_points(buffer: &mut Buffer, text: &mut Vec<u8>, points: &[Point]) -> Written
    ensures appends { AppendsText text.old.items (points_text points.now) text.new.items result }
    ensures memory { NeedsUpTo (16 * length points.now) text.old text.new result }
{
    let mut written = 0;
    while written < points.len() {
        let count = (points.len() - written).min(POINTS_AT_ONCE);
        buffer.clear();
        buffer.push_points(slice_part(points, written, count));
        text.extend_from_slice(buffer.as_slice())?;
        written += count;
    }
    Ok(())
}

// Appends the name of a shape.
fn write_shape_name(buffer: &mut Buffer, text: &mut Vec<u8>, name: &str, filled: bool) -> Written
    requires { length name.now ≤ 5 }
    ensures appends { AppendsText text.old.items (name.now ++ fill_text filled) text.new.items result }
    ensures memory { NeedsUpTo 13 text.old text.new result }
{
    buffer.clear();
    buffer.push(fill_name(filled));
    buffer.push(name);
    text.extend_from_slice(buffer.as_slice())?;
    Ok(())
}

// Appends the name and the points of a shape.
fn write_shape(
    buffer: &mut Buffer,
    text: &mut Vec<u8>,
    name: &str,
    filled: bool,
    points: &Points,
) -> Written
    requires { length name.now ≤ 5 }
    ensures appends { AppendsText text.old.items (name.now ++ fill_text filled ++ points_text points.now) text.new.items result }
    ensures memory { NeedsUpTo (13 + 16 * length points.now) text.old text.new result }
{
    write_shape_name(buffer, text, name, filled)?;
    write_points(buffer, text, points.as_slice())
}

// Appends the name and the points of a shape, and nothing for any other entry.
fn write_first_part(buffer: &mut Buffer, text: &mut Vec<u8>, entry: &Entry) -> Written
    ensures appends { AppendsText text.old.items (first_part entry.now) text.new.items result }
    ensures memory { NeedsUpTo (13 + 16 * shape_size entry.now) text.old text.new result }
{
    match entry {
        Entry::Arc { filled, points, .. } => write_shape(buffer, text, "ARC-", *filled, points),
        Entry::Poly { filled, points, .. } => write_shape(buffer, text, "POLY-", *filled, points),
        _ => Ok(()),
    }
}

// Appends the line of an entry and `end`. The buffer's contents are ignored before, and of no use after.
fn write_parts(buffer: &mut Buffer, text: &mut Vec<u8>, entry: &Entry, end: &str) -> Written
    requires { length end.now ≤ 1 }
    ensures appends { AppendsText text.old.items (line entry.now ++ end.now) text.new.items result }
    ensures memory { NeedsUpTo (269 + 16 * shape_size entry.now) text.old text.new result }
{
    write_first_part(buffer, text, entry)?;
    buffer.clear();
    buffer.push(end);
    buffer.push_last_part(entry);
    text.extend_from_slice(buffer.as_slice())?;
    Ok(())
}

/// Appends the line of an entry and `end` to the text, using a buffer whose contents are ignored.
pub(crate) fn write_line(
    buffer: &mut Buffer,
    text: &mut Vec<u8>,
    entry: &Entry,
    end: &str,
) -> Written
    requires { length end.now ≤ 1 }
    ensures ok { OnOk result (text.new.items ≡ text.old.items ++ line entry.now ++ end.now) }
    ensures err { OnErr result (text.new.items ≡ text.old.items) }
    ensures utf8 { IsUtf8 text.old.items → OnOk result (IsUtf8 text.new.items) }
    ensures memory { NeedsUpTo (269 + 16 * shape_size entry.now) text.old text.new result }
{
    let before = text.len();
    let written = write_parts(buffer, text, entry, end);
    if written.is_err() {
        text.truncate(before);
    }
    written
}

/// Appends the line of an entry and LF to the text. Takes no memory but that of the text (PROFILE.md, Lines of list).
pub fn append_line(text: &mut Vec<u8>, entry: &Entry) -> Result<(), AllocError>
    ensures ok { OnOk result (text.new.items ≡ text.old.items ++ line entry.now ++ 10 ∷ []) }
    ensures err { OnErr result (text.new.items ≡ text.old.items) }
{
    write_line(&mut BackwardBuffer::new(), text, entry, "\n")
}

/// Returns the line of an entry, without LF (PROFILE.md, Lines of list).
pub fn line_of(alloc: Global, entry: &Entry) -> Result<String, AllocError>
    ensures { IfOk result (λ s. string_bytes s ≡ line entry.now) }
{
    let mut text = Vec::new(alloc);
    write_line(&mut BackwardBuffer::new(), &mut text, entry, "")?;
    Ok(String::from_utf8(text).unwrap())
}

/// Returns the name of a shape.
fn shape_name(kind: ShapeKind) -> &'static str
    ensures bytes { result.now ≡ shape_name kind }
    ensures size { length result.now ≤ 5 }
{
    match kind {
        ShapeKind::Arc => "ARC-",
        ShapeKind::Poly => "POLY-",
    }
}

/// Appends the start of a shape again, if it returns there: an arc of one displacement, a circle.
fn write_closing(buffer: &mut Buffer, text: &mut Vec<u8>, shape: &Shape) -> Written
    ensures appends { AppendsText text.old.items (points_text (closing_points shape.now.kind shape.now.from shape.now.others.now)) text.new.items result }
    ensures memory { NeedsUpTo 16 text.old text.new result }
{
    match shape.kind {
        ShapeKind::Arc if shape.others.len() == 1 => write_points(buffer, text, &[shape.from]),
        _ => Ok(()),
    }
}

/// Appends the part INK of a shape, and LF.
fn write_ink(buffer: &mut Buffer, text: &mut Vec<u8>, ink: &Ink) -> Written
    ensures appends { AppendsText text.old.items (codes " " ++ ink_text ink.now ++ 10 ∷ []) text.new.items result }
    ensures memory { NeedsUpTo 256 text.old text.new result }
{
    buffer.clear();
    buffer.push("\n");
    buffer.push_ink_part(ink);
    text.extend_from_slice(buffer.as_slice())?;
    Ok(())
}

/// Appends the line of a shape's entry, and LF.
fn write_shape_parts(buffer: &mut Buffer, text: &mut Vec<u8>, shape: &Shape) -> Written
    ensures appends { AppendsText text.old.items (line (entry_of_shape shape.now) ++ 10 ∷ []) text.new.items result }
    ensures memory { NeedsUpTo (16 * length shape.now.others.now + 301) text.old text.new result }
{
    write_shape_name(buffer, text, shape_name(shape.kind), shape.filled)?;
    write_points(buffer, text, &[shape.from])?;
    write_points(buffer, text, shape.others)?;
    write_closing(buffer, text, shape)?;
    write_ink(buffer, text, &shape.drawing.ink())
}

/// Appends the line of a shape's entry and LF to the text, using a buffer whose contents are ignored.
pub(crate) fn write_shape_line(buffer: &mut Buffer, text: &mut Vec<u8>, shape: &Shape) -> Written
    ensures ok { OnOk result (text.new.items ≡ text.old.items ++ (line (entry_of_shape shape.now) ++ 10 ∷ [])) }
    ensures err { OnErr result (text.new.items ≡ text.old.items) }
    ensures memory { NeedsUpTo (16 * length shape.now.others.now + 301) text.old text.new result }
{
    let before = text.len();
    let written = write_shape_parts(buffer, text, shape);
    if written.is_err() {
        text.truncate(before);
    }
    written
}
