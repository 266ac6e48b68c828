//! Lines of the entries of a batch, which share their ends.
ghost use Rattle.std.specs.Prelude.{◌≡◌, ◌+◌, ◌≤◌, ◌++◌, drop, flat_map, length, map, take};
ghost use Rattle.nap_list.specs.Batches.{batch_entries, point_entry, polyline_entries, text_entries_in};
ghost use Rattle.nap_lines.specs.Listing.{lines};
ghost use Rattle.nap_lines.specs.Batches.{point_front, point_end, line_front, char_front, move_front, text_byte_front, pen_at};
ghost use Rattle.nap_lines.specs.Writing.{NeedsLines, Pushes, line_limit};

use crate::backward_buffer::{BackwardBuffer, Buffer};
use crate::block::{BLOCK, fill_lines, recode_lines, slice_part};
use nap_codes::{CharSet, TextStep, format_effector};
use nap_list::{Batch, Colour, Drawing, Hand, Pen, line_start};
use nap_values::{Move, Point};

/// Appends a line for each byte of a text, each with the buffer's contents as its end, by blocks of lines. Returns the
/// number of lines, which is less than the number of bytes only if memory runs out.
#[inline(never)]
fn write_many(buffer: &mut Buffer, text: &mut Vec<u8>, set: CharSet, codes: &[u8]) -> usize
    requires space { length buffer.old + 21 ≤ line_limit }
    ensures count { result ≤ length codes.now }
    ensures text { text.new.items ≡ text.old.items ++ flat_map (λ code. text_byte_front set code ++ buffer.old) (take result codes.now) }
    ensures memory { NeedsLines (length codes.now) text.old text.new result }
{
    let end = buffer.len();
    // The digits of each code replace these.
    buffer.push_char_front(set, 0);
    let size = buffer.len();
    let place = size - end - 2;
    let ready = (BLOCK / size).min(codes.len());
    let mut block = [0; BLOCK];
    fill_lines(&mut block, buffer.as_slice(), ready);
    let mut written = 0;
    while written < codes.len() {
        let most = ready.min(codes.len() - written);
        let count = recode_lines(&mut block, size, place, slice_part(codes, written, most));
        if count == 0 {
            buffer.keep_last(end);
            buffer.push_text_byte_front(set, codes[written]);
            let Ok(()) = text.extend_from_slice(buffer.as_slice()) else {
                return written;
            };
            written += 1;
        } else {
            let Ok(()) = text.extend_from_slice(slice_part(&block, 0, count * size)) else {
                return written;
            };
            written += count;
        }
    }
    written
}

impl BackwardBuffer {
    /// Prepends the end of a Point's line: its attributes.
    pub(crate) fn push_point_end(&mut self, pel: Move, colour: &Colour)
        requires space { length self.old + 75 ≤ line_limit }
        ensures { Pushes 75 (point_end pel colour.now) self.old self.new }
    {
        self.push_colour_field(colour);
        self.push_displacement(pel);
        self.push(" pel=");
    }

    /// Prepends the beginning of a Point's line.
    pub(crate) fn push_point_front(&mut self, at: Point)
        requires space { length self.old + 27 ≤ line_limit }
        ensures { self.new ≡ point_front at ++ self.old }
    {
        self.push_point(at);
        self.push("POINT ");
    }

    /// Prepends the beginning of a Line's line.
    pub(crate) fn push_line_front(&mut self, from: Point, to: Point)
        requires space { length self.old + 48 ≤ line_limit }
        ensures { self.new ≡ line_front from to ++ self.old }
    {
        self.push_point(to);
        self.push(" ");
        self.push_point(from);
        self.push("LINE ");
    }

    /// Prepends the beginning of a Char's line.
    pub(crate) fn push_char_front(&mut self, set: CharSet, code: u8)
        requires space { length self.old + 21 ≤ line_limit }
        ensures { self.new ≡ char_front set code ++ self.old }
    {
        self.push_code(code);
        self.push(" ");
        match set {
            CharSet::Primary => self.push("primary"),
            CharSet::Supplementary => self.push("supplementary"),
            CharSet::Mosaic => self.push("mosaic"),
            CharSet::Drcs => self.push("drcs"),
        }
        self.push("CHAR ");
    }

    /// Prepends the beginning of a TextMove's line.
    pub(crate) fn push_move_front(&mut self, step: TextStep)
        requires space { length self.old + 14 ≤ line_limit }
        ensures { self.new ≡ move_front step ++ self.old }
    {
        match step {
            TextStep::Apb => self.push("APB"),
            TextStep::Apf => self.push("APF"),
            TextStep::Apd => self.push("APD"),
            TextStep::Apu => self.push("APU"),
            TextStep::Apr => self.push("APR"),
            TextStep::Aph => self.push("APH"),
            TextStep::Aps(row, column) => {
                self.push_code(column);
                self.push(" ");
                self.push_code(row);
                self.push("APS ");
            }
        }
        self.push("MOVE ");
    }

    /// Prepends the beginning of the line of a byte of a text: of a TextMove for a format effector, else of a Char.
    pub(crate) fn push_text_byte_front(&mut self, set: CharSet, code: u8)
        requires space { length self.old + 21 ≤ line_limit }
        ensures { self.new ≡ text_byte_front set code ++ self.old }
    {
        match format_effector(code) {
            Some(step) => self.push_move_front(step),
            None => self.push_char_front(set, code),
        }
    }
}

/// Appends a line for each point, with these attributes. Returns the number of lines, which is less than the number of
/// points only if memory runs out.
fn write_point_lines(
    buffer: &mut Buffer,
    text: &mut Vec<u8>,
    points: &[Point],
    drawing: &Drawing,
) -> usize
    ensures count { result ≤ length points.now }
    ensures text { text.new.items ≡ text.old.items ++ lines (take result (map (point_entry drawing.now) points.now)) }
    ensures memory { NeedsLines (length points.now) text.old text.new result }
{
    buffer.clear();
    buffer.push("\n");
    buffer.push_point_end(drawing.pel, &drawing.colour);
    let end = buffer.len();
    let mut written = 0;
    for at in points {
        buffer.keep_last(end);
        buffer.push_point_front(*at);
        let Ok(()) = text.extend_from_slice(buffer.as_slice()) else {
            return written;
        };
        written += 1;
    }
    written
}

/// Appends a line for each Line from `from` to the first point, and from each point to the next, as `write_point_lines`
/// does.
fn write_line_lines(
    buffer: &mut Buffer,
    text: &mut Vec<u8>,
    from: Point,
    points: &[Point],
    drawing: &Drawing,
) -> usize
    ensures count { result ≤ length points.now }
    ensures text { text.new.items ≡ text.old.items ++ lines (take result (polyline_entries drawing.now from points.now)) }
    ensures memory { NeedsLines (length points.now) text.old text.new result }
{
    buffer.clear();
    buffer.push("\n");
    buffer.push_ink_part(&drawing.ink());
    let end = buffer.len();
    let mut kept = buffer.push_point_copied(from);
    // A copy is stored with no test for overlap.
    buffer.push("LINE ");
    let name = buffer.copy_of_first(5);
    let mut written = 0;
    for to in points {
        buffer.keep_last(end);
        let next = buffer.push_point_copied(*to);
        buffer.push(" ");
        buffer.push_copied(&kept);
        buffer.push_copied(&name);
        let Ok(()) = text.extend_from_slice(buffer.as_slice()) else {
            return written;
        };
        kept = next;
        written += 1;
    }
    written
}

/// Appends a line for each byte of a text, the first with these attributes, as `write_point_lines` does.
fn write_text_lines(
    buffer: &mut Buffer,
    text: &mut Vec<u8>,
    set: CharSet,
    codes: &[u8],
    hand: &Hand,
) -> usize
    ensures count { result ≤ length codes.now }
    ensures text { text.new.items ≡ text.old.items ++ lines (take result (text_entries_in set hand.now codes.now)) }
    ensures memory { NeedsLines (length codes.now) text.old text.new result }
{
    let Some((first, others)) = codes.split_first() else {
        return 0;
    };
    buffer.clear();
    buffer.push("\n");
    buffer.push_hand_without_pen(hand);
    let end = buffer.len();
    buffer.push_pen(hand.pen);
    buffer.push(" pen=");
    buffer.push_text_byte_front(set, *first);
    let Ok(()) = text.extend_from_slice(buffer.as_slice()) else {
        return 0;
    };
    buffer.keep_last(end);
    buffer.push(" pen=after");
    write_many(buffer, text, set, others) + 1
}

/// Returns the pen of the entry at an index of a text that begins at this pen.
#[inline(always)]
fn pen_at(pen: Pen, index: usize) -> Pen
    ensures { result ≡ pen_at pen index }
{
    if index == 0 {
        return pen;
    }
    Pen::After
}

/// Appends a line for each of `count` entries of a batch, from `first`. Returns the number of lines, which is less only
/// if memory runs out.
#[inline(always)]
pub(crate) fn write_batch(
    buffer: &mut Buffer,
    text: &mut Vec<u8>,
    batch: &Batch,
    first: usize,
    count: usize,
) -> usize
    requires { first + count ≤ length (batch_entries batch.now) }
    ensures count { result ≤ count }
    ensures text { text.new.items ≡ text.old.items ++ lines (take result (drop first (batch_entries batch.now))) }
    ensures memory { NeedsLines count text.old text.new result }
{
    match batch {
        Batch::Points { points, drawing } => {
            write_point_lines(buffer, text, slice_part(points, first, count), drawing)
        }
        Batch::Lines {
            from,
            points,
            drawing,
        } => {
            let from = line_start(*from, points, first);
            write_line_lines(
                buffer,
                text,
                from,
                slice_part(points, first, count),
                drawing,
            )
        }
        Batch::Text {
            set,
            codes,
            pen,
            drawing,
        } => {
            let hand = Hand {
                pen: pen_at(*pen, first),
                colour: drawing.colour,
                text: drawing.text,
            };
            write_text_lines(buffer, text, *set, slice_part(codes, first, count), &hand)
        }
    }
}
