//! Writing of the canonical text of entries, one after another.
ghost use Rattle.std.specs.Prelude.{◌≡◌, ◌≤◌, ◌+◌, ◌∷◌, length, true};
ghost use Rattle.nap_canon.specs.Names.{Fits, attributes, circle_closed, entry_of_shape, start, with_attributes};
ghost use Rattle.nap_canon.specs.Spelling.{displacement_bytes, opcode, shape_bytes, shape, spelling_pieces};
ghost use Rattle.nap_canon.specs.Text.{header, gl_of, text_end_after_header};
ghost use Rattle.nap_canon.specs.Writing.{Puts, WritesBytes, WritesPendingAnd, WritesPieces, is_short};
ghost use Rattle.nap_canon.specs.Buffers.{buffer_limit};

use crate::byte_buffer::ByteBuffer;
use crate::byte_sink::ByteSink;
use crate::current::step_shape;
use crate::pending::{LENGTHS, Path, Pending, opcodes, path_of, shape_opcode};
use crate::text::Form;
use crate::text_end::TextEnd;
use nap_codes::GSet;
use nap_list::{Entry, Shape, ShapeKind, WrittenState, line_start};
use nap_values::Point;

mod joining;
mod single;
mod starting;

/// The greatest number of displacements that are buffered for one write.
const MAX_DISPLACEMENTS: usize = 128;

/// The greatest number of displacements that still fit after a prelude, an opcode and a point.
const MAX_DISPLACEMENTS_AFTER_PRELUDE: usize = 100;

/// Writes the text of entries.
#[derive(Drop)]
pub(crate) struct Writer<T: ByteSink + Drop> {
    pub(crate) target: T,
    form: Form,
    /// The text that isn't written yet.
    pending: Pending,
    pub(crate) state: WrittenState,
}

impl<T: ByteSink + Drop> Writer<T> {
    /// Returns a writer of a text in this form, whose header isn't written.
    pub(crate) fn new(form: Form, target: T) -> Writer<T>
        ensures to { result.target ≡ target }
        ensures form { result.form ≡ form }
        ensures text_end { result.pending.text_end ≡ text_end_after_header }
        ensures state { result.state ≡ start }
    {
        Writer {
            target,
            form,
            pending: Pending {
                text_end: TextEnd::NoRun(GSet::G1),
                bytes: ByteBuffer::new(),
            },
            state: WrittenState::start(),
        }
    }

    /// Writes the header: SO puts the PDI set into GL, and DOMAIN sets the operand lengths to eight and four.
    pub(crate) fn write_header(&mut self) -> Result<(), T::Fault>
        ensures { WritesBytes T.sent header (TextEnd.NoRun (gl_of self.old.pending.text_end)) self.old self.new result }
    {
        self.pending.bytes.clear();
        self.pending
            .append_control(&[0x0E, opcodes::DOMAIN, LENGTHS]);
        self.target.write_all(self.pending.bytes.as_slice())
    }

    /// Writes the displacements from a point to each of the others in turn.
    fn write_displacements(&mut self, first: Point, others: &[Point]) -> Result<(), T::Fault>
        ensures { WritesBytes T.sent (displacement_bytes first others.now) self.old.pending.text_end self.old self.new result }
    {
        let mut from = first;
        for chunk in others.chunks(MAX_DISPLACEMENTS) {
            self.pending.bytes.clear();
            self.pending.bytes.append_displacements(from, chunk);
            self.target.write_all(self.pending.bytes.as_slice())?;
            from = line_start(from, chunk, chunk.len());
        }
        Ok(())
    }

    /// Writes the pending text, and a shape through many points.
    #[inline(never)]
    fn write_long_path(&mut self, code: u8, first: Point, others: &[Point]) -> Result<(), T::Fault>
        requires many { 100 ≤ length others.now }
        requires space { length self.old.pending.bytes + 810 ≤ buffer_limit }
        ensures { WritesPendingAnd T.sent (opcode code (shape_bytes (first ∷ others.now))) self.old self.new result }
    {
        let (near, far) = others.split_at(MAX_DISPLACEMENTS_AFTER_PRELUDE);
        self.pending.append_shape(code, first, near);
        self.target.write_all(self.pending.bytes.as_slice())?;
        self.write_displacements(line_start(first, near, near.len()), far)
    }

    /// Writes the pending text, and a shape by its opcode.
    #[inline(always)]
    fn write_path(&mut self, code: u8, first: Point, others: &[Point]) -> Result<(), T::Fault>
        requires { length self.old.pending.bytes + 810 ≤ buffer_limit }
        ensures { WritesPendingAnd T.sent (opcode code (shape_bytes (first ∷ others.now))) self.old self.new result }
    {
        if others.len() > MAX_DISPLACEMENTS_AFTER_PRELUDE {
            return self.write_long_path(code, first, others);
        }
        self.pending.append_shape(code, first, others);
        self.target.write_all(self.pending.bytes.as_slice())
    }

    /// Writes the pending text, and a shape through its points.
    #[inline(never)]
    fn write_shape(&mut self, path: Path) -> Result<(), T::Fault>
        requires { length self.old.pending.bytes ≤ 162 }
        ensures { WritesPendingAnd T.sent (opcode path.entry.opcode (shape_bytes path.entry.points.now)) self.old self.new result }
    {
        let Some((first, others)) = path.points.split_first() else {
            self.pending
                .append_opcode_and_operands(path.opcode, &[], &[]);
            return self.target.write_all(self.pending.bytes.as_slice());
        };
        self.write_path(path.opcode, *first, others)
    }

    /// Writes the pending text, and an arc through a point and the others. One of a single displacement returns to its
    /// start.
    #[inline(always)]
    fn write_arc(&mut self, filled: bool, first: Point, others: &[Point]) -> Result<(), T::Fault>
        requires { length self.old.pending.bytes ≤ 72 }
        ensures { WritesPendingAnd T.sent (shape 0x2E filled (circle_closed (first ∷ others.now))) self.old self.new result }
    {
        let code = shape_opcode(opcodes::SET_ARC, filled);
        if let [point] = others {
            return self.write_path(code, first, &[*point, first]);
        }
        self.write_path(code, first, others)
    }

    /// Writes the pending text, and the spelling of a shape whose attributes are current.
    #[inline(always)]
    fn write_shape_spelling(&mut self, shape: &Shape) -> Result<(), T::Fault>
        requires { length self.old.pending.bytes ≤ 72 }
        ensures { WritesPieces T.sent (spelling_pieces self.old.form (with_attributes self.old.state.drawing (attributes (entry_of_shape shape.now))) (entry_of_shape shape.now)) self.old self.new result }
    {
        let (from, others) = (shape.from, shape.others);
        match shape.kind {
            ShapeKind::Arc => self.write_arc(shape.filled, from, others),
            ShapeKind::Poly => {
                self.write_path(shape_opcode(opcodes::SET_POLY, shape.filled), from, others)
            }
        }
    }

    /// Writes an arc or polygon that fits, as `put_ref` writes it.
    #[inline(never)]
    fn put_path(&mut self, entry: &Entry) -> Result<(), T::Fault>
        requires { Fits self.old.state entry.now }
        ensures { Puts T.sent entry.now self.old self.new result }
    {
        let Some(path) = path_of(entry) else {
            return self.put_other(entry);
        };
        self.pending.bytes.clear();
        self.pending.append_prelude(self.state.drawing(), entry);
        self.write_shape(path)?;
        self.state.step(entry);
        Ok(())
    }

    /// Writes an entry that fits, and isn't an arc or polygon, as `put_ref` writes it.
    #[inline(never)]
    fn put_other(&mut self, entry: &Entry) -> Result<(), T::Fault>
        requires short { is_short entry.now ≡ true }
        requires fits { Fits self.old.state entry.now }
        ensures { Puts T.sent entry.now self.old self.new result }
    {
        self.pending.bytes.clear();
        self.pending.append_prelude(self.state.drawing(), entry);
        self.pending
            .append_spelling(self.form, self.state.drawing(), entry);
        self.target.write_all(self.pending.bytes.as_slice())?;
        self.state.step(entry);
        Ok(())
    }

    /// Writes an entry that fits: its prelude and its spelling. On failure the state is unchanged. Where the kind of
    /// entry is known, this is one call, and no entry is made.
    #[inline(always)]
    pub(crate) fn put_ref(&mut self, entry: &Entry) -> Result<(), T::Fault>
        requires { Fits self.old.state entry.now }
        ensures { Puts T.sent entry.now self.old self.new result }
    {
        match entry {
            Entry::Point { at, pel, colour } => self.put_point(*at, pel, colour),
            Entry::Line { from, to, ink } => self.put_line(*from, *to, ink),
            Entry::Rect {
                filled,
                from,
                to,
                ink,
            } => self.put_rect(*filled, *from, *to, ink),
            Entry::Char { set, code, hand } => self.put_char(*set, *code, hand),
            Entry::Map { addr, grb } => self.put_map(*addr, *grb),
            Entry::Arc { .. } | Entry::Poly { .. } => self.put_path(entry),
            _ => self.put_other(entry),
        }
    }

    /// Writes a shape that fits, as `put_ref` writes its entry, without copying its points.
    pub(crate) fn put_shape(&mut self, shape: &Shape) -> Result<(), T::Fault>
        requires { Fits self.old.state (entry_of_shape shape.now) }
        ensures { Puts T.sent (entry_of_shape shape.now) self.old self.new result }
    {
        self.pending.bytes.clear();
        let is_current = self
            .pending
            .append_drawing_prelude(self.state.drawing(), shape.drawing);
        self.write_shape_spelling(shape)?;
        step_shape(&mut self.state, shape, is_current);
        Ok(())
    }
}
