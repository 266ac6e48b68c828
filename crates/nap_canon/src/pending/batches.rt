//! Entries of a batch, appended one after another.
ghost use Rattle.std.specs.Prelude.{◌≡◌, ◌++◌, ◌<◌, ◌≤◌, ◌+◌, ◌*◌, length, drop};
ghost use Rattle.nap_canon.specs.Names.{State, batch_entries};
ghost use Rattle.nap_canon.specs.Preludes.{prelude};
ghost use Rattle.nap_canon.specs.declared.text_end.TextEnd.TheVariants.{InRun};
ghost use Rattle.nap_canon.specs.Batches.{batch_attributes, bytes_of_rest, text_end_after_rest, points_bytes, run_opening};
ghost use Rattle.nap_canon.specs.Text.{run_after};
ghost use Rattle.nap_canon.specs.Writing.{AppendsCommands, AppendsNext, SpellsNext};
ghost use Rattle.nap_canon.specs.Buffers.{piece_limit, buffer_limit};

use crate::current::{item, part};
use crate::pending::{Pending, opcodes};
use crate::text::Form;
use nap_list::{Batch, Drawing, line_start};
use nap_values::Point;

impl Pending {
    /// Appends the spelling of a batch's entry at an index, whose attributes are current.
    #[inline(always)]
    pub(crate) fn append_spelling_at(
        &mut self,
        form: Form,
        old: &Drawing,
        batch: &Batch,
        index: usize,
    )
        requires some { index < length (batch_entries batch.now) }
        requires space { length self.old.bytes + piece_limit ≤ buffer_limit }
        ensures { SpellsNext form old.now (drop index (batch_entries batch.now)) self.old self.new }
    {
        match batch {
            Batch::Points { points, .. } => self.append_point(form, item(points, index)),
            Batch::Lines { from, points, .. } => self.append_line(
                form,
                old.pen,
                line_start(*from, points, index),
                item(points, index),
            ),
            Batch::Text { set, codes, .. } => self.append_text_byte(*set, item(codes, index)),
        }
    }

    /// Appends the prelude of a batch's first entry.
    #[inline(always)]
    fn append_batch_prelude(&mut self, old: &Drawing, batch: &Batch)
        requires space { length self.old.bytes + 162 ≤ buffer_limit }
        ensures appends { AppendsCommands (prelude old.now (batch_attributes batch.now)) self.old self.new }
        ensures most { length self.new.bytes ≤ length self.old.bytes + 162 }
    {
        match batch {
            Batch::Points { drawing, .. } => {
                self.append_other_point_prelude(old, drawing.pel, &drawing.colour);
            }
            Batch::Lines { drawing, .. } => {
                self.append_other_ink_prelude(old, drawing.pel, &drawing.colour, drawing.texture);
            }
            Batch::Text { pen, drawing, .. } => self.append_text_prelude(old, *pen, drawing),
        }
    }

    /// Appends the first entry of a batch, with its prelude, as `append_start` does.
    #[inline(never)]
    fn append_other_start(&mut self, form: Form, old: &Drawing, batch: &Batch)
        requires some { 0 < length (batch_entries batch.now) }
        requires space { length self.old.bytes + 180 ≤ buffer_limit }
        ensures { (s : State) → s.drawing ≡ old.now → AppendsNext form s (batch_entries batch.now) self.old self.new }
    {
        self.append_batch_prelude(old, batch);
        self.append_spelling_at(form, old, batch, 0);
    }

    /// Appends the first entry of a batch, with its prelude. Only the code for a text is inlined.
    #[inline(always)]
    pub(crate) fn append_start(&mut self, form: Form, old: &Drawing, batch: &Batch)
        requires some { 0 < length (batch_entries batch.now) }
        requires space { length self.old.bytes + 180 ≤ buffer_limit }
        ensures { (s : State) → s.drawing ≡ old.now → AppendsNext form s (batch_entries batch.now) self.old self.new }
    {
        match batch {
            Batch::Text {
                set,
                codes,
                pen,
                drawing,
            } => {
                self.append_text_prelude(old, *pen, drawing);
                self.append_text_byte(*set, item(codes, 0));
            }
            _ => self.append_other_start(form, old, batch),
        }
    }

    /// Appends the operands of points, which join the run of this opcode or open one.
    #[inline(always)]
    fn append_point_run(&mut self, opcode: u8, points: &[Point])
        requires space { length self.old.bytes + 2 + 8 * length points.now ≤ buffer_limit }
        ensures bytes { self.new.bytes ≡ self.old.bytes ++ (run_opening self.old.text_end opcode (8 * length points.now) ++ points_bytes points.now) }
        ensures text_end { self.new.text_end ≡ InRun (run_after self.old.text_end opcode (8 * length points.now)) }
    {
        self.append_opcode_unless_joined(opcode, 8 * points.len());
        self.bytes.append_points(points);
    }

    /// Appends `count` entries of a batch from `first`, which join the last run or text, or open one.
    #[inline(always)]
    pub(crate) fn append_joined(&mut self, batch: &Batch, first: usize, count: usize)
        requires few { count + first ≤ length (batch_entries batch.now) }
        requires space { 0 < count → length self.old.bytes + 2 + 8 * count ≤ buffer_limit }
        ensures bytes { self.new.bytes ≡ self.old.bytes ++ bytes_of_rest self.old.text_end batch.now first count }
        ensures text_end { self.new.text_end ≡ text_end_after_rest self.old.text_end batch.now count }
    {
        if count == 0 {
            return;
        }
        match batch {
            Batch::Points { points, .. } => {
                self.append_point_run(opcodes::POINT_ABS, part(points, first, count));
            }
            Batch::Lines { points, .. } => {
                self.append_point_run(opcodes::LINE_ABS, part(points, first, count));
            }
            Batch::Text { codes, .. } => {
                self.append_shift_in();
                self.bytes.append_codes(part(codes, first, count));
            }
        }
    }
}
