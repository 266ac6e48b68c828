//! Entries of a batch whose attributes are current. Several that join the last run or text, or open one, are one write.
ghost use Rattle.std.specs.Prelude.{◌≡◌, ◌<◌, ◌≤◌, ◌+◌, ◌*◌, ◌⊎◌, [], length, drop};
ghost use Rattle.nap_list.specs.Batches.{EachIsCurrent, batch_entries};
ghost use Rattle.nap_canon.specs.declared.pending.Pending.{Pending};
ghost use Rattle.nap_canon.specs.Batches.{Joins, JoinsAfter, PointsJoin, TextJoins, entry_size, joined_bytes, text_end_after_joined, opening, points_bytes, run_opening};
ghost use Rattle.nap_canon.specs.Text.{gl_of, run_after, shift_to_primary};
ghost use Rattle.nap_canon.specs.Writing.{AppendsNext, PutsPrefix, RestIsCurrent, SendsPrefix, Stays, WritesWhole, put_count};
ghost use Rattle.nap_canon.specs.Buffers.{buffer_limit};

use crate::byte_buffer::BUFFER_SIZE;
use crate::byte_sink::ByteSink;
use crate::current::{item, part};
use crate::pending::opcodes;
use crate::text::Form;
use crate::text_end::TextEnd;
use crate::writer::Writer;
use nap_codes::{CharSet, GSet, format_effector};
use nap_list::{Batch, Pen, line_start};
use nap_values::Point;

/// The greatest number of points of one write, which leaves space for their opcode.
const MAX_POINTS: usize = 126;

/// The greatest number of codes of one write, which leaves space for SI.
const MAX_CODES: usize = 1_023;

impl<T: ByteSink + Drop> Writer<T> {
    /// Returns how many of the next `count` points make one write: those that join the run of this opcode, or that open
    /// one if none joins. Zero in form 1.
    #[inline]
    fn joining_point_count(&self, opcode: u8, count: usize) -> usize
        ensures few { result ≤ count }
        ensures joins { 0 < result → PointsJoin self.now.form self.now.pending.text_end opcode result }
        ensures some { 0 < count → self.now.form ≡ Form.Two → 0 < result }
    {
        if self.form != Form::Two {
            return 0;
        }
        let few = count.min(MAX_POINTS);
        match self.pending.text_end.run_space(opcode) / 8 {
            0 => few,
            pending => few.min(pending),
        }
    }

    /// Returns how many codes of primary characters, from `first` on, make one write: all if they join the text at the
    /// end, else some that open one. Zero if the first is a format effector.
    #[inline(always)]
    fn joining_code_count(&self, codes: &[u8], first: usize) -> usize
        requires some { first < length codes.now }
        ensures few { result + first ≤ length codes.now }
        ensures joins { 0 < result → TextJoins self.now.pending.text_end (drop first codes.now) result }
        ensures some { TextJoins self.now.pending.text_end (drop first codes.now) 1 → 0 < result }
    {
        let count = codes.len() - first;
        if self.pending.text_end == TextEnd::NoRun(GSet::G0) {
            return count;
        }
        if format_effector(item(codes, first)).is_some() {
            return 0;
        }
        count.min(MAX_CODES)
    }

    /// Returns how many entries of a batch, from `first` on, make one write: they join the last run or text, or open
    /// one.
    #[inline(always)]
    fn joining_count(&self, batch: &Batch, first: usize) -> usize
        requires some { first < length (batch_entries batch.now) }
        ensures few { result + first ≤ length (batch_entries batch.now) }
        ensures joins { 0 < result → Joins self.now.form self.now.pending.text_end self.now.state batch.now first result }
        ensures some { Joins self.now.form self.now.pending.text_end self.now.state batch.now first 1 → 0 < result }
    {
        match batch {
            Batch::Points { points, .. } => {
                self.joining_point_count(opcodes::POINT_ABS, points.len() - first)
            }
            Batch::Lines { from, points, .. } => {
                if self.state.drawing().pen != Pen::At(line_start(*from, points, first)) {
                    return 0;
                }
                self.joining_point_count(opcodes::LINE_ABS, points.len() - first)
            }
            Batch::Text { set, codes, .. } => {
                if *set != CharSet::Primary {
                    return 0;
                }
                self.joining_code_count(codes, first)
            }
        }
    }

    /// Returns how many entries of a batch after this one, which is pending, join the last run or text or open one, as
    /// many as the pending text has space for.
    #[inline(always)]
    pub(super) fn joining_count_after(&self, batch: &Batch, index: usize) -> usize
        requires some { index < length (batch_entries batch.now) }
        ensures few { result + (index + 1) ≤ length (batch_entries batch.now) }
        ensures space { 0 < result → length self.now.pending.bytes + 2 + 8 * result ≤ buffer_limit }
        ensures joins { 0 < result → JoinsAfter self.now.form self.now.pending.text_end batch.now index result }
    {
        let rest = batch.len() - (index + 1);
        let count = rest.min((BUFFER_SIZE - 2).saturating_sub(self.pending.bytes.len()) / 8);
        match batch {
            Batch::Points { .. } => self.joining_point_count(opcodes::POINT_ABS, count),
            Batch::Lines { .. } => self.joining_point_count(opcodes::LINE_ABS, count),
            Batch::Text { set, codes, .. } => {
                if *set != CharSet::Primary || rest == 0 {
                    return 0;
                }
                self.joining_code_count(codes, index + 1).min(count)
            }
        }
    }

    /// Writes the pending text, which ends in the entry of a batch at an index, and with it those after it that make one
    /// write. Returns their number; the error has the number taken.
    #[inline(always)]
    pub(super) fn write_with_more(&mut self, batch: &Batch, index: usize) -> Result<usize, usize>
        requires { index < length (batch_entries batch.now) }
        ensures sends { (before : Pending) → before.bytes ≡ [] → AppendsNext self.old.form self.old.state (drop index (batch_entries batch.now)) before self.old.pending → RestIsCurrent self.old.state (drop index (batch_entries batch.now)) → SendsPrefix T.sent self.old.form self.old.state (drop index (batch_entries batch.now)) before.text_end self.old.target self.new.pending.text_end self.new.target result }
        ensures kept { Stays self.old self.new }
        ensures few { put_count result + index ≤ length (batch_entries batch.now) }
    {
        let first_end = self.pending.bytes.len();
        // The number of entries fits a `usize`, so the next index does.
        let _count = batch.len();
        let more = self.joining_count_after(batch, index);
        self.pending.append_joined(batch, index + 1, more);
        match self.target.write_counted(self.pending.bytes.as_slice()) {
            Ok(()) => Ok(more + 1),
            Err(taken) => {
                if taken < first_end {
                    return Err(0);
                }
                let size = entry_size(batch);
                let begun = self.pending.bytes.len() - size * more;
                Err(taken.saturating_sub(begun) / size + 1)
            }
        }
    }

    /// Puts the entry of a batch at an index, whose attributes are current, and those after it that make one write with
    /// it. Returns their number; the error has the number taken.
    #[inline(never)]
    fn put_next(&mut self, batch: &Batch, index: usize) -> Result<usize, usize>
        requires some { index < length (batch_entries batch.now) }
        requires current { EachIsCurrent self.old.state (drop index (batch_entries batch.now)) }
        ensures { PutsPrefix T.sent (drop index (batch_entries batch.now)) self.old self.new result }
    {
        self.pending.bytes.clear();
        self.pending
            .append_spelling_at(self.form, self.state.drawing(), batch, index);
        let put = self.write_with_more(batch, index);
        self.state.step_from(batch, index, put_count(put));
        put
    }

    /// Writes points that join the run of this opcode or open one. The error has the number taken.
    #[inline(never)]
    fn write_run(&mut self, opcode: u8, points: &[Point]) -> Result<(), usize>
        requires few { length points.now ≤ 126 }
        ensures { WritesWhole T.sent (run_opening self.old.pending.text_end opcode (8 * length points.now)) 8 (points_bytes points.now) (TextEnd.InRun (run_after self.old.pending.text_end opcode (8 * length points.now))) self.old self.new result }
    {
        let size = 8 * points.len();
        self.pending.bytes.clear();
        self.pending.append_opcode_unless_joined(opcode, size);
        self.pending.bytes.append_points(points);
        match self.target.write_counted(self.pending.bytes.as_slice()) {
            Ok(()) => Ok(()),
            Err(taken) => Err(taken.saturating_sub(self.pending.bytes.len() - size) / 8),
        }
    }

    /// Writes codes of primary characters that open a text. The error has the number taken.
    fn write_text_start(&mut self, codes: &[u8]) -> Result<(), usize>
        requires few { length codes.now ≤ 1023 }
        ensures { WritesWhole T.sent (shift_to_primary (gl_of self.old.pending.text_end)) 1 codes.now (TextEnd.NoRun GSet.G0) self.old self.new result }
    {
        self.pending.bytes.clear();
        self.pending.append_shift_in();
        self.pending.bytes.append_codes(codes);
        match self.target.write_counted(self.pending.bytes.as_slice()) {
            Ok(()) => Ok(()),
            Err(taken) => Err(taken.saturating_sub(self.pending.bytes.len() - codes.len())),
        }
    }

    /// Writes codes of primary characters that join the text at the end or open one. The error has the number taken.
    #[inline(always)]
    fn write_text(&mut self, codes: &[u8]) -> Result<(), usize>
        requires few { (self.old.pending.text_end ≡ TextEnd.NoRun GSet.G0) ⊎ (length codes.now ≤ 1023) }
        ensures { WritesWhole T.sent (shift_to_primary (gl_of self.old.pending.text_end)) 1 codes.now (TextEnd.NoRun GSet.G0) self.old self.new result }
    {
        if self.pending.text_end == TextEnd::NoRun(GSet::G0) {
            return self.target.write_counted(codes);
        }
        self.write_text_start(codes)
    }

    /// Writes `count` entries of a batch from `first`, which join the last run or text, or open one. The error has the
    /// number taken.
    #[inline(always)]
    fn write_joined(&mut self, batch: &Batch, first: usize, count: usize) -> Result<(), usize>
        requires few { count + first ≤ length (batch_entries batch.now) }
        requires joins { Joins self.old.form self.old.pending.text_end self.old.state batch.now first count }
        ensures { WritesWhole T.sent (opening self.old.pending.text_end batch.now count) (entry_size batch.now) (joined_bytes batch.now first count) (text_end_after_joined self.old.pending.text_end batch.now count) self.old self.new result }
    {
        match batch {
            Batch::Points { points, .. } => self.write_run(
                opcodes::POINT_ABS,
                part(points, first, count),
            ),
            Batch::Lines { points, .. } => self.write_run(
                opcodes::LINE_ABS,
                part(points, first, count),
            ),
            Batch::Text { codes, .. } => self.write_text(part(codes, first, count)),
        }
    }

    /// Puts entries of a batch from `first`, whose attributes are current: as many as make one write, at least one.
    /// Returns their number; the error has the number taken.
    #[inline(always)]
    pub(crate) fn put_more(&mut self, batch: &Batch, first: usize) -> Result<usize, usize>
        requires some { first < length (batch_entries batch.now) }
        requires current { EachIsCurrent self.old.state (drop first (batch_entries batch.now)) }
        ensures { PutsPrefix T.sent (drop first (batch_entries batch.now)) self.old self.new result }
    {
        let count = self.joining_count(batch, first);
        if count == 0 {
            return self.put_next(batch, first);
        }
        match self.write_joined(batch, first, count) {
            Ok(()) => {
                self.state.step_from(batch, first, count);
                Ok(count)
            }
            Err(whole) => {
                self.state.step_from(batch, first, whole);
                Err(whole)
            }
        }
    }
}

/// Returns how many entries were put, be it all or those up to a failure.
#[inline(always)]
pub(super) fn put_count(put: Result<usize, usize>) -> usize
    ensures { result ≡ put_count put }
{
    match put {
        Ok(count) | Err(count) => count,
    }
}

/// Returns the number of bytes of each entry of a batch that joins others.
#[inline(always)]
fn entry_size(batch: &Batch) -> usize
    ensures { result ≡ entry_size batch.now }
{
    match batch {
        Batch::Points { .. } | Batch::Lines { .. } => 8,
        Batch::Text { .. } => 1,
    }
}
