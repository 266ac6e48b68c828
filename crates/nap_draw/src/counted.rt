//! Points that a sink only counts, so that none has to be made (PROFILE.md, Opcodes).
ghost use Rattle.std.specs.Prelude.{IfSome, Ok, Some, drop, false, length, take, true, ◌/◌, ◌<◌, ◌≡◌, ◌≤◌};
ghost use Rattle.nap_draw.specs.Names.{StatesAgree, operand_words, point_entry};
ghost use Rattle.nap_draw.specs.Operands.{moves};
ghost use Rattle.nap_draw.specs.Execution.{trail_result};
ghost use Rattle.nap_draw.specs.Geometry.{points_at, points_reached};
ghost use Rattle.nap_draw.specs.Rule.{entries_result, rule_result};
ghost use Rattle.nap_draw.specs.Codes.{repeated_chars};
ghost use Rattle.nap_draw.specs.Counted.{ActsFully, Arrives, Displaces};

use crate::operands::operand_count;
use crate::points::Trail;
use crate::work::Work;
use nap_list::{Entry, LastChar, Pen, Sink};
use nap_values::{CoarseWalk, Domain, Point, begins_inside, multi_bytes};

impl Work {
    /// Draws a point at each point that the displacements lead to, or lines through them, if the sink needs only their
    /// number and all are on the unit screen. Else returns false, and changes nothing.
    #[inline(always)]
    pub(crate) fn count_steps<S: Sink>(
        &mut self,
        trail: Trail,
        from: Point,
        run: &[u8],
        sink: &mut S,
    ) -> bool
        requires { StatesAgree self.old.state (S.state sink.old) }
        ensures counted { result ≡ true → ActsFully S.Sink (trail_result trail self.old from (points_reached from (moves self.old.domain.multi (operand_words run.now)))) self.old self.new sink.old sink.new }
        ensures kept { result ≡ false → (self.new ≡ self.old) × (sink.new ≡ sink.old) }
    {
        if self.domain.multi() != 3 || !sink.counts_only() {
            return false;
        }
        let Some(to) = end_of_steps(from, run) else {
            return false;
        };
        let last = trail.last_entry(&self.state.drawing, from, to);
        if !sink.put_alike(run.len() / 3, &last) {
            return false;
        }
        self.move_pen_to(Some(to));
        true
    }

    /// Draws a point at each operand, if the sink needs only their number and all are on the unit screen. Else returns
    /// false, and changes nothing.
    #[inline(always)]
    pub(crate) fn count_points_at<S: Sink>(&mut self, run: &[u8], sink: &mut S) -> bool
        requires { StatesAgree self.old.state (S.state sink.old) }
        ensures counted { result ≡ true → ActsFully S.Sink (entries_result self.old point_entry (points_at (moves self.old.domain.multi (operand_words run.now)))) self.old self.new sink.old sink.new }
        ensures kept { result ≡ false → (self.new ≡ self.old) × (sink.new ≡ sink.old) }
    {
        if !sink.counts_only() {
            return false;
        }
        let Some(at) = last_of_points(self.domain, run) else {
            return false;
        };
        let last = Trail::Points.last_entry(&self.state.drawing, at, at);
        if !sink.put_alike(operand_count(self.domain, run), &last) {
            return false;
        }
        self.move_pen_to(Some(at));
        true
    }

    /// Puts the last character again a number of times, if the sink needs only that. Else returns false, and changes
    /// nothing.
    #[inline(always)]
    pub(crate) fn count_copies<S: Sink>(
        &mut self,
        last: LastChar,
        count: usize,
        sink: &mut S,
    ) -> bool
        requires agrees { StatesAgree self.old.state (S.state sink.old) }
        requires last { self.old.state.last ≡ Some last }
        requires some { 0 < count }
        ensures counted { result ≡ true → ActsFully S.Sink (Ok (rule_result self.old (repeated_chars self.old.state last count))) self.old self.new sink.old sink.new }
        ensures kept { result ≡ false → (self.new ≡ self.old) × (sink.new ≡ sink.old) }
    {
        if !sink.counts_only() {
            return false;
        }
        let hand = self.hand();
        let entry = Entry::Char {
            set: last.set,
            code: last.code,
            hand,
        };
        if !sink.put_alike(count, &entry) {
            return false;
        }
        self.state.drawing.pen = Pen::After;
        true
    }
}

/// Returns the last of the points that the operands spell, if there are any and all are on the unit screen.
#[inline(always)]
fn last_of_points(domain: Domain, run: &[u8]) -> Option<Point>
    ensures { IfSome result (λ at. Arrives (points_at (moves domain.multi (operand_words run.now))) (length (moves domain.multi (operand_words run.now))) at) }
{
    let size = usize::from(domain.multi());
    let mut inside = true;
    let mut last: &[u8] = &[];
    for operand in run.chunks(size) {
        inside &= begins_inside(operand[0]);
        last = operand;
    }
    if last.is_empty() || !inside {
        return None;
    }
    multi_bytes(last).point()
}

/// Returns the last point that displacements of three words lead to, one after another, if all points are on the unit
/// screen.
#[inline(never)]
fn end_of_steps(from: Point, run: &[u8]) -> Option<Point>
    ensures { IfSome result (λ at. Arrives (points_reached from (moves 3 (operand_words run.now))) (length run.now / 3) at) }
{
    let mut walk = CoarseWalk::from_point(from);
    let mut rest = run;
    while rest.len() >= 16 {
        rest = step(&mut walk, rest);
        rest = step(&mut walk, rest);
        rest = step(&mut walk, rest);
        rest = step(&mut walk, rest);
        rest = step(&mut walk, rest);
    }
    while rest.len() >= 4 {
        rest = step(&mut walk, rest);
    }
    let [first, second, third] = rest else {
        return None;
    };
    walk.advance(&[*first, *second, *third, 0]);
    walk.end()
}

/// Displaces by the first displacement of three words. Returns the bytes after it.
#[inline(always)]
fn step<'a>(walk: &mut CoarseWalk, rest: &'a [u8]) -> &'a [u8]
    requires { 4 ≤ length rest.now }
    ensures rest { result.now ≡ drop 3 rest.now }
    ensures moves { Displaces walk.old walk.new (take 3 rest.now) }
{
    let Some((block, _)) = rest.split_first_chunk::<4>() else {
        return rest;
    };
    walk.advance(block);
    &rest[3..]
}
