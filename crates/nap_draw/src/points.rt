//! The execution of opcodes, and those of points, lines and rectangles (PROFILE.md, Opcodes).
ghost use Rattle.std.specs.Prelude.{Some, if◌then◌else◌, length, vec_capacity, ◌<◌, ◌≤◌, IfErr, IsErrOf, OnOk, false, true, ◌≡◌, ◌≢◌, ◌⊎◌};
ghost use Rattle.nap_draw.specs.Names.{StatesAgree, operand_words, point_entry};
ghost use Rattle.nap_draw.specs.Rule.{rule, entries_result, with_pairs, IsDrawn, from_pen, rect_on, span_line_entry};
ghost use Rattle.nap_draw.specs.Execution.{ActsByRule, SetsWork, clears_nothing, figure_entry, pair_spans, rect_spans, trail_entry, trail_result};
ghost use Rattle.nap_draw.specs.Geometry.{relative_spans, polyline_spans, points_reached};
ghost use Rattle.nap_draw.specs.Acts.{Acts, WantsFor, clears_macros};
ghost use Rattle.nap_draw.specs.Limits.{run_limit};

use crate::fault::{DrawFault, Drawn};
use crate::figures::ShapeStart::{AtOperand, AtPen};
use crate::figures::{Figure, Span};
use crate::operands::{require_operand, require_pairs, require_start};
use crate::scratch::{corners_into, pairs_into, points_into, steps_into};
use crate::work::Work;
use nap_codes::Opcode;
use nap_list::ShapeKind::{Arc, Poly};
use nap_list::{Batch, Drawing, Entry, Pen, Sink, corner};
use nap_values::{Point, multi_bytes};
use std::alloc::Global;

/// What is drawn where the displacements of a run lead.
#[derive(Clone, Copy, Drop)]
pub(crate) enum Trail {
    /// A point at each point.
    Points,
    /// Lines through them.
    Lines,
}

impl Trail {
    /// Returns the entry of the last point, or of the line from one point to it, with the current attributes.
    pub(crate) fn last_entry(self, drawing: &Drawing, from: Point, to: Point) -> Entry
        ensures { result ≡ trail_entry self drawing.now from to }
    {
        match self {
            Trail::Points => Entry::Point {
                at: to,
                pel: drawing.pel,
                colour: drawing.colour,
            },
            Trail::Lines => Figure::Line.entry(drawing, from, to),
        }
    }
}

impl Work {
    /// Executes an opcode on its complete run of operand bytes: puts its entries into the sink and advances this work.
    /// Returns whether all macros are cleared. A byte of the run carries a word in its low six bits; its other bits are
    /// ignored. On an error the work is unchanged. `scratch` is borrowed for the points of the run; its contents are
    /// ignored. If the caller keeps it for the next call, it grows to the longest run, at most `RUN_LIMIT` points
    /// (PROFILE.md, Opcodes).
    #[inline(always)]
    pub fn act<S: Sink>(
        &mut self,
        alloc: Global,
        scratch: &mut Vec<Point>,
        op: Opcode,
        run: &[u8],
        sink: &mut S,
    ) -> Result<bool, DrawFault>
        requires agrees { StatesAgree self.old.state (S.state sink.old) }
        requires few { length run.now ≤ run_limit }
        requires drawn { IsDrawn op }
        ensures acts { Acts S.Sink clears_macros (rule self.old op (operand_words run.now)) self.old self.new sink.old sink.new result }
        // The scratch list had no place for a point of each byte, or the sink lacked memory.
        ensures lacks { IsErrOf result DrawFault.Memory → (vec_capacity scratch.old < length run.now) ⊎ WantsFor S.Sink sink.old }
        ensures space { vec_capacity scratch.old ≤ vec_capacity scratch.new }
        ensures failed { IsErrOf result DrawFault.Sink → S.failed sink.new ≡ true }
        ensures kept { IfErr result (λ fault. S.failed sink.old ≡ false → S.failed sink.new ≡ true → fault ≡ DrawFault.Sink) }
        ensures clear { OnOk result (S.failed sink.old ≡ false → S.failed sink.new ≡ false) }
    {
        match op {
            Opcode::Reset => self.reset(run, sink),
            _ => {
                self.draw(op, run, alloc, scratch, sink)?;
                Ok(false)
            }
        }
    }

    /// Executes any opcode but RESET.
    #[inline(always)]
    fn draw<S: Sink>(
        &mut self,
        op: Opcode,
        run: &[u8],
        alloc: Global,
        scratch: &mut Vec<Point>,
        sink: &mut S,
    ) -> Drawn
        requires agrees { StatesAgree self.old.state (S.state sink.old) }
        requires drawn { IsDrawn op }
        requires other { op ≢ Opcode.Reset }
        ensures acts { ActsByRule S.Sink clears_nothing (vec_capacity scratch.old < length run.now) (rule self.old op (operand_words run.now)) self.old self.new sink.old sink.new result }
        ensures space { vec_capacity scratch.old ≤ vec_capacity scratch.new }
    {
        match op {
            Opcode::Domain => self.set_domain(run),
            Opcode::Text => self.set_text(run),
            Opcode::Texture => self.set_texture(run),
            Opcode::PointSetAbs => self.point_set_abs(run),
            Opcode::PointSetRel => self.point_set_rel(run),
            Opcode::PointAbs => self.point_abs(scratch, run, sink),
            Opcode::PointRel => self.trail_rel(scratch, Trail::Points, run, sink),
            Opcode::LineAbs => self.line_abs(scratch, run, sink),
            Opcode::LineRel => self.trail_rel(scratch, Trail::Lines, run, sink),
            Opcode::SetLineAbs => self.set_line_abs(scratch, run, sink),
            Opcode::SetLineRel => self.set_figures(scratch, Figure::Line, run, sink),
            Opcode::RectOutlined => self.rect(scratch, false, run, sink),
            Opcode::RectFilled => self.rect(scratch, true, run, sink),
            Opcode::SetRectOutlined => self.set_figures(scratch, Figure::Rect(false), run, sink),
            Opcode::SetRectFilled => self.set_figures(scratch, Figure::Rect(true), run, sink),
            Opcode::ArcOutlined => self.shape(alloc, scratch, AtPen, Arc, false, run, sink),
            Opcode::ArcFilled => self.shape(alloc, scratch, AtPen, Arc, true, run, sink),
            Opcode::SetArcOutlined => self.shape(alloc, scratch, AtOperand, Arc, false, run, sink),
            Opcode::SetArcFilled => self.shape(alloc, scratch, AtOperand, Arc, true, run, sink),
            Opcode::PolyOutlined => self.shape(alloc, scratch, AtPen, Poly, false, run, sink),
            Opcode::PolyFilled => self.shape(alloc, scratch, AtPen, Poly, true, run, sink),
            Opcode::SetPolyOutlined => self.shape(
                alloc, scratch, AtOperand, Poly, false, run, sink,
            ),
            Opcode::SetPolyFilled => self.shape(alloc, scratch, AtOperand, Poly, true, run, sink),
            Opcode::Field => self.field(run, sink),
            Opcode::SetColor => self.set_color(run, sink),
            Opcode::SelectColor => self.select_color(run),
            Opcode::Wait => self.wait(run, sink),
            Opcode::Blink => self.blink(run, sink),
            Opcode::Reset
            | Opcode::IncrementalPoint
            | Opcode::IncrementalLine
            | Opcode::IncrementalPolyFilled => unreachable!(),
        }
    }

    /// POINT SET ABS: moves the pen to each point.
    fn point_set_abs(&mut self, run: &[u8]) -> Drawn
        ensures { SetsWork (rule self.old Opcode.PointSetAbs (operand_words run.now)) self.old self.new result }
    {
        if self.domain.multi() != 3 || run.len() != 3 {
            return self.point_set_each(run);
        }
        let Some(point) = multi_bytes(run).point() else {
            return Err(DrawFault::Outside);
        };
        self.state.drawing.pen = Pen::At(point);
        Ok(())
    }

    /// POINT SET ABS for operands of any length and number.
    #[inline(never)]
    fn point_set_each(&mut self, run: &[u8]) -> Drawn
        ensures { SetsWork (rule self.old Opcode.PointSetAbs (operand_words run.now)) self.old self.new result }
    {
        require_operand(self, run)?;
        let mut pen = self.state.drawing.pen;
        for operand in run.chunks(usize::from(self.domain.multi())) {
            let Some(point) = multi_bytes(operand).point() else {
                return Err(DrawFault::Outside);
            };
            pen = Pen::At(point);
        }
        self.state.drawing.pen = pen;
        Ok(())
    }

    /// POINT SET REL: moves the pen by each displacement.
    fn point_set_rel(&mut self, run: &[u8]) -> Drawn
        ensures { SetsWork (rule self.old Opcode.PointSetRel (operand_words run.now)) self.old self.new result }
    {
        let mut at = require_start(self, run)?;
        for operand in run.chunks(usize::from(self.domain.multi())) {
            let Some(point) = at.by(multi_bytes(operand)) else {
                return Err(DrawFault::Outside);
            };
            at = point;
        }
        self.state.drawing.pen = Pen::At(at);
        Ok(())
    }

    fn point_abs<S: Sink>(&mut self, scratch: &mut Vec<Point>, run: &[u8], sink: &mut S) -> Drawn
        requires { StatesAgree self.old.state (S.state sink.old) }
        ensures acts { ActsByRule S.Sink clears_nothing (vec_capacity scratch.old < length run.now) (rule self.old Opcode.PointAbs (operand_words run.now)) self.old self.new sink.old sink.new result }
        ensures space { vec_capacity scratch.old ≤ vec_capacity scratch.new }
    {
        require_operand(self, run)?;
        if self.count_points_at(run, sink) {
            return Ok(());
        }
        points_into(scratch, self.domain, run)?;
        self.draw_points(scratch, sink)
    }

    /// POINT REL and LINE REL: draws a point at each point that the displacements lead to, or lines through them.
    fn trail_rel<S: Sink>(
        &mut self,
        scratch: &mut Vec<Point>,
        trail: Trail,
        run: &[u8],
        sink: &mut S,
    ) -> Drawn
        requires { StatesAgree self.old.state (S.state sink.old) }
        ensures acts { ActsByRule S.Sink clears_nothing (vec_capacity scratch.old < length run.now) (from_pen self.old (operand_words run.now) (λ p ms. trail_result trail self.old p (points_reached p ms))) self.old self.new sink.old sink.new result }
        ensures space { vec_capacity scratch.old ≤ vec_capacity scratch.new }
    {
        let from = require_start(self, run)?;
        if self.count_steps(trail, from, run, sink) {
            return Ok(());
        }
        steps_into(scratch, from, self.domain, run)?;
        match trail {
            Trail::Points => self.draw_points(scratch, sink),
            Trail::Lines => self.draw_polyline(from, scratch, sink),
        }
    }

    fn line_abs<S: Sink>(&mut self, scratch: &mut Vec<Point>, run: &[u8], sink: &mut S) -> Drawn
        requires { StatesAgree self.old.state (S.state sink.old) }
        ensures acts { ActsByRule S.Sink clears_nothing (vec_capacity scratch.old < length run.now) (rule self.old Opcode.LineAbs (operand_words run.now)) self.old self.new sink.old sink.new result }
        ensures space { vec_capacity scratch.old ≤ vec_capacity scratch.new }
    {
        let from = require_start(self, run)?;
        points_into(scratch, self.domain, run)?;
        self.draw_polyline(from, scratch, sink)
    }

    fn set_line_abs<S: Sink>(&mut self, scratch: &mut Vec<Point>, run: &[u8], sink: &mut S) -> Drawn
        requires { StatesAgree self.old.state (S.state sink.old) }
        ensures acts { ActsByRule S.Sink clears_nothing (vec_capacity scratch.old < length run.now) (rule self.old Opcode.SetLineAbs (operand_words run.now)) self.old self.new sink.old sink.new result }
        ensures space { vec_capacity scratch.old ≤ vec_capacity scratch.new }
    {
        require_pairs(self, run)?;
        points_into(scratch, self.domain, run)?;
        self.draw_pairs(Figure::Line, scratch, sink)
    }

    /// SET & LINE REL and SET & RECT: draws a figure from the point of each pair by its displacement.
    fn set_figures<S: Sink>(
        &mut self,
        scratch: &mut Vec<Point>,
        figure: Figure,
        run: &[u8],
        sink: &mut S,
    ) -> Drawn
        requires { StatesAgree self.old.state (S.state sink.old) }
        ensures acts { ActsByRule S.Sink clears_nothing (vec_capacity scratch.old < length run.now) (with_pairs self.old (operand_words run.now) (λ ms. entries_result self.old (figure_entry figure) (relative_spans ms))) self.old self.new sink.old sink.new result }
        ensures space { vec_capacity scratch.old ≤ vec_capacity scratch.new }
    {
        require_pairs(self, run)?;
        pairs_into(scratch, self.domain, run)?;
        self.draw_pairs(figure, scratch, sink)
    }

    fn rect<S: Sink>(
        &mut self,
        scratch: &mut Vec<Point>,
        filled: bool,
        run: &[u8],
        sink: &mut S,
    ) -> Drawn
        requires { StatesAgree self.old.state (S.state sink.old) }
        ensures acts { ActsByRule S.Sink clears_nothing (vec_capacity scratch.old < length run.now) (rule self.old (if filled then Opcode.RectFilled else Opcode.RectOutlined) (operand_words run.now)) self.old self.new sink.old sink.new result }
        ensures space { vec_capacity scratch.old ≤ vec_capacity scratch.new }
    {
        let from = require_start(self, run)?;
        if self.domain.multi() == 3 && run.len() == 3 {
            let Some(point) = from.by(multi_bytes(run)) else {
                return Err(DrawFault::Outside);
            };
            return self.draw_chain(filled, from, &[point], sink);
        }
        corners_into(scratch, from, self.domain, run)?;
        self.draw_chain(filled, from, scratch, sink)
    }

    /// Draws a point at each of these points.
    fn draw_points<S: Sink>(&mut self, points: &[Point], sink: &mut S) -> Drawn
        requires { StatesAgree self.old.state (S.state sink.old) }
        ensures { ActsByRule S.Sink clears_nothing ⊥ (entries_result self.old point_entry (Some points.now)) self.old self.new sink.old sink.new result }
    {
        let drawing = &self.state.drawing;
        sink.put_batch(&Batch::Points { points, drawing })?;
        self.move_pen_to(points.last().copied());
        Ok(())
    }

    /// Draws lines from `from` to the first point, and from each point to the next.
    fn draw_polyline<S: Sink>(&mut self, from: Point, points: &[Point], sink: &mut S) -> Drawn
        requires { StatesAgree self.old.state (S.state sink.old) }
        ensures { ActsByRule S.Sink clears_nothing ⊥ (entries_result self.old span_line_entry (Some (polyline_spans from points.now))) self.old self.new sink.old sink.new result }
    {
        let drawing = &self.state.drawing;
        sink.put_batch(&Batch::Lines {
            from,
            points,
            drawing,
        })?;
        self.move_pen_to(points.last().copied());
        Ok(())
    }

    /// Draws rectangles: from `from` to the first point, and from the corner that each leaves to the next point.
    fn draw_chain<S: Sink>(
        &mut self,
        filled: bool,
        from: Point,
        points: &[Point],
        sink: &mut S,
    ) -> Drawn
        requires { StatesAgree self.old.state (S.state sink.old) }
        ensures { ActsByRule S.Sink clears_nothing ⊥ (entries_result self.old (rect_on filled) (Some (rect_spans from points.now))) self.old self.new sink.old sink.new result }
    {
        let figure = Figure::Rect(filled);
        let mut at = from;
        let mut last = None;
        for to in points {
            sink.put(figure.entry(&self.state.drawing, at, *to))?;
            last = Some(Span { from: at, to: *to });
            at = corner(at, *to);
        }
        self.move_pen_to(figure.end(last));
        Ok(())
    }

    /// Draws the figure between the two points of each pair.
    fn draw_pairs<S: Sink>(&mut self, figure: Figure, points: &[Point], sink: &mut S) -> Drawn
        requires { StatesAgree self.old.state (S.state sink.old) }
        ensures { ActsByRule S.Sink clears_nothing ⊥ (entries_result self.old (figure_entry figure) (Some (pair_spans points.now))) self.old self.new sink.old sink.new result }
    {
        let mut last = None;
        for pair in points.chunks_exact(2) {
            let (from, to) = (pair[0], pair[1]);
            sink.put(figure.entry(&self.state.drawing, from, to))?;
            last = Some(Span { from, to });
        }
        self.move_pen_to(figure.end(last));
        Ok(())
    }
}
