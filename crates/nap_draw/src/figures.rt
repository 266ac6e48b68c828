//! The shapes that opcodes draw: figures along spans, arcs, polygons and fields (PROFILE.md, Opcodes).
ghost use Rattle.std.specs.Prelude.{Bool, Err, IfErr, IfOk, length, nat_lt, option_map, vec_capacity, ◌<◌, ◌≡◌, ◌≤◌};
ghost use Rattle.nap_draw.specs.Names.{ShapeKind, StatesAgree, operand_words, shape_on, steps_limit};
ghost use Rattle.nap_draw.specs.Geometry.{span_by, points_reached};
ghost use Rattle.nap_draw.specs.Execution.{figure_entry, figure_end, ActsByRule, clears_nothing, shape_from, displaced_points, shape_result, start_size};
ghost use Rattle.nap_draw.specs.Operands.{moves};
ghost use Rattle.nap_draw.specs.Rule.{moves_of, area_part, area_of, rule};
ghost use Rattle.nap_draw.specs.Draws.{stream, draw_cause};

use crate::fault::{DrawFault, Drawn};
use crate::scratch::steps_into;
use crate::work::Work;
use nap_codes::Opcode;
use nap_list::{Area, Drawing, Entry, Pen, SHAPE_POINTS, Shape, ShapeKind, Sink, corner};
use nap_values::{Domain, Move, Point, multi_bytes};
use std::alloc::Global;

/// A pair of points: from one to the other.
#[derive(Clone, Copy, Drop)]
pub(crate) struct Span {
    /// The start.
    pub from: Point,
    /// The end.
    pub to: Point,
}

/// What is drawn along a span.
#[derive(Clone, Copy, Drop)]
pub(crate) enum Figure {
    Line,
    /// A rectangle with the ends of the span as opposite corners, filled or not.
    Rect(bool),
}

impl Figure {
    /// Returns the entry of the figure from one point to the other, with the current attributes.
    pub(crate) fn entry(self, drawing: &Drawing, from: Point, to: Point) -> Entry
        ensures { result ≡ figure_entry self drawing.now (record { from = from; to = to }) }
    {
        let ink = drawing.ink();
        match self {
            Figure::Line => Entry::Line { from, to, ink },
            Figure::Rect(filled) => Entry::Rect {
                filled,
                from,
                to,
                ink,
            },
        }
    }

    /// Returns the position of the pen after the figure on the last span, if there is one.
    pub(crate) fn end(self, last: Option<Span>) -> Option<Point>
        ensures { result ≡ option_map (figure_end self) last }
    {
        let Span { from, to } = last?;
        match self {
            Figure::Line => Some(to),
            Figure::Rect(_) => Some(corner(from, to)),
        }
    }
}

pub(crate) fn span_by(from: Option<Point>, step: Move) -> Option<Span>
    ensures { result ≡ span_by from step }
{
    let from = from?;
    let to = from.by(step)?;
    Some(Span { from, to })
}

/// The greatest number of displacements of a shape: one less than its points.
const MOST_STEPS: usize = SHAPE_POINTS - 1;

/// The start of an arc or polygon.
#[derive(Clone, Copy, Drop)]
pub(crate) enum ShapeStart {
    AtPen,
    /// At the point of the first operand (SET & ARC, SET & POLY).
    AtOperand,
}

/// Whether the run has more displacements than a shape may have. Computed without a division.
fn many_steps(domain: Domain, run: &[u8]) -> bool
    ensures { result ≡ nat_lt steps_limit (length (moves domain.multi (operand_words run.now))) }
{
    run.len() > MOST_STEPS * usize::from(domain.multi())
}

/// Returns how many of `bytes` bytes belong to the operand that the shape starts at.
fn start_size(start: ShapeStart, size: u8, bytes: usize) -> usize
    ensures size { result ≡ start_size start size bytes }
    ensures within { result ≤ bytes }
{
    match start {
        ShapeStart::AtPen => 0,
        ShapeStart::AtOperand => usize::from(size).min(bytes),
    }
}

/// Returns the start of a shape, and the operand bytes of its displacements.
fn shape_start<'a>(
    work: &Work,
    start: ShapeStart,
    run: &'a [u8],
) -> Result<(Point, &'a [u8]), DrawFault>
    ensures ok { IfOk result (λ (p, steps). (kind : ShapeKind) (filled : Bool) → shape_from start work.now (operand_words run.now) (shape_on kind filled) (displaced_points kind) ≡ shape_result work.now kind filled p (points_reached p (moves_of work.now (operand_words steps.now)))) }
    ensures within { IfOk result (λ (p, steps). length steps.now ≤ length run.now) }
    ensures some { IfOk result (λ (p, steps). 0 < length (moves_of work.now (operand_words steps.now))) }
    ensures few { IfOk result (λ (p, steps). length (moves_of work.now (operand_words steps.now)) ≤ steps_limit) }
    ensures err { IfErr result (λ fault. (draw_cause fault ≡ stream) × ((kind : ShapeKind) (filled : Bool) → shape_from start work.now (operand_words run.now) (shape_on kind filled) (displaced_points kind) ≡ Err fault)) }
{
    let size = work.domain.multi();
    let (first, steps) = run.split_at(start_size(start, size, run.len()));
    if steps.is_empty() {
        return Err(DrawFault::Missing);
    }
    if many_steps(work.domain, steps) {
        return Err(DrawFault::ManyPoints);
    }
    match start {
        ShapeStart::AtPen => Ok((work.pen_point()?, steps)),
        ShapeStart::AtOperand => match multi_bytes(first).point() {
            Some(from) => Ok((from, steps)),
            None => Err(DrawFault::Outside),
        },
    }
}

impl Work {
    /// Draws a shape from its start through the points that the displacements reach.
    pub(crate) fn shape<S: Sink>(
        &mut self,
        alloc: Global,
        scratch: &mut Vec<Point>,
        start: ShapeStart,
        kind: ShapeKind,
        filled: bool,
        run: &[u8],
        sink: &mut S,
    ) -> Drawn
        requires { StatesAgree self.old.state (S.state sink.old) }
        ensures acts { ActsByRule S.Sink clears_nothing (vec_capacity scratch.old < length run.now) (shape_from start self.old (operand_words run.now) (shape_on kind filled) (displaced_points kind)) self.old self.new sink.old sink.new result }
        ensures space { vec_capacity scratch.old ≤ vec_capacity scratch.new }
    {
        let (from, steps) = match shape_start(self, start, run) {
            Ok(begun) => begun,
            Err(fault) => return Err(fault),
        };
        steps_into(scratch, from, self.domain, steps)?;
        let others = scratch.as_slice();
        let shape = Shape {
            kind,
            filled,
            from,
            others,
            drawing: &self.state.drawing,
        };
        let end = shape.end();
        sink.put_shape(alloc, &shape)?;
        self.state.drawing.pen = Pen::At(end);
        self.state.last = None;
        Ok(())
    }

    pub(crate) fn field<S: Sink>(&mut self, run: &[u8], sink: &mut S) -> Drawn
        requires { StatesAgree self.old.state (S.state sink.old) }
        ensures { ActsByRule S.Sink clears_nothing ⊥ (rule self.old Opcode.Field (operand_words run.now)) self.old self.new sink.old sink.new result }
    {
        let area = self.area_of(run)?;
        let pen = self.state.drawing.pen;
        self.put_and_set_pen(Entry::Field { area, pen }, Pen::After, sink)
    }

    /// Returns the field that the operands give: the whole unit screen, or a part from the pen or from a point.
    fn area_of(&self, run: &[u8]) -> Result<Area, DrawFault>
        ensures { result ≡ area_of self.now (moves_of self.now (operand_words run.now)) }
    {
        let size = self.domain.multi();
        let mut operands = run.chunks(usize::from(size));
        let Some(first) = operands.next() else {
            return Ok(Area::Whole);
        };
        let first = multi_bytes(first);
        match operands.next() {
            None => area_part(Some(self.pen_point()?), first),
            Some(second) => area_part(first.point(), multi_bytes(second)),
        }
    }
}

fn area_part(from: Option<Point>, step: Move) -> Result<Area, DrawFault>
    ensures { result ≡ area_part from step }
{
    match span_by(from, step) {
        Some(Span { from, to }) => Ok(Area::Part { from, to }),
        None => Err(DrawFault::Outside),
    }
}
