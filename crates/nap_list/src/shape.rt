//! Arcs and polygons with borrowed points and attributes.
ghost use Rattle.std.specs.Cmp.Lexicographic.{pointwise};
ghost use Rattle.std.specs.Cmp.Rules.{comparing};
ghost use Rattle.std.specs.Ordering.{eq_of_both, on};
ghost use Rattle.std.specs.Prelude.{IfOk, None, OnErr, OnOk, [], nat_eq, ◌++◌, ◌∷◌, ◌≡◌};
ghost use Rattle.nap_list.specs.Shapes.{entry_of_shape, shape_end, shape_points};
ghost use Rattle.nap_list.specs.State.{after};
ghost use Rattle.std.proofs.Common.{rules};

use crate::attribute::Pen;
use crate::entry::Entry;
use crate::state::{Drawing, State};
use nap_values::Point;
use std::alloc::{AllocError, Global};
use std::marker::Model;

/// Whether a shape is an arc or a polygon.
#[derive(Clone, Copy, PartialEq, Eq, Debug, Drop)]
pub enum ShapeKind {
    /// An arc; with a single displacement it returns to its start (a circle).
    Arc,
    /// A closed polygon.
    Poly,
}

/// An arc or polygon with borrowed points, drawn with the current attributes.
#[derive(Clone, Copy, Drop)]
pub struct Shape<'a> {
    /// Arc or polygon.
    pub kind: ShapeKind,
    /// Whether it is filled.
    pub filled: bool,
    /// The start.
    pub from: Point,
    /// The points after the start.
    pub others: &'a [Point],
    /// The current attributes.
    pub drawing: &'a Drawing,
}

impl<'a> Shape<'a> {
    /// Returns its entry, with points of its own. An error takes no memory.
    pub fn entry(&self, alloc: Global) -> Result<Entry, AllocError>
        ensures { IfOk result (λ entry. entry ≡ entry_of_shape self.now) }
    {
        let mut points = Points::with_capacity(alloc, self.others.len().saturating_add(2))?;
        points.push(self.from)?;
        for point in self.others {
            points.push(*point)?;
        }
        if self.kind == ShapeKind::Arc && self.others.len() == 1 {
            points.push(self.from)?;
        }
        let (filled, ink) = (self.filled, self.drawing.ink());
        Ok(match self.kind {
            ShapeKind::Arc => Entry::Arc {
                filled,
                points,
                ink,
            },
            ShapeKind::Poly => Entry::Poly {
                filled,
                points,
                ink,
            },
        })
    }

    /// Returns the position of the pen after it.
    #[inline(always)]
    pub fn end(&self) -> Point
        ensures { result ≡ shape_end self.now.kind self.now.from (shape_points self.now) }
    {
        match self.kind {
            ShapeKind::Arc if self.others.len() != 1 => {
                self.others.last().copied().unwrap_or(self.from)
            }
            _ => self.from,
        }
    }
}

impl State {
    /// Advances past a shape.
    #[inline(always)]
    pub fn step_shape(&mut self, shape: &Shape)
        ensures { self.new ≡ after self.old (entry_of_shape shape.now) }
    {
        self.drawing.apply_ink(&shape.drawing.ink());
        self.drawing.pen = Pen::At(shape.end());
        self.last = None;
    }
}

/// The greatest number of points of an arc or polygon, its start included (PROFILE.md, Limits).
pub const SHAPE_POINTS: usize = 2_001;

/// The points of a shape, in drawing order.
#[derive(Debug, Drop)]
pub struct Points {
    points: Vec<Point>,
}

impl Model for Points {
    ghost use Rattle.std.specs.Prelude.{List};
    ghost use Rattle.nap_values.specs.Coordinates.{Coordinates};

    ghost Value = { List Coordinates };

    ghost view = { λ p. p.points.items };
}

impl Points {
    /// Returns an empty list, which takes no memory.
    pub fn new(alloc: Global) -> Points
        ensures { result ≡ [] }
    {
        Points {
            points: Vec::new(alloc),
        }
    }

    /// Returns an empty list with memory for `capacity` points.
    pub fn with_capacity(alloc: Global, capacity: usize) -> Result<Points, AllocError>
        ensures { IfOk result (λ points. points ≡ []) }
    {
        Ok(Points {
            points: Vec::with_capacity(alloc, capacity)?,
        })
    }

    /// Appends a point. An error changes nothing.
    pub fn push(&mut self, point: Point) -> Result<(), AllocError>
        ensures ok { OnOk result (self.new ≡ self.old ++ point ∷ []) }
        ensures err { OnErr result (self.new ≡ self.old) }
    {
        self.points.push(point)?;
        Ok(())
    }

    /// Returns all points.
    pub fn as_slice(&self) -> &[Point]
        ensures { result.now ≡ self.now }
    {
        &self.points
    }
}

impl PartialEq for Points {
    ghost eq = { pointwise (eq_of_both (on (λ p. p.x) nat_eq) (on (λ p. p.y) nat_eq)) };

    ghost laws = { Prim.search (comparing, rules) };

    fn eq(&self, other: &Points) -> bool {
        self.as_slice() == other.as_slice()
    }
}

impl Eq for Points {
    ghost laws = { Prim.search (comparing, rules) };
}
