//! The state that entries left, in proofs alone.
ghost use Rattle.std.specs.Borrow.{ftrue};
ghost use Rattle.std.specs.Prelude.{drop, length, take, ◌+◌, ◌≡◌, ◌≤◌};
ghost use Rattle.nap_list.specs.declared.state.State.{State};
ghost use Rattle.nap_list.specs.Batches.{batch_entries, EachIsCurrent};
ghost use Rattle.nap_list.specs.Shapes.{entry_of_shape, shape_end, shape_points};
ghost use Rattle.nap_list.specs.State.{after, start, walk, Fits, with_pen};

use crate::attribute::Pen;
use crate::batch::Batch;
use crate::entry::Entry;
use crate::shape::Shape;
use crate::state::{Drawing, OpenDefinition, apply_entry};
use std::marker::Model;

/// The state that entries left. It takes no bytes, and its functions do nothing at run time.
#[derive(Drop)]
pub struct GhostState {
    pub ghost state: { State },
}

impl Model for GhostState {
    ghost also_owns = { λ _. ftrue };
}

/// Entries, after the state that earlier ones left.
#[derive(Drop)]
enum Taken<'a> {
    Nothing,
    Entry(&'a GhostState, &'a Entry),
    Shape(&'a GhostState, &'a Shape<'a>),
    Part(&'a GhostState, &'a Batch<'a>, usize, usize),
}

impl GhostState {
    ghost use Rattle.nap_list.specs.Taken.{state_left};

    /// Returns the state that entries left.
    #[inline(always)]
    fn left_by(_taken: &Taken) -> GhostState
        ensures { result.state ≡ state_left _taken.now }
    {
        GhostState {}
    }

    /// Returns the state of the empty list.
    #[inline(always)]
    pub fn start() -> GhostState
        ensures { result.state ≡ start }
    {
        GhostState::left_by(&Taken::Nothing)
    }

    /// Returns the state after an entry.
    #[inline(always)]
    pub fn after(&self, entry: &Entry) -> GhostState
        ensures { result.state ≡ after self.now.state entry.now }
    {
        GhostState::left_by(&Taken::Entry(self, entry))
    }

    /// Returns the state after the first entries of a batch.
    #[inline(always)]
    pub fn after_first(&self, batch: &Batch, count: usize) -> GhostState
        ensures { result.state ≡ walk self.now.state (take count (batch_entries batch.now)) }
    {
        GhostState::left_by(&Taken::Part(self, batch, 0, count))
    }

    /// Returns the state after a shape.
    #[inline(always)]
    pub fn after_shape(&self, shape: &Shape) -> GhostState
        ensures { result.state ≡ after self.now.state (entry_of_shape shape.now) }
    {
        GhostState::left_by(&Taken::Shape(self, shape))
    }
}

/// The state that written entries left. What no writer reads of it is in proofs alone.
#[derive(Drop)]
pub struct WrittenState {
    drawing: Drawing,
    definition: Option<OpenDefinition>,
    left: GhostState,
}

impl Model for WrittenState {
    ghost Value = { State };

    ghost view = { λ s. s.left.state };

    ghost invariant = { λ s. (s.left.state.drawing ≡ s.drawing) × (s.left.state.definition ≡ s.definition) };
}

impl WrittenState {
    /// Returns the state of the empty list.
    pub fn start() -> WrittenState
        ensures { result ≡ start }
    {
        WrittenState {
            drawing: Drawing::start(),
            definition: None,
            left: GhostState::start(),
        }
    }

    /// Returns the current attributes.
    #[inline(always)]
    pub fn drawing(&self) -> &Drawing
        ensures { result.now ≡ self.now.drawing }
    {
        &self.drawing
    }

    /// Advances past an entry that fits.
    #[inline(always)]
    pub fn step(&mut self, entry: &Entry)
        requires { Fits self.old entry.now }
        ensures { self.new ≡ after self.old entry.now }
    {
        apply_entry(&mut self.drawing, &mut self.definition, entry);
        self.left = self.left.after(entry);
    }

    /// Advances past an entry that only moves the pen, to this place.
    #[inline(always)]
    pub fn move_pen(&mut self, pen: Pen, entry: &Entry)
        requires moves { (after self.old entry.now).drawing ≡ with_pen pen self.old.drawing }
        requires stays { (after self.old entry.now).definition ≡ self.old.definition }
        ensures { self.new ≡ after self.old entry.now }
    {
        self.drawing.pen = pen;
        self.left = self.left.after(entry);
    }

    /// Advances past a shape.
    #[inline(always)]
    pub fn step_shape(&mut self, shape: &Shape)
        ensures { self.new ≡ after self.old (entry_of_shape shape.now) }
    {
        self.drawing.apply_ink(&shape.drawing.ink());
        self.drawing.pen = Pen::At(shape.end());
        self.left = self.left.after_shape(shape);
    }

    /// Advances past a shape that only moves the pen.
    #[inline(always)]
    pub fn move_pen_along(&mut self, shape: &Shape)
        requires { (after self.old (entry_of_shape shape.now)).drawing ≡ with_pen (Pen.At (shape_end shape.now.kind shape.now.from (shape_points shape.now))) self.old.drawing }
        ensures { self.new ≡ after self.old (entry_of_shape shape.now) }
    {
        self.drawing.pen = Pen::At(shape.end());
        self.left = self.left.after_shape(shape);
    }

    /// Advances past `count` entries of a batch from `first`, whose attributes are already current.
    #[inline(always)]
    pub fn step_from(&mut self, batch: &Batch, first: usize, count: usize)
        requires some { first ≤ length (batch_entries batch.now) }
        requires few { count + first ≤ length (batch_entries batch.now) }
        requires current { EachIsCurrent self.old (drop first (batch_entries batch.now)) }
        ensures { self.new ≡ walk self.old (take count (drop first (batch_entries batch.now))) }
    {
        if let Some(further) = count.checked_sub(1) {
            // The number of entries fits a `usize`, so the sum does.
            let _len = batch.len();
            self.drawing.pen = batch.pen_after(first + further);
        }
        self.left = GhostState::left_by(&Taken::Part(&self.left, batch, first, count));
    }
}
