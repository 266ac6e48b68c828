//! A sink that counts entries, and shapes among them.
ghost use Rattle.std.specs.Prelude.{◌≡◌, ◌∷◌, [], false};
ghost use Rattle.nap_list.specs.State.{start};
ghost use Rattle.nap_find.specs.Shapes.{CountsDrawn, capped_sum, shapes_in};
ghost use Rattle.nap_find.specs.ShapeLaws.{drawn_more, drawn_none};
ghost use Rattle.nap_list.specs.Batches.{batch_entries};

use nap_list::{Batch, BatchFault, Entry, GhostState, Shape, Sink, SinkFault};
use std::alloc::Global;

/// Counts the entries that it takes, and the shapes among them. A count stops at the greatest `u64`.
#[derive(Drop)]
pub(crate) struct DrawnSink {
    /// The number of entries.
    pub(crate) entries: u64,
    /// The number of shapes.
    pub(crate) shapes: u64,
    /// The state that the entries leave.
    pub(crate) state: GhostState,
}

impl DrawnSink {
    /// Returns a sink that has taken nothing.
    pub(crate) fn new() -> DrawnSink
        ensures { result ≡ record { entries = 0; shapes = 0; state = record { state = start } } }
    {
        DrawnSink {
            entries: 0,
            shapes: 0,
            state: GhostState::start(),
        }
    }
}

/// Returns 1 for a point, line, arc, rectangle or polygon, and 0 for another entry.
fn shapes_of_entry(entry: &Entry) -> u64
    ensures { result ≡ shapes_in (entry.now ∷ []) }
{
    match entry {
        Entry::Point { .. }
        | Entry::Line { .. }
        | Entry::Arc { .. }
        | Entry::Rect { .. }
        | Entry::Poly { .. } => 1,
        _ => 0,
    }
}

/// Returns the number of shapes of a batch.
fn shapes_of_batch(batch: &Batch) -> u64
    ensures { result ≡ shapes_in (batch_entries batch.now) }
{
    match batch {
        Batch::Points { points, .. } => points.len() as u64,
        Batch::Lines { points, .. } => points.len() as u64,
        Batch::Text { .. } => 0,
    }
}

/// Returns a sum that grows no further than the greatest `u64`.
pub(crate) fn capped_sum(a: u64, b: u64) -> u64
    ensures { result ≡ capped_sum a b }
{
    a.saturating_add(b)
}

impl Sink for DrawnSink {
    ghost state = { λ s. s.state.state };

    ghost wants = { λ s d. ⊥ };

    ghost failed = { λ s. false };

    ghost took = { λ s d t. CountsDrawn s d t };

    ghost broke = { λ s d e t. ⊥ };

    fn put(&mut self, entry: Entry) -> Result<(), SinkFault> {
        self.entries = capped_sum(self.entries, 1);
        self.shapes = capped_sum(self.shapes, shapes_of_entry(&entry));
        self.state = self.state.after(&entry);
        Ok(())
    }

    fn put_batch(&mut self, batch: &Batch) -> Result<(), BatchFault> {
        self.entries = capped_sum(self.entries, batch.len() as u64);
        self.shapes = capped_sum(self.shapes, shapes_of_batch(batch));
        self.state = self.state.after_first(batch, batch.len());
        Ok(())
    }

    fn put_shape(&mut self, _: Global, shape: &Shape) -> Result<(), SinkFault> {
        self.entries = capped_sum(self.entries, 1);
        self.shapes = capped_sum(self.shapes, 1);
        self.state = self.state.after_shape(shape);
        Ok(())
    }

    ghost took_none = { λ s. drawn_none s };

    ghost took_more = { λ s t u d e a b. drawn_more s t u d e a b };

    ghost wants_more = { λ s t d e f a b. absurd b };

    ghost took_broke = { λ s t u d e x a b. absurd b };
}
