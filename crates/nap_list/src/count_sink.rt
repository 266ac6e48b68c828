//! A sink that counts entries.
ghost use Rattle.std.specs.Prelude.{◌≡◌, ◌+◌, ◌-◌, false};
ghost use Rattle.nap_list.specs.State.{start};
ghost use Rattle.nap_list.specs.Counting.{CountsEntries, Uncounted, counts_more, counts_none, uncounted_more};

use crate::batch::Batch;
use crate::entry::Entry;
use crate::shape::Shape;
use crate::sink::{BatchFault, Sink, SinkFault};
use crate::sink_state::GhostState;
use std::alloc::Global;

/// Counts the entries that it takes, and keeps none. Answers lack of memory if the count would exceed a `u64`.
#[derive(Drop)]
pub struct CountSink {
    count: u64,
    state: GhostState,
}

impl CountSink {
    /// Returns a sink that has taken no entry.
    pub fn new() -> CountSink
        ensures { result ≡ record { count = 0; state = record { state = start } } }
    {
        CountSink {
            count: 0,
            state: GhostState::start(),
        }
    }

    /// Returns the number of entries taken.
    pub fn count(&self) -> u64
        ensures { result ≡ self.now.count }
    {
        self.count
    }
}

impl Sink for CountSink {
    ghost state = { λ s. s.state.state };

    ghost wants = { λ s d. Uncounted s d };

    ghost failed = { λ s. false };

    ghost took = { λ s d t. CountsEntries s d t };

    ghost broke = { λ s d e t. ⊥ };

    #[inline(always)]
    fn put(&mut self, entry: Entry) -> Result<(), SinkFault> {
        let Some(count) = self.count.checked_add(1) else {
            return Err(SinkFault::Memory);
        };
        self.count = count;
        self.state = self.state.after(&entry);
        Ok(())
    }

    #[inline(always)]
    fn put_batch(&mut self, batch: &Batch) -> Result<(), BatchFault> {
        let taken = (batch.len() as u64).min(u64::MAX - self.count) as usize;
        self.count += taken as u64;
        self.state = self.state.after_first(batch, taken);
        BatchFault::error_unless_all(taken, batch)
    }

    #[inline(always)]
    fn put_shape(&mut self, _: Global, shape: &Shape) -> Result<(), SinkFault> {
        let Some(count) = self.count.checked_add(1) else {
            return Err(SinkFault::Memory);
        };
        self.count = count;
        self.state = self.state.after_shape(shape);
        Ok(())
    }

    #[inline(always)]
    fn counts_only(&self) -> bool {
        true
    }

    #[inline(always)]
    fn put_alike(&mut self, count: usize, last: &Entry) -> bool {
        let Some(sum) = self.count.checked_add(count as u64) else {
            return false;
        };
        self.count = sum;
        self.state = self.state.after(last);
        true
    }

    ghost took_none = { λ s. counts_none s };

    ghost took_more = { λ s t u d e a b. counts_more s t u d e a b };

    ghost wants_more = { λ s t d e f a b. uncounted_more s t d e f a b };

    ghost took_broke = { λ s t u d e x a b. absurd b };
}
