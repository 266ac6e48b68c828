//! Batches of which the attributes may not be current.
ghost use Rattle.std.specs.Prelude.{◌≡◌, ◌<◌, ◌≤◌, length, take};
ghost use Rattle.nap_canon.specs.Names.{AllFit, batch_entries, walk};
ghost use Rattle.nap_canon.specs.Writing.{PutsPrefix};

use crate::byte_sink::ByteSink;
use crate::writer::Writer;
use crate::writer::joining::put_count;
use nap_list::{Batch, WrittenState};

/// Advances past the first `count` entries of a batch.
#[inline(always)]
fn step_batch(state: &mut WrittenState, batch: &Batch, count: usize)
    requires some { 0 < length (batch_entries batch.now) }
    requires few { count ≤ length (batch_entries batch.now) }
    requires fit { AllFit state.old (batch_entries batch.now) }
    ensures { state.new ≡ walk state.old (take count (batch_entries batch.now)) }
{
    if let Some(further) = count.checked_sub(1) {
        state.step(&batch.entry(0));
        state.step_from(batch, 1, further);
    }
}

impl<T: ByteSink + Drop> Writer<T> {
    /// Puts the first entry of a batch, and those after it that make one write with it. Returns their number; the error
    /// has the number taken.
    #[inline(always)]
    pub(crate) fn put_start(&mut self, batch: &Batch) -> Result<usize, usize>
        requires some { 0 < length (batch_entries batch.now) }
        requires fit { AllFit self.old.state (batch_entries batch.now) }
        ensures { PutsPrefix T.sent (batch_entries batch.now) self.old self.new result }
    {
        self.pending.bytes.clear();
        self.pending
            .append_start(self.form, self.state.drawing(), batch);
        let put = self.write_with_more(batch, 0);
        step_batch(&mut self.state, batch, put_count(put));
        put
    }
}
