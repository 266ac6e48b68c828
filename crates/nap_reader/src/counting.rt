//! A sink with a count of its entries.
ghost use Rattle.std.specs.Prelude.{◌≡◌, false, Some, Option};
ghost use Rattle.nap_list.specs.State.{start};
ghost use Rattle.nap_reader.specs.Collecting.{IsCounted};
ghost use Rattle.nap_reader.specs.Counting.{GrowsBy, TookCounted, took_more, took_none};

use crate::budget::Budget;
use crate::fault::Refusal;
use crate::feeding::read_stream;
use nap_list::{Batch, BatchFault, Entry, Shape, Sink, SinkFault};
use std::alloc::Global;
use std::marker::Model;

/// Counts the entries that another sink takes, as long as a `u64` holds the number.
#[derive(Drop)]
pub(crate) struct CountingSink<S: Sink + Drop> {
    sink: S,
    count: Option<u64>,
}

impl<S: Sink + Drop> Model for CountingSink<S> {
    ghost use Rattle.nap_reader.specs.Counting.{CountedSink};

    ghost Value = { CountedSink S };

    ghost view = { λ s. record { sink = s.sink; count = s.count } };
}

impl<S: Sink + Drop> CountingSink<S> {
    /// Returns a counting sink over a sink, with the count zero.
    pub(crate) fn new(sink: S) -> CountingSink<S>
        ensures { result ≡ record { sink = sink; count = Some 0 } }
    {
        CountingSink {
            sink,
            count: Some(0),
        }
    }

    /// Returns the number of entries taken, if a `u64` can hold it.
    pub(crate) fn count(&self) -> Option<u64>
        ensures { result ≡ self.now.count }
    {
        self.count
    }

    /// Returns the other sink.
    pub(crate) fn into_inner(self) -> S
        ensures { result ≡ self.sink }
    {
        let CountingSink { sink, .. } = self;
        sink
    }
}

/// Returns the count plus `entries`, if a `u64` can hold it.
fn count_plus(count: Option<u64>, entries: usize) -> Option<u64>
    ensures grows { GrowsBy entries count result }
    ensures none { entries ≡ 0 → result ≡ count }
{
    count?.checked_add(entries as u64)
}

impl<S: Sink + Drop> Sink for CountingSink<S> {
    ghost state = { λ s. S.state s.sink };

    ghost wants = { λ s d. S.wants s.sink d };

    ghost failed = { λ s. S.failed s.sink };

    ghost took = { λ s d t. TookCounted S.Sink s d t };

    ghost broke = { λ s d e t. S.broke s.sink d e t.sink };

    fn put(&mut self, entry: Entry) -> Result<(), SinkFault> {
        self.sink.put(entry)?;
        self.count = count_plus(self.count, 1);
        Ok(())
    }

    fn put_batch(&mut self, batch: &Batch) -> Result<(), BatchFault> {
        let put = self.sink.put_batch(batch);
        let taken = match &put {
            Ok(()) => batch.len(),
            Err(stop) => stop.taken,
        };
        self.count = count_plus(self.count, taken);
        put
    }

    fn put_shape(&mut self, alloc: Global, shape: &Shape) -> Result<(), SinkFault> {
        self.sink.put_shape(alloc, shape)?;
        self.count = count_plus(self.count, 1);
        Ok(())
    }

    ghost took_none = { λ s. took_none _ s (S.took_none s.sink) };

    ghost took_more = { λ s t u d e a b. took_more _ s t u d e (S.took_more s.sink t.sink u.sink d e a.took b.took) a b };

    ghost wants_more = { λ s t d e f a b. S.wants_more s.sink t.sink d e f a.took b };

    ghost took_broke = { λ s t u d e x a b. S.took_broke s.sink t.sink u.sink d e x a.took b };
}

/// Returns the sink with all entries of a stream and their number, if a `u64` can hold it; or the stream's refusal.
pub fn read_counted<S: Sink + Drop>(
    alloc: Global,
    budget: Budget,
    stream: &[u8],
    sink: S,
) -> Result<(S, Option<u64>), Refusal>
    requires start { S.state sink ≡ start }
    requires works { S.failed sink ≡ false }
    ensures { IsCounted S.Sink sink budget stream.now result }
{
    match read_stream(alloc, budget, stream, CountingSink::new(sink)) {
        Ok(found) => {
            let count = found.count();
            Ok((found.into_inner(), count))
        }
        Err(refusal) => Err(refusal),
    }
}
