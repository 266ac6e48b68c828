//! A sink of one's own: how far the shapes of a page reach.
ghost use Rattle.std.specs.Prelude.{◌≡◌, ◌≢◌, Some, false, fold, IfOk, IfErr};
ghost use Rattle.naplps.specs.Budgets.{usual_budget};
ghost use Rattle.naplps.specs.Shapes.{entry_of_shape};
ghost use Rattle.naplps.specs.State.{start};
ghost use Rattle.naplps.specs.Stream.{means};
ghost use Rattle.naplps.specs.Streams.{IsAccepted, list_of};
ghost use Rattle.naplps_examples.specs.Extents.{TookEntries, nowhere, reaches_more, reaches_none, with_entries, with_entry, with_point};

use naplps::entry::Point;
use naplps::sink::{Shape, Sink, SinkFault, State};
use naplps::{Budget, Entry, Fault, Reader, Refusal};
use std::alloc::Global;

/// The least and the greatest coordinates of some points.
#[derive(Clone, Copy, PartialEq, Eq, Debug, Drop)]
pub struct Extent {
    /// The least x.
    pub left: u32,
    /// The least y.
    pub bottom: u32,
    /// The greatest x.
    pub right: u32,
    /// The greatest y.
    pub top: u32,
}

impl Extent {
    /// Returns the extent of no points.
    pub fn nowhere() -> Extent
        ensures { result ≡ nowhere }
    {
        Extent {
            left: Point::LIMIT,
            bottom: Point::LIMIT,
            right: 0,
            top: 0,
        }
    }

    /// Returns the extent with one more point.
    pub fn with(self, point: Point) -> Extent
        ensures { result ≡ with_point self point }
    {
        Extent {
            left: self.left.min(point.x()),
            bottom: self.bottom.min(point.y()),
            right: self.right.max(point.x()),
            top: self.top.max(point.y()),
        }
    }

    /// Returns the extent with more points.
    pub fn with_all(self, points: &[Point]) -> Extent
        ensures { result ≡ fold with_point self points.now }
    {
        points
            .iter()
            .fold(self, |extent, point| extent.with(*point))
    }

    /// Returns the extent with the points of one more entry.
    pub fn with_entry(self, entry: &Entry) -> Extent
        ensures { result ≡ with_entry self entry.now }
    {
        match entry {
            Entry::Point { at, .. } => self.with(*at),
            Entry::Line { from, to, .. } | Entry::Rect { from, to, .. } => {
                self.with(*from).with(*to)
            }
            Entry::Arc { points, .. } | Entry::Poly { points, .. } => {
                self.with_all(points.as_slice())
            }
            _ => self,
        }
    }

    /// Returns the extent with the points of one more arc or polygon.
    pub fn with_shape(self, shape: &Shape) -> Extent
        ensures { result ≡ with_entry self (entry_of_shape shape.now) }
    {
        self.with(shape.from).with_all(shape.others)
    }
}

/// Keeps the extent of the entries that it takes, and not the entries.
#[derive(Drop)]
pub struct ExtentSink {
    /// The extent of the entries so far.
    pub extent: Extent,
    /// The state that the entries leave.
    pub state: State,
}

impl ExtentSink {
    /// Returns a sink that has taken nothing.
    pub fn new() -> ExtentSink
        ensures { result ≡ record { extent = nowhere; state = start } }
    {
        ExtentSink {
            extent: Extent::nowhere(),
            state: State::start(),
        }
    }
}

impl Sink for ExtentSink {
    ghost state = { λ s. s.state };

    ghost wants = { λ s d. ⊥ };

    ghost failed = { λ s. false };

    ghost took = { λ s d t. TookEntries s d t };

    ghost broke = { λ s d e t. ⊥ };

    fn put(&mut self, entry: Entry) -> Result<(), SinkFault> {
        self.extent = self.extent.with_entry(&entry);
        self.state.step(&entry);
        Ok(())
    }

    fn put_shape(&mut self, _: Global, shape: &Shape) -> Result<(), SinkFault> {
        self.extent = self.extent.with_shape(shape);
        self.state.step_shape(shape);
        Ok(())
    }

    ghost took_none = { λ s. reaches_none s };

    ghost took_more = { λ s t u d e a b. reaches_more s t u d e a b };

    ghost wants_more = { λ s t d e f a b. absurd b };

    ghost took_broke = { λ s t u d e x a b. absurd b };
}

/// Returns how far the shapes of a page reach, or its refusal.
pub fn extent_of(alloc: Global, page: &[u8]) -> Result<Extent, Refusal>
    ensures accepted { IfOk result (λ extent. IsAccepted usual_budget page.now) }
    ensures extent { IfOk result (λ extent. extent ≡ with_entries nowhere (list_of usual_budget page.now)) }
    ensures refused { IfErr result (λ r. r.fault ≢ Fault.Memory → (means usual_budget page.now).refusal ≡ Some r) }
{
    let mut reader = Reader::new(alloc, Budget::usual(), ExtentSink::new());
    reader.feed(page)?;
    match reader.finish() {
        Ok(sink) => Ok(sink.extent),
        Err(stopped) => Err(stopped.refusal),
    }
}
