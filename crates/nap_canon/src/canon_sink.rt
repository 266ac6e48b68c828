//! A sink that writes the canonical text of its entries (PROFILE.md, Canonical text).
ghost use Rattle.std.specs.Prelude.{◌≡◌, ◌<◌, ◌≤◌, [], ◌∷◌, length, drop, true, false, OnOk, IsErrOf};
ghost use Rattle.nap_canon.specs.Names.{AllFit, EachIsCurrent, Fits, after, batch_entries};
ghost use Rattle.nap_canon.specs.Batches.{PutsAfter, PutsSome};
ghost use Rattle.nap_canon.specs.Concluding.{EndsOutput, bytes_taken};
ghost use Rattle.nap_canon.specs.Sinking.{StartsTextIn, StartsText, Took, Broke};
ghost use Rattle.nap_canon.specs.SinkLaws.{took_none, took_more, took_broke};

use crate::byte_sink::Output;
use crate::current::batch_begins_current;
use crate::text::Form;
use crate::writer::Writer;
use nap_list::{Batch, BatchFault, Entry, Outlet, Shape, Sink, SinkFault};
use std::alloc::Global;
use std::marker::Model;

/// Writes the canonical text of the entries that it takes to an outlet, as they come. Takes no memory. Once a write has
/// failed, it writes nothing more and answers `Write` for each further entry.
#[derive(Drop)]
pub struct CanonSink<O: Outlet + Drop> {
    writer: Writer<Output<O>>,
}

impl<O: Outlet + Drop> Model for CanonSink<O> {
    ghost use Rattle.nap_canon.specs.Sinking.{Canonical};

    ghost Value = { Canonical O };

    ghost view = { λ s. record { outlet = s.writer.target.outlet; written = s.writer.target.written; form = s.writer.form; text_end = s.writer.pending.text_end; state = s.writer.state } };
}

impl<O: Outlet + Drop> CanonSink<O> {
    /// Returns a sink that has taken no entry, and writes the header of the text. If that fails, the sink has failed.
    pub fn new(outlet: O) -> CanonSink<O>
        requires { O.failed outlet ≡ false }
        ensures { StartsText O.Outlet outlet result }
    {
        CanonSink::in_form(Form::Two, outlet)
    }

    /// Returns a sink for a text in this form.
    pub(crate) fn in_form(form: Form, outlet: O) -> CanonSink<O>
        requires { O.failed outlet ≡ false }
        ensures { StartsTextIn form O.Outlet outlet result }
    {
        let mut writer = Writer::new(form, Output { outlet, written: 0 });
        // The outlet keeps the failure.
        let _ = writer.write_header();
        CanonSink { writer }
    }

    /// Takes one entry: writes its prelude and its spelling. The only error is `Write`, after which a proper prefix of
    /// these bytes is written.
    #[inline(always)]
    pub fn put_ref(&mut self, entry: &Entry) -> Result<(), SinkFault>
        requires { Fits self.old.state entry.now }
        ensures took { OnOk result (Took O.Outlet self.old (entry.now ∷ []) self.new) }
        ensures after { OnOk result (self.new.state ≡ after self.old.state entry.now) }
        ensures memory { IsErrOf result SinkFault.Memory → ⊥ }
        ensures refuses { O.failed self.old.outlet ≡ true → IsErrOf result SinkFault.Write }
        ensures write { IsErrOf result SinkFault.Write → O.failed self.new.outlet ≡ true }
        ensures only_write { O.failed self.new.outlet ≡ true → IsErrOf result SinkFault.Write }
        ensures state { IsErrOf result SinkFault.Write → self.new.state ≡ self.old.state }
        ensures broke { IsErrOf result SinkFault.Write → O.failed self.old.outlet ≡ false → Broke O.Outlet self.old [] entry.now self.new }
        // A sink that has failed is unchanged.
        ensures still { IsErrOf result SinkFault.Write → O.failed self.old.outlet ≡ true → self.new ≡ self.old }
    {
        if self.failed() {
            return Err(SinkFault::Write);
        }
        if self.writer.put_ref(entry).is_err() {
            return Err(SinkFault::Write);
        }
        Ok(())
    }

    /// Takes the first entry of a batch, and those after it that make one write with it. Returns their number; so does
    /// the error.
    #[inline(always)]
    fn put_start(&mut self, batch: &Batch) -> Result<usize, usize>
        requires some { 0 < length (batch_entries batch.now) }
        requires fit { AllFit self.old.state (batch_entries batch.now) }
        ensures { PutsSome O.Outlet (batch_entries batch.now) self.old self.new result }
    {
        if self.failed() {
            return Err(0);
        }
        // The code for a text is its own, since its kind is known there.
        match batch {
            Batch::Text {
                drawing,
                pen,
                codes,
                set,
            } => self.writer.put_start(&Batch::Text {
                set: *set,
                codes,
                pen: *pen,
                drawing,
            }),
            _ => self.writer.put_start(batch),
        }
    }

    /// Takes a batch from `first`, where the attributes of each entry are current. The error has the number of entries
    /// of the batch that were taken.
    #[inline(always)]
    fn put_current(&mut self, batch: &Batch, first: usize) -> Result<(), usize>
        requires few { first ≤ length (batch_entries batch.now) }
        requires current { EachIsCurrent self.old.state (drop first (batch_entries batch.now)) }
        requires works { O.failed self.old.outlet ≡ false }
        ensures { PutsAfter O.Outlet first (batch_entries batch.now) self.old self.new result }
    {
        let count = batch.len();
        let mut taken = first;
        while taken < count {
            match self.writer.put_more(batch, taken) {
                Ok(more) => taken += more,
                Err(more) => return Err(taken + more),
            }
        }
        Ok(())
    }

    /// Takes a batch up to a failed write, with the prelude of its first entry. The error has the number of entries that
    /// were taken.
    #[inline(never)]
    fn put_with_prelude(&mut self, batch: &Batch) -> Result<(), usize>
        requires { AllFit self.old.state (batch_entries batch.now) }
        ensures { PutsAfter O.Outlet 0 (batch_entries batch.now) self.old self.new result }
    {
        if batch.is_empty() {
            return Ok(());
        }
        match self.put_start(batch) {
            Ok(count) => self.put_current(batch, count),
            Err(taken) => Err(taken),
        }
    }

    /// Returns how many bytes the outlet took from this sink, saturating at the greatest `u64`.
    pub fn written(&self) -> u64
        ensures { result ≡ self.now.written }
    {
        self.writer.target.written
    }

    /// Whether a write of this sink has failed.
    pub fn failed(&self) -> bool
        ensures { result ≡ O.failed self.now.outlet }
    {
        self.writer.target.outlet.failed()
    }

    /// Returns the outlet, which isn't flushed.
    pub fn close(self) -> O
        ensures { result ≡ self.outlet }
    {
        let CanonSink { writer } = self;
        let Writer { target, .. } = writer;
        let Output { outlet, .. } = target;
        outlet
    }

    /// Flushes the outlet, unless a write has failed, and returns it. Returns the number of bytes that it took,
    /// saturating at the greatest `u64`, as the error where a write or the flush failed.
    pub fn finish(self) -> (O, Result<u64, u64>)
        ensures ends { EndsOutput O.Outlet self.outlet result.0 }
        ensures answer { result.1 ≡ bytes_taken (O.failed result.0) self.written }
    {
        let written = self.written();
        let failed = self.failed();
        let mut outlet = self.close();
        if failed || outlet.flush().is_err() {
            return (outlet, Err(written));
        }
        (outlet, Ok(written))
    }
}

impl<O: Outlet + Drop> Sink for CanonSink<O> {
    ghost state = { λ s. s.state };

    ghost wants = { λ s d. ⊥ };

    ghost failed = { λ s. O.failed s.outlet };

    ghost took = { λ s d t. Took O.Outlet s d t };

    ghost broke = { λ s d e t. Broke O.Outlet s d e t };

    #[inline(always)]
    fn put(&mut self, entry: Entry) -> Result<(), SinkFault> {
        self.put_ref(&entry)
    }

    #[inline(always)]
    fn put_batch(&mut self, batch: &Batch) -> Result<(), BatchFault> {
        let fault = SinkFault::Write;
        if !self.failed() && batch_begins_current(self.writer.state.drawing(), batch) {
            if let Err(taken) = self.put_current(batch, 0) {
                return Err(BatchFault { taken, fault });
            }
            return Ok(());
        }
        if let Err(taken) = self.put_with_prelude(batch) {
            return Err(BatchFault { taken, fault });
        }
        Ok(())
    }

    fn put_shape(&mut self, _: Global, shape: &Shape) -> Result<(), SinkFault> {
        if self.failed() || self.writer.put_shape(shape).is_err() {
            return Err(SinkFault::Write);
        }
        Ok(())
    }

    ghost took_none = { λ s. took_none _ s };

    ghost took_more = { λ s t u d e. took_more _ s t u d e };

    ghost wants_more = { λ s t d e f a b. absurd b };

    ghost took_broke = { λ s t u d e x. took_broke _ s t u d e x };
}
