//! Sinks of bytes.
ghost use Rattle.std.specs.Prelude.{◌++◌, ℕ, List, [], Bool, true, false, is_err, ◌≤◌, length, take};
ghost use Rattle.nap_canon.specs.Batches.{SentUpTo};
ghost use Rattle.nap_list.specs.Sending.{Sends, sending};
ghost use Rattle.nap_canon.specs.declared.byte_sink.Output.{Output};
ghost use Rattle.nap_canon.specs.SinkLaws.{sends_none, sends_more, sends_cut};

use nap_list::{DeviceFault, Outlet, send_all};

/// Takes the bytes of a text, piece after piece.
pub(crate) trait ByteSink {
    /// Why bytes weren't taken.
    type Fault;

    /// The second sink is the first one after it took the bytes, or failed during them.
    ghost sent: { Self → List ℕ → Bool → Self → Type 0 };

    /// Takes all bytes, or fails.
    fn write_all(&mut self, bytes: &[u8]) -> Result<(), Self::Fault>
        ensures { sent self.old bytes.now (is_err result) self.new };

    /// Takes all bytes. On failure returns how many were taken.
    fn write_counted(&mut self, bytes: &[u8]) -> Result<(), usize>
        ensures { SentUpTo sent self.old bytes.now self.new result };

    /// Taking no bytes changes nothing.
    ghost sent_none: { (s : Self) → sent s [] false s };

    /// Bytes taken after others, or cut short after them, are taken, or cut short, as one.
    ghost sent_more: { (s t u : Self) (a b : List ℕ) (broke : Bool) → sent s a false t → sent t b broke u → sent s (a ++ b) broke u };

    /// After a failure nothing more is taken.
    ghost sent_cut: { (s t : Self) (a b : List ℕ) → sent s a true t → sent s (a ++ b) true t };
}

/// An outlet, and the number of bytes that it took, saturating at the greatest `u64`.
#[derive(Drop)]
pub(crate) struct Output<O: Outlet + Drop> {
    pub(crate) outlet: O,
    pub(crate) written: u64,
}

impl<O: Outlet + Drop> Output<O> {
    /// Writes the bytes from index `first` on, after those before it. On failure returns how many of all bytes were
    /// taken.
    #[inline(never)]
    fn write_rest(&mut self, bytes: &[u8], first: usize) -> Result<(), usize>
        requires { first ≤ length bytes.now }
        ensures { (s : Output O) → Sends (sending O.Outlet s.outlet s.written) (take first bytes.now) false (sending O.Outlet self.old.outlet self.old.written) →
            SentUpTo (λ x bytes broke y. Sends (sending O.Outlet x.outlet x.written) bytes broke (sending O.Outlet y.outlet y.written)) s bytes.now self.new result }
    {
        match send_all(&mut self.outlet, &mut self.written, &bytes[first..]) {
            Ok(()) => Ok(()),
            Err(taken) => Err(first + taken),
        }
    }
}

impl<O: Outlet + Drop> ByteSink for Output<O> {
    type Fault = DeviceFault;

    ghost sent = { λ s bytes broke t. Sends (sending O.Outlet s.outlet s.written) bytes broke (sending O.Outlet t.outlet t.written) };

    #[inline(always)]
    fn write_all(&mut self, bytes: &[u8]) -> Result<(), DeviceFault> {
        match self.write_counted(bytes) {
            Ok(()) => Ok(()),
            Err(_) => Err(DeviceFault),
        }
    }

    // One write usually takes a whole piece. The rest of a piece is written by a function of its own, which keeps this
    // one short where it is inlined.
    #[inline(always)]
    fn write_counted(&mut self, bytes: &[u8]) -> Result<(), usize> {
        if bytes.is_empty() {
            return Ok(());
        }
        let Ok(count) = self.outlet.write(bytes) else {
            return Err(0);
        };
        self.written = self.written.saturating_add(count as u64);
        if count < bytes.len() {
            return self.write_rest(bytes, count);
        }
        Ok(())
    }

    ghost sent_none = { λ s. sends_none _ };

    ghost sent_more = { λ s t u a b broke. sends_more _ _ _ a b broke };

    ghost sent_cut = { λ s t a b. sends_cut _ _ a b };
}
