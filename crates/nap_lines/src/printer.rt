//! A sink that prints lines of its entries.
ghost use Rattle.std.specs.Prelude.{◌≡◌, ◌<◌, [], false, vec_capacity, OnOk, vec_len};
ghost use Rattle.nap_list.specs.Batches.{batch_entries};
ghost use Rattle.nap_list.specs.State.{start};
ghost use Rattle.nap_lines.specs.Printing.{BrokeLines, Closes, PrintsLines, TookLines, line_memory, taken_count, SendsBuffered};
ghost use Rattle.nap_lines.specs.PrintingLaws.{took_broke, took_more, took_none, wants_more};
ghost use Rattle.nap_list.specs.Sending.{SendsBytes, sending};

use crate::backward_buffer::BackwardBuffer;
use crate::batch::write_batch;
use crate::line::{write_line, write_shape_line};
use nap_list::{
    Batch, BatchFault, DeviceFault, Entry, GhostState, Outlet, Shape, Sink, SinkFault, send_all,
};
use std::alloc::Global;
use std::marker::Model;

/// The least number of bytes of lines that are sent, as many as a pipe takes at once.
const SEND_SIZE: usize = 65_536;

/// Sends lines, as `send_all` does. It isn't inlined where lines are made.
#[inline(never)]
fn send_lines<O: Outlet>(outlet: &mut O, written: &mut u64, lines: &[u8]) -> Result<(), usize>
    ensures { SendsBytes O.Outlet outlet.old written.old lines.now outlet.new written.new result }
{
    send_all(outlet, written, lines)
}

/// Sends the buffered bytes if they are enough for a write, and keeps the memory.
#[inline(always)]
fn send_if_large<O: Outlet>(
    outlet: &mut O,
    written: &mut u64,
    buffered: &mut Vec<u8>,
) -> Result<(), DeviceFault>
    ensures sent { SendsBuffered (sending O.Outlet outlet.old written.old) buffered.old.items buffered.new.items (sending O.Outlet outlet.new written.new) result }
    ensures memory { vec_capacity buffered.new ≡ vec_capacity buffered.old }
    ensures few { OnOk result (vec_len buffered.new < 65536) }
{
    if buffered.len() < SEND_SIZE {
        return Ok(());
    }
    match send_lines(outlet, written, buffered.as_slice()) {
        Ok(()) => {
            buffered.clear();
            Ok(())
        }
        Err(_) => Err(DeviceFault),
    }
}

/// The greatest number of entries of a batch whose lines are made at once.
const BATCH_SIZE: usize = 128;

/// The memory that a printer needs, in bytes: for lines that are buffered, for lines that are made at once, and for the
/// longest line of a shape.
pub const LINE_MEMORY: usize = 131_072;

/// Prints a line of each entry that it takes to an outlet. Lines are buffered until there are enough for a write. Once
/// a write has failed, it writes nothing more and answers `Write` for each further entry.
#[derive(Drop)]
pub struct LinePrinter<O: Outlet + Drop> {
    buffer: BackwardBuffer,
    buffered: Vec<u8>,
    state: GhostState,
    outlet: O,
    written: u64,
    /// The capacity of the memory that it was made with.
    space: usize,
}

impl<O: Outlet + Drop> Model for LinePrinter<O> {
    ghost use Rattle.std.specs.Prelude.{◌≡◌, ◌<◌, ◌≤◌, false, vec_len, vec_capacity};
    ghost use Rattle.nap_lines.specs.Printing.{Printing};

    ghost Value = { Printing O };

    ghost view = { λ s. record { outlet = s.outlet; written = s.written; buffered = s.buffered.items; state = s.state.state; space = s.space } };

    ghost invariant = { λ s. record { space : s.space ≤ vec_capacity s.buffered; few : O.failed s.outlet ≡ false → vec_len s.buffered < 98304 } };
}

/// Returns how many of `count` entries were taken.
#[inline(always)]
fn taken_count(printed: Result<(), BatchFault>, count: usize) -> usize
    ensures { result ≡ taken_count count printed }
{
    match printed {
        Ok(()) => count,
        Err(stop) => stop.taken,
    }
}

impl<O: Outlet + Drop> LinePrinter<O> {
    /// Returns a sink that has taken no entry. It makes lines in this memory, and wants no more if that has `LINE_MEMORY`
    /// bytes.
    pub fn new(memory: Vec<u8>, outlet: O) -> LinePrinter<O>
        ensures { result ≡ record { outlet = outlet; written = 0; buffered = []; state = start; space = vec_capacity memory } }
    {
        let space = memory.capacity();
        let mut buffered = memory;
        buffered.clear();
        LinePrinter {
            buffer: BackwardBuffer::new(),
            buffered,
            state: GhostState::start(),
            outlet,
            written: 0,
            space,
        }
    }

    /// Whether a write of this sink has failed.
    #[inline(always)]
    fn failed(&self) -> bool
        ensures { result ≡ O.failed self.now.outlet }
    {
        self.outlet.failed()
    }

    /// Prints the lines of a batch; the state is unchanged.
    #[inline(always)]
    fn print_batch(&mut self, batch: &Batch) -> Result<(), BatchFault>
        requires { O.failed self.old.outlet ≡ false }
        ensures { PrintsLines O.Outlet self.old (batch_entries batch.now) self.new result }
    {
        let mut taken = 0;
        while taken < batch.len() {
            let Ok(()) = send_if_large(&mut self.outlet, &mut self.written, &mut self.buffered)
            else {
                return Err(BatchFault {
                    taken,
                    fault: SinkFault::Write,
                });
            };
            let count = (batch.len() - taken).min(BATCH_SIZE);
            let more = write_batch(&mut self.buffer, &mut self.buffered, batch, taken, count);
            taken += more;
            if more < count {
                return Err(BatchFault {
                    taken,
                    fault: SinkFault::Memory,
                });
            }
        }
        Ok(())
    }

    /// Sends the buffered lines, unless a write has failed.
    fn send_rest(&mut self)
        ensures { Closes O.Outlet self.old self.new.outlet self.new.written }
    {
        if self.failed() {
            return;
        }
        let lines = self.buffered.as_slice();
        // The outlet keeps the failure.
        let _ = send_lines(&mut self.outlet, &mut self.written, lines);
    }

    /// Sends the buffered lines. Returns the outlet, unflushed, and the number of bytes that it took from this sink,
    /// saturating at the greatest `u64`.
    pub fn close(self) -> (O, u64)
        ensures { Closes O.Outlet self result.0 result.1 }
    {
        let mut sink = self;
        sink.send_rest();
        sink.stop()
    }

    /// Drops the buffered lines. Returns the outlet, and the number of bytes that it took from this sink, saturating at
    /// the greatest `u64`.
    pub fn stop(self) -> (O, u64)
        ensures { (result.0 ≡ self.outlet) × (result.1 ≡ self.written) }
    {
        let LinePrinter {
            outlet,
            written,
            ..
        } = self;
        (outlet, written)
    }
}

impl<O: Outlet + Drop> Sink for LinePrinter<O> {
    ghost state = { λ s. s.state };

    ghost wants = { λ s d. s.space < line_memory };

    ghost failed = { λ s. O.failed s.outlet };

    ghost took = { λ s d t. TookLines O.Outlet s d t };

    ghost broke = { λ s d e t. BrokeLines O.Outlet s d e t };

    fn put(&mut self, entry: Entry) -> Result<(), SinkFault> {
        if self.failed() {
            return Err(SinkFault::Write);
        }
        write_line(&mut self.buffer, &mut self.buffered, &entry, "\n")?;
        let Ok(()) = send_if_large(&mut self.outlet, &mut self.written, &mut self.buffered) else {
            return Err(SinkFault::Write);
        };
        self.state = self.state.after(&entry);
        Ok(())
    }

    #[inline(always)]
    fn put_batch(&mut self, batch: &Batch) -> Result<(), BatchFault> {
        if self.failed() {
            return Err(BatchFault {
                taken: 0,
                fault: SinkFault::Write,
            });
        }
        let printed = self.print_batch(batch);
        let taken = taken_count(printed, batch.len());
        self.state = self.state.after_first(batch, taken);
        printed
    }

    fn put_shape(&mut self, _: Global, shape: &Shape) -> Result<(), SinkFault> {
        if self.failed() {
            return Err(SinkFault::Write);
        }
        write_shape_line(&mut self.buffer, &mut self.buffered, shape)?;
        let Ok(()) = send_if_large(&mut self.outlet, &mut self.written, &mut self.buffered) else {
            return Err(SinkFault::Write);
        };
        self.state = self.state.after_shape(shape);
        Ok(())
    }

    ghost took_none = { λ s. took_none _ s };

    ghost took_more = { λ s t u d e a b. took_more _ s t u d e a b };

    ghost wants_more = { λ s t d e f a b. wants_more _ s t d a b };

    ghost took_broke = { λ s t u d e x a b. took_broke _ s t u d e x a b };
}
