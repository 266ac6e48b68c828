//! Devices: inlets and outlets.
ghost use Rattle.std.specs.Io.{ReadsAtMost, WritesAtMost};
ghost use Rattle.std.specs.Io.KnownBytes.{Keeps, ReadConsumes, WriteAppends};
ghost use Rattle.std.specs.Prelude.{Bool, IfOk, List, Option, false, is_err, length, min, not, true, ℕ, ◌+◌, ◌-◌, ◌<◌, ◌^◌, ◌||◌, ◌≡◌};
ghost use Rattle.std.proofs.Common.{ap};
ghost use Rattle.nap_list.specs.Device.{ReadingFrom, WritingTo};

mod sending;

pub use sending::send_all;
use std::io::{Read, Write};
use std::marker::Model;
use thiserror::Error;

/// A device failed. The reason isn't passed on.
#[derive(Clone, Copy, PartialEq, Eq, Debug, Drop, Error)]
#[error("the device failed")]
pub struct DeviceFault;

/// The greatest number of reads of one input (PROFILE.md, Limits).
pub const READS: u64 = 1_048_576;

/// The greatest number of bytes of one read (PROFILE.md, Limits).
pub const READ_SIZE: usize = 65_536;

/// The greatest number of bytes of one read where the output is written as the input is read.
pub const STREAM_READ_SIZE: usize = 4_096;

/// Gives the bytes of a stream, read by read.
pub trait Inlet {
    /// The bytes left to read, if it tells them.
    ghost left: { Self → Option (List ℕ) };

    /// The number of reads so far, saturating at the greatest `u64`.
    ghost calls: { Self → ℕ };

    /// Whether a read has failed.
    ghost failed: { Self → Bool };

    /// Reads bytes to the beginning of `room` and returns their number; zero is the end. An error moves no byte.
    fn read(&mut self, room: &mut [u8]) -> Result<usize, DeviceFault>
        ensures bound { ReadsAtMost result room.new }
        ensures bytes { ReadConsumes (left self.old) (left self.new) result room.new }
        ensures calls { calls self.new ≡ min (calls self.old + 1) (2 ^ 64 - 1) }
        ensures failed { failed self.new ≡ (failed self.old || is_err result) };

    /// Returns the number of reads so far, saturating at the greatest `u64`.
    fn calls(&self) -> u64
        ensures { result ≡ calls self.now };

    /// Whether a read has failed.
    fn failed(&self) -> bool
        ensures { result ≡ failed self.now };
}

/// An inlet over a reader of `std`. It tells its bytes if the reader does.
#[derive(Drop)]
pub struct Source<R> {
    reader: R,
    calls: u64,
    failed: bool,
}

impl<R> Model for Source<R> {
    ghost Value = { ReadingFrom R };

    ghost view = { λ s. record { reader = s.reader; calls = s.calls; failed = s.failed } };
}

impl<R: Read> Source<R> {
    /// Returns an inlet over a reader, which hasn't been read through it.
    pub fn new(reader: R) -> Source<R>
        ensures { result ≡ record { reader = reader; calls = 0; failed = false } }
    {
        Source {
            reader,
            calls: 0,
            failed: false,
        }
    }

    /// Returns the reader.
    pub fn into_inner(self) -> R
        ensures { result ≡ self.reader }
    {
        let Source { reader, .. } = self;
        reader
    }
}

impl<R: Read> Inlet for Source<R> {
    ghost left = { λ s. R.remaining s.reader };

    ghost calls = { λ s. s.calls };

    ghost failed = { λ s. s.failed };

    fn read(&mut self, room: &mut [u8]) -> Result<usize, DeviceFault> {
        self.calls = self.calls.saturating_add(1);
        let result = self.reader.read(room).or(Err(DeviceFault));
        self.failed |= result.is_err();
        result
    }

    fn calls(&self) -> u64 {
        self.calls
    }

    fn failed(&self) -> bool {
        self.failed
    }
}

/// Takes the bytes of a stream, write by write.
pub trait Outlet {
    /// The bytes taken, if it tells them.
    ghost taken: { Self → Option (List ℕ) };

    /// Whether a write or a flush has failed.
    ghost failed: { Self → Bool };

    /// Whether a write has failed.
    ghost write_failed: { Self → Bool };

    /// Whether no byte is buffered: there was a flush after the last write.
    ghost sent: { Self → Bool };

    /// The number of flushes so far, failed ones included, saturating at the greatest `u64`.
    ghost flushes: { Self → ℕ };

    /// Takes bytes from the beginning of `piece` and returns their number, at least one. An error takes no byte.
    fn write(&mut self, piece: &[u8]) -> Result<usize, DeviceFault>
        ensures bound { WritesAtMost result piece.now }
        ensures some { 0 < length piece.now → IfOk result (λ n. 0 < n) }
        ensures bytes { WriteAppends (taken self.old) (taken self.new) result piece.now }
        ensures sent { sent self.new ≡ false }
        ensures flushes { flushes self.new ≡ flushes self.old }
        ensures failed { failed self.new ≡ (failed self.old || is_err result) }
        ensures write_failed { write_failed self.new ≡ (write_failed self.old || is_err result) };

    /// Sends on the bytes that are buffered. Takes no byte.
    fn flush(&mut self) -> Result<(), DeviceFault>
        ensures bytes { Keeps (taken self.old) (taken self.new) }
        ensures sent { sent self.new ≡ not (is_err result) }
        ensures flushes { flushes self.new ≡ min (flushes self.old + 1) (2 ^ 64 - 1) }
        ensures failed { failed self.new ≡ (failed self.old || is_err result) }
        ensures write_failed { write_failed self.new ≡ write_failed self.old };

    /// Whether a write or a flush has failed.
    fn failed(&self) -> bool
        ensures { result ≡ failed self.now };

    /// A failed write counts as a failure.
    ghost fails_by_write: { (s : Self) → write_failed s ≡ true → failed s ≡ true };
}

/// An outlet over a writer of `std`. It tells its bytes if the writer does.
#[derive(Drop)]
pub struct Target<W> {
    writer: W,
    write_failed: bool,
    flush_failed: bool,
    sent: bool,
    flushes: u64,
}

impl<W> Model for Target<W> {
    ghost Value = { WritingTo W };

    ghost view = { λ t. record { writer = t.writer; write_failed = t.write_failed; flush_failed = t.flush_failed; sent = t.sent; flushes = t.flushes } };
}

impl<W: Write> Target<W> {
    /// Returns an outlet over a writer, which hasn't been written through it.
    pub fn new(writer: W) -> Target<W>
        ensures { result ≡ record { writer = writer; write_failed = false; flush_failed = false; sent = false; flushes = 0 } }
    {
        Target {
            writer,
            write_failed: false,
            flush_failed: false,
            sent: false,
            flushes: 0,
        }
    }

    /// Returns the writer.
    pub fn into_inner(self) -> W
        ensures { result ≡ self.writer }
    {
        let Target { writer, .. } = self;
        writer
    }
}

impl<W: Write> Outlet for Target<W> {
    ghost taken = { λ t. W.contents t.writer };

    ghost failed = { λ t. t.write_failed || t.flush_failed };

    ghost write_failed = { λ t. t.write_failed };

    ghost sent = { λ t. t.sent };

    ghost flushes = { λ t. t.flushes };

    #[inline(always)]
    fn write(&mut self, piece: &[u8]) -> Result<usize, DeviceFault> {
        self.sent = false;
        match self.writer.write(piece) {
            Ok(count) if count > 0 || piece.is_empty() => Ok(count),
            _ => {
                self.write_failed = true;
                Err(DeviceFault)
            }
        }
    }

    fn flush(&mut self) -> Result<(), DeviceFault> {
        self.flushes = self.flushes.saturating_add(1);
        let result = self.writer.flush().or(Err(DeviceFault));
        self.sent = result.is_ok();
        self.flush_failed |= result.is_err();
        result
    }

    fn failed(&self) -> bool {
        self.write_failed || self.flush_failed
    }

    ghost fails_by_write = { λ t failed. ap (λ (b : Bool). b || t.flush_failed) failed };
}
