//! Writers that take a few bytes at a call, and fail.
use std::alloc::Global;
use std::io;
use std::io::{ErrorKind, Write};

/// What a writer does once it is full.
#[derive(Clone, Copy, Drop)]
pub enum End {
    /// Fails at each write.
    Fails,
    /// Takes no byte, without a fault.
    Closes,
    /// Takes no byte once, and then fails at each write.
    ClosesOnce,
}

/// A writer that takes bytes until it is full, at most `most` at a write. It does `good_flushes` flushes, and further
/// ones fail.
#[derive(Drop)]
pub struct Taker {
    /// The bytes taken.
    pub kept: Vec<u8>,
    /// The number of bytes that it still takes.
    pub space: usize,
    /// The most bytes of a write.
    pub most: usize,
    /// What it does once it is full.
    pub end: End,
    /// The number of flushes that are done.
    pub good_flushes: u64,
    /// The error of a write or flush that fails.
    pub fault: ErrorKind,
    /// The writes so far.
    pub writes: u64,
    /// The flushes so far.
    pub flushes: u64,
    /// The number of bytes that the last flush found.
    pub sent: usize,
}

impl Taker {
    /// Returns a writer that takes `space` bytes, at most `most` at a write, and then does `end`. Its flushes are done.
    pub fn new(alloc: Global, space: usize, most: usize, end: End) -> Taker {
        Taker {
            kept: Vec::new(alloc),
            space,
            most,
            end,
            good_flushes: u64::MAX,
            fault: ErrorKind::Other,
            writes: 0,
            flushes: 0,
            sent: 0,
        }
    }

    /// Returns a writer that takes all bytes, and fails at its flush.
    pub fn without_flush(alloc: Global) -> Taker {
        Taker {
            good_flushes: 0,
            ..Taker::wide(alloc)
        }
    }

    /// Returns a writer that takes all bytes.
    pub fn wide(alloc: Global) -> Taker {
        Taker::new(alloc, usize::MAX, usize::MAX, End::Fails)
    }
}

impl Write for Taker {
    fn write(&mut self, buf: &[u8]) -> io::Result<usize> {
        self.writes = self.writes.saturating_add(1);
        let count = buf.len().min(self.space).min(self.most);
        if count > 0 && self.kept.extend_from_slice(&buf[..count]).is_ok() {
            self.space -= count;
            return Ok(count);
        }
        match self.end {
            End::Fails => return Err(self.fault.into()),
            End::Closes => {}
            End::ClosesOnce => self.end = End::Fails,
        }
        Ok(0)
    }

    fn flush(&mut self) -> io::Result<()> {
        self.flushes = self.flushes.saturating_add(1);
        self.sent = self.kept.len();
        if self.flushes > self.good_flushes {
            return Err(self.fault.into());
        }
        Ok(())
    }
}
