//! Readers that give a few bytes at a call, and fail.
use std::io;
use std::io::{ErrorKind, Read};

/// A reader of these bytes, at most `most` at a read. It fails once, at read `bad`, counted from 1.
#[derive(Drop)]
pub struct Giver<'a> {
    /// The bytes that are left.
    pub bytes: &'a [u8],
    /// The most bytes of a read.
    pub most: usize,
    /// The read that fails, 0 for none.
    pub bad: u64,
    /// The error of that read.
    pub fault: ErrorKind,
    /// The reads so far.
    pub reads: u64,
}

impl Giver<'_> {
    /// Returns a reader of these bytes, at most `most` at a read, that fails at read `bad`.
    pub fn new<'a>(bytes: &'a [u8], most: usize, bad: u64) -> Giver<'a> {
        Giver {
            bytes,
            most,
            bad,
            fault: ErrorKind::Other,
            reads: 0,
        }
    }
}

impl Read for Giver<'_> {
    fn read(&mut self, buf: &mut [u8]) -> io::Result<usize> {
        self.reads = self.reads.saturating_add(1);
        if self.reads == self.bad {
            return Err(self.fault.into());
        }
        let count = self.bytes.len().min(buf.len()).min(self.most);
        let (piece, rest) = self.bytes.split_at(count);
        buf[..count].copy_from_slice(piece);
        self.bytes = rest;
        Ok(count)
    }
}

/// A reader of NULs, at most `most` at a read.
#[derive(Drop)]
pub struct Nuls {
    /// The number of NULs that are left.
    pub left: usize,
    /// The most bytes of a read.
    pub most: usize,
    /// The reads so far.
    pub reads: u64,
}

impl Nuls {
    /// Returns a reader of `left` NULs, at most `most` at a read.
    pub fn new(left: usize, most: usize) -> Nuls {
        Nuls {
            left,
            most,
            reads: 0,
        }
    }
}

impl Read for Nuls {
    fn read(&mut self, buf: &mut [u8]) -> io::Result<usize> {
        self.reads = self.reads.saturating_add(1);
        let count = self.left.min(buf.len()).min(self.most);
        self.left -= count;
        buf[..count].fill(0);
        Ok(count)
    }
}
