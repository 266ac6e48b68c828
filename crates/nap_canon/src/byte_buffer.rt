//! A buffer of bytes for one write.
ghost use Rattle.std.specs.Prelude.{◌≡◌, ◌≤◌, ◌+◌, ◌*◌, ◌++◌, [], ◌∷◌, length};
ghost use Rattle.nap_canon.specs.Batches.{points_bytes};
ghost use Rattle.nap_canon.specs.Spelling.{displacement_bytes};
ghost use Rattle.nap_canon.specs.Buffers.{with_bytes_at, buffer_limit};

use arrayvec::ArrayVec;
use nap_values::{Point, put_move, put_point};
use std::marker::Model;

/// The size of the buffer.
pub(crate) const BUFFER_SIZE: usize = 1_024;

/// A buffer of bytes.
#[derive(Drop)]
pub(crate) struct ByteBuffer {
    bytes: [u8; BUFFER_SIZE],
    count: usize,
}

impl Model for ByteBuffer {
    ghost use Rattle.std.specs.Prelude.{ℕ, List, ◌≤◌, take};
    ghost use Rattle.nap_canon.specs.Buffers.{buffer_limit};

    ghost Value = { List ℕ };

    ghost view = { λ g. take g.count g.bytes };

    ghost invariant = { λ g. g.count ≤ buffer_limit };
}

impl ByteBuffer {
    /// Returns an empty buffer.
    pub(crate) fn new() -> ByteBuffer
        ensures { result ≡ [] }
    {
        ByteBuffer {
            bytes: [0; BUFFER_SIZE],
            count: 0,
        }
    }

    /// Returns the bytes.
    #[inline(always)]
    pub(crate) fn as_slice(&self) -> &[u8]
        ensures { result.now ≡ self.now }
    {
        &self.bytes[..self.count]
    }

    /// Returns the number of bytes.
    #[inline(always)]
    pub(crate) fn len(&self) -> usize
        ensures { result ≡ length self.now }
    {
        self.count
    }

    /// Empties the buffer.
    #[inline(always)]
    pub(crate) fn clear(&mut self)
        ensures { self.new ≡ [] }
    {
        self.count = 0;
    }

    /// Appends a byte.
    #[inline(always)]
    pub(crate) fn push(&mut self, byte: u8)
        requires space { length self.old + 1 ≤ buffer_limit }
        ensures bytes { self.new ≡ self.old ++ byte ∷ [] }
        ensures size { length self.new ≡ length self.old + 1 }
    {
        let at = self.count;
        write_byte_at(&mut self.bytes, at, byte);
        self.count = at + 1;
    }

    /// Appends bytes: a few.
    #[inline(always)]
    pub(crate) fn extend(&mut self, bytes: &[u8])
        requires space { length self.old + length bytes.now ≤ buffer_limit }
        ensures bytes { self.new ≡ self.old ++ bytes.now }
        ensures size { length self.new ≡ length self.old + length bytes.now }
    {
        let at = self.count;
        write_bytes_at(&mut self.bytes, at, bytes);
        self.count = at + bytes.len();
    }

    /// Appends codes: many, where `extend` is for a few.
    #[inline(always)]
    pub(crate) fn append_codes(&mut self, codes: &[u8])
        requires space { length self.old + length codes.now ≤ buffer_limit }
        ensures bytes { self.new ≡ self.old ++ codes.now }
        ensures size { length self.new ≡ length self.old + length codes.now }
    {
        let at = self.count;
        write_codes_at(&mut self.bytes, at, codes);
        self.count = at + codes.len();
    }

    /// Appends the operands of points.
    #[inline(always)]
    pub(crate) fn append_points(&mut self, points: &[Point])
        requires space { length self.old + 8 * length points.now ≤ buffer_limit }
        ensures bytes { self.new ≡ self.old ++ points_bytes points.now }
        ensures size { length self.new ≡ length self.old + 8 * length points.now }
    {
        let at = self.count;
        write_points_at(&mut self.bytes, at, points);
        self.count = at + 8 * points.len();
    }

    /// Appends the displacements from a point to each of the others in turn.
    #[inline(always)]
    pub(crate) fn append_displacements(&mut self, first: Point, others: &[Point])
        requires space { length self.old + 8 * length others.now ≤ buffer_limit }
        ensures bytes { self.new ≡ self.old ++ displacement_bytes first others.now }
        ensures size { length self.new ≡ length self.old + 8 * length others.now }
    {
        let at = self.count;
        write_displacements_at(&mut self.bytes, at, first, others);
        self.count = at + 8 * others.len();
    }
}

/// Writes a byte at an index.
#[inline(always)]
fn write_byte_at(bytes: &mut [u8; BUFFER_SIZE], at: usize, byte: u8)
    requires within { at + 1 ≤ buffer_limit }
    ensures { bytes.new ≡ with_bytes_at bytes.old at (byte ∷ []) }
{
    bytes[at] = byte;
}

/// Writes codes at an index.
#[inline(always)]
fn write_codes_at(bytes: &mut [u8; BUFFER_SIZE], at: usize, codes: &[u8])
    requires within { at + length codes.now ≤ buffer_limit }
    ensures { bytes.new ≡ with_bytes_at bytes.old at codes.now }
{
    bytes[at..at + codes.len()].copy_from_slice(codes);
}

/// Writes bytes at an index, one by one: LLVM turns eight of them into one store, without a test for an overlap.
#[inline(always)]
fn write_bytes_at(bytes: &mut [u8; BUFFER_SIZE], at: usize, more: &[u8])
    requires within { at + length more.now ≤ buffer_limit }
    ensures { bytes.new ≡ with_bytes_at bytes.old at more.now }
{
    for i in 0..more.len() {
        let byte = more[i];
        write_byte_at(bytes, at + i, byte);
    }
}

/// Writes the operands of points at an index.
#[inline(always)]
fn write_points_at(bytes: &mut [u8; BUFFER_SIZE], at: usize, points: &[Point])
    requires within { at + 8 * length points.now ≤ buffer_limit }
    ensures { bytes.new ≡ with_bytes_at bytes.old at (points_bytes points.now) }
{
    let mut until = at;
    for point in points {
        let operand: ArrayVec<u8, 8> = put_point(*point);
        write_bytes_at(bytes, until, &operand);
        until += 8;
    }
}

/// Writes the displacements from a point to each of the others in turn, at an index.
#[inline(always)]
fn write_displacements_at(bytes: &mut [u8; BUFFER_SIZE], at: usize, first: Point, others: &[Point])
    requires within { at + 8 * length others.now ≤ buffer_limit }
    ensures { bytes.new ≡ with_bytes_at bytes.old at (displacement_bytes first others.now) }
{
    let mut from = first;
    for i in 0..others.len() {
        let to = others[i];
        let operand: ArrayVec<u8, 8> = put_move(from.to(to));
        write_bytes_at(bytes, at + 8 * i, &operand);
        from = to;
    }
}
