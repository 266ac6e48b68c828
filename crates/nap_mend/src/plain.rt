//! Bytes without eighth bits.
ghost use Rattle.std.specs.Prelude.{◌≡◌, ◌≤◌, ◌%◌, IfOk, length, map};
ghost use Rattle.nap_mend.specs.Plain.{before_end, before_fill, bits_unfilled, coded_after_lead, coded_of, coded_to, ends_filled, is_filled, is_filled_at, is_high_fill, final_byte, without_bits};

use crate::bits::{Bits, eighth_bits};
use crate::codes::content_begin;
use crate::sets::{ByteSet, before_run, byte_at};
use std::alloc::{AllocError, Global};

/// Bytes with eighth bits, from one index to before another.
#[derive(Clone, Copy, Drop)]
pub(crate) struct Coded {
    /// What the eighth bits are.
    pub(crate) bits: Bits,
    /// The index of the first byte.
    pub(crate) begin: usize,
    /// The index after the last byte.
    pub(crate) end: usize,
}

/// Returns the last byte, or 0.
fn final_byte(bytes: &[u8]) -> u8
    ensures { result ≡ final_byte bytes.now }
{
    byte_at(bytes, bytes.len().saturating_sub(1))
}

/// Whether a byte is one from 80 on with which disks are filled.
fn is_high_fill(byte: u8) -> bool
    ensures { result ≡ is_high_fill byte }
{
    byte == 0xE5 || byte == 0xF6 || byte == 0xFF
}

/// Whether four such bytes, all the same, stand there.
fn is_filled_at(bytes: &[u8], at: usize) -> bool
    requires { at ≤ length bytes.now }
    ensures { result ≡ is_filled_at bytes.now at }
{
    let first = byte_at(bytes, at);
    is_high_fill(first)
        && first == byte_at(bytes, at.saturating_add(1))
        && first == byte_at(bytes, at.saturating_add(2))
        && first == byte_at(bytes, at.saturating_add(3))
}

/// Whether bytes end with a zero, or with four such bytes.
fn ends_filled(bytes: &[u8]) -> bool
    ensures { result ≡ ends_filled bytes.now }
{
    final_byte(bytes) == 0x00 || is_filled_at(bytes, bytes.len().saturating_sub(4))
}

/// Returns the number of bytes before such a fill at the end.
fn before_fill(bytes: &[u8]) -> usize
    ensures value { result ≡ before_fill bytes.now }
    ensures within { result ≤ length bytes.now }
{
    if ends_filled(bytes) {
        before_run(ByteSet::Only(final_byte(bytes)), bytes, bytes.len())
    } else {
        bytes.len()
    }
}

/// Returns the number of bytes before that fill and a run of 1A before it.
fn before_end(bytes: &[u8]) -> usize
    ensures value { result ≡ before_end bytes.now }
    ensures within { result ≤ length bytes.now }
{
    before_run(ByteSet::Only(0x1A), bytes, before_fill(bytes))
}

/// Whether bytes begin or end so.
fn is_filled(bytes: &[u8]) -> bool
    ensures { result ≡ is_filled bytes.now }
{
    is_filled_at(bytes, 0) || is_filled_at(bytes, bytes.len().saturating_sub(4))
}

/// Returns the eighth bits of bytes, unless these are filled.
fn bits_unfilled(bytes: &[u8]) -> Bits
    ensures { result ≡ bits_unfilled bytes.now }
{
    if is_filled(bytes) {
        Bits::None
    } else {
        eighth_bits(bytes)
    }
}

/// Returns the eighth bits of the first bytes without what leads.
fn coded_after_lead(bytes: &[u8], count: usize) -> Coded
    requires { count ≤ length bytes.now }
    ensures coded { result ≡ coded_after_lead bytes.now count }
    ensures order { result.begin ≤ result.end }
    ensures within { result.end ≤ length bytes.now }
{
    let begin = content_begin(&bytes[..count]);
    match eighth_bits(&bytes[begin..count]) {
        Bits::None => Coded {
            bits: Bits::None,
            begin: 0,
            end: bytes.len(),
        },
        bits => Coded {
            bits,
            begin,
            end: count,
        },
    }
}

/// Returns the eighth bits of the first bytes, or of these without what leads.
fn coded_to(bytes: &[u8], count: usize) -> Coded
    requires { count ≤ length bytes.now }
    ensures coded { result ≡ coded_to bytes.now count }
    ensures order { result.begin ≤ result.end }
    ensures within { result.end ≤ length bytes.now }
{
    match bits_unfilled(&bytes[..count]) {
        Bits::None => coded_after_lead(bytes, count),
        bits => Coded {
            bits,
            begin: 0,
            end: count,
        },
    }
}

/// Returns the eighth bits of a file, and the bytes that have them.
pub(crate) fn coded_of(bytes: &[u8]) -> Coded
    ensures coded { result ≡ coded_of bytes.now }
    ensures order { result.begin ≤ result.end }
    ensures within { result.end ≤ length bytes.now }
{
    match bits_unfilled(bytes) {
        Bits::None => coded_to(bytes, before_end(bytes)),
        bits => Coded {
            bits,
            begin: 0,
            end: bytes.len(),
        },
    }
}

/// Returns the low seven bits of bytes.
fn low_bits(alloc: Global, bytes: &[u8]) -> Result<Vec<u8>, AllocError>
    ensures { IfOk result (λ low. low.items ≡ map (λ b. b % 128) bytes.now) }
{
    bytes.iter().map(|byte| *byte % 128).collect(alloc)
}

/// Returns bytes without these eighth bits.
pub(crate) fn without_bits(alloc: Global, bits: Bits, bytes: &[u8]) -> Result<Vec<u8>, AllocError>
    ensures { IfOk result (λ plain. plain.items ≡ without_bits bits bytes.now) }
{
    match bits {
        Bits::None => Vec::from_slice(alloc, bytes),
        _ => low_bits(alloc, bytes),
    }
}
