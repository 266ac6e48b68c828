//! The bytes of one kind at the beginning of a piece.
ghost use Rattle.std.specs.Prelude.{map, drop, not, ◌≡◌, ◌+◌, ◌≤◌, ◌<◌, length, ℕ, List, ◌⊎◌, false, true, None, IfSome, All, is_some, take, MatchOption};
ghost use Rattle.std.specs.List.{prefix_len};
ghost use Rattle.std.specs.Simd.Lanes.{mask_l, chunk};
ghost use Rattle.nap_reader.specs.Prefix.{is_from, is_of_text, is_other, EndsAt, GoesThrough};
ghost use Rattle.nap_reader.specs.Names.{IsTextByte, format_effector, run_limit};
ghost use Rattle.nap_reader.specs.Steps.{IsOver, IsWholeRun};
ghost use Rattle.nap_reader.specs.Stream.{is_operand_byte};

use nap_draw::RUN_LIMIT;
use std::simd::prelude::*;

/// A bit for each format effector of one byte, at its number: `08` to `0B`, `0D` and `1E`.
const EFFECTORS: u32 = 0x4000_2F00;

/// Returns how many bytes at the beginning are from `least` to `7F`.
pub(crate) fn prefix_from(piece: &[u8], least: u8) -> usize
    requires { least < 0x80 }
    ensures { result ≡ prefix_len (is_from least) piece.now }
{
    let mut at = 0;
    // Most runs end within sixteen bytes.
    if piece.len() >= 16 {
        let others = others_in_sixteen(u8x16::from_slice(piece), least);
        if others != 0 {
            return others.trailing_zeros() as usize;
        }
        at = 16;
    }
    if let Some(last) = piece.len().checked_sub(32) {
        while at <= last {
            let others = others_in(u8x32::from_slice(&piece[at..]), least);
            if others != 0 {
                return at + others.trailing_zeros() as usize;
            }
            at += 32;
        }
    }
    prefix_end(piece, at, least)
}

/// Returns the index after the bytes from `least` to `7F` that begin at `from`, counted by eight bytes and then byte by
/// byte.
fn prefix_end(piece: &[u8], from: usize, least: u8) -> usize
    requires within { from ≤ length piece.now }
    requires ascii { least < 0x80 }
    ensures { result ≡ from + prefix_len (is_from least) (drop from piece.now) }
{
    let mut at = from;
    while piece.len() - at >= 8 {
        let others = others_in_eight(u8x8::from_slice(&piece[at..]), least);
        if others != 0 {
            return at + others.trailing_zeros() as usize;
        }
        at += 8;
    }
    while at < piece.len() && is_at_least(piece[at], least) {
        at += 1;
    }
    at
}

/// Returns a bit for each byte of a block that isn't from `least` to `7F`.
pub(crate) fn others_in(block: u8x32, least: u8) -> u64
    requires { least < 0x80 }
    ensures { result ≡ mask_l (map (λ b. not (is_from least b)) block) }
{
    (block - u8x32::splat(least))
        .simd_ge(u8x32::splat(0x80 - least))
        .to_bitmask()
}

/// Returns a bit for each byte of a block of sixteen that isn't from `least` to `7F`.
pub(crate) fn others_in_sixteen(block: u8x16, least: u8) -> u64
    requires { least < 0x80 }
    ensures { result ≡ mask_l (map (λ b. not (is_from least b)) block) }
{
    (block - u8x16::splat(least))
        .simd_ge(u8x16::splat(0x80 - least))
        .to_bitmask()
}

/// Returns a bit for each byte of a block of eight that isn't from `least` to `7F`.
pub(crate) fn others_in_eight(block: u8x8, least: u8) -> u64
    requires { least < 0x80 }
    ensures { result ≡ mask_l (map (λ b. not (is_from least b)) block) }
{
    (block - u8x8::splat(least))
        .simd_ge(u8x8::splat(0x80 - least))
        .to_bitmask()
}

/// Whether a byte is from `least` to `7F`.
pub(crate) fn is_at_least(byte: u8, least: u8) -> bool
    ensures { result ≡ is_from least byte }
{
    byte >= least && byte < 0x80
}

/// Returns how many bytes at the beginning are operand bytes.
pub(crate) fn operand_prefix_len(bytes: &[u8]) -> usize
    ensures { result ≡ prefix_len is_operand_byte bytes.now }
{
    prefix_from(bytes, 0x40)
}

/// Returns the operand bytes at the beginning, if they are no more than a run may have and another byte follows them,
/// in the piece or after it.
#[inline]
pub(crate) fn whole_run(piece: &[u8], ended: bool) -> Option<&[u8]>
    ensures short { IfSome result (λ run. length run.now ≤ run_limit) }
    ensures whole { IfSome result (λ run. (following : List ℕ) → (ended ≡ true → IsOver following) → IsWholeRun piece.now following run.now) }
    ensures none { result ≡ None → (run_limit < prefix_len is_operand_byte piece.now) ⊎ ((ended ≡ false) × (prefix_len is_operand_byte piece.now ≡ length piece.now)) }
{
    // Most runs end within sixteen bytes, so another byte follows.
    if piece.len() >= 16 {
        let others = others_in_sixteen(u8x16::from_slice(piece), 0x40);
        if others != 0 {
            return Some(&piece[..others.trailing_zeros() as usize]);
        }
    }
    let count = prefix_from(piece, 0x40);
    if count > RUN_LIMIT {
        return None;
    }
    if count == piece.len() && !ended {
        return None;
    }
    Some(&piece[..count])
}

/// Whether a byte is an operand byte, from `40` to `7F`.
pub(crate) fn is_operand(byte: u8) -> bool
    ensures { result ≡ is_operand_byte byte }
{
    byte >= 0x40 && byte < 0x80
}

/// Returns the bytes at the beginning that are from `20` to `7F` or format effectors of one byte.
pub(crate) fn text_bytes(piece: &[u8]) -> &[u8]
    ensures bytes { result.now ≡ take (prefix_len is_of_text piece.now) piece.now }
    ensures typed { All IsTextByte result.now }
{
    let mut at = 0;
    while piece.len() - at >= 32 {
        let others = others_in(u8x32::from_slice(&piece[at..]), 0x20);
        if let Some(end) = end_in_block(piece, at, others) {
            return &piece[..end];
        }
        at += 32;
    }
    // Up to 31 bytes are left.
    while piece.len() - at >= 8 && others_in_eight(u8x8::from_slice(&piece[at..]), 0x20) == 0 {
        at += 8;
    }
    while at < piece.len() && is_text_byte(piece[at]) {
        at += 1;
    }
    &piece[..at]
}

/// Returns the index of the first byte that doesn't belong to a text in the 32 bytes from an index on. A bit of `others`
/// is set for each of these that isn't from `20` to `7F`.
#[inline(always)]
fn end_in_block(piece: &[u8], at: usize, others: u64) -> Option<usize>
    requires within { at + 32 ≤ length piece.now }
    requires others { others ≡ mask_l (map (is_other 32) (chunk at 32 piece.now)) }
    ensures { MatchOption result (GoesThrough piece.now at) (λ end. EndsAt piece.now at end) }
{
    let mut rest = others;
    while rest != 0 {
        let index = at + rest.trailing_zeros() as usize;
        if !is_effector(piece[index]) {
            return Some(index);
        }
        rest &= rest - 1;
    }
    None
}

/// Whether a byte belongs to a text.
#[inline(always)]
fn is_text_byte(byte: u8) -> bool
    ensures { result ≡ is_of_text byte }
{
    is_effector(byte) || is_at_least(byte, 0x20)
}

/// Whether a byte is a format effector of one byte.
#[inline(always)]
pub(crate) fn is_effector(byte: u8) -> bool
    ensures { result ≡ is_some (format_effector byte) }
{
    byte < 0x20 && EFFECTORS >> byte & 1 == 1
}
