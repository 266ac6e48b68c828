//! What a file has around its data.
ghost use Rattle.std.specs.Prelude.{◌≡◌, ◌≤◌, ◌+◌, ◌<◌, ◌^◌, length};
ghost use Rattle.nap_mend.specs.Files.{before_comments, before_mark, before_sauce, comment_length, data_of, has_comments, has_sauce, is_macbinary, number_at};

use crate::sets::{Span, byte_at, is_within};

/// The number of bytes of a MacBinary header, and of a SAUCE record.
const BLOCK: usize = 128;

/// Returns the number of four bytes, the most significant first.
fn number_at(bytes: &[u8], at: usize) -> usize
    requires { at + 4 ≤ length bytes.now }
    ensures value { result ≡ number_at bytes.now at }
    ensures few { result < 2 ^ 32 }
{
    bytes[at] as usize * 16_777_216
        + bytes[at + 1] as usize * 65_536
        + bytes[at + 2] as usize * 256
        + bytes[at + 3] as usize
}

/// Whether the bytes begin with a MacBinary header.
fn is_macbinary(bytes: &[u8]) -> bool
    ensures { result ≡ is_macbinary bytes.now }
{
    bytes.len() >= BLOCK
        && bytes[0] == 0
        && is_within(1, 64, bytes[1])
        && bytes[74] == 0
        && bytes[82] == 0
        && BLOCK + number_at(bytes, 83) <= bytes.len()
}

/// Returns where the data of a file is.
pub(crate) fn data_of(bytes: &[u8]) -> Span
    ensures span { result ≡ data_of bytes.now }
    ensures order { result.begin ≤ result.end }
    ensures within { result.end ≤ length bytes.now }
{
    if is_macbinary(bytes) {
        Span {
            begin: BLOCK,
            end: BLOCK + number_at(bytes, 83),
        }
    } else {
        Span {
            begin: 0,
            end: bytes.len(),
        }
    }
}

/// Whether the last bytes are a SAUCE record.
fn has_sauce(bytes: &[u8]) -> bool
    ensures { result ≡ has_sauce bytes.now }
{
    bytes.len() >= BLOCK
        && bytes[bytes.len() - BLOCK..].starts_with(&[0x53, 0x41, 0x55, 0x43, 0x45, 0x30, 0x30])
}

/// Returns the number of bytes of a record's comments.
fn comment_length(bytes: &[u8], at: usize) -> usize
    requires { at + 128 ≤ length bytes.now }
    ensures { result ≡ comment_length bytes.now at }
{
    5 + 64 * bytes[at + 104] as usize
}

/// Whether comments stand before a record that begins there.
fn has_comments(bytes: &[u8], at: usize) -> bool
    requires { at + 128 ≤ length bytes.now }
    ensures { result ≡ has_comments bytes.now at }
{
    bytes[at + 104] > 0
        && comment_length(bytes, at) <= at
        && bytes[at - comment_length(bytes, at)..].starts_with(&[0x43, 0x4F, 0x4D, 0x4E, 0x54])
}

/// Returns the number of bytes before the comments of a record that begins there.
fn before_comments(bytes: &[u8], at: usize) -> usize
    requires { at + 128 ≤ length bytes.now }
    ensures count { result ≡ before_comments bytes.now at }
    ensures within { result ≤ at }
{
    if has_comments(bytes, at) {
        at - comment_length(bytes, at)
    } else {
        at
    }
}

/// Returns the number of bytes before a 1A at the end of the first ones.
fn before_mark(bytes: &[u8], count: usize) -> usize
    ensures count { result ≡ before_mark bytes.now count }
    ensures within { result ≤ count }
{
    if count > 0 && byte_at(bytes, count - 1) == 0x1A {
        count - 1
    } else {
        count
    }
}

/// Returns the number of bytes before a SAUCE record with what belongs to it.
pub(crate) fn before_sauce(bytes: &[u8]) -> usize
    ensures count { result ≡ before_sauce bytes.now }
    ensures within { result ≤ length bytes.now }
{
    if has_sauce(bytes) {
        before_mark(bytes, before_comments(bytes, bytes.len() - BLOCK))
    } else {
        bytes.len()
    }
}
