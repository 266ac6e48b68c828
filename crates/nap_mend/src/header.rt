//! Headers before a page.
ghost use Rattle.std.specs.Prelude.{◌≡◌, ◌≤◌, ◌<◌, ◌+◌, ◌^◌, length};
ghost use Rattle.nap_mend.specs.Codes.{lead_length};
ghost use Rattle.nap_mend.specs.Headers.{acts_after, header_of, header_with, is_header, has_no_effect, is_of_page, header_with_byte, header_with_code};

use crate::codes::{is_placed, is_placing, lead_length};
use crate::sets::{byte_at, is_blank_byte, is_within};

/// What is known of the first bytes of a header.
#[derive(Clone, Copy, Drop)]
pub(crate) struct Header {
    /// Their number.
    end: usize,
    /// Whether something acts after the last one that no page has.
    acts: bool,
    /// Whether that one is NSR with a place.
    placed: bool,
    /// Whether a code of a page is among them.
    bad: bool,
}

/// Whether a byte is CS, SO, SS2, ESC or SS3.
fn is_of_page(byte: u8) -> bool
    ensures { result ≡ is_of_page byte }
{
    byte == 0x0C || byte == 0x0E || byte == 0x19 || byte == 0x1B || byte == 0x1D
}

/// Whether a byte is one of C0 without effect.
fn has_no_effect(byte: u8) -> bool
    ensures { result ≡ has_no_effect byte }
{
    byte < 7 || is_within(0x0F, 0x18, byte)
}

/// Whether something acts after one more byte, which is no code or fill.
fn acts_after(acts: bool, byte: u8) -> bool
    ensures { result ≡ acts_after acts byte }
{
    byte < 0x80 && (acts || !has_no_effect(byte))
}

/// Returns the header with one more byte, which is no code or fill.
fn header_with_byte(header: Header, byte: u8) -> Header
    requires { header.end < 2 ^ 63 }
    ensures { result ≡ header_with_byte header byte }
{
    Header {
        end: header.end + 1,
        acts: acts_after(header.acts, byte),
        placed: header.placed && byte < 0x80,
        bad: header.bad || is_of_page(byte),
    }
}

/// Returns the header with a code or fill.
fn header_with_code(bytes: &[u8], header: Header, count: usize) -> Header
    requires within { header.end + count ≤ length bytes.now }
    requires some { header.end < length bytes.now }
    ensures value { result ≡ header_with_code bytes.now header count }
    ensures within { result.end ≤ length bytes.now }
{
    if is_blank_byte(byte_at(bytes, header.end)) {
        Header {
            end: header.end + 1,
            acts: header.acts,
            placed: header.placed,
            bad: header.bad,
        }
    } else {
        Header {
            end: header.end + count,
            acts: false,
            placed: is_placed(bytes, header.end, count),
            bad: header.bad,
        }
    }
}

/// Returns the header with what comes next.
fn header_with(bytes: &[u8], header: Header, count: usize) -> Header
    requires within { header.end + count ≤ length bytes.now }
    requires some { header.end < length bytes.now }
    ensures value { result ≡ header_with bytes.now header count }
    ensures within { result.end ≤ length bytes.now }
{
    if count == 0 {
        header_with_byte(header, byte_at(bytes, header.end))
    } else {
        header_with_code(bytes, header, count)
    }
}

/// Returns what is known of these bytes.
fn header_of(bytes: &[u8]) -> Header
    ensures { result ≡ header_of bytes.now }
{
    let mut header = Header {
        end: 0,
        acts: false,
        placed: false,
        bad: false,
    };
    for _ in 0..bytes.len() {
        if header.end >= bytes.len() {
            return header;
        }
        let count = lead_length(&bytes[header.end..]);
        header = header_with(bytes, header, count);
    }
    header
}

/// Whether bytes can be a header before a page that begins with this byte.
pub(crate) fn is_header(bytes: &[u8], next: u8) -> bool
    ensures { result ≡ is_header bytes.now next }
{
    let header = header_of(bytes);
    !header.bad && !header.acts && (!header.placed || is_placing(next))
}
