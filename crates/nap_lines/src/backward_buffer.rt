//! A buffer for a line that is filled from the back.
ghost use Rattle.std.specs.Prelude.{◌≡◌, ◌+◌, ◌<◌, ◌≤◌, [], ◌++◌, ◌-◌, drop, length, take, decimal};
ghost use Rattle.std.specs.Char.{digit_char};
ghost use Rattle.std.specs.Fmt.{signed_decimal};
ghost use Rattle.std.specs.Str.{IsUtf8};
ghost use Rattle.nap_lines.specs.Lines.{code_text};
ghost use Rattle.nap_lines.specs.Writing.{line_limit};

use itoa::write_digits;
use std::marker::Model;

/// The size of the buffer, enough for the line of any entry that isn't a shape.
const LINE_SIZE: usize = 256;

/// The buffer of what writes lines.
pub(crate) type Buffer = BackwardBuffer;

/// A line so far: each part is prepended to those that are there.
#[derive(Drop)]
pub(crate) struct BackwardBuffer {
    bytes: [u8; LINE_SIZE],
    at: usize,
}

impl Model for BackwardBuffer {
    ghost use Rattle.std.specs.Prelude.{ℕ, List, ◌≤◌, drop};
    ghost use Rattle.std.specs.Str.{IsUtf8};

    ghost Value = { List ℕ };

    ghost view = { λ t. drop t.at t.bytes };

    ghost invariant = { λ t. record { within : t.at ≤ 256; utf8 : IsUtf8 (drop t.at t.bytes) } };
}

impl BackwardBuffer {
    /// Returns an empty buffer.
    pub(crate) fn new() -> BackwardBuffer
        ensures { result ≡ [] }
    {
        BackwardBuffer {
            bytes: [0; LINE_SIZE],
            at: LINE_SIZE,
        }
    }

    /// Empties the buffer.
    pub(crate) fn clear(&mut self)
        ensures { self.new ≡ [] }
    {
        self.at = LINE_SIZE;
    }

    /// Returns the bytes.
    pub(crate) fn as_slice(&self) -> &[u8]
        ensures bytes { result.now ≡ self.now }
        ensures few { length result.now ≤ line_limit }
        ensures utf8 { IsUtf8 result.now }
    {
        &self.bytes[self.at..]
    }

    /// Returns the number of bytes.
    pub(crate) fn len(&self) -> usize
        ensures count { result ≡ length self.now }
        ensures few { result ≤ line_limit }
        ensures utf8 { IsUtf8 self.now }
    {
        LINE_SIZE - self.at
    }

    /// Drops all but the last `count` bytes.
    pub(crate) fn keep_last(&mut self, count: usize)
        requires within { count ≤ length self.old }
        requires utf8 { IsUtf8 (drop (length self.old - count) self.old) }
        ensures { self.new ≡ drop (length self.old - count) self.old }
    {
        self.at += self.len() - count;
    }

    /// Prepends bytes.
    #[inline(always)]
    pub(crate) fn push_bytes(&mut self, bytes: &[u8])
        requires space { length bytes.now + length self.old ≤ line_limit }
        requires utf8 { IsUtf8 bytes.now }
        ensures text { self.new ≡ bytes.now ++ self.old }
        ensures size { length self.new ≡ length bytes.now + length self.old }
    {
        let end = self.at;
        let at = end - bytes.len();
        self.bytes[at..end].copy_from_slice(bytes);
        self.at = at;
    }

    /// Prepends a text.
    pub(crate) fn push(&mut self, text: &str)
        requires space { length text.now + length self.old ≤ line_limit }
        ensures text { self.new ≡ text.now ++ self.old }
        ensures size { length self.new ≡ length text.now + length self.old }
    {
        self.push_bytes(text.as_bytes());
    }

    /// Prepends the decimal digits of a number.
    pub(crate) fn push_number(&mut self, number: u32)
        requires space { length self.old + 10 ≤ line_limit }
        ensures text { self.new ≡ decimal number ++ self.old }
        ensures size { length self.new ≤ length self.old + 10 }
    {
        self.at = write_digits(u64::from(number), &mut self.bytes, self.at);
    }

    /// Returns a copy of the first `count` bytes.
    #[inline(always)]
    pub(crate) fn copy_of_first(&self, count: usize) -> CopiedText
        requires within { count ≤ length self.now }
        requires few { count ≤ 16 }
        requires space { length self.now + 16 ≤ line_limit + count }
        requires utf8 { IsUtf8 (take count self.now) }
        ensures { result ≡ take count self.now }
    {
        let end = self.at + count;
        let bytes = self.bytes[end - COPY_SIZE..end].as_array();
        CopiedText {
            bytes: *bytes.unwrap(),
            from: COPY_SIZE - count,
        }
    }

    /// Prepends a text that was copied.
    #[inline(always)]
    pub(crate) fn push_copied(&mut self, kept: &CopiedText)
        requires space { length self.old + 16 ≤ line_limit }
        ensures text { self.new ≡ kept.now ++ self.old }
        ensures size { length self.new ≡ length kept.now + length self.old }
    {
        let end = self.at;
        self.bytes[end - COPY_SIZE..end].copy_from_slice(&kept.bytes);
        self.at = end - (COPY_SIZE - kept.from);
    }

    /// Prepends the decimal digits of a number, after a minus if it is negative.
    pub(crate) fn push_signed(&mut self, number: i32)
        requires space { length self.old + 11 ≤ line_limit }
        ensures text { self.new ≡ signed_decimal number ++ self.old }
        ensures size { length self.new ≤ length self.old + 11 }
    {
        self.push_number(number.unsigned_abs());
        if number < 0 {
            self.push("-");
        }
    }

    /// Prepends the two hexadecimal digits of a code.
    pub(crate) fn push_code(&mut self, code: u8)
        requires space { length self.old + 2 ≤ line_limit }
        ensures text { self.new ≡ code_text code ++ self.old }
        ensures size { length self.new ≡ length self.old + 2 }
    {
        self.push_bytes(&[digit(code / 16), digit(code % 16)]);
    }
}

/// The size of a copy, enough for the text of a point.
const COPY_SIZE: usize = 16;

/// A copied text, at the end of its array, which is moved as a whole.
#[derive(Drop)]
pub(crate) struct CopiedText {
    bytes: [u8; COPY_SIZE],
    from: usize,
}

impl Model for CopiedText {
    ghost use Rattle.std.specs.Prelude.{ℕ, List, ◌≤◌, drop};
    ghost use Rattle.std.specs.Str.{IsUtf8};

    ghost Value = { List ℕ };

    ghost view = { λ k. drop k.from k.bytes };

    ghost invariant = { λ k. record { within : k.from ≤ 16; utf8 : IsUtf8 (drop k.from k.bytes) } };
}

/// The hexadecimal digits in lower case.
static DIGITS: [u8; 16] = *b"0123456789abcdef";

/// Returns a hexadecimal digit in lower case.
#[inline(always)]
pub(crate) fn digit(value: u8) -> u8
    requires { value < 16 }
    ensures { result ≡ digit_char value }
{
    DIGITS[usize::from(value)]
}
