//! Sets of bytes, and searches for them.
ghost use Rattle.std.specs.Prelude.{◌≡◌, ◌≤◌, ◌<◌, IfSome, length, get_or};
ghost use Rattle.nap_find.specs.Beginnings.{is_within};
ghost use Rattle.nap_mend.specs.Sets.{before_run, first_in, has_none, is_blank_byte, is_in, is_stop, ones};

/// Bytes from one index to before another.
#[derive(Clone, Copy, Drop)]
pub(crate) struct Span {
    /// The index of the first byte.
    pub(crate) begin: usize,
    /// The index after the last byte.
    pub(crate) end: usize,
}

/// A set of bytes.
#[derive(Clone, Copy, Drop)]
pub(crate) enum ByteSet {
    /// This byte alone.
    Only(u8),
    /// NUL, LF and CR.
    Blanks,
    /// The fills that no page has.
    Stops,
    /// Both.
    Fills,
    /// Those that are neither.
    NotFill,
    /// Those from 80 on.
    High,
    /// Those before 80.
    Low,
    /// Those before 20.
    Controls,
    /// Those with an even number of ones.
    EvenOnes,
    /// Those with an odd number of ones.
    OddOnes,
    /// Those that aren't from 20 to 2F.
    NotIntermediate,
}

/// Returns the byte at an index, or 0 past the end.
pub(crate) fn byte_at(bytes: &[u8], at: usize) -> u8
    ensures { result ≡ get_or bytes.now at 0 }
{
    if at < bytes.len() { bytes[at] } else { 0 }
}

/// Whether a byte is from the first to before the last.
pub(crate) fn is_within(first: u8, last: u8, byte: u8) -> bool
    ensures { result ≡ is_within first last byte }
{
    byte >= first && byte < last
}

/// Whether a byte is NUL, LF or CR.
pub(crate) fn is_blank_byte(byte: u8) -> bool
    ensures { result ≡ is_blank_byte byte }
{
    byte == 0x00 || byte == 0x0A || byte == 0x0D
}

/// Whether a byte is a fill that no page has.
pub(crate) fn is_stop(byte: u8) -> bool
    ensures { result ≡ is_stop byte }
{
    byte == 0x1A || byte == 0xE5 || byte == 0xF6 || byte == 0xFF
}

/// Returns the number of ones among the bits of a byte.
fn ones(byte: u8) -> u8
    ensures value { result ≡ ones byte }
    ensures few { result ≤ 8 }
{
    byte % 2
        + byte / 2 % 2
        + byte / 4 % 2
        + byte / 8 % 2
        + byte / 16 % 2
        + byte / 32 % 2
        + byte / 64 % 2
        + byte / 128 % 2
}

/// Whether a byte is in the set.
pub(crate) fn is_in(set: ByteSet, byte: u8) -> bool
    ensures { result ≡ is_in set byte }
{
    match set {
        ByteSet::Only(other) => byte == other,
        ByteSet::Blanks => is_blank_byte(byte),
        ByteSet::Stops => is_stop(byte),
        ByteSet::Fills => is_blank_byte(byte) || is_stop(byte),
        ByteSet::NotFill => !(is_blank_byte(byte) || is_stop(byte)),
        ByteSet::High => byte >= 0x80,
        ByteSet::Low => byte < 0x80,
        ByteSet::Controls => byte < 0x20,
        ByteSet::EvenOnes => ones(byte) % 2 == 0,
        ByteSet::OddOnes => ones(byte) % 2 == 1,
        ByteSet::NotIntermediate => !is_within(0x20, 0x30, byte),
    }
}

/// Returns the first index from this one on whose byte is in the set.
pub(crate) fn first_in(set: ByteSet, bytes: &[u8], from: usize) -> Option<usize>
    ensures found { result ≡ first_in set bytes.now from }
    ensures within { IfSome result (λ at. at < length bytes.now) }
    ensures least { IfSome result (λ at. from ≤ at) }
{
    for at in from..bytes.len() {
        if is_in(set, bytes[at]) {
            return Some(at);
        }
    }
    None
}

/// Whether no byte is in the set.
pub(crate) fn has_none(set: ByteSet, bytes: &[u8]) -> bool
    ensures { result ≡ has_none set bytes.now }
{
    first_in(set, bytes, 0).is_none()
}

/// Returns the number of bytes before those at the end that are in the set, of the first `count` bytes.
pub(crate) fn before_run(set: ByteSet, bytes: &[u8], count: usize) -> usize
    requires { count ≤ length bytes.now }
    ensures count { result ≡ before_run set bytes.now count }
    ensures within { result ≤ count }
{
    let mut end = count;
    while end > 0 {
        if !is_in(set, bytes[end - 1]) {
            return end;
        }
        end -= 1;
    }
    0
}
