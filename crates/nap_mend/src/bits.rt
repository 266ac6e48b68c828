//! Eighth bits.
ghost use Rattle.std.specs.Prelude.{◌≡◌};
ghost use Rattle.nap_mend.specs.Bits.{eighth_bits, bits_of_some};

use crate::sets::{ByteSet, has_none};

/// What the eighth bits of a file are (MENDING.md, Eighth bits).
#[derive(Clone, Copy, PartialEq, Eq, Debug, Drop)]
pub enum Bits {
    /// Nothing: they are as they are in the page.
    None,
    /// Even parity.
    Even,
    /// Odd parity.
    Odd,
    /// A mark: each byte has one.
    Mark,
}

/// Returns the eighth bits of bytes of which some have one.
fn bits_of_some(bytes: &[u8]) -> Bits
    ensures { result ≡ bits_of_some bytes.now }
{
    if has_none(ByteSet::OddOnes, bytes) {
        Bits::Even
    } else if has_none(ByteSet::EvenOnes, bytes) {
        Bits::Odd
    } else if has_none(ByteSet::Low, bytes) {
        Bits::Mark
    } else {
        Bits::None
    }
}

/// Returns the eighth bits of bytes.
pub(crate) fn eighth_bits(bytes: &[u8]) -> Bits
    ensures { result ≡ eighth_bits bytes.now }
{
    if has_none(ByteSet::High, bytes) {
        Bits::None
    } else {
        bits_of_some(bytes)
    }
}
