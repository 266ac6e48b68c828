//! Eight words in the bytes of a number, the first in the highest. A word has three bits of x above three bits of y.
ghost use Rattle.std.specs.Prelude.{◌≡◌, ◌+◌, ◌-◌, ◌*◌, ◌/◌, ◌%◌, ◌<◌, ◌≤◌, ◌↔◌, All, IsTrue, take, ℕ};
ghost use Rattle.nap_values.specs.Digits.{value_of, digits_of};
ghost use Rattle.nap_values.specs.PackedCoordinates.{HoldsWords, x_in, y_in, packed_coordinates};
ghost use Rattle.nap_values.specs.Coarse.{coarse_part, coarse_words, with_high};
ghost use Rattle.nap_values.specs.Operands.{operand_words};

use std::marker::Model;

/// Selects the digits of x.
const X_DIGITS: u64 = 0x3838_3838_3838_3838;

/// Selects the digits of y.
const Y_DIGITS: u64 = 0x0707_0707_0707_0707;

/// Selects all bits but those of x.
const ALL_BUT_X: u64 = 0xC7C7_C7C7_C7C7_C7C7;

/// Selects all bits but those of y.
const ALL_BUT_Y: u64 = 0xF8F8_F8F8_F8F8_F8F8;

/// Selects the digits of x at the places of the nine highest bits of two numbers (`coarse_walk`).
const COARSE: u64 = 0x3838_3800_3838_3800;

/// Selects the sign bits of x and y.
const SIGNS: u64 = 0x2400_0000_0000_0000;

/// Spreads the eight base-8 digits of a 24-bit number, one to a byte.
#[inline]
fn spread_digits(n: u32) -> u64
    requires { n < 16777216 }
    ensures value { result ≡ value_of 256 8 (digits_of 8 8 n) }
    ensures bound { result ≤ 0x0707_0707_0707_0707 }
{
    let n = u64::from(n);
    // Two numbers of 12 bits, then four of 6 bits, then eight of 3 bits.
    let halves = (n | n << 20) & 0x0000_0FFF_0000_0FFF;
    let quarters = (halves | halves << 10) & 0x003F_003F_003F_003F;
    (quarters | quarters << 5) & 0x0707_0707_0707_0707
}

/// Returns the 24-bit number whose base-8 digits are these bytes.
#[inline]
fn collected_digits(digits: u64) -> u32
    requires { All (λ d. d < 8) (digits_of 256 8 digits) }
    ensures { result ≡ value_of 8 8 (digits_of 256 8 digits) }
{
    // Four numbers of 6 bits, then two of 12 bits, then one of 24 bits.
    let pairs = digits - (digits / 256 & 0x00FF_00FF_00FF_00FF) * 248;
    let quads = pairs - (pairs / 65_536 & 0x0000_FFFF_0000_FFFF) * 65_472;
    (quads - quads / 4_294_967_296 * 4_294_963_200) as u32
}

/// Eight words, packed into the bytes of a number.
#[derive(Clone, Copy, Drop)]
pub(crate) struct PackedWords(u64);

impl Model for PackedWords {
    ghost Value = { ℕ };

    ghost view = { λ p. p.0 };

    ghost invariant = { λ p. HoldsWords p.0 };

    ghost inverse = { λ n. record { 0 = n } };
}

impl PackedWords {
    /// Returns the words that a number holds.
    #[inline]
    pub(crate) fn new(number: u64) -> PackedWords
        requires { HoldsWords number }
        ensures { result ≡ number }
    {
        PackedWords(number)
    }

    /// Returns the number that holds the words.
    #[inline]
    pub(crate) fn get(self) -> u64
        ensures value { result ≡ self }
        ensures words { HoldsWords result }
    {
        self.0
    }

    /// Returns the words that hold the 24 bits of x and of y.
    #[inline]
    pub(crate) fn from_coordinates(x: u32, y: u32) -> PackedWords
        requires x_fits { x < 16777216 }
        requires y_fits { y < 16777216 }
        ensures { result ≡ packed_coordinates x y }
    {
        PackedWords(spread_digits(x) * 8 + spread_digits(y))
    }

    /// Returns the 24 bits of x.
    #[inline]
    pub(crate) fn x_bits(self) -> u32
        ensures value { result ≡ x_in self }
        ensures below { result < 16777216 }
    {
        collected_digits(self.0 / 8 & Y_DIGITS)
    }

    /// Returns the 24 bits of y.
    #[inline]
    pub(crate) fn y_bits(self) -> u32
        ensures value { result ≡ y_in self }
        ensures below { result < 16777216 }
    {
        collected_digits(self.0 & Y_DIGITS)
    }

    /// Returns the words with y set to zero.
    #[inline]
    pub(crate) fn x_only(self) -> PackedWords
        ensures { result ≡ packed_coordinates (x_in self) 0 }
    {
        PackedWords(self.0 & X_DIGITS)
    }

    /// Returns the words with x set to zero.
    #[inline]
    pub(crate) fn y_only(self) -> PackedWords
        ensures { result ≡ packed_coordinates 0 (y_in self) }
    {
        PackedWords(self.0 & Y_DIGITS)
    }

    /// Returns the words with this x and the y of `others`.
    #[inline]
    pub(crate) fn with_y_of(self, others: PackedWords) -> PackedWords
        ensures { result ≡ packed_coordinates (x_in self) (y_in others) }
    {
        PackedWords((self.0 & X_DIGITS) + (others.0 & Y_DIGITS))
    }

    /// Adds x to x and y to y, modulo 2^24. Carries pass through the other bits, which are all set for the addition.
    #[inline]
    pub(crate) fn sum(self, others: PackedWords) -> PackedWords
        ensures { result ≡ packed_coordinates ((x_in self + x_in others) % 16777216) ((y_in self + y_in others) % 16777216) }
    {
        let x = ((self.0 & X_DIGITS) + ALL_BUT_X).wrapping_add(others.0 & X_DIGITS) & X_DIGITS;
        let y = ((self.0 & Y_DIGITS) + ALL_BUT_Y).wrapping_add(others.0 & Y_DIGITS) & Y_DIGITS;
        PackedWords(x + y)
    }

    /// Adds x to x, modulo 2^24. Requires that these words have y zero.
    #[inline]
    pub(crate) fn x_sum(self, step: PackedWords) -> PackedWords
        requires { packed_coordinates (x_in self) 0 ≡ self }
        ensures { result ≡ packed_coordinates ((x_in self + x_in step) % 16777216) 0 }
    {
        PackedWords(self.0.wrapping_add((step.0 & X_DIGITS) + ALL_BUT_X) & X_DIGITS)
    }

    /// Adds y to y, modulo 2^24. Requires that these words have x zero.
    #[inline]
    pub(crate) fn y_sum(self, step: PackedWords) -> PackedWords
        requires { packed_coordinates 0 (y_in self) ≡ self }
        ensures { result ≡ packed_coordinates 0 ((y_in self + y_in step) % 16777216) }
    {
        PackedWords(self.0.wrapping_add((step.0 & Y_DIGITS) + ALL_BUT_Y) & Y_DIGITS)
    }

    /// Returns the words with the fourth and the eighth digit of x set to zero. Requires that these words have y zero.
    #[inline]
    pub(crate) fn coarse_part(self) -> PackedWords
        requires { packed_coordinates (x_in self) 0 ≡ self }
        ensures { result ≡ packed_coordinates (coarse_part (x_in self)) 0 }
    {
        PackedWords(self.0 & COARSE)
    }

    /// Returns words that hold the nine highest bits of y and of x, side by side as digits of x.
    #[inline]
    pub(crate) fn coarse_high(self) -> PackedWords
        ensures { result ≡ packed_coordinates (y_in self / 32768 * 32768 + x_in self / 32768 * 8) 0 }
    {
        let top = self.0 / 4_294_967_296;
        PackedWords(top.wrapping_mul(0x8_0000_0001) & COARSE)
    }

    /// Returns these words with the nine highest bits of x and y taken from digits of x side by side.
    #[inline]
    pub(crate) fn with_coarse_high(self, coarse: PackedWords) -> PackedWords
        requires { packed_coordinates (x_in coarse) 0 ≡ coarse }
        ensures { result ≡ packed_coordinates (with_high (x_in coarse % 4096 / 8) (x_in self)) (with_high (x_in coarse / 32768) (y_in self)) }
    {
        let x = (coarse.0 & 0x3838_3800).wrapping_mul(4_294_967_296);
        let y = coarse.0 / 8 & 0x0707_0700_0000_0000;
        PackedWords(x.wrapping_add(y).wrapping_add(self.0 & 0xFF_FFFF_FFFF))
    }

    /// Returns words that hold the digits of y and those of x of the first three bytes, side by side as digits of x.
    #[inline]
    pub(crate) fn coarse(block: &[u8; 4]) -> PackedWords
        ensures { result ≡ packed_coordinates (coarse_words (operand_words (take 3 block.now))) 0 }
    {
        let bytes = u64::from(u32::from_be_bytes(*block));
        // The bytes themselves, and the bytes with y in the place of x above them.
        PackedWords(bytes.wrapping_mul(0x8_0000_0001) & COARSE)
    }

    /// Subtracts x from x and y from y, modulo 2^24. Borrows pass through the other bits, which are all clear.
    #[inline]
    pub(crate) fn difference(self, others: PackedWords) -> PackedWords
        ensures { result ≡ packed_coordinates ((x_in self + (16777216 - x_in others)) % 16777216) ((y_in self + (16777216 - y_in others)) % 16777216) }
    {
        let x = (self.0 & X_DIGITS).wrapping_sub(others.0 & X_DIGITS) & X_DIGITS;
        let y = (self.0 & Y_DIGITS).wrapping_sub(others.0 & Y_DIGITS) & Y_DIGITS;
        PackedWords(x + y)
    }

    /// Whether x and y are both below 2^23, that is, on the unit screen.
    #[inline]
    pub(crate) fn is_inside(self) -> bool
        ensures { IsTrue result ↔ ((x_in self < 8388608) × (y_in self < 8388608)) }
    {
        self.0 & SIGNS == 0
    }
}
