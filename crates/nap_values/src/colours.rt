//! Addresses of the colour map, and colours by their components.
ghost use Rattle.std.specs.Prelude.{◌≡◌, ◌<◌, ◌↔◌, IsSome, IfSome, ◌≤◌, All, ℕ, ◌==◌};
ghost use Rattle.nap_values.specs.Digits.{value_of, digits_of};
ghost use Rattle.nap_values.specs.Operands.{colour_of};
ghost use Rattle.nap_values.specs.PackedCoordinates.{words_in, HoldsWords};
ghost use Rattle.nap_values.specs.PackedColours.{g_in, r_in, b_in, packed_colour};
ghost use Rattle.nap_values.specs.Colours.{Components};
ghost use Rattle.std.specs.Ordering.{on, eq_of_both};
ghost use Rattle.std.proofs.Common.{rules};
ghost use Rattle.std.specs.Cmp.Rules.{comparing};

use crate::packed::PackedWords;
use std::fmt;
use std::marker::Model;

/// An address of the colour map, from 0 to 16,777,215: the value of a single-value operand (PROFILE.md, Operands).
#[derive(Clone, Copy, PartialEq, Eq, Debug, Drop)]
pub struct Addr(u32);

impl Model for Addr {
    ghost Value = { ℕ };

    ghost view = { λ a. a.0 };

    ghost invariant = { λ a. a.0 < 16777216 };

    ghost inverse = { λ n. record { 0 = n } };
}

impl Addr {
    /// Every address is below this limit.
    pub const LIMIT: u32 = 16_777_216;

    /// Returns the address with this number, or `None` above 16,777,215.
    pub fn try_new(number: u32) -> Option<Addr>
        ensures found { IsSome result ↔ (number < 16777216) }
        ensures value { IfSome result (λ a. a ≡ number) }
    {
        if number >= Self::LIMIT {
            return None;
        }
        Some(Addr(number))
    }

    /// Returns the address with this number, which is in range.
    pub(crate) fn new(number: u32) -> Addr
        requires { number < 16777216 }
        ensures { result ≡ number }
    {
        Addr(number)
    }

    /// Returns the number of the address.
    pub fn get(self) -> u32
        ensures value { result ≡ self }
        ensures below { result < 16777216 }
    {
        self.0
    }
}

/// A colour by its components, 16 bits each, stored as the eight words that spell it (PROFILE.md, Operands).
#[derive(Clone, Copy, Drop)]
pub struct Grb {
    words: u64,
}

impl Model for Grb {
    ghost Value = { Components };

    ghost view = { λ c. record { g = g_in c.words; r = r_in c.words; b = b_in c.words } };

    ghost invariant = { λ c. HoldsWords c.words × (packed_colour (g_in c.words) (r_in c.words) (b_in c.words) ≡ c.words) };

    ghost inverse = { λ v. record { words = packed_colour v.g v.r v.b } };

    ghost inverse_ok = { λ c kept i. record { words = kept.1 i } };
}

impl PartialEq for Grb {
    ghost eq = { eq_of_both (on (λ c. c.g) ◌==◌) (eq_of_both (on (λ c. c.r) ◌==◌) (on (λ c. c.b) ◌==◌)) };

    ghost laws = { Prim.search (comparing, rules) };

    #[inline]
    fn eq(&self, other: &Grb) -> bool {
        self.words == other.words
    }
}

impl Eq for Grb {
    ghost laws = { Prim.search (comparing, rules) };
}

impl fmt::Debug for Grb {
    fn fmt<W: fmt::Write>(&self, f: &mut fmt::Formatter<W>) -> fmt::Result {
        write!(f, "Grb({}, {}, {})", self.g(), self.r(), self.b())
    }
}

impl Grb {
    /// Every component is below this limit.
    pub const LIMIT: u32 = 65_536;

    /// Returns the colour with these components.
    pub fn new(g: u16, r: u16, b: u16) -> Grb
        ensures { result ≡ record { g = g; r = r; b = b } }
    {
        // Each two-bit digit is copied to two positions: the mask keeps its lower bit at one, its higher at the other.
        Grb {
            words: (spread_digits(g) * 20 & GREEN)
                + (spread_digits(r) * 10 & RED)
                + (spread_digits(b) * 5 & BLUE),
        }
    }

    /// Returns the colour that the words spell.
    #[inline]
    pub(crate) fn from_words(words: PackedWords) -> Grb
        ensures { result ≡ colour_of (words_in words) }
    {
        Grb { words: words.get() }
    }

    /// Returns the words that spell the colour.
    #[inline]
    pub(crate) fn words(self) -> PackedWords
        ensures words { HoldsWords result }
        ensures g { g_in result ≡ self.g }
        ensures r { r_in result ≡ self.r }
        ensures b { b_in result ≡ self.b }
    {
        PackedWords::new(self.words)
    }

    /// Returns the colour with these components, or `None` if one is above 65,535.
    pub fn try_new(g: u32, r: u32, b: u32) -> Option<Grb>
        ensures found { IsSome result ↔ ((g < 65536) × (r < 65536) × (b < 65536)) }
        ensures value { IfSome result (λ colour. colour ≡ record { g = g; r = r; b = b }) }
    {
        let g = u16::try_from(g).ok()?;
        let r = u16::try_from(r).ok()?;
        let b = u16::try_from(b).ok()?;
        Some(Grb::new(g, r, b))
    }

    /// Returns the green component.
    pub fn g(self) -> u16
        ensures { result ≡ self.g }
    {
        collected_digits((self.words / 32 & LOWEST) * 2 + (self.words / 4 & LOWEST))
    }

    /// Returns the red component.
    pub fn r(self) -> u16
        ensures { result ≡ self.r }
    {
        collected_digits((self.words / 16 & LOWEST) * 2 + (self.words / 2 & LOWEST))
    }

    /// Returns the blue component.
    pub fn b(self) -> u16
        ensures { result ≡ self.b }
    {
        collected_digits((self.words / 8 & LOWEST) * 2 + (self.words & LOWEST))
    }
}

/// Selects the bits of green.
const GREEN: u64 = 0x2424_2424_2424_2424;

/// Selects the bits of red.
const RED: u64 = 0x1212_1212_1212_1212;

/// Selects the bits of blue.
const BLUE: u64 = 0x0909_0909_0909_0909;

/// Selects the lowest bit of each byte.
const LOWEST: u64 = 0x0101_0101_0101_0101;

/// Spreads the eight base-4 digits of a 16-bit number, one to a byte.
#[inline]
fn spread_digits(n: u16) -> u64
    ensures value { result ≡ value_of 256 8 (digits_of 4 8 n) }
    ensures bound { result ≤ 0x0303_0303_0303_0303 }
{
    let n = u64::from(n);
    // Two numbers of 8 bits, then four of 4 bits, then eight of 2 bits.
    let halves = (n + n * 16_777_216) & 0x0000_00FF_0000_00FF;
    let quarters = (halves + halves * 4096) & 0x000F_000F_000F_000F;
    (quarters + quarters * 64) & 0x0303_0303_0303_0303
}

/// Returns the 16-bit number whose base-4 digits are these bytes.
#[inline]
fn collected_digits(digits: u64) -> u16
    requires { All (λ d. d < 4) (digits_of 256 8 digits) }
    ensures { result ≡ value_of 4 8 (digits_of 256 8 digits) }
{
    // Four numbers of 4 bits, then two of 8 bits, then one of 16 bits.
    let quarters = (digits + digits / 64) & 0x000F_000F_000F_000F;
    let halves = (quarters + quarters / 4096) & 0x0000_00FF_0000_00FF;
    ((halves + halves / 16_777_216) % 65_536) as u16
}
