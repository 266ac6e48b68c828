//! Points of the unit screen.
ghost use Rattle.std.specs.Prelude.{◌≡◌, ◌<◌, ◌↔◌, IsSome, IfSome, ◌≤ℤ◌, ◌<ℤ◌, pos, negsuc, ◌==◌};
ghost use Rattle.nap_values.specs.TwosComplement.{signed_of, bits_of};
ghost use Rattle.nap_values.specs.Coordinates.{Coordinates, point_at, displaced_point, displacement_to, Displacement};
ghost use Rattle.nap_values.specs.PackedCoordinates.{HoldsWords, x_in, y_in, packed_coordinates, words_in};
ghost use Rattle.std.specs.Ordering.{on, eq_of_both, int_eq};
ghost use Rattle.std.proofs.Common.{rules};
ghost use Rattle.std.specs.Cmp.Rules.{comparing};
ghost use Rattle.nap_values.specs.Operands.{multi_of};

use crate::packed::PackedWords;
use std::fmt;
use std::marker::Model;

/// A point of the unit screen, stored as the words that spell it: coordinates from 0 to 8,388,607, in units of 2^-23.
#[derive(Clone, Copy, Drop)]
pub struct Point {
    words: u64,
}

impl Model for Point {
    ghost Value = { Coordinates };

    ghost view = { λ p. record { x = x_in p.words; y = y_in p.words } };

    ghost invariant = { λ p. HoldsWords p.words × (packed_coordinates (x_in p.words) (y_in p.words) ≡ p.words) × (x_in p.words < 8388608) × (y_in p.words < 8388608) };

    ghost inverse = { λ v. record { words = packed_coordinates v.x v.y } };

    ghost inverse_ok = { λ p kept i. record { words = kept.1 i } };
}

impl PartialEq for Point {
    ghost eq = { eq_of_both (on (λ p. p.x) ◌==◌) (on (λ p. p.y) ◌==◌) };

    ghost laws = { Prim.search (comparing, rules) };

    #[inline]
    fn eq(&self, other: &Point) -> bool {
        self.words == other.words
    }
}

impl Eq for Point {
    ghost laws = { Prim.search (comparing, rules) };
}

impl fmt::Debug for Point {
    fn fmt<W: fmt::Write>(&self, f: &mut fmt::Formatter<W>) -> fmt::Result {
        write!(f, "Point({}, {})", self.x(), self.y())
    }
}

impl Point {
    /// Every coordinate is below this limit.
    pub const LIMIT: u32 = 8_388_608;

    /// Returns the lower left corner of the unit screen.
    #[inline]
    pub fn origin() -> Point
        ensures { result ≡ record { x = 0; y = 0 } }
    {
        Point { words: 0 }
    }

    /// Returns the point with these coordinates, or `None` if one is above 8,388,607.
    #[inline]
    pub fn try_new(x: u32, y: u32) -> Option<Point>
        ensures found { IsSome result ↔ ((x < 8388608) × (y < 8388608)) }
        ensures value { IfSome result (λ p. p ≡ record { x = x; y = y }) }
    {
        if x < Self::LIMIT && y < Self::LIMIT {
            Some(Point {
                words: PackedWords::from_coordinates(x, y).get(),
            })
        } else {
            None
        }
    }

    /// Returns the point that these eight words spell, or `None` outside the unit screen.
    #[inline]
    pub(crate) fn from_words(words: PackedWords) -> Option<Point>
        ensures { result ≡ point_at (multi_of (words_in words)) }
    {
        let number = words.get();
        if words.is_inside() {
            Some(Point { words: number })
        } else {
            None
        }
    }

    /// Returns the eight words that spell the point.
    #[inline]
    pub(crate) fn words(self) -> PackedWords
        ensures words { HoldsWords result }
        ensures x { x_in result ≡ self.x }
        ensures y { y_in result ≡ self.y }
        ensures x_below { x_in result < 8388608 }
        ensures y_below { y_in result < 8388608 }
    {
        PackedWords::new(self.words)
    }

    /// Returns the horizontal coordinate, from the left.
    #[inline]
    pub fn x(self) -> u32
        ensures value { result ≡ self.x }
        ensures below { result < 8388608 }
    {
        self.words().x_bits()
    }

    /// Returns the vertical coordinate, from the bottom.
    #[inline]
    pub fn y(self) -> u32
        ensures value { result ≡ self.y }
        ensures below { result < 8388608 }
    {
        self.words().y_bits()
    }

    /// Returns the point with this y and the x of `other`.
    #[inline]
    pub fn with_x_of(self, other: Point) -> Point
        ensures { result ≡ record { x = other.x; y = self.y } }
    {
        Point {
            words: other.words().with_y_of(self.words()).get(),
        }
    }

    /// Returns the point moved by a displacement, or `None` outside the unit screen.
    #[inline]
    pub fn by(self, step: Move) -> Option<Point>
        ensures { result ≡ displaced_point self step }
    {
        Point::from_words(self.words().sum(step.words()))
    }

    /// Returns the displacement from this point to `other`.
    #[inline]
    pub fn to(self, other: Point) -> Move
        ensures { result ≡ displacement_to self other }
    {
        Move::from_words(other.words().difference(self.words()))
    }
}

/// A displacement or size in units of 2^-23, each part from -8,388,608 to 8,388,607, stored as the words that spell it.
#[derive(Clone, Copy, Drop)]
pub struct Move {
    words: u64,
}

impl Model for Move {
    ghost Value = { Displacement };

    ghost view = { λ m. record { x = signed_of (x_in m.words); y = signed_of (y_in m.words) } };

    ghost invariant = { λ m. HoldsWords m.words × (packed_coordinates (bits_of (signed_of (x_in m.words))) (bits_of (signed_of (y_in m.words))) ≡ m.words) };

    ghost inverse = { λ v. record { words = packed_coordinates (bits_of v.x) (bits_of v.y) } };

    ghost inverse_ok = { λ m kept i. record { words = kept.1 i } };
}

impl PartialEq for Move {
    ghost eq = { eq_of_both (on (λ m. m.x) int_eq) (on (λ m. m.y) int_eq) };

    ghost laws = { Prim.search (comparing, rules) };

    #[inline]
    fn eq(&self, other: &Move) -> bool {
        self.words == other.words
    }
}

impl Eq for Move {
    ghost laws = { Prim.search (comparing, rules) };
}

impl fmt::Debug for Move {
    fn fmt<W: fmt::Write>(&self, f: &mut fmt::Formatter<W>) -> fmt::Result {
        write!(f, "Move({}, {})", self.x(), self.y())
    }
}

impl Move {
    /// Every component is below this limit, and at least its negative.
    pub const LIMIT: i32 = 8_388_608;

    /// Returns the displacement of zero.
    #[inline]
    pub fn zero() -> Move
        ensures { result ≡ record { x = pos 0; y = pos 0 } }
    {
        Move { words: 0 }
    }

    /// Returns the displacement with these components, or `None` if one is below -8,388,608 or above 8,388,607.
    pub fn try_new(x: i32, y: i32) -> Option<Move>
        ensures found { IsSome result ↔ ((negsuc 8388607 ≤ℤ x) × (x <ℤ pos 8388608) × (negsuc 8388607 ≤ℤ y) × (y <ℤ pos 8388608)) }
        ensures value { IfSome result (λ m. m ≡ record { x = x; y = y }) }
    {
        let range = -Self::LIMIT..Self::LIMIT;
        if range.contains(&x) && range.contains(&y) {
            Some(Move {
                words: PackedWords::from_coordinates(bits(x), bits(y)).get(),
            })
        } else {
            None
        }
    }

    /// Returns the displacement that these eight words spell.
    #[inline]
    pub(crate) fn from_words(words: PackedWords) -> Move
        ensures { result ≡ multi_of (words_in words) }
    {
        Move { words: words.get() }
    }

    /// Returns the eight words that spell the displacement.
    #[inline]
    pub(crate) fn words(self) -> PackedWords
        ensures words { HoldsWords result }
        ensures x { signed_of (x_in result) ≡ self.x }
        ensures y { signed_of (y_in result) ≡ self.y }
    {
        PackedWords::new(self.words)
    }

    /// Returns the horizontal component, positive to the right.
    #[inline]
    pub fn x(self) -> i32
        ensures value { result ≡ self.x }
        ensures low { negsuc 8388607 ≤ℤ result }
        ensures high { result <ℤ pos 8388608 }
    {
        signed(self.words().x_bits())
    }

    /// Returns the vertical component, positive upwards.
    #[inline]
    pub fn y(self) -> i32
        ensures value { result ≡ self.y }
        ensures low { negsuc 8388607 ≤ℤ result }
        ensures high { result <ℤ pos 8388608 }
    {
        signed(self.words().y_bits())
    }

    /// Returns the point at this displacement from the origin, or `None` outside the unit screen.
    #[inline]
    pub fn point(self) -> Option<Point>
        ensures { result ≡ point_at self }
    {
        Point::from_words(self.words())
    }
}

/// Returns the signed number that 24 bits stand for.
#[inline]
pub(crate) fn signed(bits: u32) -> i32
    requires { bits < 16777216 }
    ensures { result ≡ signed_of bits }
{
    if bits < Point::LIMIT {
        bits as i32
    } else {
        bits as i32 - 2 * Move::LIMIT
    }
}

/// Returns the 24 bits that stand for a signed number.
#[inline]
pub(crate) fn bits(number: i32) -> u32
    requires low { negsuc 8388607 ≤ℤ number }
    requires high { number <ℤ pos 8388608 }
    ensures value { result ≡ bits_of number }
    ensures below { result < 16777216 }
{
    if number >= 0 {
        number as u32
    } else {
        (number + 2 * Move::LIMIT) as u32
    }
}
