//! A point that displacements move, one after another.
ghost use Rattle.std.specs.Prelude.{◌≡◌, unwrap_or, true, take, Some, IfSome, ◌<◌};
ghost use Rattle.nap_values.specs.Coordinates.{displaced_point, Coordinates};
ghost use Rattle.nap_values.specs.Operands.{multi_of, operand_words};
ghost use Rattle.nap_values.specs.PackedCoordinates.{x_in, y_in, packed_coordinates};
ghost use Rattle.nap_values.specs.Coarse.{Course, IsCoarse, IsInside, coarse_point, is_clear};

use crate::packed::PackedWords;
use crate::point::{Move, Point};
use std::marker::Model;

/// A point of the unit screen that displacements move. The words of x and y are stored apart, as each step needs them.
#[derive(Drop)]
pub struct MovingPoint {
    x: PackedWords,
    y: PackedWords,
}

impl Model for MovingPoint {
    ghost Value = { Coordinates };

    ghost view = { λ w. record { x = x_in w.x; y = y_in w.y } };

    ghost invariant = { λ w. (packed_coordinates (x_in w.x) 0 ≡ w.x) × (packed_coordinates 0 (y_in w.y) ≡ w.y) × (x_in w.x < 8388608) × (y_in w.y < 8388608) };

    ghost inverse = { λ v. record { x = packed_coordinates v.x 0; y = packed_coordinates 0 v.y } };

    ghost inverse_ok = { λ w kept i. record { x = kept.0 i; y = kept.1 i } };
}

impl MovingPoint {
    /// Returns a moving point at this point.
    #[inline]
    pub fn from_point(point: Point) -> MovingPoint
        ensures { result ≡ point }
    {
        MovingPoint {
            x: point.words().x_only(),
            y: point.words().y_only(),
        }
    }

    /// Moves by a displacement and returns the new point. Outside the unit screen, returns `None` and stays.
    #[inline]
    pub fn advance(&mut self, step: Move) -> Option<Point>
        ensures point { result ≡ displaced_point self.old step }
        ensures place { self.new ≡ unwrap_or result self.old }
    {
        let words = step.words();
        let x = self.x.x_sum(words);
        let y = self.y.y_sum(words);
        let point = Point::from_words(x.with_y_of(y))?;
        self.x = x;
        self.y = y;
        Some(point)
    }
}

/// A point that displacements of three words move. Such a step changes only the nine highest bits of a coordinate, so
/// these are kept side by side, and the rest as at the start. That all points were on the screen is told at the end.
#[derive(Drop)]
pub struct CoarseWalk {
    at: PackedWords,
    /// The bits that were set at any point on the way.
    seen: u64,
    start: Point,
}

impl Model for CoarseWalk {
    ghost Value = { Course };

    ghost view = { λ w. record { point = coarse_point (x_in w.at) w.start; inside = is_clear w.seen } };

    ghost invariant = { λ w. IsCoarse w.at × (is_clear w.seen ≡ true → IsInside (x_in w.at)) };
}

impl CoarseWalk {
    /// Returns a walk that begins at this point.
    #[inline]
    pub fn from_point(point: Point) -> CoarseWalk
        ensures { result ≡ record { point = point; inside = true } }
    {
        CoarseWalk {
            at: point.words().coarse_high(),
            seen: 0,
            start: point,
        }
    }

    /// Moves by the displacement that the first three bytes carry.
    #[inline(always)]
    pub fn advance(&mut self, block: &[u8; 4])
        ensures inside { self.new.inside ≡ true → self.old.inside ≡ true }
        ensures point { self.new.inside ≡ true → displaced_point self.old.point (multi_of (operand_words (take 3 block.now))) ≡ Some self.new.point }
    {
        let at = self.at.x_sum(PackedWords::coarse(block)).coarse_part();
        self.at = at;
        self.seen |= at.get();
    }

    /// Returns the point, if all points on the way were on the unit screen.
    #[inline]
    pub fn end(&self) -> Option<Point>
        ensures { IfSome result (λ point. (self.now.inside ≡ true) × (point ≡ self.now.point)) }
    {
        // The highest bits of both numbers.
        if self.seen & 0x2000_0000_2000_0000 != 0 {
            return None;
        }
        Point::from_words(self.start.words().with_coarse_high(self.at))
    }
}
