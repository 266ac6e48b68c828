//! The kinds of lines, by what they begin with, and their rows of fields (PROFILE.md, Lines of list).
ghost use Rattle.std.specs.Prelude.{◌≡◌, ◌≢◌, ◌++◌, ◌∷◌, ◌≤◌, [], MatchOption, length};
ghost use Rattle.nap_make.specs.Kinds.{IsKindOf, IsPlainKind};

use crate::cutting::{equals, named, rest_after};
use crate::field::Sort::{
    self, Addr, Code, Colour, Cursor, Look, Mask, Parts, Pel, Pen, Point, Set, Step, Texture,
    Times, Word,
};
use crate::reading::Row;

/// A kind of lines that have fields, by what they begin with.
#[derive(Clone, Copy, Drop)]
pub(crate) enum Kind {
    Point,
    Line,
    ArcOutlined,
    ArcFilled,
    RectOutlined,
    RectFilled,
    PolyOutlined,
    PolyFilled,
    Char,
    Move,
    /// `MOVE APS`.
    Position,
    ToEol,
    Map,
    Blink,
    BlinkEnd,
    BlinkStart,
    BlinkStop,
    Wait,
    Cursor,
    Field,
    /// `FIELD whole`.
    Whole,
    Reset,
    Clear,
    Glyph,
    Mask,
}

impl Kind {
    ghost use Rattle.nap_make.specs.Kinds.{HasLongName, line_name, kind_row};
    ghost use Rattle.nap_make.specs.declared.kind.Kind.{Kind};

    /// Returns the kind with this name of at most ten bytes.
    fn with_short_name(name: &[u8]) -> Option<Kind>
        ensures { MatchOption result ((k : Kind) → (HasLongName k → ⊥) → name.now ≢ line_name k) (λ k. (name.now ≡ line_name k) × IsPlainKind k) }
    {
        named!(name, Kind:
            b"POINT" => Point, b"LINE" => Line, b"ARC-FILLED" => ArcFilled, b"CHAR" => Char, b"MOVE" => Move,
            b"TO-EOL" => ToEol, b"MAP" => Map, b"BLINK" => Blink, b"BLINK-END" => BlinkEnd,
            b"BLINK-STOP" => BlinkStop, b"WAIT" => Wait, b"CURSOR" => Cursor, b"FIELD" => Field,
            b"RESET" => Reset, b"CLEAR" => Clear, b"GLYPH" => Glyph, b"MASK" => Mask)
    }

    /// Returns the kind with this longer name.
    fn with_long_name(name: &[u8]) -> Option<Kind>
        ensures { MatchOption result ((k : Kind) → HasLongName k → name.now ≢ line_name k) (λ k. (name.now ≡ line_name k) × IsPlainKind k) }
    {
        named!(name, Kind:
            b"ARC-OUTLINED" => ArcOutlined, b"RECT-OUTLINED" => RectOutlined, b"RECT-FILLED" => RectFilled,
            b"POLY-OUTLINED" => PolyOutlined, b"POLY-FILLED" => PolyFilled, b"BLINK-START" => BlinkStart)
    }

    /// Returns the kind with this name. `Position` and `Whole` have the names of `Move` and `Field`.
    fn named(name: &[u8]) -> Option<Kind>
        ensures { MatchOption result ((k : Kind) → name.now ≢ line_name k) (λ k. (name.now ≡ line_name k) × IsPlainKind k) }
    {
        match Kind::with_short_name(name) {
            Some(kind) => Some(kind),
            None => Kind::with_long_name(name),
        }
    }

    /// Returns the kind of a line with this name, a space and this rest, and what follows its beginning and a space.
    pub(crate) fn of<'a>(name: &[u8], rest: &'a [u8]) -> Option<(Kind, &'a [u8])>
        ensures { MatchOption result ((k : Kind) → name.now ≢ line_name k) (λ r. IsKindOf name.now rest.now r.0 r.1.now) }
    {
        let kind = Kind::named(name)?;
        match kind {
            Kind::Move => match rest_after(rest, b"APS ") {
                Some(others) => Some((Kind::Position, others)),
                None => Some((kind, rest)),
            },
            Kind::Field => match rest_after(rest, b"whole ") {
                Some(others) => Some((Kind::Whole, others)),
                None => Some((kind, rest)),
            },
            _ => Some((kind, rest)),
        }
    }

    /// Returns the fields of a line of this kind, after its points.
    pub(crate) fn row(self) -> Row
        ensures row { result.0.now ++ result.1 ∷ [] ≡ kind_row self }
        ensures few { length result.0.now ≤ 4 }
    {
        match self {
            Kind::Point => (&[Point, Pel], Colour),
            Kind::Line | Kind::RectOutlined | Kind::RectFilled => {
                (&[Point, Point, Pel, Colour], Texture)
            }
            Kind::ArcOutlined | Kind::ArcFilled | Kind::PolyOutlined | Kind::PolyFilled => {
                (&[Pel, Colour], Texture)
            }
            Kind::Char => (&[Set, Code, Pen, Colour], Look),
            Kind::Move => (&[Step, Pen, Colour], Look),
            Kind::Position => (&[Code, Code, Pen, Colour], Look),
            Kind::ToEol => (&[Pen, Colour], Look),
            Kind::Map => (&[Addr], Parts),
            Kind::Blink => (&[Addr, Times], Colour),
            Kind::BlinkEnd | Kind::BlinkStart | Kind::BlinkStop => (&[], Colour),
            Kind::Wait => (&[], Word),
            Kind::Cursor => (&[], Cursor),
            Kind::Field => (&[Point, Point], Pen),
            Kind::Whole | Kind::Clear => (&[], Pen),
            Kind::Reset => (&[Word, Word], Pen),
            Kind::Glyph => (&[], Code),
            Kind::Mask => (&[], Mask),
        }
    }
}
