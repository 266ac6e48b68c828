//! The entries of the fields of lines.
ghost use Rattle.std.specs.Prelude.{[], ◌∷◌, MatchResult};
ghost use Rattle.nap_list.specs.declared.entry.Entry.{Entry};
ghost use Rattle.nap_make.specs.Kinds.{HasPoints, kind_row};
ghost use Rattle.nap_make.specs.Fields.{IsPlainStep};
ghost use Rattle.nap_make.specs.Rows.{FitsSort, HasFields};
ghost use Rattle.nap_make.specs.declared.field.Value.TheVariants as values;
ghost use Rattle.nap_make.specs.declared.kind.Kind.TheVariants as kinds;

use crate::fault::LineFault;
use crate::field::Value;
use crate::kind::Kind;
use nap_codes::TextStep;
use nap_list::{Area, Entry, Hand, Ink, Points};

/// The entry of values with these variants and names, after which those of the part INK or HAND may come.
macro_rules! entry {
    ($values:ident: $($variant:ident($($name:ident),*)),* => $entry:expr) => {
        match $values {
            [$(Value::$variant($($name),*)),*] => {
                $($(let $name = *$name;)*)*
                Ok($entry)
            }
            _ => Err(LineFault::Line(1)),
        }
    };
    ($values:ident: $($variant:ident($($name:ident),*)),*; Ink($ink:ident) => $entry:expr) => {
        entry!($values: $($variant($($name),*),)* Pel(pel), Colour(colour), Texture(texture) => {
            let $ink = Ink { pel, colour, texture };
            $entry
        })
    };
    ($values:ident: $($variant:ident($($name:ident),*)),*; Hand($hand:ident) => $entry:expr) => {
        entry!($values: $($variant($($name),*),)* Pen(pen), Colour(colour), Look(text) => {
            let $hand = Hand { pen, colour, text };
            $entry
        })
    };
}

/// Returns the TextMove of another format effector than APS.
fn plain_move(step: TextStep, hand: Hand) -> Entry
    requires { IsPlainStep step }
    ensures { HasFields kinds.Move [] (values.Step step ∷ values.Pen hand.pen ∷ values.Colour hand.colour ∷ values.Look hand.text ∷ []) result }
{
    Entry::TextMove { step, hand }
}

/// Returns the entry of this kind, which has no points, with these fields.
pub(crate) fn entry_of(kind: Kind, values: &[Value]) -> Result<Entry, LineFault>
    requires { FitsSort (kind_row kind) values.now }
    ensures { MatchResult result (HasFields kind [] values.now) (λ fault. (e : Entry) → (HasPoints kind → ⊥) → HasFields kind [] values.now e → ⊥) }
{
    match kind {
        Kind::Point =>
            entry!(values: Point(at), Pel(pel), Colour(colour) => Entry::Point { at, pel, colour }),
        Kind::Line =>
            entry!(values: Point(from), Point(to); Ink(ink) => Entry::Line { from, to, ink }),
        Kind::RectOutlined =>
            entry!(values: Point(from), Point(to); Ink(ink) => Entry::Rect { filled: false, from, to, ink }),
        Kind::RectFilled =>
            entry!(values: Point(from), Point(to); Ink(ink) => Entry::Rect { filled: true, from, to, ink }),
        Kind::Char =>
            entry!(values: Set(set), Code(code); Hand(hand) => Entry::Char { set, code, hand }),
        Kind::Move => entry!(values: Step(step); Hand(hand) => plain_move(step, hand)),
        Kind::Position =>
            entry!(values: Code(row), Code(column); Hand(hand) => Entry::TextMove { step: TextStep::Aps(row, column), hand }),
        Kind::ToEol => entry!(values: ; Hand(hand) => Entry::ToEol { hand }),
        Kind::Map => entry!(values: Addr(addr), Parts(grb) => Entry::Map { addr, grb }),
        Kind::Blink =>
            entry!(values: Addr(addr), Times(on, off, delay), Colour(colour) => Entry::Blink { addr, on, off, delay, colour }),
        Kind::BlinkEnd => entry!(values: Colour(colour) => Entry::BlinkEnd { colour }),
        Kind::BlinkStart => entry!(values: Colour(colour) => Entry::BlinkMark { on: true, colour }),
        Kind::BlinkStop => entry!(values: Colour(colour) => Entry::BlinkMark { on: false, colour }),
        Kind::Wait => entry!(values: Word(tenths) => Entry::Wait(tenths)),
        Kind::Cursor => entry!(values: Cursor(state) => Entry::Cursor(state)),
        Kind::Field =>
            entry!(values: Point(from), Point(to), Pen(pen) => Entry::Field { area: Area::Part { from, to }, pen }),
        Kind::Whole => entry!(values: Pen(pen) => Entry::Field { area: Area::Whole, pen }),
        Kind::Reset =>
            entry!(values: Word(first), Word(second), Pen(pen) => Entry::Reset { first, second, pen }),
        Kind::Clear => entry!(values: Pen(pen) => Entry::Clear { pen }),
        Kind::Glyph => entry!(values: Code(code) => Entry::GlyphStart(code)),
        Kind::Mask => entry!(values: Mask(mask) => Entry::MaskStart(mask)),
        _ => Err(LineFault::Line(1)),
    }
}

/// Returns the arc or polygon of this kind with these points and fields.
pub(crate) fn shape_of(kind: Kind, points: Points, values: &[Value]) -> Result<Entry, LineFault>
    ensures { MatchResult result (HasFields kind points values.now) (λ fault. (e : Entry) → HasPoints kind → HasFields kind points values.now e → ⊥) }
{
    match kind {
        Kind::ArcOutlined =>
            entry!(values: ; Ink(ink) => Entry::Arc { filled: false, points, ink }),
        Kind::ArcFilled => entry!(values: ; Ink(ink) => Entry::Arc { filled: true, points, ink }),
        Kind::PolyOutlined =>
            entry!(values: ; Ink(ink) => Entry::Poly { filled: false, points, ink }),
        Kind::PolyFilled => entry!(values: ; Ink(ink) => Entry::Poly { filled: true, points, ink }),
        _ => Err(LineFault::Line(1)),
    }
}
