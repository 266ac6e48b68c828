//! Entries whose attributes are already current.
ghost use Rattle.std.specs.Prelude.{◌≡◌, ◌↔◌, IsTrue, true, ◌<◌, ◌≤◌, ◌+◌, ◌∷◌, length, take, drop};
ghost use Rattle.nap_canon.specs.Names.{AreCurrent, FirstIsCurrent, Fits, after, colour_only, entry_of_shape, hand_attributes, ink_attributes, ink_of, point_attributes};
ghost use Rattle.nap_canon.specs.Equality.{same_colour};
ghost use Rattle.nap_canon.specs.Writing.{MovesPen};

use nap_list::{Base, Batch, Colour, Drawing, Entry, Hand, Ink, Pen, Shape, WrittenState};
use nap_values::Move;

/// Whether a colour is the other one. Direct colours are compared first, since most are that.
#[inline(always)]
pub(crate) fn is_colour(old: &Colour, colour: &Colour) -> bool
    ensures { result ≡ same_colour old.now colour.now }
{
    if let Colour::Direct(grb) = colour {
        return match old {
            Colour::Direct(now) => now == grb,
            _ => false,
        };
    }
    old == colour
}

/// Whether a colour is current; a direct colour has to be the colour of mode 0 too.
#[inline(always)]
fn colour_is_current(old: &Drawing, colour: Colour) -> bool
    ensures { IsTrue result ↔ AreCurrent (colour_only colour) old.now }
{
    if let Colour::Direct(grb) = colour {
        return old.base == Base::Direct(grb) && is_colour(&old.colour, &colour);
    }
    old.colour == colour
}

/// Whether all attributes for lines and areas are current.
#[inline(always)]
pub(crate) fn ink_is_current(old: &Drawing, ink: &Ink) -> bool
    ensures { IsTrue result ↔ AreCurrent (ink_attributes ink.now) old.now }
{
    old.pel == ink.pel && old.texture == ink.texture && colour_is_current(old, ink.colour)
}

/// Whether all attributes for text are current.
#[inline(always)]
pub(crate) fn hand_is_current(old: &Drawing, hand: &Hand) -> bool
    ensures { IsTrue result ↔ AreCurrent (hand_attributes hand.now) old.now }
{
    old.pen == hand.pen && old.text.is_look(&hand.text) && colour_is_current(old, hand.colour)
}

/// Whether the pel and the colour are current.
#[inline(always)]
pub(crate) fn point_is_current(old: &Drawing, pel: Move, colour: Colour) -> bool
    ensures { IsTrue result ↔ AreCurrent (point_attributes pel colour) old.now }
{
    old.pel == pel && colour_is_current(old, colour)
}

/// Whether the attributes of a batch's first entry are current.
#[inline(always)]
pub(crate) fn batch_begins_current(old: &Drawing, batch: &Batch) -> bool
    ensures { IsTrue result ↔ FirstIsCurrent batch.now old.now }
{
    match batch {
        Batch::Points { drawing, .. } => point_is_current(old, drawing.pel, drawing.colour),
        Batch::Lines { drawing, .. } => ink_is_current(old, &drawing.ink()),
        Batch::Text { .. } => old.first_is_current(batch),
    }
}

/// Advances past a shape, whose attributes may be known to be current.
#[inline(always)]
pub(crate) fn step_shape(state: &mut WrittenState, shape: &Shape, is_current: bool)
    requires { is_current ≡ true → AreCurrent (ink_attributes (ink_of shape.now.drawing.now)) state.old.drawing }
    ensures { state.new ≡ after state.old (entry_of_shape shape.now) }
{
    if is_current {
        state.move_pen_along(shape);
        return;
    }
    state.step_shape(shape);
}

/// Advances past an entry. Where its attributes were current, that only moves the pen, to this place.
#[inline(always)]
pub(crate) fn step_to(state: &mut WrittenState, pen: Pen, entry: &Entry, is_current: bool)
    requires fits { Fits state.old entry.now }
    requires moves { is_current ≡ true → MovesPen pen state.old (after state.old entry.now) }
    ensures { state.new ≡ after state.old entry.now }
{
    if is_current {
        state.move_pen(pen, entry);
        return;
    }
    state.step(entry);
}

/// Returns the item of a slice at an index.
#[inline(always)]
pub(crate) fn item<X: Copy>(items: &[X], index: usize) -> X
    requires { index < length items.now }
    ensures { drop index items.now ≡ result ∷ drop (index + 1) items.now }
{
    items[index]
}

/// Returns `count` items of a slice, from `first` on.
#[inline(always)]
pub(crate) fn part<X>(items: &[X], first: usize, count: usize) -> &[X]
    requires { count + first ≤ length items.now }
    ensures { result.now ≡ take count (drop first items.now) }
{
    let (_, rest) = items.split_at(first);
    let (part, _) = rest.split_at(count);
    part
}
