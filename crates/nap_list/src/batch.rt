//! Batches: entries that a sink takes together.
#![tactic(auto, using(crate::specs::BatchLaws::lines_count, crate::specs::BatchLaws::text_count), unfolding(crate::specs::State::walk))]

ghost use Rattle.std.specs.Prelude.{◌≡◌, ◌↔◌, ◌<◌, ◌≤◌, ◌+◌, List, [], ◌∷◌, IsTrue, length, take, drop};
ghost use Rattle.nap_list.specs.declared.entry.Entry.{Entry};
ghost use Rattle.nap_list.specs.Batches.{FirstIsCurrent, last_point, last_char_of_text, batch_entries, text_entry};
ghost use Rattle.nap_list.specs.State.{after, start, walk};

use crate::attribute::{Hand, Pen};
use crate::entry::Entry;
use crate::state::{Drawing, LastChar};
use nap_codes::{CharSet, format_effector};
use nap_values::Point;

/// Consecutive entries of one kind, drawn with the same attributes.
#[derive(Clone, Copy, Drop)]
pub enum Batch<'a> {
    /// A point at each of these points.
    Points {
        points: &'a [Point],
        drawing: &'a Drawing,
    },
    /// Lines from `from` to the first point, and from each point to the next.
    Lines {
        from: Point,
        points: &'a [Point],
        drawing: &'a Drawing,
    },
    /// Characters and format effectors of one byte: the first at this pen, each further one at the pen that it finds.
    Text {
        set: CharSet,
        codes: &'a [u8],
        pen: Pen,
        drawing: &'a Drawing,
    },
}

impl Drawing {
    /// Whether the attributes of a batch's first entry are already current.
    #[inline(always)]
    pub fn first_is_current(&self, batch: &Batch) -> bool
        ensures { IsTrue result ↔ FirstIsCurrent batch.now self.now }
    {
        match batch {
            Batch::Points { drawing, .. } => {
                self.pel == drawing.pel && self.is_current_colour(drawing.colour)
            }
            Batch::Lines { drawing, .. } => {
                self.pel == drawing.pel
                    && self.texture == drawing.texture
                    && self.is_current_colour(drawing.colour)
            }
            Batch::Text { pen, drawing, .. } => {
                self.pen == *pen
                    && self.text.is_look(&drawing.text)
                    && self.is_current_colour(drawing.colour)
            }
        }
    }
}

impl<'a> Batch<'a> {
    /// Returns the number of entries.
    #[inline(always)]
    pub fn len(&self) -> usize
        ensures { result ≡ length (batch_entries self.now) }
    {
        match self {
            Batch::Points { points, .. } => points.len(),
            Batch::Lines { points, .. } => points.len(),
            Batch::Text { codes, .. } => codes.len(),
        }
    }

    /// Whether there are no entries.
    #[inline(always)]
    pub fn is_empty(&self) -> bool
        ensures { IsTrue result ↔ (batch_entries self.now ≡ []) }
    {
        self.len() == 0
    }

    /// Returns the entry at an index.
    #[inline(always)]
    #[tactic(auto, using(crate::specs::BatchLaws::lines_count, crate::specs::BatchLaws::text_count, crate::proofs::Batches::points_at, crate::proofs::Batches::lines_at))]
    pub fn entry(&self, index: usize) -> Entry
        requires { index < length (batch_entries self.now) }
        ensures { drop index (batch_entries self.now) ≡ result ∷ drop (index + 1) (batch_entries self.now) }
    {
        match self {
            Batch::Points { points, drawing } => Entry::Point {
                at: item_at(points, index),
                pel: drawing.pel,
                colour: drawing.colour,
            },
            Batch::Lines {
                from,
                points,
                drawing,
            } => Entry::Line {
                from: line_start(*from, points, index),
                to: item_at(points, index),
                ink: drawing.ink(),
            },
            Batch::Text {
                set,
                codes,
                pen,
                drawing,
            } => {
                let pen = if index == 0 { *pen } else { Pen::After };
                let hand = Hand {
                    pen,
                    colour: drawing.colour,
                    text: drawing.text,
                };
                text_entry(*set, hand, item_at(codes, index))
            }
        }
    }

    /// Returns the pen after the entry at this index.
    #[inline(always)]
    pub(crate) fn pen_after(&self, index: usize) -> Pen
        requires { index < length (batch_entries self.now) }
        ensures { (e : Entry) (es : List Entry) → drop index (batch_entries self.now) ≡ e ∷ es → result ≡ (after start e).drawing.pen }
    {
        match self {
            Batch::Points { points, .. } | Batch::Lines { points, .. } => {
                Pen::At(item_at(points, index))
            }
            Batch::Text { .. } => Pen::After,
        }
    }
}

/// Returns the entry of a byte of a text: a move for a format effector, else a character of the set.
#[inline(always)]
fn text_entry(set: CharSet, hand: Hand, code: u8) -> Entry
    ensures { result ≡ text_entry set hand code }
{
    match format_effector(code) {
        Some(step) => Entry::TextMove { step, hand },
        None => Entry::Char { set, code, hand },
    }
}

/// Returns the character that a byte of a text leaves as the last one, or `None` for a format effector.
#[inline(always)]
pub fn last_char_of_text(set: CharSet, code: u8) -> Option<LastChar>
    ensures { result ≡ last_char_of_text set code }
{
    match format_effector(code) {
        Some(_) => None,
        None => Some(LastChar { set, code }),
    }
}

/// Returns the item at an index.
#[inline(always)]
fn item_at<X: Copy>(items: &[X], index: usize) -> X
    requires { index < length items.now }
    ensures { drop index items.now ≡ result ∷ drop (index + 1) items.now }
{
    items[index]
}

/// Returns the start of the line at an index, for lines from `from` to the first point and from each point to the next.
#[inline(always)]
#[tactic(auto, using(crate::proofs::Batches::last_of_prefix), unfolding(crate::specs::Batches::last_point))]
pub fn line_start(from: Point, points: &[Point], index: usize) -> Point
    requires { index ≤ length points.now }
    ensures { result ≡ last_point from (take index points.now) }
{
    if index == 0 {
        return from;
    }
    points[index - 1]
}
