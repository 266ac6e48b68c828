//! The entries of a display list (PROFILE.md, The display list).
ghost use Rattle.std.specs.Prelude.{◌≡◌, ◌↔◌, IsTrue};
ghost use Rattle.nap_list.specs.Entry.{IsCode, attributes, WellMade};

use crate::attribute::{Area, Attributes, Colour, Hand, Ink, Pen};
use crate::shape::{Points, SHAPE_POINTS};
use nap_codes::{CharSet, CursorKind, Mask, TextStep};
use nap_values::{Addr, Grb, Move, Point, Word};

/// One act, with the attributes that it depends on and with absolute points (PROFILE.md, The display list).
#[derive(PartialEq, Eq, Debug, Drop)]
pub enum Entry {
    /// A point, as large as the logical pel.
    Point {
        /// Its position.
        at: Point,
        /// The size of the logical pel.
        pel: Move,
        /// The colour.
        colour: Colour,
    },
    /// A straight line.
    Line {
        /// The start.
        from: Point,
        /// The end, where the pen is afterwards.
        to: Point,
        /// The attributes that it is drawn with.
        ink: Ink,
    },
    /// An arc through 3 to `SHAPE_POINTS` points.
    Arc {
        /// Whether it is filled.
        filled: bool,
        /// The start, the points between, and the end.
        points: Points,
        /// The attributes that it is drawn with.
        ink: Ink,
    },
    /// A rectangle, given by two opposite corners.
    Rect {
        /// Whether it is filled.
        filled: bool,
        /// The first corner.
        from: Point,
        /// The opposite corner.
        to: Point,
        /// The attributes that it is drawn with.
        ink: Ink,
    },
    /// A closed polygon of 2 to `SHAPE_POINTS` points.
    Poly {
        /// Whether it is filled.
        filled: bool,
        /// The start and the further corners.
        points: Points,
        /// The attributes that it is drawn with.
        ink: Ink,
    },
    /// A character.
    Char {
        /// The character set.
        set: CharSet,
        /// The byte of the character in the set, from `20` to `7F`.
        code: u8,
        /// The attributes that it is drawn with.
        hand: Hand,
    },
    /// A format effector. Afterwards the pen is at a position that only a terminal knows.
    TextMove {
        /// The format effector.
        step: TextStep,
        /// The attributes of text there.
        hand: Hand,
    },
    /// REPEAT TO EOL: the last character, repeated to the end of the line.
    ToEol {
        /// The attributes that the characters are drawn with.
        hand: Hand,
    },
    /// SET COLOR in colour mode 1 or 2: a new colour at an address of the colour map.
    Map {
        /// The address.
        addr: Addr,
        /// The new colour.
        grb: Grb,
    },
    /// BLINK: a blink process from the colour in use to the one at an address, with times in tenths of a second.
    Blink {
        /// The address of the other colour.
        addr: Addr,
        /// The time on.
        on: Word,
        /// The time off.
        off: Word,
        /// The delay before it starts.
        delay: Word,
        /// The colour in use.
        colour: Colour,
    },
    /// BLINK without operands: the end of all blink processes.
    BlinkEnd {
        /// The colour in use.
        colour: Colour,
    },
    /// BLINK START or BLINK STOP of the C1 set.
    BlinkMark {
        /// Whether it is BLINK START.
        on: bool,
        /// The colour in use.
        colour: Colour,
    },
    /// WAIT: a pause, in tenths of a second.
    Wait(Word),
    /// BEL: the bell.
    Bell,
    /// FLASH CURSOR, STEADY CURSOR or CURSOR OFF.
    Cursor(CursorKind),
    /// FIELD: the active field. Afterwards the pen is at a position that only a terminal knows.
    Field {
        /// The field.
        area: Area,
        /// The pen before it.
        pen: Pen,
    },
    /// RESET. Afterwards the pen is at a position that only a terminal knows.
    Reset {
        /// The first word.
        first: Word,
        /// The second word.
        second: Word,
        /// The pen before it.
        pen: Pen,
    },
    /// CS: the screen is cleared. Afterwards the pen is at a position that only a terminal knows.
    Clear {
        /// The pen before it.
        pen: Pen,
    },
    /// DEF DRCS: the entries up to `DefEnd` draw the glyph of this code, from `20` to `7F`.
    GlyphStart(u8),
    /// DEF TEXTURE: the entries up to `DefEnd` draw this mask.
    MaskStart(Mask),
    /// The end of the open definition, which restores the attributes saved at its start.
    DefEnd,
}

const NO_ATTRIBUTES: Attributes = Attributes {
    pen: None,
    pel: None,
    colour: None,
    texture: None,
    text: None,
};

fn is_code(code: u8) -> bool
    ensures { IsTrue result ↔ IsCode code }
{
    0x20 <= code && code <= 0x7F
}

impl Entry {
    /// Returns the attributes that the entry holds.
    pub fn attributes(&self) -> Attributes
        ensures { result ≡ attributes self.now }
    {
        match self {
            Entry::Point { pel, colour, .. } => Attributes {
                pel: Some(*pel),
                colour: Some(*colour),
                ..NO_ATTRIBUTES
            },
            Entry::Line { ink, .. }
            | Entry::Arc { ink, .. }
            | Entry::Rect { ink, .. }
            | Entry::Poly { ink, .. } => Attributes {
                pel: Some(ink.pel),
                colour: Some(ink.colour),
                texture: Some(ink.texture),
                ..NO_ATTRIBUTES
            },
            Entry::Char { hand, .. } | Entry::TextMove { hand, .. } | Entry::ToEol { hand } => {
                Attributes {
                    pen: Some(hand.pen),
                    colour: Some(hand.colour),
                    text: Some(hand.text),
                    ..NO_ATTRIBUTES
                }
            }
            Entry::Blink { colour, .. }
            | Entry::BlinkEnd { colour }
            | Entry::BlinkMark { colour, .. } => Attributes {
                colour: Some(*colour),
                ..NO_ATTRIBUTES
            },
            Entry::Field { pen, .. } | Entry::Reset { pen, .. } | Entry::Clear { pen } => {
                Attributes {
                    pen: Some(*pen),
                    ..NO_ATTRIBUTES
                }
            }
            _ => NO_ATTRIBUTES,
        }
    }

    /// Whether the number of points and the codes of the entry are in range.
    pub fn is_well_made(&self) -> bool
        ensures { IsTrue result ↔ WellMade self.now }
    {
        match self {
            Entry::Arc { points, .. } => matches!(points.as_slice().len(), 3..=SHAPE_POINTS),
            Entry::Poly { points, .. } => matches!(points.as_slice().len(), 2..=SHAPE_POINTS),
            Entry::Char { code, .. } => is_code(*code),
            Entry::TextMove {
                step: TextStep::Aps(a, b),
                ..
            } => is_code(*a) && is_code(*b),
            Entry::GlyphStart(code) => is_code(*code),
            _ => true,
        }
    }
}
