//! Entries by name, so that a table of lists is one constant.
use super::samples::{
    arc, at, blink, blink_mark, blue, character, corners, dot, field, inked, line, map, poly, rect,
    reset, size, text_move, to_eol, word,
};
use nap_codes::{CharSet, CursorKind, Mask, Size, TextStep};
use nap_list::{Colour, Entry, Origin, Pen, Preset};
use nap_values::{Grb, Move};
use std::alloc::{AllocError, Global};

/// The colour of a sample.
#[derive(Clone, Copy, Drop)]
pub enum Shade {
    /// The colour at the start.
    AtStart,
    /// The terminal's colour after a RESET.
    AfterReset,
    /// The colour after the second code of RESET.
    ByTwo,
    /// The colour after the third code of RESET.
    ByThree,
    /// Full blue.
    Blue,
}

impl Shade {
    /// Returns the colour.
    pub fn colour(self) -> Colour {
        match self {
            Shade::AtStart => Colour::Own(Origin::AtStart),
            Shade::AfterReset => Colour::Own(Origin::AfterReset),
            Shade::ByTwo => Colour::ByReset(Preset::Two),
            Shade::ByThree => Colour::ByReset(Preset::Three),
            Shade::Blue => Colour::Direct(blue()),
        }
    }
}

/// A point by eighths of the unit screen: to the right, and up.
pub type Place = (u8, u8);

/// The middle of the unit screen.
pub const MIDDLE: Place = (4, 4);

/// The point a quarter to the right, and half of that up.
pub const QUARTER: Place = (2, 1);

/// A drawing point (pen) of a sample.
#[derive(Clone, Copy, Drop)]
pub enum Spot {
    /// The pen at the start.
    Start,
    /// A pen that only a terminal knows.
    After,
    /// A pen at a point.
    At(Place),
}

impl Spot {
    /// Returns the drawing point (pen).
    pub fn pen(self) -> Pen {
        match self {
            Spot::Start => Pen::Start,
            Spot::After => Pen::After,
            Spot::At(place) => Pen::At(at(place)),
        }
    }
}

/// An entry.
#[derive(Clone, Copy, Drop)]
pub enum Sample {
    /// A point.
    Dot(Place, Shade),
    /// A point in the middle with a pel.
    WideDot,
    /// A line.
    Line(Place, Place, Shade),
    /// A line from the quarter to the middle with a mask of no size.
    MaskedLine,
    /// A rectangle, filled or not.
    Rect(bool, Place, Place, Shade),
    /// An arc of a number of points: the quarter, and then the middle.
    Arc(usize),
    /// A filled polygon of a number of points: the quarter, and then the middle.
    Poly(usize),
    /// The letter A of the primary set.
    Letter(Spot),
    /// A mosaic character as the first entry.
    Mosaic(u8),
    /// A move of the cursor.
    Step(TextStep, Spot),
    /// Repetition to the end of the line.
    ToEol,
    /// A red with this component, at an address.
    Red(u32, u16),
    /// A blue with this component, at an address.
    Blue(u32, u16),
    /// A process at an address, with the times 1, 2 and 3.
    Blink(u32, Shade),
    /// The end of all blinking.
    BlinkEnd(Shade),
    /// The start of blinking.
    BlinkMark(Shade),
    /// A pause.
    Wait(u8),
    /// The bell.
    Bell,
    /// The cursor's state.
    Cursor(CursorKind),
    /// A field from the quarter to the middle.
    Field(Spot),
    /// A RESET of these words.
    Reset(u8, u8, Spot),
    /// A cleared screen.
    Clear(Spot),
    /// The start of a glyph's definition.
    Glyph(u8),
    /// The start of a mask's definition.
    MaskStart(Mask),
    /// The end of a definition.
    DefEnd,
}

/// A point in the middle.
pub const DOT: Sample = Sample::Dot(MIDDLE, Shade::AtStart);

/// A line from the quarter to the middle.
pub const LINE: Sample = Sample::Line(QUARTER, MIDDLE, Shade::AtStart);

/// Returns the entry of a sample.
pub fn entry_of(alloc: Global, sample: Sample) -> Result<Entry, AllocError> {
    let start = Shade::AtStart.colour();
    Ok(match sample {
        Sample::Dot(place, shade) => dot(at(place), Move::zero(), shade.colour()),
        Sample::WideDot => dot(at(MIDDLE), size(65_536, 65_536), start),
        Sample::Line(from, to, shade) => line(at(from), at(to), inked(shade.colour(), None)),
        Sample::MaskedLine => line(at(QUARTER), at(MIDDLE), inked(start, Some(Move::zero()))),
        Sample::Rect(filled, from, to, shade) => rect(
            filled,
            at(from),
            at(to),
            inked(shade.colour(), None),
        ),
        Sample::Arc(count) => arc(corners(alloc, count)?, inked(start, None)),
        Sample::Poly(count) => poly(corners(alloc, count)?, inked(start, None)),
        Sample::Letter(spot) => character(CharSet::Primary, 0x41, spot.pen()),
        Sample::Mosaic(code) => character(CharSet::Mosaic, code, Pen::Start),
        Sample::Step(step, spot) => text_move(step, spot.pen()),
        Sample::ToEol => to_eol(Size::Normal, Pen::After),
        Sample::Red(number, shade) => map(number, Grb::new(0, shade, 0)),
        Sample::Blue(number, shade) => map(number, Grb::new(0, 0, shade)),
        Sample::Blink(number, shade) => blink(number, shade.colour()),
        Sample::BlinkEnd(shade) => Entry::BlinkEnd {
            colour: shade.colour(),
        },
        Sample::BlinkMark(shade) => blink_mark(shade.colour()),
        Sample::Wait(time) => Entry::Wait(word(time)),
        Sample::Bell => Entry::Bell,
        Sample::Cursor(kind) => Entry::Cursor(kind),
        Sample::Field(spot) => field(at(QUARTER), at(MIDDLE), spot.pen()),
        Sample::Reset(first, second, spot) => reset(first, second, spot.pen()),
        Sample::Clear(spot) => Entry::Clear { pen: spot.pen() },
        Sample::Glyph(code) => Entry::GlyphStart(code),
        Sample::MaskStart(mask) => Entry::MaskStart(mask),
        Sample::DefEnd => Entry::DefEnd,
    })
}

/// Returns the entries of samples.
pub fn entries_of(alloc: Global, samples: &[Sample]) -> Result<Vec<Entry>, AllocError> {
    let mut entries = Vec::new(alloc);
    for sample in samples {
        entries.push(entry_of(alloc, *sample)?)?;
    }
    Ok(entries)
}
