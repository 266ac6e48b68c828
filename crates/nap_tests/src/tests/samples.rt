//! Values and entries to make lists of.
use nap_codes::{CharSet, Size, TextStep};
use nap_list::{Area, CharSize, Colour, Entry, Hand, Ink, Origin, Pen, Points, TextLook, Texture};
use nap_values::{Addr, Grb, Move, Point, Word};
use std::alloc::{AllocError, Global};

/// Returns the word with this number.
pub fn word(number: u8) -> Word {
    Word::try_new(number).unwrap_or(Word::ZERO)
}

/// Returns the words that these bytes carry.
pub fn words(alloc: Global, bytes: &[u8]) -> Result<Vec<Word>, AllocError> {
    bytes.iter().map(|byte| word(byte & 0x3F)).collect(alloc)
}

/// Returns the address with this number.
pub fn address(number: u32) -> Addr {
    Addr::try_new(number).unwrap_or(Addr::try_new(0).unwrap())
}

/// Returns the displacement with these components.
pub fn size(x: i32, y: i32) -> Move {
    Move::try_new(x, y).unwrap_or(Move::zero())
}

/// Returns the point with these coordinates.
pub fn point(x: u32, y: u32) -> Point {
    Point::try_new(x, y).unwrap_or(Point::origin())
}

/// Returns the point at these eighths of the unit screen: to the right, and up.
pub fn at(eighths: (u8, u8)) -> Point {
    let (x, y) = eighths;
    point(u32::from(x) * 1_048_576, u32::from(y) * 1_048_576)
}

/// Returns `count` points: the quarter, and then the middle.
pub fn corners(alloc: Global, count: usize) -> Result<Points, AllocError> {
    let mut points = Points::with_capacity(alloc, count)?;
    for index in 0..count {
        points.push(at(if index == 0 { (2, 1) } else { (4, 4) }))?;
    }
    Ok(points)
}

/// Returns full blue.
pub fn blue() -> Grb {
    Grb::new(0, 0, 65_535)
}

/// Returns the attributes of lines at the start, with this colour and mask.
pub fn inked(colour: Colour, mask: Option<Move>) -> Ink {
    let texture = Texture {
        word: Word::ZERO,
        mask,
    };
    Ink {
        pel: Move::zero(),
        colour,
        texture,
    }
}

/// Returns the text attributes at the start, with this size.
pub fn look(size: Size) -> TextLook {
    TextLook {
        first: Word::ZERO,
        second: Word::ZERO,
        size: CharSize::Named(size),
        reverse: false,
        underline: false,
        wrap: false,
        scroll: false,
    }
}

/// Returns the attributes of characters of this size at the start, with this pen.
pub fn hand(size: Size, pen: Pen) -> Hand {
    Hand {
        pen,
        colour: Colour::Own(Origin::AtStart),
        text: look(size),
    }
}

/// Returns a point.
pub fn dot(at: Point, pel: Move, colour: Colour) -> Entry {
    Entry::Point { at, pel, colour }
}

/// Returns a line.
pub fn line(from: Point, to: Point, ink: Ink) -> Entry {
    Entry::Line { from, to, ink }
}

/// Returns a rectangle.
pub fn rect(filled: bool, from: Point, to: Point, ink: Ink) -> Entry {
    Entry::Rect {
        filled,
        from,
        to,
        ink,
    }
}

/// Returns an arc.
pub fn arc(points: Points, ink: Ink) -> Entry {
    Entry::Arc {
        filled: false,
        points,
        ink,
    }
}

/// Returns a filled polygon.
pub fn poly(points: Points, ink: Ink) -> Entry {
    Entry::Poly {
        filled: true,
        points,
        ink,
    }
}

/// Returns a character.
pub fn character(set: CharSet, code: u8, pen: Pen) -> Entry {
    let hand = hand(Size::Normal, pen);
    Entry::Char { set, code, hand }
}

/// Returns a move of the cursor.
pub fn text_move(step: TextStep, pen: Pen) -> Entry {
    let hand = hand(Size::Normal, pen);
    Entry::TextMove { step, hand }
}

/// Returns an entry that sets this address of the colour map.
pub fn map(number: u32, grb: Grb) -> Entry {
    Entry::Map {
        addr: address(number),
        grb,
    }
}

/// Returns a process with the times 1, 2 and 3.
pub fn blink(number: u32, colour: Colour) -> Entry {
    Entry::Blink {
        addr: address(number),
        on: word(1),
        off: word(2),
        delay: word(3),
        colour,
    }
}

/// Returns a field between these points.
pub fn field(from: Point, to: Point, pen: Pen) -> Entry {
    let area = Area::Part { from, to };
    Entry::Field { area, pen }
}

/// Returns a RESET with these words.
pub fn reset(first: u8, second: u8, pen: Pen) -> Entry {
    Entry::Reset {
        first: word(first),
        second: word(second),
        pen,
    }
}

/// Returns the start of blinking.
pub fn blink_mark(colour: Colour) -> Entry {
    Entry::BlinkMark { on: true, colour }
}

/// Returns a repetition to the end of the line, of characters of this size.
pub fn to_eol(size: Size, pen: Pen) -> Entry {
    let hand = hand(size, pen);
    Entry::ToEol { hand }
}
