//! The fields of lines, by their sorts (PROFILE.md, Lines of list).
ghost use Rattle.std.specs.Prelude.{◌<◌, length};
ghost use Rattle.nap_make.specs.Sorts.{AddsValue};

use crate::attribute::{
    char_set, colour, cursor_kind, displacement, grb, look, mask, pen, plain_step, point, texture,
};
use crate::cutting::rest_after;
use crate::number::{self, addr, code, three_words};
use arrayvec::ArrayVec;
use nap_codes::{CharSet, CursorKind, Mask, TextStep};
use nap_list::{Colour, Pen, TextLook, Texture};
use nap_values::{Addr, Grb, Move, Point, Word};

/// The greatest number of fields of a line, without the points of a shape.
pub(crate) const FIELDS: usize = 5;

/// A sort of fields.
#[derive(Clone, Copy, Drop)]
pub(crate) enum Sort {
    Addr,
    Code,
    Colour,
    Cursor,
    Look,
    Mask,
    Parts,
    Pel,
    Pen,
    Point,
    Set,
    Step,
    Texture,
    Times,
    Word,
}

/// The value of a field.
#[derive(Clone, Copy, Drop)]
pub(crate) enum Value {
    Addr(Addr),
    Code(u8),
    Colour(Colour),
    Cursor(CursorKind),
    Look(TextLook),
    Mask(Mask),
    Parts(Grb),
    Pel(Move),
    Pen(Pen),
    Point(Point),
    Set(CharSet),
    Step(TextStep),
    Texture(Texture),
    Times(Word, Word, Word),
    Word(Word),
}

impl Default for Value {
    fn default() -> Value {
        Value::Code(0)
    }
}

/// Appends a value of this variant, which may have a key, or returns that there is none.
macro_rules! push_or_return {
    ($values:ident, $variant:ident, $found:expr) => {
        match $found {
            Some(value) => $values.push(Value::$variant(value)),
            None => return false,
        }
    };
    ($values:ident, $variant:ident, $word:ident, $key:literal, $parse:ident) => {
        match rest_after($word, $key) {
            Some(text) => push_or_return!($values, $variant, $parse(text)),
            None => return false,
        }
    };
}

impl Sort {
    /// Appends the value of this sort whose text a word is, if it is one.
    pub(crate) fn read(self, word: &[u8], values: &mut ArrayVec<Value, FIELDS>) -> bool
        requires { length values.old.items < 5 }
        ensures { AddsValue self word.now values.old.items values.new.items result }
    {
        match self {
            Sort::Addr => push_or_return!(values, Addr, addr(word)),
            Sort::Code => push_or_return!(values, Code, code(word)),
            Sort::Colour => push_or_return!(values, Colour, word, b"colour=", colour),
            Sort::Cursor => push_or_return!(values, Cursor, cursor_kind(word)),
            Sort::Look => push_or_return!(values, Look, word, b"text=", look),
            Sort::Mask => push_or_return!(values, Mask, mask(word)),
            Sort::Parts => push_or_return!(values, Parts, grb(word)),
            Sort::Pel => push_or_return!(values, Pel, word, b"pel=", displacement),
            Sort::Pen => push_or_return!(values, Pen, word, b"pen=", pen),
            Sort::Point => push_or_return!(values, Point, point(word)),
            Sort::Set => push_or_return!(values, Set, char_set(word)),
            Sort::Step => push_or_return!(values, Step, plain_step(word)),
            Sort::Texture => push_or_return!(values, Texture, word, b"texture=", texture),
            Sort::Word => push_or_return!(values, Word, number::word(word)),
            Sort::Times => match three_words(word) {
                Some((on, (off, delay))) => values.push(Value::Times(on, off, delay)),
                None => return false,
            },
        }
        true
    }
}
