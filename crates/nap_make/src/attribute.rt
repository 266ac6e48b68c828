//! Parsing of the attributes of an entry, each with its key (PROFILE.md, Lines of list).
ghost use Rattle.std.specs.Prelude.{◌≡◌, ◌≢◌, MatchOption, ◌∷◌, [], Bool};
ghost use Rattle.nap_make.specs.Types.{ColourInRange, HasSixteenBitParts, IsInRange, IsInSquare, PenInRange, SizeInRange, TextInRange, TextureInRange, colour_text, cursor_text, flag_text, grb_text, look_text, mask_size_text, mask_text, move_text, pen_text, point_text, set_text, size_text, step_text, texture_text};
ghost use Rattle.nap_make.specs.Fields.{MaskInRange, modes_text, size_name, IsNumbered, IsPlainStep};
ghost use Rattle.nap_make.specs.Reading.{IsParsed, AnyValue};

use crate::cutting::{equals, named, rest_after, split_at_byte};
use crate::number::{addr, number_below, signed, two_words, word};
use nap_codes::{CharSet, CursorKind, Mask, Size, TextStep};
use nap_list::{CharSize, Colour, Origin, Pen, Preset, TextLook, Texture};
use nap_values::{Grb, Move, Point};

/// Parses a point.
pub(crate) fn point(bytes: &[u8]) -> Option<Point>
    ensures { IsParsed IsInSquare point_text bytes.now result }
{
    let (x, y) = split_at_byte(bytes, b',')?;
    let x = number_below(x, Point::LIMIT)?;
    let y = number_below(y, Point::LIMIT)?;
    Point::try_new(x, y)
}

/// Parses a displacement or a size.
pub(crate) fn displacement(bytes: &[u8]) -> Option<Move>
    ensures { IsParsed IsInRange move_text bytes.now result }
{
    let (x, y) = split_at_byte(bytes, b',')?;
    let x = signed(x)?;
    let y = signed(y)?;
    Move::try_new(x, y)
}

/// Parses a pen.
pub(crate) fn pen(bytes: &[u8]) -> Option<Pen>
    ensures { IsParsed PenInRange pen_text bytes.now result }
{
    match bytes {
        _ if equals(bytes, b"start") => Some(Pen::Start),
        _ if equals(bytes, b"after") => Some(Pen::After),
        _ => Some(Pen::At(point(bytes)?)),
    }
}

/// Parses the name of a character set.
pub(crate) fn char_set(bytes: &[u8]) -> Option<CharSet>
    ensures { IsParsed AnyValue set_text bytes.now result }
{
    named!(bytes, CharSet:
        b"primary" => Primary, b"supplementary" => Supplementary, b"mosaic" => Mosaic,
        b"drcs" => Drcs)
}

/// Parses the name of a state of the cursor.
pub(crate) fn cursor_kind(bytes: &[u8]) -> Option<CursorKind>
    ensures { IsParsed AnyValue cursor_text bytes.now result }
{
    named!(bytes, CursorKind: b"flash" => Flash, b"steady" => Steady, b"off" => Off)
}

/// Parses the letter of a mask.
pub(crate) fn mask(bytes: &[u8]) -> Option<Mask>
    ensures { IsParsed AnyValue mask_text bytes.now result }
{
    named!(bytes, Mask: b"A" => A, b"B" => B, b"C" => C, b"D" => D)
}

/// Parses the name of a format effector, except APS.
pub(crate) fn plain_step(bytes: &[u8]) -> Option<TextStep>
    ensures { IsParsed IsPlainStep step_text bytes.now result }
{
    named!(bytes, TextStep:
        b"APB" => Apb, b"APF" => Apf, b"APD" => Apd, b"APU" => Apu, b"APR" => Apr, b"APH" => Aph)
}

/// Parses the components of a colour.
pub(crate) fn grb(bytes: &[u8]) -> Option<Grb>
    ensures { IsParsed HasSixteenBitParts grb_text bytes.now result }
{
    let (g, others) = split_at_byte(bytes, b',')?;
    let (r, b) = split_at_byte(others, b',')?;
    let g = number_below(g, Grb::LIMIT)?;
    let r = number_below(r, Grb::LIMIT)?;
    let b = number_below(b, Grb::LIMIT)?;
    Grb::try_new(g, r, b)
}

/// Parses a colour that is written with numbers.
fn colour_by_numbers(bytes: &[u8]) -> Option<Colour>
    ensures { IsParsed IsNumbered colour_text bytes.now result }
{
    if let Some(parts) = rest_after(bytes, b"direct:") {
        return Some(Colour::Direct(grb(parts)?));
    }
    if let Some(number) = rest_after(bytes, b"front:") {
        return Some(Colour::Front(addr(number)?));
    }
    let numbers = rest_after(bytes, b"pair:")?;
    let (foreground, background) = split_at_byte(numbers, b',')?;
    Some(Colour::Pair(addr(foreground)?, addr(background)?))
}

/// Parses a colour.
pub(crate) fn colour(bytes: &[u8]) -> Option<Colour>
    ensures { IsParsed ColourInRange colour_text bytes.now result }
{
    match bytes {
        _ if equals(bytes, b"own-start") => Some(Colour::Own(Origin::AtStart)),
        _ if equals(bytes, b"own-reset") => Some(Colour::Own(Origin::AfterReset)),
        _ if equals(bytes, b"reset-2") => Some(Colour::ByReset(Preset::Two)),
        _ if equals(bytes, b"reset-3") => Some(Colour::ByReset(Preset::Three)),
        _ => colour_by_numbers(bytes),
    }
}

/// Parses a named size.
fn named_size(bytes: &[u8]) -> Option<Size>
    ensures { IsParsed AnyValue size_name bytes.now result }
{
    named!(bytes, Size:
        b"small" => Small, b"medium" => Medium, b"normal" => Normal, b"tall" => Tall,
        b"double" => Double)
}

/// Parses the size of a character.
pub(crate) fn char_size(bytes: &[u8]) -> Option<CharSize>
    ensures { IsParsed SizeInRange size_text bytes.now result }
{
    match named_size(bytes) {
        Some(size) => Some(CharSize::Named(size)),
        None => Some(CharSize::Given(displacement(bytes)?)),
    }
}

/// The four flags of the text attributes: whether each is on.
#[derive(Clone, Copy, Drop)]
pub(crate) struct TextModes {
    pub(crate) reverse: bool,
    pub(crate) underline: bool,
    pub(crate) wrap: bool,
    pub(crate) scroll: bool,
}

/// Parses a flag: its letter if it is on, else `-`.
fn flag(byte: u8, letter: u8) -> Option<bool>
    requires { letter ≢ 45 }
    ensures { MatchOption result ((on : Bool) → byte ∷ [] ≢ flag_text on (letter ∷ [])) (λ on. byte ∷ [] ≡ flag_text on (letter ∷ [])) }
{
    if byte == letter {
        return Some(true);
    }
    if byte == b'-' {
        return Some(false);
    }
    None
}

/// Parses the four flags.
fn modes(bytes: &[u8]) -> Option<TextModes>
    ensures { IsParsed AnyValue modes_text bytes.now result }
{
    if bytes.len() != 4 {
        return None;
    }
    Some(TextModes {
        reverse: flag(bytes[0], b'r')?,
        underline: flag(bytes[1], b'u')?,
        wrap: flag(bytes[2], b'w')?,
        scroll: flag(bytes[3], b's')?,
    })
}

/// Parses the text attributes.
pub(crate) fn look(bytes: &[u8]) -> Option<TextLook>
    ensures { IsParsed TextInRange look_text bytes.now result }
{
    let (words, others) = split_at_byte(bytes, b'/')?;
    let (size, flags) = split_at_byte(others, b'/')?;
    let (first, second) = two_words(words)?;
    let size = char_size(size)?;
    let modes = modes(flags)?;
    Some(TextLook {
        first,
        second,
        size,
        reverse: modes.reverse,
        underline: modes.underline,
        wrap: modes.wrap,
        scroll: modes.scroll,
    })
}

/// Parses the size of a texture's mask, or `none`.
fn mask_size(bytes: &[u8]) -> Option<Option<Move>>
    ensures { IsParsed MaskInRange mask_size_text bytes.now result }
{
    if equals(bytes, b"none") {
        return Some(None);
    }
    Some(Some(displacement(bytes)?))
}

/// Parses a texture.
pub(crate) fn texture(bytes: &[u8]) -> Option<Texture>
    ensures { IsParsed TextureInRange texture_text bytes.now result }
{
    let (number, size) = split_at_byte(bytes, b'/')?;
    let word = word(number)?;
    let mask = mask_size(size)?;
    Some(Texture { word, mask })
}
