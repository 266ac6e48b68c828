//! The ranges of the parts of an entry, which their types ensure. The functions do nothing; their contracts state the
//! ranges.
ghost use Rattle.std.specs.Prelude.{All};
ghost use Rattle.nap_canon.specs.Names.{AreaInRange, ColourInRange, HasSixteenBitParts, InRange, IsAddress, IsByte, IsInRange, IsInSquare, IsWord, PenInRange, SizeInRange, StepInRange, TextInRange, TextureInRange};
ghost use Rattle.nap_canon.specs.Range.{AttributesInRange};

use nap_codes::TextStep;
use nap_list::{Area, Attributes, CharSize, Colour, Entry, Pen, TextLook, Texture};
use nap_values::{Addr, Grb, Move, Point, Word};

fn point_in_range(point: Point)
    ensures { IsInSquare point }
{
    let _ = (point.x(), point.y());
}

fn points_in_range(points: &[Point])
    ensures { All IsInSquare points.now }
{
    for at in points {
        point_in_range(*at);
    }
}

fn move_in_range(step: Move)
    ensures { IsInRange step }
{
    let _ = (step.x(), step.y());
}

fn addr_in_range(addr: Addr)
    ensures { IsAddress addr }
{
    let _ = addr.get();
}

fn word_in_range(word: Word)
    ensures { IsWord word }
{
    let _ = word.get();
}

fn grb_in_range(grb: Grb)
    ensures { HasSixteenBitParts grb }
{
    let _ = (grb.g(), grb.r(), grb.b());
}

fn byte_in_range(byte: u8)
    ensures { IsByte byte }
{}

fn text_step_in_range(step: TextStep)
    ensures { StepInRange step }
{
    if let TextStep::Aps(row, column) = step {
        byte_in_range(row);
        byte_in_range(column);
    }
}

fn pen_in_range(pen: Pen)
    ensures { PenInRange pen }
{
    if let Pen::At(at) = pen {
        point_in_range(at);
    }
}

fn colour_in_range(colour: Colour)
    ensures { ColourInRange colour }
{
    match colour {
        Colour::Direct(parts) => grb_in_range(parts),
        Colour::Front(front) => addr_in_range(front),
        Colour::Pair(front, back) => {
            addr_in_range(front);
            addr_in_range(back);
        }
        Colour::Own(_) | Colour::ByReset(_) => {}
    }
}

fn texture_in_range(texture: Texture)
    ensures { TextureInRange texture }
{
    word_in_range(texture.word);
    if let Some(mask) = texture.mask {
        move_in_range(mask);
    }
}

fn size_in_range(size: CharSize)
    ensures { SizeInRange size }
{
    if let CharSize::Given(size) = size {
        move_in_range(size);
    }
}

fn look_in_range(text: TextLook)
    ensures { TextInRange text }
{
    word_in_range(text.first);
    word_in_range(text.second);
    size_in_range(text.size);
}

fn area_in_range(area: Area)
    ensures { AreaInRange area }
{
    if let Area::Part { from, to } = area {
        point_in_range(from);
        point_in_range(to);
    }
}

fn attributes_in_range(attributes: &Attributes)
    ensures { AttributesInRange attributes.now }
{
    if let Some(before) = attributes.pen {
        pen_in_range(before);
    }
    if let Some(pel) = attributes.pel {
        move_in_range(pel);
    }
    if let Some(of) = attributes.colour {
        colour_in_range(of);
    }
    if let Some(with) = attributes.texture {
        texture_in_range(with);
    }
    if let Some(look) = attributes.text {
        look_in_range(look);
    }
}

/// States that the parts of the entry are in their ranges.
pub(crate) fn in_range(entry: &Entry)
    ensures { InRange entry.now }
{
    attributes_in_range(&entry.attributes());
    match entry {
        Entry::Point { at, .. } => point_in_range(*at),
        Entry::Line { from, to, .. } | Entry::Rect { from, to, .. } => {
            point_in_range(*from);
            point_in_range(*to);
        }
        Entry::Arc { points: list, .. } | Entry::Poly { points: list, .. } => points_in_range(
            list.as_slice(),
        ),
        Entry::Char { code, .. } | Entry::GlyphStart(code) => byte_in_range(*code),
        Entry::TextMove { step: by, .. } => text_step_in_range(*by),
        Entry::Map {
            addr: at,
            grb: parts,
        } => {
            addr_in_range(*at);
            grb_in_range(*parts);
        }
        Entry::Blink {
            addr: at,
            on,
            off,
            delay,
            ..
        } => {
            addr_in_range(*at);
            word_in_range(*on);
            word_in_range(*off);
            word_in_range(*delay);
        }
        Entry::Wait(time) => word_in_range(*time),
        Entry::Field { area: of, .. } => area_in_range(*of),
        Entry::Reset { first, second, .. } => {
            word_in_range(*first);
            word_in_range(*second);
        }
        Entry::ToEol { .. } | Entry::BlinkEnd { .. } | Entry::BlinkMark { .. } | Entry::Bell => {}
        Entry::Cursor(_) | Entry::Clear { .. } | Entry::MaskStart(_) | Entry::DefEnd => {}
    }
}
