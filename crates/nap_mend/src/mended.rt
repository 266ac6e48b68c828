//! Where the page is in a file.
ghost use Rattle.std.specs.Prelude.{◌≡◌, ◌≤◌, ◌<◌, ◌+◌, ◌-◌, ◌^◌, ◌++◌, IfOk, IfSome, OnOk, length, option_map, true};
ghost use Rattle.nap_mend.specs.Files.{data_of};
ghost use Rattle.nap_mend.specs.Laws.{Covers, copy_of};
ghost use Rattle.nap_mend.specs.Pages.{is_whole_page};
ghost use Rattle.nap_mend.specs.Mending.{bits_in, body_span, part_end, mended_of, mending_at, mending_in, part_list, parts_from};

use crate::bits::Bits;
use crate::file::{before_sauce, data_of};
use crate::page::{Grade, Place, lead_kind, place_of};
use crate::plain::{Coded, coded_of, without_bits};
use crate::reading::is_stream;
use crate::sets::Span;
use std::alloc::{AllocError, Global};

/// What a part of a file is (MENDING.md, Parts).
#[derive(Clone, Copy, PartialEq, Eq, Debug, Drop)]
pub enum PartKind {
    /// The header of a MacBinary file, or what is after its data fork.
    Container,
    /// NSR, CAN and announcers, with fills among them.
    Code,
    /// Fills and line ends.
    Fill,
    /// A header.
    Header,
    /// The page.
    Page,
    /// What is after a guessed page.
    Rest,
    /// A SAUCE record.
    Sauce,
}

/// A part of a file.
#[derive(Clone, Copy, PartialEq, Eq, Debug, Drop)]
pub struct Part {
    /// What it is.
    pub kind: PartKind,
    /// The offset of its first byte.
    pub begin: usize,
    /// The offset after its last byte.
    pub end: usize,
}

/// The end of a part, which begins where the part before it ends.
#[derive(Clone, Copy, Drop)]
pub(crate) struct Border {
    /// What the part is.
    kind: PartKind,
    /// The offset after its last byte.
    end: usize,
}

/// Returns the end of a part.
fn part_end(kind: PartKind, end: usize) -> Border
    ensures { result ≡ part_end kind end }
{
    Border { kind, end }
}

/// Where the page is in a file. The page is the bytes from `begin` to before `end`; if it has eighth bits, their low
/// seven bits.
#[derive(Drop)]
pub struct Mended {
    /// How sure it is.
    pub grade: Grade,
    /// What the eighth bits are.
    pub bits: Bits,
    /// The offset of the page's first byte.
    pub begin: usize,
    /// The offset after its last byte.
    pub end: usize,
    /// The parts of the file, in order, the page among them.
    pub parts: Vec<Part>,
}

/// Adds a part, unless it is empty.
fn add_part(
    parts: &mut Vec<Part>,
    kind: PartKind,
    begin: usize,
    end: usize,
) -> Result<(), AllocError>
    ensures { OnOk result (parts.new.items ≡ parts.old.items ++ part_list kind begin end) }
{
    if begin < end {
        parts.push(Part { kind, begin, end })?;
    }
    Ok(())
}

/// Returns the parts with these ends.
fn parts_from(alloc: Global, borders: &[Border]) -> Result<Vec<Part>, AllocError>
    ensures { IfOk result (λ parts. parts.items ≡ parts_from 0 borders.now) }
{
    let mut parts = Vec::new(alloc);
    let mut from = 0;
    for border in borders {
        add_part(&mut parts, border.kind, from, border.end)?;
        from = border.end;
    }
    Ok(parts)
}

/// Returns the data of a file without its SAUCE record.
fn body_span(bytes: &[u8]) -> Span
    ensures span { result ≡ body_span bytes.now }
    ensures order { result.begin ≤ result.end }
    ensures within { result.end ≤ (data_of bytes.now).end }
    ensures file { (data_of bytes.now).end ≤ length bytes.now }
{
    let data = data_of(bytes);
    Span {
        begin: data.begin,
        end: data.begin + before_sauce(&bytes[data.begin..data.end]),
    }
}

/// Returns where a page is that has this place.
fn mending_at(
    alloc: Global,
    bytes: &[u8],
    body: Span,
    coded: Coded,
    place: Place,
) -> Result<Mended, AllocError>
    requires body { body ≡ body_span bytes.now }
    requires coded { coded ≡ bits_in bytes.now }
    requires file { body.end ≤ length bytes.now }
    requires order { coded.begin ≤ coded.end }
    requires inside { body.begin + coded.end ≤ body.end }
    requires page { place.begin ≤ place.end }
    requires within { coded.begin + place.end ≤ coded.end }
    ensures mending { IfOk result (λ found. mending_in found ≡ mending_at bytes.now place) }
{
    let begin = body.begin + coded.begin;
    let parts = parts_from(
        alloc,
        &[
            part_end(PartKind::Container, body.begin),
            part_end(lead_kind(&bytes[body.begin..body.end]), begin),
            part_end(place.before, begin + place.begin),
            part_end(PartKind::Page, begin + place.end),
            part_end(place.after, body.begin + coded.end),
            part_end(PartKind::Fill, body.end),
            part_end(PartKind::Sauce, data_of(bytes).end),
            part_end(PartKind::Container, bytes.len()),
        ],
    )?;
    Ok(Mended {
        grade: place.grade,
        bits: coded.bits,
        begin: begin + place.begin,
        end: begin + place.end,
        parts,
    })
}

/// Returns where the page is in a file, if it has something around it and a rule finds it. Of bytes that are accepted as
/// they are it returns nothing.
#[tactic(auto, unfolding(crate::specs::Mending::mended_of))]
pub fn mend(alloc: Global, bytes: &[u8]) -> Result<Option<Mended>, AllocError>
    requires { length bytes.now < 2 ^ 63 }
    ensures found { IfOk result (λ found. option_map mending_in found ≡ mended_of bytes.now) }
    ensures page { IfOk result (λ found. IfSome found (λ m. is_whole_page (copy_of bytes.now m) ≡ true)) }
    ensures covers { IfOk result (λ found. IfSome found (λ m. Covers 0 (length bytes.now) m.parts.items)) }
{
    if is_stream(alloc, bytes)? {
        return Ok(None);
    }
    let body = body_span(bytes);
    let coded = coded_of(&bytes[body.begin..body.end]);
    let begin = body.begin + coded.begin;
    let plain = without_bits(alloc, coded.bits, &bytes[begin..body.begin + coded.end])?;
    match place_of(alloc, coded.bits, plain.as_slice())? {
        Some(place) => {
            let found = mending_at(alloc, bytes, body, coded, place)?;
            Ok(Some(found))
        }
        None => Ok(None),
    }
}
