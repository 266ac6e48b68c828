//! Where the page is in bytes without eighth bits.
ghost use Rattle.std.specs.Prelude.{◌≡◌, ◌≤◌, ◌<◌, ◌^◌, IfOk, IfSome, IsTrue, length, true};
ghost use Rattle.nap_find.specs.Beginnings.{is_opener};
ghost use Rattle.nap_find.specs.Rows.{finds_of};
ghost use Rattle.nap_mend.specs.Codes.{content_of};
ghost use Rattle.nap_mend.specs.Sets.{bytes_in};
ghost use Rattle.nap_mend.specs.Pages.{asked, content_place, find_place, is_around, is_content, is_whole_page, opens, lead_kind, only_of, place_by_find, place_of, span_of};

use crate::bits::Bits;
use crate::codes::{content_of, lead_of};
use crate::header::is_header;
use crate::mended::PartKind;
use crate::reading::is_whole_page;
use crate::sets::{ByteSet, Span, byte_at, first_in, has_none};
use nap_find::laws::finds_are_pages;
use nap_find::{Asked, find_all};
use std::alloc::{AllocError, Global};

/// How sure it is that the page is the one that was stored (MENDING.md, Grades).
#[derive(Clone, Copy, PartialEq, Eq, Debug, Drop)]
pub enum Grade {
    /// By a closed rule: nothing that was cut acts.
    Around,
    /// A guess: the page is the only find.
    Alone,
}

/// Where a page is, and what is around it.
#[derive(Clone, Copy, Drop)]
pub(crate) struct Place {
    /// How sure it is.
    pub(crate) grade: Grade,
    /// What is before the page.
    pub(crate) before: PartKind,
    /// The index of its first byte.
    pub(crate) begin: usize,
    /// The index after its last byte.
    pub(crate) end: usize,
    /// What is after the page.
    pub(crate) after: PartKind,
}

/// Returns what leads before the content.
pub(crate) fn lead_kind(bytes: &[u8]) -> PartKind
    ensures { result ≡ lead_kind bytes.now }
{
    if lead_of(bytes).codes {
        PartKind::Code
    } else {
        PartKind::Fill
    }
}

/// Whether a byte is CS, SO or ESC.
fn is_opener(byte: u8) -> bool
    ensures { result ≡ is_opener byte }
{
    byte == 0x0C || byte == 0x0E || byte == 0x1B
}

/// Whether the first control is CS, SO or ESC.
fn opens(bytes: &[u8]) -> bool
    ensures { result ≡ opens bytes.now }
{
    match first_in(ByteSet::Controls, bytes, 0) {
        Some(at) => is_opener(byte_at(bytes, at)),
        None => false,
    }
}

/// Whether bytes are the page, if they are what is left of the content.
fn is_content(alloc: Global, bits: Bits, bytes: &[u8]) -> Result<bool, AllocError>
    ensures value { IfOk result (λ found. found ≡ is_content bits bytes.now) }
    ensures page { IfOk result (λ found. IsTrue found → is_whole_page bytes.now ≡ true) }
{
    match bits {
        Bits::None => is_whole_page(alloc, bytes),
        _ => {
            if opens(bytes) {
                is_whole_page(alloc, bytes)
            } else {
                Ok(false)
            }
        }
    }
}

/// Whether what is around a find isn't of the page.
fn is_around(bytes: &[u8], find: Span) -> bool
    requires order { find.begin ≤ find.end }
    requires within { find.end ≤ length bytes.now }
    ensures { result ≡ is_around bytes.now find }
{
    is_header(&bytes[..find.begin], byte_at(bytes, find.begin))
        && has_none(ByteSet::NotFill, &bytes[find.end..])
}

/// Returns the place of a find.
fn find_place(bytes: &[u8], find: Span) -> Place
    requires order { find.begin ≤ find.end }
    requires within { find.end ≤ length bytes.now }
    ensures { result ≡ find_place bytes.now find }
{
    let (grade, after) = if is_around(bytes, find) {
        (Grade::Around, PartKind::Fill)
    } else {
        (Grade::Alone, PartKind::Rest)
    };
    Place {
        grade,
        before: PartKind::Header,
        begin: find.begin,
        end: find.end,
        after,
    }
}

/// Returns the only find, if there is one.
fn only_find(alloc: Global, bytes: &[u8]) -> Result<Option<Span>, AllocError>
    requires { length bytes.now < 2 ^ 63 }
    ensures found { IfOk result (λ found. found ≡ only_of (finds_of asked bytes.now)) }
    ensures order { IfOk result (λ found. IfSome found (λ span. span.begin ≤ span.end)) }
    ensures within { IfOk result (λ found. IfSome found (λ span. span.end ≤ length bytes.now)) }
{
    let asked = Asked {
        bytes: 4,
        entries: 1,
        shapes: 1,
    };
    finds_are_pages();
    let found = find_all(alloc, asked, bytes)?;
    if found.finds.len() == 1 {
        let find = found.finds[0];
        Ok(Some(Span {
            begin: find.begin as usize,
            end: find.end as usize,
        }))
    } else {
        Ok(None)
    }
}

/// Returns where the page is in bytes without eighth bits.
#[tactic(auto, unfolding(crate::specs::Pages::place_of))]
pub(crate) fn place_of(alloc: Global, bits: Bits, bytes: &[u8]) -> Result<Option<Place>, AllocError>
    requires { length bytes.now < 2 ^ 63 }
    ensures found { IfOk result (λ found. found ≡ place_of bits bytes.now) }
    ensures order { IfOk result (λ found. IfSome found (λ place. place.begin ≤ place.end)) }
    ensures within { IfOk result (λ found. IfSome found (λ place. place.end ≤ length bytes.now)) }
    ensures page { IfOk result (λ found. IfSome found (λ place. is_whole_page (bytes_in (span_of place) bytes.now) ≡ true)) }
{
    let content = content_of(bytes);
    if is_content(alloc, bits, &bytes[content.begin..content.end])? {
        return Ok(Some(Place {
            grade: Grade::Around,
            before: lead_kind(bytes),
            begin: content.begin,
            end: content.end,
            after: PartKind::Fill,
        }));
    }
    match only_find(alloc, bytes)? {
        Some(find) => {
            if is_whole_page(alloc, &bytes[find.begin..find.end])? {
                Ok(Some(find_place(bytes, find)))
            } else {
                Ok(None)
            }
        }
        None => Ok(None),
    }
}
