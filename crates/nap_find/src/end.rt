//! Where a page ends.
ghost use Rattle.std.specs.Prelude.{◌≡◌, ◌≤◌, IfOk, IfSome, length};
ghost use Rattle.nap_find.specs.Ends.{IsEndFound, end_before, last_code, own_end, page_end_of};

use crate::find::Asked;
use crate::next::next_page;
use crate::reading::try_page;
use std::alloc::{AllocError, Global};

/// The number of ends that are tried, one before another.
const END_TRIES: usize = 32;

/// An accepted end.
#[derive(Clone, Copy, Drop)]
pub(crate) struct End {
    /// The number of bytes before it.
    pub(crate) at: usize,
    /// Whether these bytes are a page.
    pub(crate) is_page: bool,
}

/// Returns the index of the last code byte before an index, or 0.
fn last_code(bytes: &[u8], reach: usize) -> usize
    requires { reach ≤ length bytes.now }
    ensures found { result ≡ last_code bytes.now reach }
    ensures within { result ≤ reach }
{
    let mut at = reach.saturating_sub(1);
    while at > 0 {
        if bytes[at] < 0x40 {
            return at;
        }
        at -= 1;
    }
    0
}

/// Returns the first accepted end at or before this one.
fn end_before(
    alloc: Global,
    asked: &Asked,
    bytes: &[u8],
    end: usize,
) -> Result<Option<End>, AllocError>
    requires { end ≤ length bytes.now }
    ensures { IfOk result (λ found. IsEndFound asked.now bytes.now (end_before bytes.now end) found) }
{
    for tried in 0..END_TRIES {
        let at = end.saturating_sub(tried);
        if let Some(is_page) = try_page(alloc, asked, &bytes[..at])? {
            return Ok(Some(End { at, is_page }));
        }
    }
    Ok(None)
}

/// Returns the end by the bytes that are read.
fn own_end(
    alloc: Global,
    asked: &Asked,
    bytes: &[u8],
    reach: usize,
) -> Result<Option<End>, AllocError>
    requires { reach ≤ length bytes.now }
    ensures { IfOk result (λ found. IsEndFound asked.now bytes.now (own_end bytes.now reach) found) }
{
    match end_before(alloc, asked, bytes, reach)? {
        Some(end) => Ok(Some(end)),
        None => end_before(alloc, asked, bytes, last_code(bytes, reach)),
    }
}

/// Returns the end of the page that the bytes begin with, if there is one.
#[tactic(auto, unfolding(crate::specs::Ends::page_end_of))]
pub(crate) fn page_end_of(
    alloc: Global,
    asked: &Asked,
    bytes: &[u8],
    reach: usize,
) -> Result<Option<usize>, AllocError>
    requires { reach ≤ length bytes.now }
    ensures found { IfOk result (λ found. found ≡ page_end_of asked.now bytes.now reach) }
    ensures within { IfOk result (λ found. IfSome found (λ e. e ≤ length bytes.now)) }
{
    let own = own_end(alloc, asked, bytes, reach)?;
    let Some(end) = own else {
        return next_page(alloc, asked, bytes, reach);
    };
    if !end.is_page {
        return Ok(None);
    }
    match next_page(alloc, asked, bytes, reach)? {
        Some(at) => Ok(Some(at)),
        None => Ok(Some(end.at)),
    }
}
