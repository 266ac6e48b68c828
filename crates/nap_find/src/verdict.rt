//! What is decided about a beginning.
ghost use Rattle.std.specs.Prelude.{◌≡◌, ◌≤◌, IfOk, length};
ghost use Rattle.nap_find.specs.Readings.{IsTried};
ghost use Rattle.nap_find.specs.Verdicts.{IsWithinBytes, lacks_bytes, verdict, verdict_at};

use crate::end::page_end_of;
use crate::find::Asked;
use crate::reading::{Extent, IDLE_LIMIT, extent_of};
use std::alloc::{AllocError, Global};

/// What is decided about a beginning.
#[derive(Clone, Copy, Drop)]
pub(crate) enum Verdict {
    /// It is a page of this many bytes.
    Page(usize),
    /// It isn't a page, and this many bytes were read.
    None(usize),
    /// More bytes decide.
    Waits,
}

/// Returns the verdict about bytes of which the first `reach` are read.
fn verdict_at(
    alloc: Global,
    asked: &Asked,
    more: bool,
    bytes: &[u8],
    reach: usize,
) -> Result<Verdict, AllocError>
    requires { reach ≤ length bytes.now }
    ensures verdict { IfOk result (λ found. found ≡ verdict_at asked.now more bytes.now reach) }
    ensures within { IfOk result (λ found. IsWithinBytes (length bytes.now) found) }
{
    if more && reach == bytes.len() {
        return Ok(Verdict::Waits);
    }
    if reach < asked.bytes {
        return Ok(Verdict::None(reach));
    }
    match page_end_of(alloc, asked, bytes, reach)? {
        Some(end) => Ok(Verdict::Page(end)),
        None => Ok(Verdict::None(reach)),
    }
}

/// Whether there are fewer bytes than a page has, and no more follow.
fn lacks_bytes(more: bool, count: usize, least: usize) -> bool
    ensures { result ≡ lacks_bytes more count least }
{
    !more && count < least
}

/// Returns the verdict about bytes that are all read.
fn verdict_whole(
    alloc: Global,
    asked: &Asked,
    more: bool,
    bytes: &[u8],
    tried: Option<bool>,
) -> Result<Verdict, AllocError>
    requires { IsTried asked.now bytes.now tried }
    ensures verdict { IfOk result (λ found. found ≡ verdict_at asked.now more bytes.now (length bytes.now)) }
    ensures within { IfOk result (λ found. IsWithinBytes (length bytes.now) found) }
{
    if more {
        return Ok(Verdict::Waits);
    }
    match tried {
        Some(true) => Ok(Verdict::Page(bytes.len())),
        Some(false) => Ok(Verdict::None(bytes.len())),
        None => verdict_at(alloc, asked, more, bytes, bytes.len()),
    }
}

/// Returns the verdict about the bytes from a beginning on.
#[tactic(auto, unfolding(crate::specs::Verdicts::verdict))]
pub(crate) fn verdict_on(
    alloc: Global,
    asked: &Asked,
    more: bool,
    bytes: &[u8],
) -> Result<Verdict, AllocError>
    ensures verdict { IfOk result (λ found. found ≡ verdict asked.now more bytes.now) }
    ensures within { IfOk result (λ found. IsWithinBytes (length bytes.now) found) }
{
    if lacks_bytes(more, bytes.len(), asked.bytes) {
        return Ok(Verdict::None(0));
    }
    match extent_of(alloc, asked, bytes)? {
        Extent::Idle => Ok(Verdict::None(IDLE_LIMIT)),
        Extent::Refused(reach) => verdict_at(alloc, asked, more, bytes, reach),
        Extent::Whole(tried) => verdict_whole(alloc, asked, more, bytes, tried),
    }
}
