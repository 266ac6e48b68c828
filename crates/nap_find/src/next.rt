//! Pages that begin among the bytes that another one reads.
ghost use Rattle.std.specs.Prelude.{◌≡◌, ◌+◌, ◌<◌, ◌≤◌, ◌&&◌, IfOk, IfSome, length, not};
ghost use Rattle.nap_find.specs.Beginnings.{begins_anew};
ghost use Rattle.nap_find.specs.Ends.{is_next, next_anew, next_other, next_page};

use crate::beginning::{begins, begins_anew, goes_on, last_beginnings, retry_from};
use crate::find::Asked;
use crate::reading::{is_page, reads_and_draws};
use std::alloc::{AllocError, Global};

/// The number of further bytes in which another page draws a shape.
const DRAW_LIMIT: usize = 1_024;

/// The number of other beginnings before a refused byte at which another page may begin.
const MOST_OTHERS: usize = 7;

/// Whether another page begins at this index.
fn is_next(
    alloc: Global,
    asked: &Asked,
    bytes: &[u8],
    reach: usize,
    at: usize,
) -> Result<bool, AllocError>
    requires follow { reach + asked.now.bytes < length bytes.now }
    requires at { at ≤ reach }
    ensures { IfOk result (λ found. found ≡ is_next asked.now bytes.now reach at) }
{
    if !begins(bytes, at) || goes_on(bytes, at) {
        return Ok(false);
    }
    let goal = reach + asked.bytes;
    let end = bytes.len().min(goal.saturating_add(DRAW_LIMIT));
    if !reads_and_draws(alloc, &bytes[at..end], goal - at)? {
        return Ok(false);
    }
    is_page(alloc, asked, &bytes[..at])
}

/// Whether another page begins anew at this index.
fn is_next_anew(
    alloc: Global,
    asked: &Asked,
    bytes: &[u8],
    reach: usize,
    at: usize,
) -> Result<bool, AllocError>
    requires follow { reach + asked.now.bytes < length bytes.now }
    requires at { at ≤ reach }
    ensures { IfOk result (λ found. found ≡ (begins_anew bytes.now at && is_next asked.now bytes.now reach at)) }
{
    if !begins_anew(bytes, at) {
        return Ok(false);
    }
    is_next(alloc, asked, bytes, reach, at)
}

/// Whether another page begins at this index, but not anew.
fn is_next_other(
    alloc: Global,
    asked: &Asked,
    bytes: &[u8],
    reach: usize,
    at: usize,
) -> Result<bool, AllocError>
    requires follow { reach + asked.now.bytes < length bytes.now }
    requires at { at ≤ reach }
    ensures { IfOk result (λ found. found ≡ (not (begins_anew bytes.now at) && is_next asked.now bytes.now reach at)) }
{
    if begins_anew(bytes, at) {
        return Ok(false);
    }
    is_next(alloc, asked, bytes, reach, at)
}

/// Returns the last beginning anew at which another page begins.
fn next_anew(
    alloc: Global,
    asked: &Asked,
    bytes: &[u8],
    reach: usize,
) -> Result<Option<usize>, AllocError>
    requires { reach + asked.now.bytes < length bytes.now }
    ensures found { IfOk result (λ found. found ≡ next_anew asked.now bytes.now reach) }
    ensures within { IfOk result (λ found. IfSome found (λ at. at ≤ length bytes.now)) }
{
    let last = reach.saturating_sub(1);
    let count = reach.saturating_sub(retry_from(bytes, reach));
    for tried in 0..count {
        let at = last - tried;
        let found = is_next_anew(alloc, asked, bytes, reach, at)?;
        if found {
            return Ok(Some(at));
        }
    }
    Ok(None)
}

/// Returns the first other beginning at which another page begins.
fn next_other(
    alloc: Global,
    asked: &Asked,
    bytes: &[u8],
    reach: usize,
) -> Result<Option<usize>, AllocError>
    requires { reach + asked.now.bytes < length bytes.now }
    ensures found { IfOk result (λ found. found ≡ next_other asked.now bytes.now reach) }
    ensures within { IfOk result (λ found. IfSome found (λ at. at ≤ length bytes.now)) }
{
    for at in last_beginnings(bytes, reach, MOST_OTHERS)..reach {
        let found = is_next_other(alloc, asked, bytes, reach, at)?;
        if found {
            return Ok(Some(at));
        }
    }
    Ok(None)
}

/// Returns where another page begins before the reach.
pub(crate) fn next_page(
    alloc: Global,
    asked: &Asked,
    bytes: &[u8],
    reach: usize,
) -> Result<Option<usize>, AllocError>
    requires { reach ≤ length bytes.now }
    ensures found { IfOk result (λ found. found ≡ next_page asked.now bytes.now reach) }
    ensures within { IfOk result (λ found. IfSome found (λ at. at ≤ length bytes.now)) }
{
    if bytes.len() - reach <= asked.bytes {
        return Ok(None);
    }
    match next_anew(alloc, asked, bytes, reach)? {
        Some(at) => Ok(Some(at)),
        None => next_other(alloc, asked, bytes, reach),
    }
}
