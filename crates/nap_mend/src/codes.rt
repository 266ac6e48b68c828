//! Codes and fills before a page and after it.
ghost use Rattle.std.specs.Prelude.{◌≡◌, ◌≤◌, ◌<◌, ◌+◌, ◌-◌, IsTrue, length};
ghost use Rattle.nap_mend.specs.Codes.{announcer_by, announcer_length, code_length, content_begin, content_end, content_of, has_place, is_placed, is_placing, lead_length, lead_of, lead_within, no_lead, placed_lead, with_lead};

use crate::sets::{ByteSet, Span, before_run, byte_at, first_in, is_in, is_within};

/// What leads before a page.
#[derive(Clone, Copy, Drop)]
pub(crate) struct Lead {
    /// The number of its bytes.
    pub(crate) end: usize,
    /// Whether NSR with a place is among it.
    pub(crate) placed: bool,
    /// Whether a code is among it.
    pub(crate) codes: bool,
}

impl Lead {
    ghost use Rattle.nap_mend.specs.Codes.{no_lead};

    /// Returns nothing that leads.
    fn none() -> Lead
        ensures { result ≡ no_lead }
    {
        Lead {
            end: 0,
            placed: false,
            codes: false,
        }
    }
}

/// Whether the place of NSR follows.
fn has_place(bytes: &[u8]) -> bool
    ensures value { result ≡ has_place bytes.now }
    ensures some { IsTrue result → 3 ≤ length bytes.now }
{
    is_within(0x40, 0x80, byte_at(bytes, 1)) && is_within(0x40, 0x80, byte_at(bytes, 2))
}

/// Returns the number of bytes of an announcer, or 0.
fn announcer_length(bytes: &[u8]) -> usize
    ensures value { result ≡ announcer_length bytes.now }
    ensures within { result ≤ length bytes.now }
{
    if !is_within(0x20, 0x28, byte_at(bytes, 1)) {
        return 0;
    }
    match first_in(ByteSet::NotIntermediate, bytes, 2) {
        Some(at) => {
            if is_within(0x30, 0x7F, byte_at(bytes, at)) {
                at + 1
            } else {
                0
            }
        }
        None => 0,
    }
}

/// Returns the number of bytes of CAN, of NSR with its place or of an announcer, or 0.
fn code_length(bytes: &[u8]) -> usize
    requires { 0 < length bytes.now }
    ensures value { result ≡ code_length bytes.now }
    ensures within { result ≤ length bytes.now }
{
    match bytes[0] {
        0x18 => 1,
        0x1F => { if has_place(bytes) { 3 } else { 1 } }
        0x1B => announcer_length(bytes),
        _ => 0,
    }
}

/// Returns the number of bytes of such a code or of a fill, or 0.
pub(crate) fn lead_length(bytes: &[u8]) -> usize
    ensures value { result ≡ lead_length bytes.now }
    ensures within { result ≤ length bytes.now }
{
    if bytes.len() == 0 {
        0
    } else if is_in(ByteSet::Fills, bytes[0]) {
        1
    } else {
        code_length(bytes)
    }
}

/// Whether NSR with a place begins there, if this is its length.
pub(crate) fn is_placed(bytes: &[u8], at: usize, count: usize) -> bool
    ensures { result ≡ is_placed bytes.now at count }
{
    count == 3 && byte_at(bytes, at) == 0x1F
}

/// Whether text has a place of the page's own after this code.
pub(crate) fn is_placing(byte: u8) -> bool
    ensures { result ≡ is_placing byte }
{
    byte % 128 == 0x0C || byte % 128 == 0x1C || byte % 128 == 0x1E
}

/// Returns what leads, with one more code or fill.
fn with_lead(bytes: &[u8], lead: Lead, count: usize) -> Lead
    requires { lead.end + count ≤ length bytes.now }
    ensures { result ≡ with_lead bytes.now lead count }
{
    Lead {
        end: lead.end + count,
        placed: lead.placed || is_placed(bytes, lead.end, count),
        codes: lead.codes || !is_in(ByteSet::Fills, byte_at(bytes, lead.end)),
    }
}

/// Returns what leads, wherever text begins after it.
fn any_lead(bytes: &[u8]) -> Lead
    ensures lead { result ≡ lead_within bytes.now (length bytes.now) no_lead }
    ensures within { result.end ≤ length bytes.now }
{
    let mut lead = Lead::none();
    for _ in 0..bytes.len() {
        let count = lead_length(&bytes[lead.end..]);
        if count == 0 {
            return lead;
        }
        lead = with_lead(bytes, lead, count);
    }
    lead
}

/// Returns what leads, if text has a place after it.
fn placed_lead(bytes: &[u8], lead: Lead) -> Lead
    ensures { result ≡ placed_lead bytes.now lead }
{
    if lead.placed && !is_placing(byte_at(bytes, lead.end)) {
        Lead::none()
    } else {
        lead
    }
}

/// Returns the codes and fills that bytes begin with.
pub(crate) fn lead_of(bytes: &[u8]) -> Lead
    ensures lead { result ≡ lead_of bytes.now }
    ensures within { result.end ≤ length bytes.now }
{
    placed_lead(bytes, any_lead(bytes))
}

/// Returns where the content begins.
pub(crate) fn content_begin(bytes: &[u8]) -> usize
    ensures value { result ≡ content_begin bytes.now }
    ensures within { result ≤ length bytes.now }
{
    before_run(ByteSet::Blanks, bytes, lead_of(bytes).end)
}

/// Returns where the content ends.
fn content_end(bytes: &[u8]) -> usize
    ensures value { result ≡ content_end bytes.now }
    ensures within { result ≤ length bytes.now }
{
    let from = before_run(ByteSet::Fills, bytes, bytes.len());
    match first_in(ByteSet::Stops, bytes, from) {
        Some(at) => at,
        None => bytes.len(),
    }
}

/// Returns the bytes without the codes and fills around them.
pub(crate) fn content_of(bytes: &[u8]) -> Span
    ensures span { result ≡ content_of bytes.now }
    ensures order { result.begin ≤ result.end }
    ensures within { result.end ≤ length bytes.now }
{
    let begin = content_begin(bytes);
    Span {
        begin,
        end: begin.max(content_end(bytes)),
    }
}
