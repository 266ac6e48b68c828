//! Where a page can begin.
ghost use Rattle.std.specs.Prelude.{◌≡◌, ◌-◌, ◌≤◌, ◌<◌, IfSome, max, length, get_or};
ghost use Rattle.nap_find.specs.Beginnings.{begins, begins_anew, begins_with, defines, goes_on, is_opener, is_within};
ghost use Rattle.nap_find.specs.Ends.{retry_from};
ghost use Rattle.nap_find.specs.Searching.{first_from, last_few};
ghost use Rattle.nap_find.specs.Verdicts.{next_beginning, passed_over};

/// The number of readings that begin before a refused byte and are tried, the first of them included.
pub(crate) const MOST_READINGS: usize = 16;

/// Whether a byte is CS, SO or ESC.
pub(crate) fn is_opener(byte: u8) -> bool
    ensures { result ≡ is_opener byte }
{
    byte == 0x0C || byte == 0x0E || byte == 0x1B
}

/// Whether a byte is from the first to before the last.
fn is_within(first: u8, last: u8, byte: u8) -> bool
    ensures { result ≡ is_within first last byte }
{
    byte >= first && byte < last
}

/// Returns the byte at an index, or 0 past the end.
fn byte_at(bytes: &[u8], at: usize) -> u8
    ensures { result ≡ get_or bytes.now at 0 }
{
    if at < bytes.len() { bytes[at] } else { 0 }
}

/// Whether two bytes after ESC begin a definition.
fn defines(code: u8, name: u8) -> bool
    ensures { result ≡ defines code name }
{
    ((code == 0x40 || code == 0x41 || code == 0x43) && is_within(0x20, 0x80, name))
        || (code == 0x44 && is_within(0x41, 0x45, name))
}

/// Whether a page can begin with these bytes.
fn begins_with(first: u8, second: u8, third: u8) -> bool
    ensures { result ≡ begins_with first second third }
{
    first == 0x0C
        || (first == 0x0E && is_within(0x20, 0x40, second))
        || (first == 0x1B && defines(second, third))
}

/// Whether a page can begin at this index.
pub(crate) fn begins(bytes: &[u8], at: usize) -> bool
    requires { at ≤ length bytes.now }
    ensures { result ≡ begins bytes.now at }
{
    begins_with(
        byte_at(bytes, at),
        byte_at(bytes, at.saturating_add(1)),
        byte_at(bytes, at.saturating_add(2)),
    )
}

/// Whether a page begins anew at this index.
pub(crate) fn begins_anew(bytes: &[u8], at: usize) -> bool
    requires { at ≤ length bytes.now }
    ensures { result ≡ begins_anew bytes.now at }
{
    byte_at(bytes, at) == 0x0C
        || (byte_at(bytes, at) == 0x0E
            && is_within(0x20, 0x22, byte_at(bytes, at.saturating_add(1))))
}

/// Whether a beginning at this index only goes on with another.
pub(crate) fn goes_on(bytes: &[u8], at: usize) -> bool
    ensures { result ≡ goes_on bytes.now at }
{
    byte_at(bytes, at.saturating_sub(1)) == 0x0C
        || (byte_at(bytes, at.saturating_sub(3)) == 0x0E
            && byte_at(bytes, at.saturating_sub(2)) == 0x21)
}

/// Returns the next index at which a page can begin.
pub(crate) fn next_beginning(bytes: &[u8], from: usize) -> Option<usize>
    ensures found { result ≡ next_beginning bytes.now from }
    ensures within { IfSome result (λ at. at < length bytes.now) }
{
    for at in from..bytes.len() {
        if begins(bytes, at) {
            return Some(at);
        }
    }
    None
}

/// Returns the first of at most `most` last beginnings before an index, or of what is after earlier ones.
pub(crate) fn last_beginnings(bytes: &[u8], reach: usize, most: usize) -> usize
    requires { reach ≤ length bytes.now }
    ensures place { result ≡ last_few (begins bytes.now) most 1 (reach - 1) }
    ensures least { 1 ≤ result }
    ensures most { result ≤ max 1 reach }
{
    let mut left = most;
    let mut count = reach.saturating_sub(1);
    while count > 0 {
        if begins(bytes, count) {
            if left == 0 {
                return count + 1;
            }
            left -= 1;
        }
        count -= 1;
    }
    1
}

/// Returns the first of the last beginnings before an index.
pub(crate) fn retry_from(bytes: &[u8], reach: usize) -> usize
    requires { reach ≤ length bytes.now }
    ensures place { result ≡ retry_from bytes.now reach }
    ensures least { 1 ≤ result }
    ensures most { result ≤ max 1 reach }
{
    last_beginnings(bytes, reach, MOST_READINGS - 1)
}

/// Returns the number of beginnings that are passed over.
pub(crate) fn passed_over(bytes: &[u8], reach: usize) -> usize
    requires { reach ≤ length bytes.now }
    ensures { result ≡ passed_over bytes.now reach }
{
    let mut count = 0;
    let end = retry_from(bytes, reach);
    for at in 1..end {
        if begins(bytes, at) {
            count += 1;
        }
    }
    count
}
