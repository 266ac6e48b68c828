//! Splitting of bytes, and names that they may be.
ghost use Rattle.std.specs.Prelude.{◌≡◌, ◌≢◌, ◌++◌, ◌↔◌, ℕ, List, IsTrue, MatchOption};
ghost use Rattle.nap_make.specs.Cutting.{SplitsAtByte};

/// Returns what is before the first byte of this value, and what is after it.
pub fn split_at_byte(bytes: &[u8], byte: u8) -> Option<(&[u8], &[u8])>
    ensures { MatchOption result ((prefix back : List ℕ) → SplitsAtByte byte bytes.now prefix back → ⊥) (λ parts. SplitsAtByte byte bytes.now parts.0.now parts.1.now) }
{
    let mut at = 0;
    // Two bytes a turn take a third fewer instructions than one.
    while at + 1 < bytes.len() {
        if bytes[at] == byte {
            return Some((&bytes[..at], &bytes[at + 1..]));
        }
        let next = at + 1;
        if bytes[next] == byte {
            return Some((&bytes[..next], &bytes[next + 1..]));
        }
        at = next + 1;
    }
    if at < bytes.len() && bytes[at] == byte {
        return Some((&bytes[..at], &bytes[at + 1..]));
    }
    None
}

/// Returns what follows a prefix.
pub(crate) fn rest_after<'a>(bytes: &'a [u8], prefix: &[u8]) -> Option<&'a [u8]>
    ensures { MatchOption result ((rest : List ℕ) → bytes.now ≢ prefix.now ++ rest) (λ rest. bytes.now ≡ prefix.now ++ rest.now) }
{
    bytes.strip_prefix(prefix)
}

/// Whether the bytes are this text.
pub(crate) fn equals(bytes: &[u8], text: &[u8]) -> bool
    ensures { IsTrue result ↔ (bytes.now ≡ text.now) }
{
    bytes == text
}

/// The value with the name that the bytes are, if it is one of these. (Patterns of bytes take ten times as long to prove.)
macro_rules! named {
    ($bytes:ident, $kind:ident: $($name:literal => $value:ident),*) => {
        match $bytes {
            $(_ if equals($bytes, $name) => Some($kind::$value),)*
            _ => None,
        }
    };
}

pub(crate) use named;
