//! The body of a macro that is being defined.
ghost use Rattle.std.specs.Prelude.{◌≡◌};
ghost use Rattle.std.specs.List.{prefix_len};
ghost use Rattle.nap_reader.specs.Prefix.{is_of_body};
ghost use Rattle.nap_reader.specs.Bodies as bodies;

/// A macro body that isn't ended (PROFILE.md, Macros).
#[derive(Clone, Copy, Drop)]
pub(crate) struct OpenBody {
    /// The name of the macro.
    pub(crate) name: u8,
    /// Whether the body is presented as soon as it is defined (DEFP MACRO).
    pub(crate) show: bool,
    /// The place of an ESC that may belong to the body, which the next byte decides.
    pub(crate) escape: Option<u64>,
}

/// Whether a byte after ESC ends a body.
pub(crate) fn ends_body(byte: u8) -> bool
    ensures { result ≡ bodies.ends_body byte }
{
    byte >= 0x40 && byte <= 0x45
}

/// Returns how many bytes at the beginning are neither ESC nor above `7F`.
pub(crate) fn body_prefix_len(bytes: &[u8]) -> usize
    ensures { result ≡ prefix_len is_of_body bytes.now }
{
    let mut count = 0;
    while count < bytes.len() && is_of_body(bytes[count]) {
        count += 1;
    }
    count
}

/// Whether a byte is neither ESC nor above `7F`.
fn is_of_body(byte: u8) -> bool
    ensures { result ≡ is_of_body byte }
{
    byte != 0x1B && byte < 0x80
}
