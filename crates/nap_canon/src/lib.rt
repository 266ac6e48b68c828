//! The canonical text of display lists and of streams (PROFILE.md, Canonical text).
#![tactic(auto)]

mod byte_buffer;
mod byte_sink;
mod canon_sink;
mod conversion;
mod current;
pub mod laws;
mod pending;
mod plain;
mod ranges;
mod text;
mod text_end;
mod writer;

pub use canon_sink::CanonSink;
pub use conversion::{ConvertFault, convert, normalise};
pub use plain::is_plain;
pub use text::{CanonFault, PageText, canon, canon_form1, page_text, refusal_of_text};
