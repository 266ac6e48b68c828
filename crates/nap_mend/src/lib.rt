//! Says where the page is in a file that has something around it (MENDING.md).
#![tactic(auto)]

mod bits;
mod codes;
mod file;
mod header;
pub mod laws;
mod mended;
mod page;
mod plain;
mod reading;
mod sets;

pub use bits::Bits;
pub use mended::{Mended, Part, PartKind, mend};
pub use page::Grade;
