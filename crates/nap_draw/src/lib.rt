//! The rules of opcodes, characters and controls: which entries each adds, and the work after it (PROFILE.md, Opcodes,
//! and Characters and controls).
#![tactic(auto)]

mod controls;
mod copied;
mod counted;
mod fault;
mod figures;
pub mod laws;
mod operands;
mod points;
mod scratch;
mod settings;
mod times;
mod work;

pub use copied::{apply, control, text};
pub use fault::DrawFault;
pub use work::{Effects, RUN_LIMIT, Work};
