//! Finds pages in any bytes, in one pass (FINDING.md).
#![tactic(auto)]

mod beginning;
mod block;
mod drawn_sink;
mod end;
mod find;
mod finder;
pub mod laws;
mod next;
mod reading;
mod verdict;

pub use find::{Asked, Find, Found};
pub use finder::{BLOCK_LIMIT, Finder, find_all};
