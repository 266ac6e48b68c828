//! The examples in Rattle of docs/LIBRARY.md.
#![tactic(auto)]

pub mod converting;
pub mod extent;
pub mod listing;
#[cfg(test)]
mod tests;
