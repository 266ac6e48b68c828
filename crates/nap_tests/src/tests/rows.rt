//! Tables as text. A row is a line, and its last field is what is wanted.
use std::alloc::Global;

/// Splits a row into its subject and what is wanted.
pub fn parted(row: &str) -> (&str, &str) {
    row.split_once(" | ").unwrap_or((row, ""))
}

/// Returns the bytes that hexadecimal digits spell.
pub fn bytes_of(alloc: Global, digits: &str) -> Vec<u8> {
    hex::decode(alloc, digits.as_bytes()).unwrap_or(Vec::new(alloc))
}
