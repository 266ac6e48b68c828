//! Tests of what needs more than a row of a stream: values, calls, readers between two pieces, lists that aren't legal,
//! devices and sinks that fail, and refused memory. The writers and sinks are those of nap_rows too.
#![tactic(auto)]

pub mod devices;
pub mod faltering;
#[cfg(test)]
mod tests;
