//! The commands of the program: what each reads, prints and reports, and its exit status (PROFILE.md, The command); and
//! many pages through one process.
#![tactic(auto)]

mod answer;
pub mod batch;
mod command;
mod device;
mod execution;
mod failure;
mod listing;

pub use answer::Verdict;
pub use command::{Action, Command};
pub use device::write_whole;
pub use execution::{execute, execute_make, report};
pub use failure::{FAILURE_LINE_SIZE, Failure, fault_name};
