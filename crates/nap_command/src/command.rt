//! The commands (PROFILE.md, The command).

use nap_reader::Budget;

/// What a command does with a stream.
#[derive(Clone, Copy, PartialEq, Eq, Drop)]
pub enum Action {
    /// Prints a line for each entry.
    List,
    /// Prints the number of entries.
    Check,
    /// Prints the canonical stream.
    Canon,
}

/// A command with its options.
#[derive(Clone, Copy, PartialEq, Eq, Drop)]
pub struct Command {
    /// What is done with the stream.
    pub action: Action,
    /// Whether streams are hexadecimal text (`--hex`).
    pub hex: bool,
    /// How many bytes of macro bodies may be charged (`--budget`).
    pub budget: Budget,
    /// Whether the canonical stream is printed as the page is read (`--stream`, of `canon` alone).
    pub stream: bool,
}
