//! The line of each entry of a display list, as `list` prints it (PROFILE.md, Lines of list).
#![tactic(auto)]

mod backward_buffer;
mod batch;
mod block;
mod field;
mod line;
mod line_sink;
mod printer;

pub use line::{append_line, line_of};
pub use line_sink::LineSink;
pub use printer::{LINE_MEMORY, LinePrinter};
