//! Reads a stream, in any pieces, into a sink of entries (PROFILE.md, How a stream is read).
#![tactic(auto)]

mod body;
mod budget;
mod counting;
mod fault;
mod feeding;
mod frames;
mod input;
pub mod laws;
mod machine;
mod prefix;
mod reader;
mod store;
mod twice;

pub use budget::Budget;
pub use counting::read_counted;
pub use fault::{Fault, Refusal};
pub use feeding::{FeedFault, ReadFault, feed_from, read_input, read_stream};
pub use nap_draw::RUN_LIMIT;
pub use reader::{Ahead, Reader, Stopped};
pub use store::STORE_LIMIT;
pub use twice::{TwiceFault, read_all, read_twice};
