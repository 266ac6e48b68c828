//! Entries, lists and pages of the lines that `list` prints (PROFILE.md, Lines that make a page).
#![tactic(auto)]

mod attribute;
mod cutting;
mod entry;
mod fault;
mod field;
mod kind;
pub mod laws;
mod lines;
mod number;
mod page;
mod reading;

pub use cutting::split_at_byte;
pub use fault::LineFault;
pub use lines::{ListFault, MakeFault, make_list, put_lines};
pub use number::{DIGITS, numeral};
pub use page::{MadePage, PageFault, make_page, page_of_input, page_of_lines};
pub use reading::entry_of_line;
