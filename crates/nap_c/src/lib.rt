//! The library for C: calls on a page in memory or in pieces (docs/LIBRARY.md).
#![tactic(auto)]

mod answer;
mod call;
mod checking;
mod finds;
pub mod laws;
mod made;
mod pieces;

pub use answer::Answer;
pub use call::{
    naplps_canon, naplps_canon_form1, naplps_check, naplps_is_plain, naplps_list, naplps_places,
};
pub use checking::Checking;
pub use finds::naplps_find;
pub use made::{Made, naplps_make};
pub use pieces::{naplps_check_begin, naplps_check_drop, naplps_check_feed, naplps_check_finish};
