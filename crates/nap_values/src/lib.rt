//! Points, displacements, colours and addresses, and the words that spell them (PROFILE.md, Operands).
#![tactic(auto)]

mod colours;
mod domain;
pub mod laws;
mod operand;
mod packed;
mod point;
mod walk;
mod word;

pub use colours::{Addr, Grb};
pub use domain::Domain;
pub use operand::{
    begins_inside, colour, colour_bytes, multi, multi_bytes, multi_first_three, put_addr, put_grb,
    put_move, put_point, single, single_bytes,
};
pub use point::{Move, Point};
pub use walk::{CoarseWalk, MovingPoint};
pub use word::Word;
