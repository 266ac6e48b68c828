//! The codes of a stream, and the lexer that finds them (PROFILE.md, Code sets and escapes).
#![tactic(auto)]

mod code;
mod code_set;
mod control;
pub mod laws;
mod lexer;
mod next_code;
mod opcode;

pub use code::{Code, CodeFault, Step};
pub use code_set::{CharSet, CodeSet, CodeSets, GSet, designate};
pub use control::{
    CursorKind, Mask, Row, Size, TextStep, control0, control1, format_effector, is_fill,
};
pub use lexer::Lexer;
pub use next_code::NextCode;
pub use opcode::{FIRST_OPCODE, Left, Opcode, opcode_of};
