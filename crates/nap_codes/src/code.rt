//! The codes of a stream, and the faults of bytes that form none.

use crate::code_set::{CharSet, CodeSet};
use crate::control::{CursorKind, Mask, Size, TextStep};
use crate::opcode::{Left, Opcode};
use nap_values::Word;
use std::fmt;
use thiserror::Error;

/// A complete code of a stream, with its arguments.
#[derive(Clone, Copy, PartialEq, Eq, Debug, Drop)]
pub enum Code {
    /// BEL: the bell.
    Bell,
    /// A format effector: a move of the active position of text (PROFILE.md, The C0 set).
    Step(TextStep),
    /// CS: the screen is cleared.
    Clear,
    /// A code without effect, such as NUL or PROTECT.
    Fill,
    /// A locking shift: a register went into GL (PROFILE.md, Shifts).
    Shifted,
    /// A designation: the set went into the register with this number, 0 to 3 (PROFILE.md, Designations).
    Designated(u8, CodeSet),
    /// A character of a set, given by its byte from `20` to `7F`, both included.
    Char(CharSet, u8),
    /// A call of the macro with this name, from `20` to `7F`.
    Call(u8),
    /// An opcode of the PDI set. Its operand bytes are codes of their own.
    Op(Opcode),
    /// A word of an operand: a byte of the PDI set from `40` to `7F`, less `40`.
    Operand(Word),
    /// DEF MACRO, or DEFP MACRO if `show` is set.
    DefMacro {
        /// The name of the macro, from `20` to `7F`.
        name: u8,
        /// Whether the body is presented as soon as it is defined.
        show: bool,
    },
    /// DEF DRCS, with the code of the character, from `20` to `7F`.
    DefGlyph(u8),
    /// DEF TEXTURE, with the mask that is defined.
    DefMask(Mask),
    /// END: the end of a macro body, or of the definition of a glyph or mask.
    End,
    /// REPEAT, with the number of repetitions: the byte from `40` to `7F`, less `40`.
    Repeat(Word),
    /// REPEAT TO EOL: repetition to the end of the line.
    ToEol,
    /// One of the five named character sizes.
    Named(Size),
    /// REVERSE VIDEO if true, NORMAL VIDEO if false.
    Reverse(bool),
    /// UNDERLINE START if true, UNDERLINE STOP if false.
    Underline(bool),
    /// WORD WRAP ON if true, WORD WRAP OFF if false.
    Wrap(bool),
    /// SCROLL ON if true, SCROLL OFF if false.
    Scroll(bool),
    /// BLINK START if true, BLINK STOP if false.
    BlinkMark(bool),
    /// FLASH CURSOR, STEADY CURSOR or CURSOR OFF.
    Cursor(CursorKind),
}

/// Why bytes don't form a code. These are the refusals 1 to 6 of PROFILE.md, Refusals.
#[derive(Clone, Copy, PartialEq, Eq, Debug, Drop, Error)]
pub enum CodeFault {
    /// A byte from `80` on, at any position.
    EighthBit,
    /// A byte that continues no escape sequence of the profile (PROFILE.md, Where an escape ends).
    BadEscape,
    /// A byte below `20` after a single shift (PROFILE.md, Shifts).
    ShiftAlone,
    /// A code of the PDI set after a single shift, also an opcode that is left out (PROFILE.md, Shifts).
    ShiftedCode,
    /// An argument outside its range: of APS, or of a control of the C1 set.
    BadArgument,
    /// A control or opcode that the profile leaves out by name. Its argument, if the standard gives it one, isn't read.
    LeftOut(Left),
}

impl fmt::Display for CodeFault {
    fn fmt<W: fmt::Write>(&self, f: &mut fmt::Formatter<W>) -> fmt::Result {
        f.write_str(match self {
            CodeFault::EighthBit => "a byte has its eighth bit set",
            CodeFault::BadEscape => "unknown escape sequence",
            CodeFault::ShiftAlone => "a control character follows a single shift",
            CodeFault::ShiftedCode => "a drawing code follows a single shift",
            CodeFault::BadArgument => "an argument is out of range",
            CodeFault::LeftOut(left) => return write!(f, "{left} is not supported"),
        })
    }
}

/// The effect of one byte on a lexer.
#[derive(Clone, Copy, PartialEq, Eq, Debug, Drop)]
pub enum Step {
    /// The code isn't complete yet.
    More,
    /// The byte completed this code.
    Code(Code),
    /// The byte is refused; the lexer is unchanged.
    Fault(CodeFault),
}
