//! The code at the beginning of bytes.
ghost use Rattle.std.specs.Prelude.{ℕ, ◌≡◌, ◌<◌, List, ◌∷◌, unwrap_or};
ghost use Rattle.nap_codes.specs.declared.code_set.CodeSets.{CodeSets};
ghost use Rattle.nap_codes.specs.Front.{argument_front, escape_front, final_front, front, one_byte_later, position_front, sequence_front, single_shift_front};
ghost use Rattle.nap_codes.specs.NextCodes.{IsNextOf, next_of_code};

use crate::code::Code;
use crate::code_set::{CharSet, CodeSet, CodeSets, GSet, designate};
use crate::control::{Argument, Row, TextStep, control0, control1};

/// A code of several bytes, or a control, by what a reader does with it. Each number is that of its bytes.
#[derive(Clone, Copy, PartialEq, Eq, Drop)]
pub enum NextCode {
    /// A code that adds nothing.
    Nothing(usize),
    /// A code that acts: a control, or a character after a single shift.
    Acts(usize, Code),
    /// A call of the macro with this name.
    Calls(usize, u8),
    /// The beginning of the body of the macro with this name, and whether it is presented as soon as it is defined.
    Defines(usize, u8, bool),
    /// A code of a set, or one that is incomplete or refused.
    Other,
}

/// Consumes the code that begins with a control of the C0 set, if it is complete.
#[inline(always)]
#[tactic(auto, unfolding(crate::specs::Front::front, crate::specs::Front::control0_front, crate::specs::Front::more_front, crate::specs::CodeSets::after_control0))]
pub(crate) fn next_control(sets: &mut CodeSets, control: u8, rest: &[u8]) -> NextCode
    requires { control < 0x20 }
    ensures { IsNextOf (front sets.old (control ∷ rest.now)) sets.old result sets.new }
{
    // The most common one.
    if control == 0x1B {
        return after_escape(sets, rest);
    }
    match control0(control) {
        Some(Row::Whole(code)) => {
            *sets = sets.after_control0(control);
            whole(code, 1)
        }
        Some(Row::More) => match control {
            0x1C => position(rest).unwrap_or(NextCode::Other),
            0x19 => shifted(sets.g2, rest).unwrap_or(NextCode::Other),
            _ => shifted(sets.g3, rest).unwrap_or(NextCode::Other),
        },
        _ => NextCode::Other,
    }
}

/// Returns a complete code of so many bytes, by what a reader does with it.
#[inline(always)]
fn whole(code: Code, count: usize) -> NextCode
    ensures { result ≡ next_of_code code count }
{
    match code {
        Code::Op(_) | Code::Operand(_) => NextCode::Other,
        Code::Fill | Code::Shifted | Code::Designated(_, _) => NextCode::Nothing(count),
        Code::Call(name) => NextCode::Calls(count, name),
        Code::DefMacro { name, show } => NextCode::Defines(count, name, show),
        _ => NextCode::Acts(count, code),
    }
}

/// Returns the code after a single shift of this set.
#[inline(always)]
#[tactic(auto, unfolding(crate::specs::Front::single_shift_front, crate::specs::Front::shifted_front, crate::specs::Front::non_pdi_code, crate::specs::Front::one_byte_later, crate::specs::Front::bad_byte))]
fn shifted(set: CodeSet, rest: &[u8]) -> Option<NextCode>
    ensures { (sets : CodeSets) → IsNextOf (one_byte_later (single_shift_front sets set rest.now)) sets (unwrap_or result NextCode.Other) sets }
{
    let byte = *rest.first()?;
    if byte < 0x20 || byte >= 0x80 {
        return None;
    }
    match set {
        CodeSet::Primary => Some(NextCode::Acts(2, Code::Char(CharSet::Primary, byte))),
        CodeSet::Supplementary => Some(NextCode::Acts(2, Code::Char(CharSet::Supplementary, byte))),
        CodeSet::Mosaic => Some(NextCode::Acts(2, Code::Char(CharSet::Mosaic, byte))),
        CodeSet::Drcs => Some(NextCode::Acts(2, Code::Char(CharSet::Drcs, byte))),
        CodeSet::Macros => Some(NextCode::Calls(2, byte)),
        CodeSet::Pdi => None,
    }
}

/// Returns APS.
#[inline(always)]
#[tactic(auto, unfolding(crate::specs::Front::position_front, crate::specs::Front::column_front, crate::specs::Front::last_byte, crate::specs::Front::one_byte_later, crate::specs::Front::bad_byte))]
fn position(rest: &[u8]) -> Option<NextCode>
    ensures { (sets : CodeSets) → IsNextOf (one_byte_later (position_front sets rest.now)) sets (unwrap_or result NextCode.Other) sets }
{
    let (row, rest) = rest.split_first()?;
    let column = rest.first()?;
    if *row < 0x20 || *row >= 0x80 || *column < 0x20 || *column >= 0x80 {
        return None;
    }
    Some(NextCode::Acts(3, Code::Step(TextStep::Aps(*row, *column))))
}

/// Consumes the code after ESC.
#[inline(always)]
#[tactic(auto, unfolding(crate::specs::Front::escape_front, crate::specs::Front::control1_front, crate::specs::Front::one_byte_later))]
pub(crate) fn after_escape(sets: &mut CodeSets, rest: &[u8]) -> NextCode
    ensures { IsNextOf (one_byte_later (escape_front sets.old rest.now)) sets.old result sets.new }
{
    let Some((byte, rest)) = rest.split_first() else {
        return NextCode::Other;
    };
    match control1(*byte) {
        Some(Row::Whole(code)) => whole(code, 2),
        Some(Row::Out(_)) => NextCode::Other,
        Some(Row::More) => argument(Argument::of(*byte), rest).unwrap_or(NextCode::Other),
        None => sequence(sets, *byte, rest),
    }
}

/// Returns the code of a control with an argument.
#[inline(always)]
#[tactic(auto, unfolding(crate::specs::Front::argument_front, crate::specs::Front::last_byte, crate::specs::Front::one_byte_later, crate::specs::Front::bad_byte))]
fn argument(argument: Argument, rest: &[u8]) -> Option<NextCode>
    ensures { (sets : CodeSets) → IsNextOf (one_byte_later (one_byte_later (argument_front sets argument rest.now))) sets (unwrap_or result NextCode.Other) sets }
{
    let code = argument.code(*rest.first()?)?;
    Some(whole(code, 3))
}

/// Consumes a locking shift or a designation.
#[inline(always)]
#[tactic(auto, unfolding(crate::specs::Front::sequence_front, crate::specs::Front::designation_front, crate::specs::Front::one_byte_later, crate::specs::Front::bad_byte))]
fn sequence(sets: &mut CodeSets, byte: u8, rest: &[u8]) -> NextCode
    ensures { IsNextOf (one_byte_later (sequence_front sets.old byte rest.now)) sets.old result sets.new }
{
    match byte {
        0x6E => {
            *sets = sets.with_gl(GSet::G2);
            NextCode::Nothing(2)
        }
        0x6F => {
            *sets = sets.with_gl(GSet::G3);
            NextCode::Nothing(2)
        }
        0x28..=0x2F => {
            let Some((last, others)) = rest.split_first() else {
                return NextCode::Other;
            };
            if *last == 0x20 {
                return spaced(sets, byte, others);
            }
            designated(sets, byte, *last)
        }
        _ => NextCode::Other,
    }
}

/// Consumes a designation with a byte `20`.
#[inline(never)]
#[tactic(auto, unfolding(crate::specs::Front::final_front, crate::specs::Front::designated_front, crate::specs::Front::one_byte_later, crate::specs::Front::bad_byte))]
fn spaced(sets: &mut CodeSets, intermediate: u8, rest: &[u8]) -> NextCode
    ensures { IsNextOf (one_byte_later (one_byte_later (one_byte_later (final_front sets.old intermediate rest.now)))) sets.old result sets.new }
{
    let Some(last) = rest.first() else {
        return NextCode::Other;
    };
    let Some((number, set)) = designate(intermediate, *last) else {
        return NextCode::Other;
    };
    *sets = sets.with_set(number, set);
    NextCode::Nothing(4)
}

/// Consumes a designation without a byte `20`.
#[inline(never)]
#[tactic(auto, unfolding(crate::specs::Front::final_front, crate::specs::Front::designated_front, crate::specs::Front::one_byte_later, crate::specs::Front::bad_byte))]
fn designated(sets: &mut CodeSets, intermediate: u8, last: u8) -> NextCode
    ensures { (rest : List ℕ) → IsNextOf (one_byte_later (one_byte_later (final_front sets.old intermediate (last ∷ rest)))) sets.old result sets.new }
{
    let Some((number, set)) = designate(intermediate, last) else {
        return NextCode::Other;
    };
    *sets = sets.with_set(number, set);
    NextCode::Nothing(3)
}
