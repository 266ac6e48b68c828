//! The controls of the C0 and C1 sets, and the arguments of those that take one.
ghost use Rattle.std.specs.Prelude.{◌≡◌};
ghost use Rattle.nap_codes.specs.Front.{argument_of, with_argument};
ghost use Rattle.nap_codes.specs.Tables.{control0_rows, control1_rows, format_effector, is_fill, row_of};

use crate::code::Code;
use crate::opcode::Left;
use nap_values::Word;

/// A format effector: a move of the active position of text (PROFILE.md, The C0 set).
#[derive(Clone, Copy, PartialEq, Eq, Debug, Drop)]
pub enum TextStep {
    /// Active position backward.
    Apb,
    /// Active position forward.
    Apf,
    /// Active position down.
    Apd,
    /// Active position up.
    Apu,
    /// Active position return.
    Apr,
    /// Active position home.
    Aph,
    /// Active position set, with its two bytes, each from `20` to `7F`.
    Aps(u8, u8),
}

/// A named character size (PROFILE.md, The C1 set).
#[derive(Clone, Copy, PartialEq, Eq, Debug, Drop)]
pub enum Size {
    /// SMALL TEXT.
    Small,
    /// MED TEXT.
    Medium,
    /// NORMAL TEXT, the size at the start of a stream.
    Normal,
    /// DOUBLE HEIGHT.
    Tall,
    /// DOUBLE SIZE.
    Double,
}

/// A texture mask that a stream can define (PROFILE.md, The C1 set).
#[derive(Clone, Copy, PartialEq, Eq, Debug, Drop)]
pub enum Mask {
    /// Mask A, argument `41`.
    A,
    /// Mask B, argument `42`.
    B,
    /// Mask C, argument `43`.
    C,
    /// Mask D, argument `44`.
    D,
}

/// The state of the cursor (PROFILE.md, The C1 set).
#[derive(Clone, Copy, PartialEq, Eq, Debug, Drop)]
pub enum CursorKind {
    /// Visible and flashing.
    Flash,
    /// Visible and steady.
    Steady,
    /// Not visible.
    Off,
}

/// What the argument of a control of the C1 set means.
#[derive(Clone, Copy, PartialEq, Eq, Drop)]
pub(crate) enum Argument {
    /// The name of a macro (DEF MACRO).
    Macro,
    /// The name of a macro that is presented as soon as it is defined (DEFP MACRO).
    ShownMacro,
    /// The code of a character (DEF DRCS).
    Glyph,
    /// The mask that is defined (DEF TEXTURE).
    Mask,
    /// The number of repetitions (REPEAT).
    Count,
}

/// A row of the tables of controls (PROFILE.md, The C0 set and The C1 set).
#[derive(Clone, Copy, PartialEq, Eq, Drop)]
pub enum Row {
    /// The byte is a complete code.
    Whole(Code),
    /// The code has further bytes.
    More,
    /// The profile leaves the code out by name.
    Out(Left),
}

impl Argument {
    /// Returns the meaning of the argument of a control that takes one.
    #[tactic(auto, unfolding(crate::specs::Front::argument_of))]
    pub(crate) fn of(control: u8) -> Argument
        ensures { result ≡ argument_of control }
    {
        match control {
            0x40 => Argument::Macro,
            0x41 => Argument::ShownMacro,
            0x43 => Argument::Glyph,
            0x44 => Argument::Mask,
            _ => Argument::Count,
        }
    }

    /// Returns the code with this argument byte, or `None` if it is outside its range.
    #[tactic(auto, unfolding(crate::specs::Front::with_argument, crate::specs::Tables::row_of, crate::specs::Tables::mask_rows))]
    pub(crate) fn code(self, byte: u8) -> Option<Code>
        ensures { result ≡ with_argument self byte }
    {
        match (self, byte) {
            (Argument::Macro | Argument::ShownMacro, 0x20..=0x7F) => Some(Code::DefMacro {
                name: byte,
                show: self == Argument::ShownMacro,
            }),
            (Argument::Glyph, 0x20..=0x7F) => Some(Code::DefGlyph(byte)),
            (Argument::Mask, 0x41) => Some(Code::DefMask(Mask::A)),
            (Argument::Mask, 0x42) => Some(Code::DefMask(Mask::B)),
            (Argument::Mask, 0x43) => Some(Code::DefMask(Mask::C)),
            (Argument::Mask, 0x44) => Some(Code::DefMask(Mask::D)),
            (Argument::Count, 0x40..=0x7F) => Word::try_new(byte - 0x40).map(Code::Repeat),
            _ => None,
        }
    }
}

/// Returns the row of the C0 set for a byte, or `None` from `20` on (PROFILE.md, The C0 set).
#[tactic(auto, unfolding(crate::specs::Tables::row_of, crate::specs::Tables::control0_rows))]
pub fn control0(byte: u8) -> Option<Row>
    ensures { result ≡ row_of control0_rows byte }
{
    let row = match byte {
        0x00..=0x06 | 0x10..=0x17 => Row::Whole(Code::Fill),
        0x07 => Row::Whole(Code::Bell),
        0x08 => Row::Whole(Code::Step(TextStep::Apb)),
        0x09 => Row::Whole(Code::Step(TextStep::Apf)),
        0x0A => Row::Whole(Code::Step(TextStep::Apd)),
        0x0B => Row::Whole(Code::Step(TextStep::Apu)),
        0x0C => Row::Whole(Code::Clear),
        0x0D => Row::Whole(Code::Step(TextStep::Apr)),
        0x0E | 0x0F => Row::Whole(Code::Shifted),
        0x18 => Row::Out(Left::Can),
        0x1A => Row::Out(Left::Sdc),
        0x19 | 0x1B..=0x1D => Row::More,
        0x1E => Row::Whole(Code::Step(TextStep::Aph)),
        0x1F => Row::Out(Left::Nsr),
        _ => return None,
    };
    Some(row)
}

/// Returns the format effector that a single byte is (PROFILE.md, The C0 set). APS isn't one: it has two further bytes.
#[inline]
pub fn format_effector(byte: u8) -> Option<TextStep>
    ensures { result ≡ format_effector byte }
{
    match control0(byte) {
        Some(Row::Whole(Code::Step(step))) => Some(step),
        _ => None,
    }
}

/// Whether a byte is a control of the C0 set that is a complete code without effect (PROFILE.md, The C0 set).
#[inline]
pub fn is_fill(byte: u8) -> bool
    ensures { result ≡ is_fill byte }
{
    matches!(control0(byte), Some(Row::Whole(Code::Fill)))
}

/// Returns the row of the C1 set for the byte after ESC, or `None` outside `40` to `5F` (PROFILE.md, The C1 set).
#[tactic(auto, unfolding(crate::specs::Tables::row_of, crate::specs::Tables::control1_rows))]
#[inline(always)]
pub fn control1(byte: u8) -> Option<Row>
    ensures { result ≡ row_of control1_rows byte }
{
    let row = match byte {
        0x40 | 0x41 | 0x43 | 0x44 | 0x46 => Row::More,
        0x42 => Row::Out(Left::Deft),
        0x45 => Row::Whole(Code::End),
        0x47 => Row::Whole(Code::ToEol),
        0x48 => Row::Whole(Code::Reverse(true)),
        0x49 => Row::Whole(Code::Reverse(false)),
        0x4A => Row::Whole(Code::Named(Size::Small)),
        0x4B => Row::Whole(Code::Named(Size::Medium)),
        0x4C => Row::Whole(Code::Named(Size::Normal)),
        0x4D => Row::Whole(Code::Named(Size::Tall)),
        0x4E => Row::Whole(Code::BlinkMark(true)),
        0x4F => Row::Whole(Code::Named(Size::Double)),
        0x50 => Row::Whole(Code::Fill),
        0x51 => Row::Out(Left::Edc1),
        0x52 => Row::Out(Left::Edc2),
        0x53 => Row::Out(Left::Edc3),
        0x54 => Row::Out(Left::Edc4),
        0x55 => Row::Whole(Code::Wrap(true)),
        0x56 => Row::Whole(Code::Wrap(false)),
        0x57 => Row::Whole(Code::Scroll(true)),
        0x58 => Row::Whole(Code::Scroll(false)),
        0x59 => Row::Whole(Code::Underline(true)),
        0x5A => Row::Whole(Code::Underline(false)),
        0x5B => Row::Whole(Code::Cursor(CursorKind::Flash)),
        0x5C => Row::Whole(Code::Cursor(CursorKind::Steady)),
        0x5D => Row::Whole(Code::Cursor(CursorKind::Off)),
        0x5E => Row::Whole(Code::BlinkMark(false)),
        0x5F => Row::Out(Left::Unprotect),
        _ => return None,
    };
    Some(row)
}
