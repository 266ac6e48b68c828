//! The lexer, which cuts a stream into codes.
ghost use Rattle.std.specs.Prelude.{ℕ, List, ◌≡◌, ◌↔◌, ◌≤◌, ◌<◌, [], ◌∷◌, Some, IfSome, IsTrue};
ghost use Rattle.nap_codes.specs.CodeSets.{set_at, start_sets};
ghost use Rattle.nap_codes.specs.Front.{argument_front, column_front, byte_fault, final_front, front, gl_front, non_pdi_code, single_shift_front, unfinished, complete};
ghost use Rattle.nap_codes.specs.HalfReadCodes.{IsLastOutcome, half_read_after, IsHalfRead, IsOutcomeOf, half_read_bytes};
ghost use Rattle.nap_codes.specs.Laws.{IsGraphic};
ghost use Rattle.nap_codes.specs.Lexer.{IsCall, IsCharacter, IsFormatEffector, IsOpcode, IsShift, Steps, LexerState};
ghost use Rattle.nap_codes.specs.NextCodes.{IsNext, IsNextAfterEscape};
ghost use Rattle.nap_codes.specs.declared.code.Code.TheVariants as codes;

use crate::code::{Code, CodeFault, Step};
use crate::code_set::{CharSet, CodeSet, CodeSets, GSet, designate};
use crate::control::{Argument, Row, TextStep, control0, control1};
use crate::next_code::{NextCode, after_escape, next_control};
use crate::opcode::{Opcode, opcode_of};
use nap_values::Word;
use std::marker::Model;

/// Cuts a stream into codes, one byte at a time: the code sets and the bytes of an incomplete code (`LexerState`).
#[derive(Clone, Drop)]
pub struct Lexer {
    sets: CodeSets,
    /// The set in GL.
    in_gl: CodeSet,
    half: HalfRead,
}

impl Model for Lexer {
    ghost Value = { LexerState };

    ghost view = { λ l. record { sets = l.sets; half = half_read_bytes l.half } };

    ghost invariant = { λ l. IsHalfRead l.half × (l.in_gl ≡ set_at l.sets l.sets.gl) };
}

/// The bytes read so far of an incomplete code.
#[derive(Clone, Copy, PartialEq, Eq, Drop)]
enum HalfRead {
    /// None.
    Nothing,
    /// ESC.
    Escape,
    /// ESC and a control of the C1 set that takes an argument.
    Control(Argument),
    /// ESC and the intermediate byte of a designation.
    Designation(u8),
    /// ESC, the intermediate byte of a designation, and the byte `20`.
    SpacedDesignation(u8),
    /// SS2.
    SingleShift2,
    /// SS3.
    SingleShift3,
    /// APS.
    Position,
    /// APS and the first of its two bytes.
    PositionRow(u8),
}

/// What the next byte makes of an incomplete code.
#[derive(Clone, Copy, Drop)]
enum ByteOutcome {
    /// The code is still incomplete.
    More(HalfRead),
    /// The code is complete, with the code sets after it.
    Code(Code, CodeSets),
    /// The byte is refused.
    Fault(CodeFault),
}

impl Lexer {
    /// Returns a lexer at the start of a stream.
    pub fn new() -> Lexer
        ensures { result ≡ record { sets = start_sets; half = [] } }
    {
        Lexer {
            sets: CodeSets::start(),
            in_gl: CodeSet::Primary,
            half: HalfRead::Nothing,
        }
    }

    /// Returns the code sets after the codes so far.
    pub fn sets(&self) -> CodeSets
        ensures { result ≡ self.now.sets }
    {
        self.sets
    }

    /// Whether no code is incomplete.
    #[inline]
    pub fn at_rest(&self) -> bool
        ensures rests { IsTrue result ↔ (self.now.half ≡ []) }
        ensures unfinished { front self.now.sets self.now.half ≡ unfinished }
    {
        self.half == HalfRead::Nothing
    }

    /// Returns the set of the character that this byte is, if it is a character in the current state.
    #[inline]
    pub fn char_set_of_byte(&self, byte: u8) -> Option<CharSet>
        ensures { (set : CharSet) → (result ≡ Some set) ↔ IsCharacter self.now byte set }
    {
        if byte < 0x20 || byte >= 0x80 {
            return None;
        }
        self.char_set()
    }

    /// Returns the character set in GL, if the bytes `20` to `7F` are characters in the current state.
    #[inline]
    pub fn char_set(&self) -> Option<CharSet>
        ensures { (set : CharSet) → (result ≡ Some set) ↔ ((byte : ℕ) → IsGraphic byte → IsCharacter self.now byte set) }
    {
        if !self.at_rest() {
            return None;
        }
        self.in_gl.char_set()
    }

    /// Returns the opcode that this byte is in the current state, where no code is incomplete, unless it is left out.
    #[inline]
    pub fn opcode(&self, byte: u8) -> Option<Opcode>
        ensures is { (op : Opcode) → (result ≡ Some op) ↔ IsOpcode self.now byte op }
        ensures front { IfSome result (λ op. front self.now.sets (byte ∷ []) ≡ complete (codes.Op op) 1 self.now.sets) }
    {
        if !self.at_rest() || self.in_gl != CodeSet::Pdi {
            return None;
        }
        if byte < 0x20 || byte >= 0x40 {
            return None;
        }
        let op = opcode_of(byte)?;
        match op.left_out() {
            None => Some(op),
            Some(_) => None,
        }
    }

    /// Whether this byte calls the macro that it names in the current state, where no code is incomplete.
    #[inline]
    pub fn is_call(&self, byte: u8) -> bool
        ensures is { IsTrue result ↔ IsCall self.now byte }
        ensures front { IsTrue result → (rest : List ℕ) → front self.now.sets (byte ∷ rest) ≡ complete (codes.Call byte) 1 self.now.sets }
    {
        self.at_rest() && byte >= 0x20 && byte < 0x80 && self.in_gl == CodeSet::Macros
    }

    /// Returns the format effector of one byte that this byte is in the current state, where no code is incomplete.
    #[inline]
    pub fn format_effector(&self, byte: u8) -> Option<TextStep>
        ensures is { (step : TextStep) → (result ≡ Some step) ↔ IsFormatEffector self.now byte step }
        ensures front { IfSome result (λ step. front self.now.sets (byte ∷ []) ≡ complete (codes.Step step) 1 self.now.sets) }
    {
        match control0(byte) {
            Some(Row::Whole(Code::Step(step))) if self.at_rest() => Some(step),
            _ => None,
        }
    }

    /// Whether this byte is BEL in the current state, where no code is incomplete.
    #[inline]
    pub fn is_bell(&self, byte: u8) -> bool
        ensures is { IsTrue result ↔ (self.now.half ≡ []) × (byte ≡ 0x07) }
        ensures front { IsTrue result → front self.now.sets (byte ∷ []) ≡ complete codes.Bell 1 self.now.sets }
    {
        byte == 0x07 && self.at_rest()
    }

    /// Whether this byte is SO or SI in the current state, where no code is incomplete.
    #[inline]
    pub fn is_shift(&self, byte: u8) -> bool
        ensures { IsTrue result ↔ IsShift self.now byte }
    {
        self.at_rest() && (byte == 0x0E || byte == 0x0F)
    }

    /// Consumes SO or SI, as `step` does.
    #[inline]
    pub fn shift(&mut self, byte: u8)
        requires { IsShift self.old byte }
        ensures { Steps self.old byte (Step.Code codes.Shifted) self.new }
    {
        if byte == 0x0E {
            self.sets.gl = GSet::G1;
            self.in_gl = self.sets.g1;
        } else {
            self.sets.gl = GSet::G0;
            self.in_gl = self.sets.g0;
        }
    }

    /// Consumes ESC, as `step` does, if no code is incomplete.
    #[inline]
    pub fn escape(&mut self)
        ensures { self.old.half ≡ [] → Steps self.old 0x1B Step.More self.new }
    {
        self.half = HalfRead::Escape;
    }

    /// Consumes the rest of a code of which ESC alone was read, if it is complete. The number of its bytes has ESC too.
    pub fn next_after_escape(&mut self, bytes: &[u8]) -> NextCode
        ensures { IsNextAfterEscape self.old bytes.now result self.new }
    {
        if self.half != HalfRead::Escape {
            return NextCode::Other;
        }
        let next = after_escape(&mut self.sets, bytes);
        if let NextCode::Other = next {
            return next;
        }
        self.half = HalfRead::Nothing;
        self.in_gl = self.sets.set_at(self.sets.gl);
        next
    }

    /// Consumes a complete code that begins with a control of the C0 set, if no code is incomplete before it.
    #[inline(always)]
    pub fn next(&mut self, bytes: &[u8]) -> NextCode
        ensures { IsNext self.old bytes.now result self.new }
    {
        if !self.at_rest() {
            return NextCode::Other;
        }
        let Some((byte, rest)) = bytes.split_first() else {
            return NextCode::Other;
        };
        if *byte >= 0x20 {
            return NextCode::Other;
        }
        let code = next_control(&mut self.sets, *byte, rest);
        // Only a code that adds nothing changes the sets.
        if let NextCode::Nothing(_) = code {
            self.in_gl = self.sets.set_at(self.sets.gl);
        }
        code
    }

    /// Consumes the next byte. On a fault the lexer is unchanged.
    pub fn step(&mut self, byte: u8) -> Step
        ensures steps { Steps self.old byte result self.new }
        // The bytes of the incomplete code are unfinished, before the byte and after it.
        ensures before { front self.old.sets self.old.half ≡ unfinished }
        ensures after { front self.new.sets self.new.half ≡ unfinished }
    {
        match next_byte(self.sets, self.half, byte) {
            ByteOutcome::More(half) => {
                self.half = half;
                Step::More
            }
            ByteOutcome::Code(code, sets) => {
                self.sets = sets;
                self.in_gl = sets.set_at(sets.gl);
                self.half = HalfRead::Nothing;
                Step::Code(code)
            }
            ByteOutcome::Fault(fault) => Step::Fault(fault),
        }
    }
}

impl Default for Lexer {
    ghost is_default = { λ l. l ≡ record { sets = start_sets; half = [] } };

    /// Returns a lexer at the start of a stream.
    fn default() -> Lexer {
        Lexer::new()
    }
}

/// Adds a byte to an incomplete code.
fn next_byte(sets: CodeSets, half: HalfRead, byte: u8) -> ByteOutcome
    requires { IsHalfRead half }
    ensures { IsOutcomeOf sets half byte result }
{
    match half {
        HalfRead::Nothing => first_byte(sets, byte),
        HalfRead::Escape => escaped_byte(sets, byte),
        HalfRead::Control(argument) => argument_byte(sets, argument, byte),
        HalfRead::Designation(intermediate) if byte == 0x20 => {
            ByteOutcome::More(HalfRead::SpacedDesignation(intermediate))
        }
        HalfRead::Designation(intermediate) => final_byte(sets, intermediate, byte),
        HalfRead::SpacedDesignation(intermediate) => final_byte(sets, intermediate, byte),
        HalfRead::SingleShift2 => shifted_byte(sets, sets.g2, byte),
        HalfRead::SingleShift3 => shifted_byte(sets, sets.g3, byte),
        HalfRead::Position => row_byte(sets, byte),
        HalfRead::PositionRow(row) => column_byte(sets, row, byte),
    }
}

/// Decodes the first byte of a code.
#[tactic(auto, unfolding(crate::specs::Front::front, crate::specs::Front::control0_front, crate::specs::Front::one_byte_later))]
fn first_byte(sets: CodeSets, byte: u8) -> ByteOutcome
    ensures { IsOutcomeOf sets HalfRead.Nothing byte result }
{
    match control0(byte) {
        Some(Row::Whole(code)) => ByteOutcome::Code(code, sets.after_control0(byte)),
        Some(Row::Out(left)) => ByteOutcome::Fault(CodeFault::LeftOut(left)),
        Some(Row::More) => ByteOutcome::More(after_control(byte)),
        None if byte < 0x80 => graphic_byte(sets, byte),
        None => ByteOutcome::Fault(CodeFault::EighthBit),
    }
}

/// Decodes a byte as a code of the set in GL.
#[tactic(auto, unfolding(crate::specs::Front::gl_front, crate::specs::Front::pdi_front, crate::specs::Front::opcode_front))]
fn graphic_byte(sets: CodeSets, byte: u8) -> ByteOutcome
    requires from { 0x20 ≤ byte }
    requires below { byte < 0x80 }
    ensures { IsLastOutcome (gl_front sets byte (non_pdi_code (set_at sets sets.gl) byte)) result }
{
    if let Some(code) = non_pdi_code(sets.set_at(sets.gl), byte) {
        return ByteOutcome::Code(code, sets);
    }
    match opcode_of(byte) {
        Some(opcode) => match opcode.left_out() {
            Some(left) => ByteOutcome::Fault(CodeFault::LeftOut(left)),
            None => ByteOutcome::Code(Code::Op(opcode), sets),
        },
        None => ByteOutcome::Code(Code::Operand(Word::try_new(byte - 0x40).unwrap()), sets),
    }
}

/// Decodes a byte after a single shift of this set.
#[tactic(auto, unfolding(crate::specs::Front::single_shift_front, crate::specs::Front::shifted_front, crate::specs::Front::bad_byte))]
fn shifted_byte(sets: CodeSets, set: CodeSet, byte: u8) -> ByteOutcome
    ensures { IsLastOutcome (single_shift_front sets set (byte ∷ [])) result }
{
    if byte < 0x20 || byte >= 0x80 {
        return bad_byte(CodeFault::ShiftAlone, byte);
    }
    match non_pdi_code(set, byte) {
        Some(code) => ByteOutcome::Code(code, sets),
        None => ByteOutcome::Fault(CodeFault::ShiftedCode),
    }
}

/// Decodes the byte after ESC.
#[tactic(auto, unfolding(crate::specs::Front::escape_front, crate::specs::Front::control1_front, crate::specs::Front::sequence_front, crate::specs::Front::argument_front, crate::specs::Front::designation_front, crate::specs::Front::one_byte_later, crate::specs::Front::bad_byte))]
fn escaped_byte(sets: CodeSets, byte: u8) -> ByteOutcome
    ensures { IsOutcomeOf sets HalfRead.Escape byte result }
{
    match control1(byte) {
        Some(Row::Whole(code)) => ByteOutcome::Code(code, sets),
        Some(Row::Out(left)) => ByteOutcome::Fault(CodeFault::LeftOut(left)),
        Some(Row::More) => ByteOutcome::More(HalfRead::Control(Argument::of(byte))),
        None => match byte {
            0x28..=0x2F => ByteOutcome::More(HalfRead::Designation(byte)),
            0x6E => ByteOutcome::Code(Code::Shifted, sets.with_gl(GSet::G2)),
            0x6F => ByteOutcome::Code(Code::Shifted, sets.with_gl(GSet::G3)),
            _ => bad_byte(CodeFault::BadEscape, byte),
        },
    }
}

/// Decodes the argument of a control.
#[tactic(auto, unfolding(crate::specs::Front::argument_front, crate::specs::Front::last_byte, crate::specs::Front::bad_byte))]
fn argument_byte(sets: CodeSets, argument: Argument, byte: u8) -> ByteOutcome
    ensures { IsLastOutcome (argument_front sets argument (byte ∷ [])) result }
{
    match argument.code(byte) {
        Some(code) => ByteOutcome::Code(code, sets),
        None => bad_byte(CodeFault::BadArgument, byte),
    }
}

/// Decodes the final byte of a designation.
#[tactic(auto, unfolding(crate::specs::Front::final_front, crate::specs::Front::designated_front, crate::specs::Front::bad_byte))]
fn final_byte(sets: CodeSets, intermediate: u8, byte: u8) -> ByteOutcome
    ensures { IsLastOutcome (final_front sets intermediate (byte ∷ [])) result }
{
    match designate(intermediate, byte) {
        Some((number, set)) => ByteOutcome::Code(
            Code::Designated(number, set),
            sets.with_set(number, set),
        ),
        None => bad_byte(CodeFault::BadEscape, byte),
    }
}

/// Decodes the first byte of the position of APS.
#[tactic(auto, unfolding(crate::specs::Front::position_front, crate::specs::Front::column_front, crate::specs::Front::one_byte_later, crate::specs::Front::bad_byte))]
fn row_byte(sets: CodeSets, byte: u8) -> ByteOutcome
    ensures { IsOutcomeOf sets HalfRead.Position byte result }
{
    match byte {
        0x20..=0x7F => ByteOutcome::More(HalfRead::PositionRow(byte)),
        _ => bad_byte(CodeFault::BadArgument, byte),
    }
}

/// Decodes the second byte of the position of APS.
#[tactic(auto, unfolding(crate::specs::Front::column_front, crate::specs::Front::last_byte, crate::specs::Front::bad_byte))]
fn column_byte(sets: CodeSets, row: u8, byte: u8) -> ByteOutcome
    ensures { IsLastOutcome (column_front sets row (byte ∷ [])) result }
{
    match byte {
        0x20..=0x7F => ByteOutcome::Code(Code::Step(TextStep::Aps(row, byte)), sets),
        _ => bad_byte(CodeFault::BadArgument, byte),
    }
}

/// Returns the character or macro call that a byte is in this set, or `None` for the PDI set.
#[tactic(auto, unfolding(crate::specs::Front::non_pdi_code))]
fn non_pdi_code(set: CodeSet, byte: u8) -> Option<Code>
    ensures { result ≡ non_pdi_code set byte }
{
    match set {
        CodeSet::Primary => Some(Code::Char(CharSet::Primary, byte)),
        CodeSet::Supplementary => Some(Code::Char(CharSet::Supplementary, byte)),
        CodeSet::Mosaic => Some(Code::Char(CharSet::Mosaic, byte)),
        CodeSet::Drcs => Some(Code::Char(CharSet::Drcs, byte)),
        CodeSet::Macros => Some(Code::Call(byte)),
        CodeSet::Pdi => None,
    }
}

/// Returns the refusal of a byte that continues no code: EighthBit from `80` on, else this fault.
fn bad_byte(fault: CodeFault, byte: u8) -> ByteOutcome
    ensures { result ≡ ByteOutcome.Fault (byte_fault fault byte) }
{
    if byte >= 0x80 {
        ByteOutcome::Fault(CodeFault::EighthBit)
    } else {
        ByteOutcome::Fault(fault)
    }
}

/// Returns the incomplete code that begins with this control of the C0 set.
#[tactic(auto, unfolding(crate::specs::HalfReadCodes::half_read_after))]
fn after_control(control: u8) -> HalfRead
    ensures { result ≡ half_read_after control }
{
    match control {
        0x19 => HalfRead::SingleShift2,
        0x1B => HalfRead::Escape,
        0x1C => HalfRead::Position,
        _ => HalfRead::SingleShift3,
    }
}
