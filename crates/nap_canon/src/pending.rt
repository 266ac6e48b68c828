//! Pending text: pieces of canonical text that aren't written yet.
ghost use Rattle.std.specs.Prelude.{◌≡◌, ◌≤◌, ◌+◌, ◌++◌, [], ◌∷◌, length};
ghost use Rattle.nap_canon.specs.Batches.{run_opening};
ghost use Rattle.nap_canon.specs.Spelling.{word_byte, opcode, control, joinable_piece};
ghost use Rattle.nap_canon.specs.Text.{gl_of, shift_to_opcodes, shift_to_primary, run_after};
ghost use Rattle.nap_canon.specs.Writing.{AppendsPiece};
ghost use Rattle.nap_canon.specs.Buffers.{buffer_limit};

use crate::byte_buffer::ByteBuffer;
use crate::text::Form;
use crate::text_end::{Run, TextEnd};
use nap_codes::GSet;
use nap_values::Word;

mod batches;
mod prelude;
mod spelling;

pub(crate) use spelling::{Path, path_of, shape_opcode};

/// The bytes of the opcodes of canonical text.
pub(crate) mod opcodes {
    use nap_codes::{FIRST_OPCODE, Opcode};

    pub(crate) const RESET: u8 = FIRST_OPCODE + Opcode::Reset as u8;

    pub(crate) const DOMAIN: u8 = FIRST_OPCODE + Opcode::Domain as u8;

    pub(crate) const TEXT: u8 = FIRST_OPCODE + Opcode::Text as u8;

    pub(crate) const TEXTURE: u8 = FIRST_OPCODE + Opcode::Texture as u8;

    pub(crate) const POINT_SET_ABS: u8 = FIRST_OPCODE + Opcode::PointSetAbs as u8;

    pub(crate) const POINT_ABS: u8 = FIRST_OPCODE + Opcode::PointAbs as u8;

    pub(crate) const LINE_ABS: u8 = FIRST_OPCODE + Opcode::LineAbs as u8;

    pub(crate) const SET_LINE_ABS: u8 = FIRST_OPCODE + Opcode::SetLineAbs as u8;

    pub(crate) const SET_ARC: u8 = FIRST_OPCODE + Opcode::SetArcOutlined as u8;

    pub(crate) const SET_RECT: u8 = FIRST_OPCODE + Opcode::SetRectOutlined as u8;

    pub(crate) const SET_POLY: u8 = FIRST_OPCODE + Opcode::SetPolyOutlined as u8;

    pub(crate) const FIELD: u8 = FIRST_OPCODE + Opcode::Field as u8;

    pub(crate) const SET_COLOR: u8 = FIRST_OPCODE + Opcode::SetColor as u8;

    pub(crate) const WAIT: u8 = FIRST_OPCODE + Opcode::Wait as u8;

    pub(crate) const SELECT_COLOR: u8 = FIRST_OPCODE + Opcode::SelectColor as u8;

    pub(crate) const BLINK: u8 = FIRST_OPCODE + Opcode::Blink as u8;
}

/// The operand of DOMAIN in canonical text: eight words and four words.
pub(crate) const LENGTHS: u8 = 0x5F;

/// Canonical text that isn't written yet, and how the text ends with it.
#[derive(Drop)]
pub(crate) struct Pending {
    pub(crate) text_end: TextEnd,
    pub(crate) bytes: ByteBuffer,
}

/// Returns the byte that carries a word.
#[inline(always)]
fn word_byte(word: Word) -> u8
    ensures { result ≡ word_byte word }
{
    0x40 + word.get()
}

impl Pending {
    /// Appends an opcode, after SO if G1 isn't in GL.
    #[inline(always)]
    fn append_opcode(&mut self, code: u8)
        requires space { length self.old.bytes + 2 ≤ buffer_limit }
        ensures bytes { self.new.bytes ≡ self.old.bytes ++ (shift_to_opcodes (gl_of self.old.text_end) ++ code ∷ []) }
        ensures most { length self.new.bytes ≤ length self.old.bytes + 2 }
        ensures text_end { self.new.text_end ≡ self.old.text_end }
    {
        if self.text_end.gl() != GSet::G1 {
            self.bytes.push(0x0E);
        }
        self.bytes.push(code);
    }

    /// Appends an opcode, its first operands and the others.
    #[inline(always)]
    pub(crate) fn append_opcode_and_operands(
        &mut self,
        code: u8,
        first_operands: &[u8],
        operands: &[u8],
    )
        requires { length self.old.bytes + (2 + length first_operands.now + length operands.now) ≤ buffer_limit }
        ensures appends { AppendsPiece (opcode code (first_operands.now ++ operands.now)) self.old self.new }
        ensures most { length self.new.bytes ≤ length self.old.bytes + (2 + length first_operands.now + length operands.now) }
    {
        self.append_opcode(code);
        self.bytes.extend(first_operands);
        self.bytes.extend(operands);
        self.text_end = TextEnd::NoRun(GSet::G1);
    }

    /// Appends the opcode for `count` operand bytes, unless they continue the current run.
    #[inline(always)]
    pub(crate) fn append_opcode_unless_joined(&mut self, code: u8, count: usize)
        requires few { count ≤ buffer_limit }
        requires space { length self.old.bytes + 2 ≤ buffer_limit }
        ensures bytes { self.new.bytes ≡ self.old.bytes ++ run_opening self.old.text_end code count }
        ensures most { length self.new.bytes ≤ length self.old.bytes + 2 }
        ensures text_end { self.new.text_end ≡ TextEnd.InRun (run_after self.old.text_end code count) }
    {
        if self.text_end.joins(code, count) {
            let length = self.text_end.run_length() + count;
            self.text_end = TextEnd::InRun(Run {
                opcode: code,
                length,
            });
            return;
        }
        self.append_opcode(code);
        self.text_end = TextEnd::InRun(Run {
            opcode: code,
            length: count,
        });
    }

    /// Appends the opcode of a point, line or rectangle, its first operands and the others. In form 2 they may join a
    /// run.
    #[inline(always)]
    fn append_joinable(&mut self, form: Form, code: u8, first_operands: &[u8], operands: &[u8])
        requires { length self.old.bytes + (2 + length first_operands.now + length operands.now) ≤ buffer_limit }
        ensures { AppendsPiece (joinable_piece form code (first_operands.now ++ operands.now)) self.old self.new }
    {
        if form == Form::One {
            return self.append_opcode_and_operands(code, first_operands, operands);
        }
        self.append_opcode_unless_joined(code, first_operands.len() + operands.len());
        self.bytes.extend(first_operands);
        self.bytes.extend(operands);
    }

    /// Appends SI if G0 isn't in GL. The primary characters are in GL afterwards.
    #[inline(always)]
    pub(crate) fn append_shift_in(&mut self)
        requires space { length self.old.bytes + 1 ≤ buffer_limit }
        ensures bytes { self.new.bytes ≡ self.old.bytes ++ shift_to_primary (gl_of self.old.text_end) }
        ensures most { length self.new.bytes ≤ length self.old.bytes + 1 }
        ensures text_end { self.new.text_end ≡ TextEnd.NoRun GSet.G0 }
    {
        if self.text_end.gl() != GSet::G0 {
            self.bytes.push(0x0F);
        }
        self.text_end = TextEnd::NoRun(GSet::G0);
    }

    /// Appends controls with their arguments.
    #[inline(always)]
    pub(crate) fn append_control(&mut self, bytes: &[u8])
        requires { length self.old.bytes + length bytes.now ≤ buffer_limit }
        ensures appends { AppendsPiece (control bytes.now) self.old self.new }
        ensures most { length self.new.bytes ≤ length self.old.bytes + length bytes.now }
    {
        self.bytes.extend(bytes);
        self.text_end = TextEnd::NoRun(self.text_end.gl());
    }
}
