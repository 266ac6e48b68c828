//! Plain streams (PROFILE.md, Plain streams).
ghost use Rattle.std.specs.Prelude.{◌≡◌, ◌↔◌, IsTrue};
ghost use Rattle.nap_canon.specs.Checking.{is_plain_code, seen_after, expected_after, check_after, may_end};
ghost use Rattle.nap_canon.specs.Plain.{IsPlain};

use nap_codes::{Code, CodeSet, Lexer, Opcode, Step};

/// The codes seen so far.
#[derive(Clone, Copy, Drop)]
pub(crate) enum CodesSeen {
    /// Neither an opcode nor a definition.
    Nothing,
    /// A definition, before any opcode.
    Definition,
    /// An opcode.
    Drawing,
}

/// What has to come next.
#[derive(Clone, Copy, Drop)]
pub(crate) enum Expected {
    /// Any code.
    Any,
    /// The word of DOMAIN for operands of eight words and four words.
    Lengths,
    /// The first word of RESET, or any other code.
    ResetWord,
    /// DOMAIN, after the words of RESET.
    Domain,
}

/// A check of the codes of a stream, one after another.
#[derive(Clone, Copy, Drop)]
pub(crate) struct PlainCheck {
    begun: CodesSeen,
    next: Expected,
}

/// Whether a code uses no macro and isn't a REL opcode.
fn is_plain_code(code: &Code) -> bool
    ensures { result ≡ is_plain_code code.now }
{
    match code {
        Code::DefMacro { .. } => false,
        Code::Designated(_, CodeSet::Macros) => false,
        Code::Op(Opcode::PointSetRel | Opcode::PointRel | Opcode::LineRel | Opcode::SetLineRel) =>
            false,
        _ => true,
    }
}

impl CodesSeen {
    /// Returns the codes seen with this one, or `None` if it may not come.
    fn after_code(self, code: &Code) -> Option<CodesSeen>
        ensures { result ≡ seen_after self code.now }
    {
        match (self, code) {
            (CodesSeen::Drawing, _) => Some(CodesSeen::Drawing),
            (CodesSeen::Nothing, Code::Op(Opcode::Domain)) => Some(CodesSeen::Drawing),
            (_, Code::Op(_)) => None,
            (_, Code::DefGlyph(_) | Code::DefMask(_)) => Some(CodesSeen::Definition),
            _ => Some(self),
        }
    }
}

impl Expected {
    /// Returns what has to come after this code, or `None` if it may not come.
    fn after_code(self, code: &Code) -> Option<Expected>
        ensures { result ≡ expected_after self code.now }
    {
        match (self, code) {
            (Expected::Lengths, Code::Operand(word)) if word.get() == 31 => Some(Expected::Any),
            (Expected::Lengths, _) => None,
            (Expected::ResetWord, Code::Operand(word)) if word.get() % 2 == 1 => {
                Some(Expected::Domain)
            }
            (Expected::Domain, Code::Operand(_)) => Some(Expected::Domain),
            (_, Code::Op(Opcode::Domain)) => Some(Expected::Lengths),
            (Expected::Domain, _) => None,
            (_, Code::Op(Opcode::Reset)) => Some(Expected::ResetWord),
            _ => Some(Expected::Any),
        }
    }
}

impl PlainCheck {
    /// Returns the check after this code, or `None` if it may not come.
    fn after_code(&self, code: &Code) -> Option<PlainCheck>
        ensures { result ≡ check_after self.now code.now }
    {
        let begun = self.begun.after_code(code);
        match (is_plain_code(code), begun, self.next.after_code(code)) {
            (true, Some(begun), Some(next)) => Some(PlainCheck { begun, next }),
            _ => None,
        }
    }

    /// Whether the stream may end here.
    fn may_end(&self) -> bool
        ensures { result ≡ may_end self.now }
    {
        match self.next {
            Expected::Any | Expected::ResetWord => true,
            Expected::Lengths | Expected::Domain => false,
        }
    }
}

/// Whether a stream is plain: it uses no macro and no REL opcode, its operands have eight words and four words, and no
/// code is incomplete (PROFILE.md, Plain streams).
pub fn is_plain(bytes: &[u8]) -> bool
    ensures { IsTrue result ↔ IsPlain bytes.now }
{
    let mut lexer = Lexer::new();
    let mut check = PlainCheck {
        begun: CodesSeen::Nothing,
        next: Expected::Any,
    };
    for byte in bytes {
        match lexer.step(*byte) {
            Step::More => {}
            Step::Fault(_) => return false,
            Step::Code(code) => match check.after_code(&code) {
                Some(after) => check = after,
                None => return false,
            },
        }
    }
    lexer.at_rest() && check.may_end()
}
