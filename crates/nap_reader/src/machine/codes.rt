//! The codes at the beginning of the next bytes.
ghost use Rattle.std.specs.Prelude.{drop, ◌≡◌, ◌<◌, length, slice_index, ◌⊎◌, None, ◌++◌, ℕ, All, Bool, List, ◌∷◌, []};
ghost use Rattle.nap_reader.specs.Names.{IsTextByte, complete, front, is_fill};
ghost use Rattle.std.specs.List.{prefix_len};
ghost use Rattle.nap_reader.specs.Kinds.{Kind, kind_of};
ghost use Rattle.nap_reader.specs.Steps.{IsFrontCode};
ghost use Rattle.nap_reader.specs.Framed.{placed_by_step};

use crate::fault::Fault;
use crate::input::Slice;
use crate::machine::{Machine, Request, Taken, took};
use crate::prefix::{is_effector, text_bytes, whole_run};
use crate::store::Store;
use nap_codes::{CharSet, Code, Lexer, NextCode, Opcode, Step, TextStep, format_effector, is_fill};
use nap_list::Sink;

/// The kind of the first code of bytes, outside a run and a body.
#[derive(Clone, Copy, Drop)]
pub(crate) enum FrontCode {
    /// An opcode.
    Opcode(Opcode),
    /// Characters of this set, if the first byte is from `20` to `7F`, or a format effector and perhaps characters.
    Characters(CharSet),
    /// SO or SI.
    Shift,
    /// A format effector of one byte, where no characters are in GL.
    Effector(TextStep),
    /// BEL.
    Bell,
    /// A call of the macro that this byte names.
    Call,
    /// Another code, or a byte of an incomplete code.
    Other,
}

/// Returns the kind of the first code, which begins with this byte.
#[inline(always)]
pub(crate) fn front_of(lexer: &Lexer, byte: u8) -> FrontCode
    ensures { IsFrontCode lexer.now byte result }
{
    if byte >= 0x20 {
        if byte < 0x40 {
            if let Some(op) = lexer.opcode(byte) {
                return FrontCode::Opcode(op);
            }
        }
        if let Some(set) = lexer.char_set() {
            return FrontCode::Characters(set);
        }
        if lexer.is_call(byte) {
            return FrontCode::Call;
        }
        return FrontCode::Other;
    }
    if lexer.is_shift(byte) {
        return FrontCode::Shift;
    }
    // The most common one of the others.
    if byte == 0x1B {
        return FrontCode::Other;
    }
    if is_effector(byte) {
        return effector_front(lexer, byte);
    }
    if lexer.is_bell(byte) {
        return FrontCode::Bell;
    }
    FrontCode::Other
}

/// Returns the kind of the first code, which begins with a format effector of one byte.
#[inline(always)]
fn effector_front(lexer: &Lexer, byte: u8) -> FrontCode
    ensures { IsFrontCode lexer.now byte result }
{
    if let Some(set) = lexer.char_set() {
        return FrontCode::Characters(set);
    }
    match lexer.format_effector(byte) {
        Some(step) => FrontCode::Effector(step),
        None => FrontCode::Other,
    }
}

/// Returns how many bytes at the beginning are controls without effect.
#[inline(never)]
fn fill_prefix_len(bytes: &[u8]) -> usize
    ensures { result ≡ prefix_len is_fill bytes.now }
{
    let mut count = 0;
    while count < bytes.len() && is_fill(bytes[count]) {
        count += 1;
    }
    count
}

/// The outcome of the first code.
#[derive(Clone, Copy, Drop)]
pub(super) enum CodeOutcome {
    /// The code acted: the number of its bytes.
    Acted(usize),
    /// The code acted, and unbinds all names: the number of its bytes.
    Clears(usize),
    /// The code is an opcode whose run is incomplete.
    Opens(Opcode),
    /// The code is refused or breaks: the number of bytes before it, the fault, and the index of the byte whose place
    /// the fault has.
    Stopped(usize, Fault, usize),
    /// The code is a call of a macro: the number of its bytes, and the name.
    Calls(usize, u8),
    /// The code begins a body, and has acted: the number of its bytes, the name, and whether the body is presented as
    /// soon as it is defined.
    Defines(usize, u8, bool),
    /// The code is another one, and nothing was done.
    Other,
}

impl<S: Sink> Machine<S> {
    ghost use Rattle.nap_reader.specs.Steps.{Codes, IsLive, TakesUnder, EndsClosed, IsOpcodeByte, TakesFrom, AreCharacters};

    /// Consumes the codes of a slice, up to one that requests something of the input, while no run is open. A call of a
    /// name that this store binds to no byte requests nothing. What is incomplete at the end is kept: an open run, or a
    /// half-read code.
    #[inline(always)]
    pub(super) fn codes(&mut self, slice: &Slice, ended: bool, store: &Store) -> Taken
        requires live { IsLive self.old }
        requires closed { self.old.open_run ≡ None }
        requires some { 0 < length slice.now.bytes.now }
        ensures takes { TakesUnder store.now.names self.old self.new (placed_by_step slice.now.place slice.now.step slice.now.bytes.now) ended result.count result.request }
        ensures goes { (0 < result.count) ⊎ (result.request ≡ Request.Stop) }
    {
        let bytes = slice.bytes;
        let mut count = 0;
        while count < bytes.len() {
            match self.code(bytes, count, ended) {
                CodeOutcome::Acted(more) => count += more,
                CodeOutcome::Clears(more) => return took(count + more, Request::Clear),
                CodeOutcome::Calls(more, name) => {
                    count += more;
                    if store.has_body(name) {
                        return took(count, Request::Call(name));
                    }
                }
                CodeOutcome::Defines(more, name, show) => {
                    return took(count + more, Request::Define(name, show));
                }
                CodeOutcome::Opens(op) => return self.open(op, slice, count, ended),
                CodeOutcome::Stopped(more, fault, index) => {
                    return self.stop(count + more, fault, slice.place_of(count + index));
                }
                CodeOutcome::Other => {
                    let taken = self.other(slice, count, ended);
                    let Request::Nothing = taken.request else {
                        return taken;
                    };
                    count = taken.count;
                }
            }
        }
        took(count, Request::Nothing)
    }

    /// Consumes the code at an index of the bytes, if it is a complete one of those that need no request.
    #[inline(always)]
    fn code(&mut self, bytes: &[u8], at: usize, ended: bool) -> CodeOutcome
        requires live { IsLive self.old }
        requires closed { self.old.open_run ≡ None }
        requires within { at < length bytes.now }
        ensures { Codes self.old self.new (drop at bytes.now) ended result }
    {
        let byte = bytes[at];
        match front_of(&self.lexer, byte) {
            FrontCode::Opcode(op) => self.opcode(op, &bytes[at..], ended),
            FrontCode::Characters(set) => self.text(set, &bytes[at..]),
            FrontCode::Shift => {
                self.lexer.shift(byte);
                CodeOutcome::Acted(1)
            }
            FrontCode::Effector(step) => self.single(Code::Step(step), byte),
            FrontCode::Bell => self.single(Code::Bell, byte),
            FrontCode::Call => CodeOutcome::Calls(1, byte),
            // The most common one of the others, without the tests for them.
            FrontCode::Other if byte == 0x1B => self.whole_code(&bytes[at..]),
            FrontCode::Other => self.whole_code(&bytes[at..]),
        }
    }

    /// Executes the first opcode with its run, if that is complete.
    #[inline(always)]
    pub(super) fn opcode(&mut self, op: Opcode, bytes: &[u8], ended: bool) -> CodeOutcome
        requires live { IsLive self.old }
        requires closed { self.old.open_run ≡ None }
        requires some { 0 < length bytes.now }
        requires is { IsOpcodeByte self.old.lexer.half self.old.lexer.sets (slice_index bytes.now 0) op }
        ensures { Codes self.old self.new bytes.now ended result }
    {
        let Some(run) = whole_run(&bytes[1..], ended) else {
            return CodeOutcome::Opens(op);
        };
        let size = run.len() + 1;
        match self
            .work
            .act(self.alloc, &mut self.scratch, op, run, &mut self.sink)
        {
            Ok(false) => CodeOutcome::Acted(size),
            Ok(true) => CodeOutcome::Clears(size),
            Err(fault) => CodeOutcome::Stopped(size, Fault::from(fault), 0),
        }
    }

    /// Consumes the characters of this set and the format effectors at the beginning of the bytes.
    #[inline(always)]
    pub(super) fn text(&mut self, set: CharSet, bytes: &[u8]) -> CodeOutcome
        requires live { IsLive self.old }
        requires closed { self.old.open_run ≡ None }
        requires set { AreCharacters self.old.lexer set }
        ensures { (ended : Bool) → Codes self.old self.new bytes.now ended result }
    {
        let text = text_bytes(bytes);
        if text.len() < 2 {
            return self.alone(set, text);
        }
        match self.work.characters(set, text, &mut self.sink) {
            Ok(()) => CodeOutcome::Acted(text.len()),
            Err(short) => CodeOutcome::Stopped(short.taken, Fault::from(short.fault), short.taken),
        }
    }

    /// Consumes a character or a format effector, if there is one.
    #[inline(always)]
    fn alone(&mut self, set: CharSet, text: &[u8]) -> CodeOutcome
        requires live { IsLive self.old }
        requires closed { self.old.open_run ≡ None }
        requires set { AreCharacters self.old.lexer set }
        requires typed { All IsTextByte text.now }
        ensures { (ended : Bool) (following : List ℕ) → Codes self.old self.new (text.now ++ following) ended result }
    {
        let Some(byte) = text.first() else {
            return CodeOutcome::Other;
        };
        if let Some(step) = format_effector(*byte) {
            return self.single(Code::Step(step), *byte);
        }
        match self.work.text(set, *byte, &mut self.sink) {
            Ok(()) => CodeOutcome::Acted(1),
            Err(fault) => CodeOutcome::Stopped(0, Fault::from(fault), 0),
        }
    }

    /// Consumes a byte that is a code that acts.
    #[inline(always)]
    fn single(&mut self, code: Code, byte: u8) -> CodeOutcome
        requires live { IsLive self.old }
        requires closed { self.old.open_run ≡ None }
        requires rested { self.old.lexer.half ≡ [] }
        requires acts { kind_of code ≡ Kind.acts code }
        requires is { front self.old.lexer.sets (byte ∷ []) ≡ complete code 1 self.old.lexer.sets }
        ensures { (ended : Bool) (following : List ℕ) → Codes self.old self.new (byte ∷ following) ended result }
    {
        match self.work.control(&code, &mut self.sink) {
            Ok(()) => CodeOutcome::Acted(1),
            Err(fault) => CodeOutcome::Stopped(0, Fault::from(fault), 0),
        }
    }

    /// Consumes the first code of the bytes if it begins with a control of the C0 set and is complete; with a code of one
    /// byte that adds nothing, also the controls without effect after it.
    #[inline(always)]
    pub(super) fn whole_code(&mut self, bytes: &[u8]) -> CodeOutcome
        requires live { IsLive self.old }
        requires closed { self.old.open_run ≡ None }
        ensures { (ended : Bool) → Codes self.old self.new bytes.now ended result }
    {
        match self.lexer.next(bytes) {
            NextCode::Nothing(1) => CodeOutcome::Acted(1 + fill_prefix_len(&bytes[1..])),
            NextCode::Nothing(count) => CodeOutcome::Acted(count),
            NextCode::Calls(count, name) => CodeOutcome::Calls(count, name),
            NextCode::Acts(count, code) => match self.work.control(&code, &mut self.sink) {
                Ok(()) => CodeOutcome::Acted(count),
                Err(fault) => CodeOutcome::Stopped(count - 1, Fault::from(fault), count - 1),
            },
            NextCode::Defines(count, name, show) => match self
                .work
                .control(&Code::DefMacro { name, show }, &mut self.sink)
            {
                Ok(()) => CodeOutcome::Defines(count, name, show),
                Err(fault) => CodeOutcome::Stopped(count - 1, Fault::from(fault), count - 1),
            },
            NextCode::Other => CodeOutcome::Other,
        }
    }

    /// Consumes the rest of a code of which ESC alone was read, as after a body, if it is complete.
    #[inline(always)]
    pub(super) fn rest_of_escape(&mut self, bytes: &[u8]) -> CodeOutcome
        requires live { IsLive self.old }
        requires closed { self.old.open_run ≡ None }
        ensures { (ended : Bool) → Codes self.old self.new bytes.now ended result }
    {
        match self.lexer.next_after_escape(bytes) {
            NextCode::Nothing(count) => CodeOutcome::Acted(count - 1),
            NextCode::Calls(count, name) => CodeOutcome::Calls(count - 1, name),
            NextCode::Acts(count, code) => match self.work.control(&code, &mut self.sink) {
                Ok(()) => CodeOutcome::Acted(count - 1),
                Err(fault) => CodeOutcome::Stopped(count - 2, Fault::from(fault), count - 2),
            },
            NextCode::Defines(count, name, show) => match self
                .work
                .control(&Code::DefMacro { name, show }, &mut self.sink)
            {
                Ok(()) => CodeOutcome::Defines(count - 1, name, show),
                Err(fault) => CodeOutcome::Stopped(count - 2, Fault::from(fault), count - 2),
            },
            NextCode::Other => CodeOutcome::Other,
        }
    }

    /// Consumes the rest of a code of which ESC alone was read, or else a byte of any code.
    #[inline(never)]
    pub(super) fn other(&mut self, slice: &Slice, at: usize, ended: bool) -> Taken
        requires live { IsLive self.old }
        requires closed { self.old.open_run ≡ None }
        requires within { at < length slice.now.bytes.now }
        ensures some { at < result.count ⊎ (result.request ≡ Request.Stop) }
        ensures closed { EndsClosed self.new (length slice.now.bytes.now) result.count result.request }
        ensures takes { TakesFrom self.old self.new slice.now.place slice.now.step slice.now.bytes.now at ended result.count result.request }
    {
        match self.rest_of_escape(&slice.bytes[at..]) {
            CodeOutcome::Acted(more) => took(at + more, Request::Nothing),
            CodeOutcome::Clears(more) => took(at + more, Request::Clear),
            CodeOutcome::Calls(more, name) => took(at + more, Request::Call(name)),
            CodeOutcome::Defines(more, name, show) => {
                took(at + more, Request::Define(name, show))
            }
            CodeOutcome::Stopped(more, fault, index) => {
                self.stop(at + more, fault, slice.place_of(at + index))
            }
            _ => self.any_byte(slice, at, ended),
        }
    }

    /// Consumes a byte of any code.
    fn any_byte(&mut self, slice: &Slice, at: usize, ended: bool) -> Taken
        requires within { at < length slice.now.bytes.now }
        requires live { IsLive self.old }
        requires closed { self.old.open_run ≡ None }
        ensures closed { EndsClosed self.new (length slice.now.bytes.now) result.count result.request }
        ensures some { at < result.count ⊎ (result.request ≡ Request.Stop) }
        ensures takes { TakesFrom self.old self.new slice.now.place slice.now.step slice.now.bytes.now at ended result.count result.request }
    {
        let byte = slice.bytes[at];
        let code = match self.lexer.step(byte) {
            Step::More => return took(at + 1, Request::Nothing),
            Step::Fault(fault) => return self.stop(at, Fault::from(fault), slice.place_of(at)),
            Step::Code(code) => code,
        };
        let request = match code {
            Code::Op(op) => return self.open(op, slice, at, ended),
            Code::Operand(_) => return self.stop(at, Fault::Stray, slice.place_of(at)),
            Code::Fill | Code::Shifted | Code::Designated(_, _) => return took(
                at + 1,
                Request::Nothing,
            ),
            Code::Call(name) => return took(at + 1, Request::Call(name)),
            Code::DefMacro { name, show } => Request::Define(name, show),
            _ => Request::Nothing,
        };
        match self.work.control(&code, &mut self.sink) {
            Ok(()) => took(at + 1, request),
            Err(fault) => self.stop(at, Fault::from(fault), slice.place_of(at)),
        }
    }
}
