//! The state that codes work on.
ghost use Rattle.std.specs.Prelude.{◌≡◌, ◌≤◌, [], None, Some, length, vec_len, IfErr, IfOk, MatchResult, OnOk, ℕ, List, Option, ◌≢◌, ◌⊎◌, Err, ◌+◌, ◌<◌, ◌^◌};
ghost use Rattle.nap_reader.specs.Names.{run_limit, start_sets, start_work};
ghost use Rattle.nap_reader.specs.Carried.{HasRule, HasRule-prop, NoCharacters, NoCharacters-prop};
ghost use Rattle.nap_reader.specs.Stream.{refusal};
ghost use Rattle.nap_reader.specs.Framed.{placed_by_step};

mod bodies;
mod codes;
mod runs;

use crate::fault::{Fault, Refusal};
use crate::input::{Input, Slice};
use crate::store::Store;
use nap_codes::{Lexer, Opcode};
use nap_draw::{RUN_LIMIT, Work};
use nap_list::Sink;
use nap_values::Point;
use std::alloc::Global;

/// An opcode whose run isn't ended.
#[derive(Clone, Copy, Drop)]
pub(crate) struct OpenRun {
    pub(crate) op: Opcode,
    pub(crate) place: u64,
}

/// What a code requests of the input.
#[derive(Clone, Copy, Drop)]
pub(crate) enum Request {
    /// Nothing.
    Nothing,
    /// Unbinds all names.
    Clear,
    /// Calls the macro with this name.
    Call(u8),
    /// Defines the macro with this name, and whether it is presented as soon as it is defined.
    Define(u8, bool),
    /// The next byte is refused or breaks, and the refusal is kept.
    Stop,
}

/// The number of bytes that were consumed, and what their last code requests of the input.
#[derive(Clone, Copy, Drop)]
pub(crate) struct Taken {
    pub(crate) count: usize,
    pub(crate) request: Request,
}

/// The state that codes work on: the work, the code sets, the open run, the refusal and the sink.
#[derive(Drop)]
pub(crate) struct Machine<S: Sink> {
    alloc: Global,
    pub(crate) work: Work,
    pub(crate) lexer: Lexer,
    pub(crate) open_run: Option<OpenRun>,
    /// The operand bytes of the open run.
    run: Vec<u8>,
    scratch: Vec<Point>,
    pub(crate) refusal: Option<Refusal>,
    pub(crate) sink: S,
    ghost short: { vec_len run ≤ run_limit },
    ghost rule: { HasRule open_run } by { HasRule-prop open_run },
    ghost drawing: { NoCharacters lexer open_run } by { NoCharacters-prop lexer open_run },
}

impl<S: Sink> Machine<S> {
    ghost use Rattle.nap_reader.specs.Steps.{EndsRun, FailsRun, HasRunMemory, IsLive, Refuses, Works, StopsByte, Progresses, TakesUnder};
    ghost use Rattle.nap_reader.specs.declared.body.OpenBody.{OpenBody};
    ghost use Rattle.nap_reader.specs.declared.input.Input.{Input};
    ghost use Rattle.nap_reader.specs.NextBytes.{CanAdvance, IsNextByte, Moves, next_bytes};
    ghost use Rattle.nap_reader.specs.Framed.{placed_at};
    ghost use Rattle.nap_reader.specs.ReadingStates.{reading_state_by};
    ghost use Rattle.nap_reader.specs.Pieces.{Goes, LacksFrom, StopsFrom, TakesSlice, ReadsFurther};
    ghost use Rattle.nap_reader.specs.Stored.{StoreState};

    /// Returns the state before any code.
    pub(crate) fn new(alloc: Global, sink: S) -> Machine<S>
        ensures work { result.work ≡ start_work }
        ensures lexer { result.lexer ≡ record { sets = start_sets; half = [] } }
        ensures none { (result.open_run ≡ None) × (result.refusal ≡ None) }
        ensures sink { result.sink ≡ sink }
    {
        Machine {
            alloc,
            work: Work::start(),
            lexer: Lexer::new(),
            open_run: None,
            run: Vec::new(alloc),
            scratch: Vec::new(alloc),
            refusal: None,
            sink,
        }
    }

    /// Returns the machine before any code, with memory for any run, and the sink of this one. This one's memory is used
    /// again.
    pub(crate) fn again<T: Sink>(self, sink: T) -> Result<(S, Machine<T>), (S, T)>
        ensures failed { IfErr result (λ sinks. (sinks.0 ≡ self.sink) × (sinks.1 ≡ sink)) }
        ensures first { IfOk result (λ pair. pair.0 ≡ self.sink) }
        ensures work { IfOk result (λ pair. pair.1.work ≡ start_work) }
        ensures lexer { IfOk result (λ pair. pair.1.lexer ≡ record { sets = start_sets; half = [] }) }
        ensures none { IfOk result (λ pair. (pair.1.open_run ≡ None) × (pair.1.refusal ≡ None)) }
        ensures sink { IfOk result (λ pair. pair.1.sink ≡ sink) }
        ensures memory { IfOk result (λ pair. HasRunMemory pair.1) }
    {
        let Machine {
            alloc,
            mut run,
            mut scratch,
            sink: first,
            ..
        } = self;
        run.clear();
        scratch.clear();
        if run.reserve(RUN_LIMIT).is_err() || scratch.reserve(RUN_LIMIT).is_err() {
            return Err((first, sink));
        }
        let machine = Machine {
            alloc,
            work: Work::start(),
            lexer: Lexer::new(),
            open_run: None,
            run,
            scratch,
            refusal: None,
            sink,
        };
        Ok((first, machine))
    }

    /// Returns the sink.
    pub(crate) fn into_sink(self) -> S
        ensures { result ≡ self.sink }
    {
        let Machine { sink, .. } = self;
        sink
    }

    /// Executes the open run at the end of the stream.
    pub(crate) fn end_run(&mut self) -> Result<(), Refusal>
        requires live { IsLive self.old }
        ensures closed { OnOk result (self.new.open_run ≡ None) }
        ensures works { OnOk result (Works self.old self.new) }
        ensures ends { MatchResult result (λ _. EndsRun self.old self.new) (λ r. FailsRun self.old self.new r) }
    {
        let Some(open_run) = self.open_run else {
            return Ok(());
        };
        let place = open_run.place;
        match self.execute(open_run) {
            Ok(_) => Ok(()),
            Err(fault) => Err(Refusal { fault, place }),
        }
    }

    /// Keeps the refusal of a stream, and returns how many bytes were consumed before it.
    #[inline(never)]
    fn stop(&mut self, count: usize, fault: Fault, place: u64) -> Taken
        ensures kept { Refuses self.old self.new (refusal fault place) }
        ensures answer { result ≡ record { count = count; request = Request.Stop } }
    {
        self.refusal = Some(Refusal { fault, place });
        took(count, Request::Stop)
    }

    /// Advances past the bytes that were consumed, the last of which has this place, and does what their last code
    /// requests of the input.
    #[inline(always)]
    fn answer(&mut self, input: &mut Input, taken: Taken, place: u64, piece: &[u8]) -> Answer
        requires { (old : Machine S S.Sink) × TakesSlice old self.old input.old piece.now taken.count taken.request place }
        ensures live { OnOk result (IsLive self.new) }
        ensures run { OnOk result (self.old.open_run ≡ None → self.new.open_run ≡ None) }
        ensures ends { OnOk result ((input.new.body ≡ None) ⊎ (next_bytes input.new piece.now ≡ [])) }
        ensures on { OnOk result (taken.request ≢ Request.Stop) }
        ensures goes { (old : Machine S S.Sink) → TakesSlice old self.old input.old piece.now taken.count taken.request place →
            MatchResult result (λ _. Goes piece.now taken.count old input.old self.new input.new) (λ _. StopsFrom piece.now old input.old self.new input.new) }
    {
        input.advance(taken.count);
        match taken.request {
            Request::Nothing => Ok(()),
            Request::Clear => {
                input.clear();
                Ok(())
            }
            Request::Call(name) => match input.call(name, place) {
                Ok(()) => Ok(()),
                Err(fault) => self.refuse(fault, place),
            },
            Request::Define(name, show) => {
                input.set_body(name, show, None);
                self.take_body(input, piece)
            }
            Request::Stop => {
                input.advance(1);
                Err(Refused)
            }
        }
    }

    /// Refuses the stream. Later calls answer the same refusal.
    #[inline(never)]
    fn refuse(&mut self, fault: Fault, place: u64) -> Answer
        ensures latched { Refuses self.old self.new (refusal fault place) }
        ensures answer { result ≡ Err (record {}) }
    {
        self.refusal = Some(Refusal { fault, place });
        Err(Refused)
    }

    /// Refuses the stream, for good, at the byte that comes next.
    #[inline(never)]
    fn refuse_next(&mut self, input: &mut Input, fault: Fault, place: u64) -> Answer
        requires { CanAdvance input.old 1 }
        ensures answer { result ≡ Err (record {}) }
        ensures stops { (count : ℕ) (start : Input) (piece : List ℕ) (byte at : ℕ) (store : StoreState) (opened : Option OpenBody) → Moves start input.old 0 [] store opened → IsNextByte start piece byte at → fault ≢ Fault.Sink → LacksFrom piece self.old start fault →
            StopsByte S.Sink self.old.sink [] (reading_state_by self.old start) (placed_at byte at) self.old.sink (refusal fault place) →
            MatchResult result (λ _. Goes piece count self.old start self.new input.new) (λ _. StopsFrom piece self.old start self.new input.new) }
    {
        input.advance(1);
        self.refuse(fault, place)
    }

    /// Reads the next piece of a stream that isn't refused: slice by slice, of the bodies that it calls and of itself.
    pub(crate) fn read(&mut self, input: &mut Input, piece: &[u8]) -> Answer
        requires live { IsLive self.old }
        requires rested { input.old.frames.stack.items ≡ [] }
        requires few { input.old.fed + length piece.now < 2 ^ 63 }
        ensures live { OnOk result (IsLive self.new) }
        ensures rests { OnOk result (input.new.frames.stack.items ≡ []) }
        ensures reads { MatchResult result (λ _. ReadsFurther piece.now self.old (record input.old { at = 0 }) self.new input.new × (next_bytes input.new piece.now ≡ [])) (λ _. StopsFrom piece.now self.old (record input.old { at = 0 }) self.new input.new) }
    {
        input.begin_piece();
        if input.body.is_some() {
            self.take_body(input, piece)?;
        }
        while let Some((slice, ended)) = input.next_slice(piece) {
            let taken = self.take(&slice, ended, &input.store);
            let place = slice.place_of(taken.count.saturating_sub(1));
            self.answer(input, taken, place, piece)?;
        }
        Ok(())
    }

    /// Consumes bytes of a slice: operands of the open run, or codes.
    #[inline(always)]
    fn take(&mut self, slice: &Slice, ended: bool, store: &Store) -> Taken
        requires live { IsLive self.old }
        requires some { 0 < length slice.now.bytes.now }
        ensures takes { TakesUnder store.now.names self.old self.new (placed_by_step slice.now.place slice.now.step slice.now.bytes.now) ended result.count result.request }
        ensures goes { Progresses self.old self.new result.count result.request }
    {
        match self.open_run {
            Some(open_run) => self.join(open_run, slice, ended),
            None => self.codes(slice, ended, store),
        }
    }
}

/// Returns that `count` bytes were consumed, with what their last code requests.
#[inline(always)]
fn took(count: usize, request: Request) -> Taken
    ensures { result ≡ record { count = count; request = request } }
{
    Taken { count, request }
}

/// The stream is refused, and the refusal is kept.
#[derive(Clone, Copy, Drop)]
pub(crate) struct Refused;

/// The answer of a step: whether reading goes on.
pub(crate) type Answer = Result<(), Refused>;
