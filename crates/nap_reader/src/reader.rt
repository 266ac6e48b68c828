//! The reader of a stream in pieces.
ghost use Rattle.std.specs.Prelude.{◌≡◌, ◌≢◌, ◌+◌, ◌^◌, ◌<◌, ◌≤◌, ℕ, List, [], ◌++◌, None, Some, Err, true, false, length, OnOk, IfOk, IfErr, IsSome, IsErrAnd, MatchResult};
ghost use Rattle.std.specs.Option.{ForNone};
ghost use Rattle.nap_reader.specs.Names.{StatesAgree, StatesAgree-prop, start};
ghost use Rattle.std.proofs.Props.{props};

use crate::budget::Budget;
use crate::fault::{Fault, Refusal};
use crate::input::Input;
use crate::machine::{Machine, Refused};
use crate::prefix::{operand_prefix_len, text_bytes};
use nap_list::Sink;
use std::alloc::Global;

/// Reads a stream in any pieces, and puts its entries into a sink as they are read (PROFILE.md, How a stream is read).
/// After a refusal each further call answers the same refusal.
#[derive(Drop)]
pub struct Reader<S: Sink> {
    machine: Machine<S>,
    input: Input,
    ghost rested: { ForNone machine.refusal (input.frames.stack.items ≡ []) } by { Prim.hlevel props },
    ghost agrees: { ForNone machine.refusal (StatesAgree machine.work.state (S.state machine.sink)) } by { Prim.hlevel (props, StatesAgree-prop machine.work.state (S.state machine.sink)) },
}

impl<S: Sink> Reader<S> {
    ghost use Rattle.nap_reader.specs.Stream.{Outcome, means, with_code};
    ghost use Rattle.nap_draw.specs.Draws.{stream};
    ghost use Rattle.nap_reader.specs.Breaking.{BreaksInRun, cause_of};
    ghost use Rattle.nap_reader.specs.ReadingStates.{Ends, IsOwn};
    ghost use Rattle.nap_reader.specs.Pieces.{HasMemory, HasMemoryOf, Overcharges};
    ghost use Rattle.nap_reader.specs.Steps.{IsSpared};
    ghost use Rattle.nap_reader.specs.ReaderAnswers.{Answers, IsBounded, IsTaken, HasRead, StopsAt, budget_of, charged_of, fed_of, left_of, refusal_of, sink_of, turns_of};
    ghost use Rattle.nap_reader.specs.Looking.{AddsAhead, CountsAhead, bytes_ahead};

    /// Returns a reader at the start of a stream, which puts the entries into this sink. Takes no memory.
    pub fn new(alloc: Global, budget: Budget, sink: S) -> Reader<S>
        requires { S.state sink ≡ start }
        ensures has_read { HasRead result sink [] }
        ensures sink { sink_of result ≡ sink }
        ensures budget { budget_of result ≡ budget }
        ensures unrefused { refusal_of result ≡ None }
        ensures fed { fed_of result ≡ 0 }
        ensures turns { turns_of result ≡ 0 }
        ensures charged { charged_of result ≡ 0 }
    {
        Reader {
            machine: Machine::new(alloc, sink),
            input: Input::new(alloc, budget),
        }
    }

    /// Returns a reader at the start of a stream, as `new` returns it, and the sink of this one. It has memory for another
    /// reading of the stream that this one has read; if there is none, both sinks come back.
    pub(crate) fn again<T: Sink + Drop>(
        self,
        budget: Budget,
        sink: T,
    ) -> Result<(S, Reader<T>), (S, T)>
    where
        S: Drop,
        requires { T.state sink ≡ start }
        ensures failed { IfErr result (λ sinks. (sinks.0 ≡ sink_of self) × (sinks.1 ≡ sink)) }
        ensures first { IfOk result (λ pair. pair.0 ≡ sink_of self) }
        ensures has_read { IfOk result (λ pair. HasRead pair.1 sink []) }
        ensures sink { IfOk result (λ pair. sink_of pair.1 ≡ sink) }
        ensures budget { IfOk result (λ pair. budget_of pair.1 ≡ budget) }
        ensures unrefused { IfOk result (λ pair. refusal_of pair.1 ≡ None) }
        ensures fed { IfOk result (λ pair. fed_of pair.1 ≡ 0) }
        ensures memory { IfOk result (λ pair. HasMemoryOf self pair.1) }
    {
        let Reader { machine, input } = self;
        let (first, machine) = machine.again(sink)?;
        match input.again(budget) {
            Ok(input) => Ok((first, Reader { machine, input })),
            Err(_) => Err((first, machine.into_sink())),
        }
    }

    /// Reads the next piece of the stream. The error is the refusal of the stream so far, after which nothing more is
    /// read.
    pub fn feed(&mut self, piece: &[u8]) -> Result<(), Refusal>
        requires { fed_of self.old + length piece.now < 2 ^ 63 }
        // The reader has read the bytes so far, also if it refuses.
        ensures has_read { (s : S) (p : List ℕ) → HasRead self.old s p → HasRead self.new s (p ++ piece.now) }
        ensures budget { budget_of self.new ≡ budget_of self.old }
        ensures answered { MatchResult result (λ _. refusal_of self.new ≡ None) (λ r. refusal_of self.new ≡ Some r) }
        // A refusal is kept, and nothing changes after it.
        ensures latched { (r : Refusal) → refusal_of self.old ≡ Some r → (result ≡ Err r) × (self.new ≡ self.old) }
        ensures failed { IfErr result (λ r. refusal_of self.old ≡ None → r.fault ≡ Fault.Sink → S.failed (sink_of self.new) ≡ true) }
        ensures kept { IfErr result (λ r. r.fault ≢ Fault.Sink → S.failed (sink_of self.old) ≡ false → S.failed (sink_of self.new) ≡ false) }
        ensures clear { OnOk result (S.failed (sink_of self.old) ≡ false → S.failed (sink_of self.new) ≡ false) }
        // A reader that was promised memory lacks it only if more is charged.
        ensures lacks { IfErr result (λ r. refusal_of self.old ≡ None → r.fault ≡ Fault.Memory → HasMemory self.old → Overcharges self.old piece.now) }
        ensures spared { OnOk result (IsSpared self.old.machine → IsSpared self.new.machine) }
        // All of the piece was consumed, or the bytes up to the refused one.
        ensures fed { OnOk result (fed_of self.new ≡ fed_of self.old + length piece.now) }
        ensures stops { IfErr result (λ r. refusal_of self.old ≡ None → (i : ℕ) × StopsAt self.old self.new piece.now r i) }
        // The bytes that were charged are read, unless the stream is refused before.
        ensures turns { OnOk result (turns_of self.old ≡ fed_of self.old + charged_of self.old → turns_of self.new ≡ fed_of self.new + charged_of self.new) }
        ensures turned { turns_of self.new ≤ fed_of self.new + charged_of self.new }
        ensures more_turns { turns_of self.old ≤ turns_of self.new }
    {
        if let Some(refusal) = self.machine.refusal {
            return Err(refusal);
        }
        match self.machine.read(&mut self.input, piece) {
            Ok(()) => Ok(()),
            Err(Refused) => self.kept_refusal(),
        }
    }

    /// Returns the refusal of a refused stream.
    fn kept_refusal(&self) -> Result<(), Refusal>
        requires { IsSome self.now.machine.refusal }
        ensures { IsErrAnd result (λ r. self.now.machine.refusal ≡ Some r) }
    {
        match self.machine.refusal {
            Some(refusal) => Err(refusal),
            None => Ok(()),
        }
    }

    /// Ends the stream: executes an open run, and refuses what is unfinished.
    pub(crate) fn end(&mut self) -> Result<(), Refusal>
        ensures latched { (r : Refusal) → self.old.machine.refusal ≡ Some r → (result ≡ Err r) × (self.new ≡ self.old) }
        ensures ended { OnOk result ((s : S) (p : List ℕ) → HasRead self.old s p →
            IsTaken S.Sink s (means (budget_of self.old) p) self.new.machine.sink None) }
        ensures refused { IfErr result (λ r. IsOwn r → (s : S) (p : List ℕ) → HasRead self.old s p →
            IsTaken S.Sink s (means (budget_of self.old) p) self.new.machine.sink (Some r)) }
        ensures breaks { IfErr result (λ r. self.old.machine.refusal ≡ None → cause_of r.fault ≢ stream → (s : S) (p : List ℕ) → HasRead self.old s p →
            BreaksInRun S.Sink s (budget_of self.old) p self.new.machine.sink r) }
        ensures failed { IfErr result (λ r. self.old.machine.refusal ≡ None → r.fault ≡ Fault.Sink → S.failed self.new.machine.sink ≡ true) }
        ensures kept { IfErr result (λ r. S.failed self.old.machine.sink ≡ false → S.failed self.new.machine.sink ≡ true → r.fault ≡ Fault.Sink) }
        ensures clear { OnOk result (S.failed self.old.machine.sink ≡ false → S.failed self.new.machine.sink ≡ false) }
        ensures lacks { IfErr result (λ r. self.old.machine.refusal ≡ None → IsSpared self.old.machine → r.fault ≢ Fault.Memory) }
        ensures input { self.new.input ≡ self.old.input }
    {
        if let Some(latched) = self.machine.refusal {
            return Err(latched);
        }
        if let Some(_) = self.input.body {
            return Err(Refusal {
                fault: Fault::Unended,
                place: self.input.fed,
            });
        }
        if let Err(refusal) = self.machine.end_run() {
            self.machine.refusal = Some(refusal);
            return Err(refusal);
        }
        self.check_finished()
    }

    /// Refuses what is unfinished at the end, where no run and no body is open.
    fn check_finished(&mut self) -> Result<(), Refusal>
        requires { self.old.machine.refusal ≡ None }
        ensures ended { OnOk result ((s : S) (o : Outcome) → Ends S.Sink s o self.old.machine.sink self.old.machine.work self.old.machine.lexer.half →
            IsTaken S.Sink s (with_code o self.old.input.fed o.unfinished) self.new.machine.sink None) }
        ensures refused { IfErr result (λ r. IsOwn r × ((s : S) (o : Outcome) → Ends S.Sink s o self.old.machine.sink self.old.machine.work self.old.machine.lexer.half →
            IsTaken S.Sink s (with_code o self.old.input.fed o.unfinished) self.new.machine.sink (Some r))) }
        ensures sink { self.new.machine.sink ≡ self.old.machine.sink }
        ensures input { self.new.input ≡ self.old.input }
    {
        if !self.machine.lexer.at_rest() {
            return Err(Refusal {
                fault: Fault::Cut,
                place: self.input.fed,
            });
        }
        if self.machine.work.state.definition.is_some() {
            return Err(Refusal {
                fault: Fault::Unended,
                place: self.input.fed,
            });
        }
        Ok(())
    }

    /// Ends the stream. Returns the sink with all entries, or the refusal with the sink that has the entries before it.
    pub fn finish(self) -> Result<S, Stopped<S>>
        ensures ok { IfOk result (λ t. (s : S) (p : List ℕ) → HasRead self s p → IsTaken S.Sink s (means (budget_of self) p) t None) }
        ensures err { IfErr result (λ e. IsOwn e.refusal → (s : S) (p : List ℕ) → HasRead self s p →
            IsTaken S.Sink s (means (budget_of self) p) e.sink (Some e.refusal)) }
        // Memory and device failures here can only come from the open run.
        ensures breaks { IfErr result (λ e. refusal_of self ≡ None → cause_of e.refusal.fault ≢ stream → (s : S) (p : List ℕ) → HasRead self s p →
            BreaksInRun S.Sink s (budget_of self) p e.sink e.refusal) }
        ensures latched { (r : Refusal) → refusal_of self ≡ Some r → result ≡ Err (record { sink = sink_of self; refusal = r }) }
        ensures failed { IfErr result (λ e. refusal_of self ≡ None → e.refusal.fault ≡ Fault.Sink → S.failed e.sink ≡ true) }
        ensures kept { IfErr result (λ e. e.refusal.fault ≢ Fault.Sink → S.failed (sink_of self) ≡ false → S.failed e.sink ≡ false) }
        ensures clear { IfOk result (λ t. S.failed (sink_of self) ≡ false → S.failed t ≡ false) }
    {
        let mut reader = self;
        let ended = reader.end();
        let sink = reader.into_sink();
        match ended {
            Ok(()) => Ok(sink),
            Err(refusal) => Err(Stopped { sink, refusal }),
        }
    }

    /// Returns the sink.
    pub fn sink(&self) -> &S
        ensures now { result.now ≡ sink_of self.now }
        ensures list { (s : S) (p : List ℕ) → HasRead self.now s p →
            Answers S.Sink s (budget_of self.now) p result.now (left_of self.now) (refusal_of self.now) }
    {
        &self.machine.sink
    }

    /// Returns the sink. An open run doesn't act.
    pub fn into_sink(self) -> S
        ensures now { result ≡ sink_of self }
        ensures list { (s : S) (p : List ℕ) → HasRead self s p →
            Answers S.Sink s (budget_of self) p result (left_of self) (refusal_of self) }
    {
        let Reader { machine, input: _ } = self;
        machine.into_sink()
    }

    /// Returns the refusal of the stream so far, if it is refused.
    pub fn refused(&self) -> Option<Refusal>
        ensures { result ≡ refusal_of self.now }
    {
        self.machine.refusal
    }

    /// Returns how many bytes of the stream were consumed.
    pub fn fed(&self) -> u64
        ensures { result ≡ fed_of self.now }
    {
        self.input.fed
    }

    /// Returns how many bytes were consumed, of the stream and of macro bodies.
    pub fn turns(&self) -> u64
        ensures count { result ≡ turns_of self.now }
        ensures within { result ≤ fed_of self.now + charged_of self.now }
        ensures fed { fed_of self.now ≤ result }
        // The bytes that were charged were read, unless the stream is refused.
        ensures all { (s : S) (p : List ℕ) → HasRead self.now s p → refusal_of self.now ≡ None → result ≡ fed_of self.now + charged_of self.now }
    {
        self.input.turns
    }

    /// Returns how many bytes of macro bodies were charged.
    pub fn charged(&self) -> u64
        ensures count { result ≡ charged_of self.now }
        ensures within { result ≤ budget_of self.now }
        // No more bodies are being read, and no more bytes beside those of bodies are stored, than were charged.
        ensures bounded { IsBounded self.now }
    {
        self.input.charged
    }

    /// Returns what the first bytes of this piece add, if it comes next. The reader is unchanged.
    #[tactic(auto, using(crate::proofs::AheadLemmas::counted_within))]
    pub fn ahead(&self, piece: &[u8]) -> Ahead
        ensures some { 0 < length piece.now → 0 < bytes_ahead result }
        ensures within { bytes_ahead result ≤ length piece.now }
        ensures adds_entries { refusal_of self.now ≡ None → (s : S) (p : List ℕ) → HasRead self.now s p →
            AddsAhead (budget_of self.now) p piece.now result }
        ensures counts { CountsAhead self.now piece.now result }
    {
        let Some(byte) = piece.first() else {
            return Ahead::First(0);
        };
        if let Some(_) = self.input.body {
            return Ahead::First(1);
        }
        if *byte < 0x40 {
            if let Some(_) = self.machine.lexer.opcode(*byte) {
                return Ahead::First(1 + operand_prefix_len(&piece[1..]));
            }
        }
        if let Some(_) = self.machine.lexer.char_set() {
            let count = text_bytes(piece).len();
            if count > 0 {
                return Ahead::Each(count);
            }
        }
        Ahead::First(1)
    }
}

/// The sink of a reader that stopped, and why it stopped.
#[derive(Debug, Drop)]
pub struct Stopped<S> {
    /// The sink, with the entries before the refusal.
    pub sink: S,
    /// The refusal.
    pub refusal: Refusal,
}

/// How many bytes of a prefix of a piece add their entries in one way.
#[derive(Clone, Copy, PartialEq, Eq, Debug, Drop)]
pub enum Ahead {
    /// An opcode and operands, or another byte: the number of bytes, of which those after the first add no entries.
    First(usize),
    /// Characters and format effectors: the number of bytes, each of which adds one entry.
    Each(usize),
}
