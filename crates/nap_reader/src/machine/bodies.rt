//! Macro bodies, from the name to their end (PROFILE.md, Macros).
ghost use Rattle.std.specs.Prelude.{◌≡◌, ◌⊎◌, ◌<◌, [], None, Some, MatchResult, OnOk, ℕ, List, false, true};

use super::{Answer, Machine};
use crate::body::{OpenBody, body_prefix_len, ends_body};
use crate::fault::Fault;
use crate::input::Input;
use nap_list::Sink;

/// The next byte.
#[derive(Clone, Copy, Drop)]
pub(super) struct Next {
    pub(super) byte: u8,
    pub(super) place: u64,
}

impl<S: Sink> Machine<S> {
    ghost use Rattle.nap_reader.specs.NextBytes.{IsNextByte, Reads, next_bytes, AfterEscape};
    ghost use Rattle.nap_reader.specs.Pieces.{Goes, StopsFrom};
    ghost use Rattle.nap_reader.specs.Steps.{IsLive};

    /// Consumes bytes of the body that is being defined, until it ends or no byte is left.
    #[inline(never)]
    #[tactic(auto, using(crate::proofs::DefineLemmas::next_byte, crate::proofs::DefineLemmas::after_escape, crate::proofs::NextByteLemmas::can_pass, crate::proofs::FurtherLemmas::goes_nowhere, crate::proofs::FurtherLemmas::goes_then, crate::proofs::FurtherLemmas::smaller))]
    pub(super) fn take_body(&mut self, input: &mut Input, piece: &[u8]) -> Answer
        requires live { IsLive self.old }
        requires reads { Reads input.old piece.now }
        ensures live { OnOk result (IsLive self.new) }
        ensures run { OnOk result (self.old.open_run ≡ None → self.new.open_run ≡ None) }
        ensures ends { OnOk result ((input.new.body ≡ None) ⊎ (next_bytes input.new piece.now ≡ [])) }
        ensures goes { MatchResult result (λ _. Goes piece.now 0 self.old input.old self.new input.new) (λ _. StopsFrom piece.now self.old input.old self.new input.new) }
    {
        while let Some(body) = input.body {
            let Some((slice, _)) = input.next_slice(piece) else {
                return Ok(());
            };
            let next = Next {
                byte: slice.bytes[0],
                place: slice.place,
            };
            if next.byte >= 0x80 {
                return self.refuse_next(input, Fault::EighthBit, next.place);
            }
            match body.escape {
                None => self.keep(input, body, next, piece)?,
                Some(_) if ends_body(next.byte) => self.end_body(input, body, next)?,
                Some(_) => self.keep_escape(input, body, next, piece)?,
            }
        }
        Ok(())
    }

    /// Consumes an ESC as undecided, or all bytes of the body up to one.
    #[inline(always)]
    #[tactic(auto, using(crate::proofs::NextByteLemmas::can_pass, crate::proofs::FurtherLemmas::next_same, crate::proofs::FurtherLemmas::same_input))]
    fn keep(&mut self, input: &mut Input, body: OpenBody, next: Next, piece: &[u8]) -> Answer
        requires live { IsLive self.old }
        requires open { input.old.body ≡ Some (record body { escape = None }) }
        requires next { IsNextByte input.old piece.now next.byte next.place }
        requires low { next.byte < 0x80 }
        ensures live { OnOk result (IsLive self.new) }
        ensures run { OnOk result (self.old.open_run ≡ None → self.new.open_run ≡ None) }
        ensures goes { MatchResult result (λ _. Goes piece.now 1 self.old input.old self.new input.new) (λ _. StopsFrom piece.now self.old input.old self.new input.new) }
    {
        if next.byte == 0x1B {
            input.set_body(body.name, body.show, Some(next.place));
            input.advance(1);
            return Ok(());
        }
        let space = input.store.space_left();
        let Some((slice, _)) = input.next_slice(piece) else {
            return Ok(());
        };
        let count = body_prefix_len(slice.bytes);
        if count > space {
            let place = slice.place_of(space);
            input.advance(space);
            input.advance(1);
            return self.refuse(Fault::Store, place);
        }
        let Ok(()) = input.keep(count, piece) else {
            return self.refuse_next(input, Fault::Memory, next.place);
        };
        Ok(())
    }

    /// Adds the undecided ESC to the body, since this byte doesn't end the body after it. Adds the byte too, or keeps
    /// it as undecided if it is an ESC.
    fn keep_escape(&mut self, input: &mut Input, body: OpenBody, next: Next, piece: &[u8]) -> Answer
        requires live { IsLive self.old }
        requires following { AfterEscape input.old body next.byte false }
        requires next { IsNextByte input.old piece.now next.byte next.place }
        requires low { next.byte < 0x80 }
        ensures live { OnOk result (IsLive self.new) }
        ensures run { OnOk result (self.old.open_run ≡ None → self.new.open_run ≡ None) }
        ensures goes { MatchResult result (λ _. Goes piece.now 1 self.old input.old self.new input.new) (λ _. StopsFrom piece.now self.old input.old self.new input.new) }
    {
        let space = input.store.space_left();
        if space == 0 {
            let place = body.escape.unwrap_or(next.place);
            return self.refuse_next(input, Fault::Store, place);
        }
        if space == 1 && next.byte != 0x1B {
            return self.refuse_next(input, Fault::Store, next.place);
        }
        let Ok(()) = input.keep_escape(body) else {
            return self.refuse_next(input, Fault::Memory, next.place);
        };
        if next.byte == 0x1B {
            input.set_body(body.name, body.show, Some(next.place));
            input.advance(1);
            return Ok(());
        }
        let Ok(()) = input.keep(1, piece) else {
            return self.refuse_next(input, Fault::Memory, next.place);
        };
        Ok(())
    }

    /// Ends the open body, by the undecided ESC and the next byte.
    fn end_body(&mut self, input: &mut Input, body: OpenBody, next: Next) -> Answer
        requires live { IsLive self.old }
        requires following { AfterEscape input.old body next.byte true }
        requires next { (piece : List ℕ) × IsNextByte input.old piece next.byte next.place }
        ensures live { OnOk result (IsLive self.new) }
        ensures closed { self.new.open_run ≡ None }
        ensures over { OnOk result (input.new.body ≡ None) }
        ensures goes { (piece : List ℕ) → IsNextByte input.old piece next.byte next.place →
            MatchResult result (λ _. Goes piece 0 self.old input.old self.new input.new) (λ _. StopsFrom piece self.old input.old self.new input.new) }
    {
        // No run is open in a body.
        self.open_run = None;
        if !body.show {
            input.bind(body.name);
            // No code is half-read in a body.
            self.lexer.escape();
            return Ok(());
        }
        input.advance(1);
        match input.show(body.name, next.byte, next.place) {
            Ok(()) => Ok(()),
            Err(fault) => self.refuse(fault, next.place),
        }
    }
}
