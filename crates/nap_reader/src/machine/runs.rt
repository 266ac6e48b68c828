//! The open run.
ghost use Rattle.std.specs.Prelude.{◌≡◌, ◌++◌, ◌+◌, ◌<◌, ◌≤◌, None, Some, length, slice_index, MatchResult, OnErr, OnOk, vec_len, vec_capacity};
ghost use Rattle.nap_reader.specs.Framed.{placed_by_step};
ghost use Rattle.nap_reader.specs.Stream.{refusal};

use super::{Machine, OpenRun, Request, Taken, took};
use crate::fault::Fault;
use crate::input::Slice;
use crate::prefix::operand_prefix_len;
use nap_codes::Opcode;
use nap_draw::RUN_LIMIT;
use nap_list::Sink;
use std::alloc::AllocError;

impl<S: Sink> Machine<S> {
    ghost use Rattle.nap_reader.specs.Steps.{EndsClosed, IsLive, IsOpcodeByte, TakesFrom, Executes, FailsRun, Progresses, Takes};

    /// Opens a run: the opcode is at this index, and the bytes after it are its operands.
    #[inline(never)]
    pub(super) fn open(&mut self, op: Opcode, slice: &Slice, at: usize, ended: bool) -> Taken
        requires live { IsLive self.old }
        requires closed { self.old.open_run ≡ None }
        requires within { at < length slice.now.bytes.now }
        requires is { IsOpcodeByte self.old.lexer.half self.old.lexer.sets (slice_index slice.now.bytes.now at) op }
        ensures some { at < result.count }
        ensures closed { EndsClosed self.new (length slice.now.bytes.now) result.count result.request }
        ensures takes { TakesFrom self.old self.new slice.now.place slice.now.step slice.now.bytes.now at ended result.count result.request }
    {
        let open_run = OpenRun {
            op,
            place: slice.place_of(at),
        };
        self.open_run = Some(open_run);
        self.run.clear();
        let rest = Slice {
            bytes: &slice.bytes[at + 1..],
            place: slice.place_of(at + 1),
            step: slice.step,
        };
        let taken = self.join(open_run, &rest, ended);
        Taken {
            count: at + 1 + taken.count,
            request: taken.request,
        }
    }

    /// Consumes operands of the open run, and executes it once a byte after it is known.
    #[inline(always)]
    pub(super) fn join(&mut self, open_run: OpenRun, slice: &Slice, ended: bool) -> Taken
        requires live { IsLive self.old }
        requires run { self.old.open_run ≡ Some open_run }
        ensures takes { Takes self.old self.new (placed_by_step slice.now.place slice.now.step slice.now.bytes.now) ended result.count result.request }
        ensures goes { 0 < length slice.now.bytes.now → Progresses self.old self.new result.count result.request }
        ensures closed { EndsClosed self.new (length slice.now.bytes.now) result.count result.request }
    {
        let count = operand_prefix_len(slice.bytes);
        let most = RUN_LIMIT - self.run.len();
        if count > most {
            return self.stop(most, Fault::LongRun, open_run.place);
        }
        if append(&mut self.run, &slice.bytes[..count]).is_err() {
            return self.stop(0, Fault::Memory, slice.place);
        }
        if count == slice.bytes.len() && !ended {
            return took(count, Request::Nothing);
        }
        match self.execute(open_run) {
            Ok(clears) => Taken {
                count,
                request: if clears {
                    Request::Clear
                } else {
                    Request::Nothing
                },
            },
            Err(fault) => self.stop(count, fault, open_run.place),
        }
    }

    /// Executes the opcode of the open run, which is complete. Returns whether it unbinds all names.
    pub(super) fn execute(&mut self, open_run: OpenRun) -> Result<bool, Fault>
        requires live { IsLive self.old }
        requires run { self.old.open_run ≡ Some open_run }
        ensures { MatchResult result (λ clears. Executes self.old self.new clears) (λ fault. FailsRun self.old self.new (refusal fault open_run.place)) }
    {
        match self.work.act(
            self.alloc,
            &mut self.scratch,
            open_run.op,
            &self.run,
            &mut self.sink,
        ) {
            Ok(clears) => {
                self.open_run = None;
                Ok(clears)
            }
            Err(fault) => Err(Fault::from(fault)),
        }
    }
}

/// Appends bytes to a run, often one or none.
#[inline(always)]
fn append(run: &mut Vec<u8>, bytes: &[u8]) -> Result<(), AllocError>
    ensures ok { OnOk result (run.new.items ≡ run.old.items ++ bytes.now) }
    ensures err { OnErr result ((run.new.items ≡ run.old.items) × (0 < length bytes.now)) }
    ensures kept { vec_capacity run.old ≤ vec_capacity run.new }
    ensures full { OnErr result (vec_capacity run.old < vec_len run.old + length bytes.now) }
{
    if bytes.len() > 1 {
        return run.extend_from_slice(bytes);
    }
    if let Some(byte) = bytes.first() {
        run.push(*byte)?;
    }
    Ok(())
}
