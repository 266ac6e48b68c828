//! Reading of all of an input, and writing of all of a text.
ghost use Rattle.std.specs.Prelude.{◌≡◌, ◌+◌, ◌^◌, ◌<◌, ◌≤◌, ◌||◌, ℕ, List, true, false, IfOk, is_err, length, MatchResult};
ghost use Rattle.std.specs.Io.KnownBytes.{Consumes};
ghost use Rattle.nap_list.specs.Flushing.{FlushedOnce};
ghost use Rattle.nap_list.specs.Limits.{reads_limit};
ghost use Rattle.nap_list.specs.Reading.{IsReadWhole, reading};
ghost use Rattle.nap_command.specs.Devices.{FailsReading, TakesText};

use crate::failure::Failure;
use nap_list::{Inlet, Outlet, READ_SIZE, READS, send_all};
use std::alloc::Global;

/// Reads an input to its end and returns its bytes.
// Kept out of the caller, whose frame would hold its buffer.
#[inline(never)]
pub(crate) fn read_whole<I: Inlet>(alloc: Global, input: &mut I) -> Result<Vec<u8>, Failure>
    requires { I.calls input.old < 2 ^ 63 }
    ensures read { let seen = reading I.Inlet input.old input.new in
        (p : List ℕ) × Consumes (I.left input.old) (I.left input.new) p
        × MatchResult result (λ bytes. (bytes.items ≡ p) × IsReadWhole seen p) (FailsReading seen p) }
    ensures few { I.calls input.new ≤ I.calls input.old + reads_limit }
    ensures small { IfOk result (λ bytes. length bytes.items < 2 ^ 63) }
{
    let mut bytes = Vec::new(alloc);
    let mut buffer = [0; READ_SIZE];
    for _ in 0..READS {
        let Ok(count) = input.read(&mut buffer) else {
            return Err(Failure::Read);
        };
        if count == 0 {
            return Ok(bytes);
        }
        bytes.extend_from_slice(&buffer[..count])?;
    }
    Err(Failure::Read)
}

/// Writes all of a text, and flushes the output.
pub fn write_whole<O: Outlet>(output: &mut O, text: &[u8]) -> Result<(), Failure>
    ensures takes { TakesText (O.taken output.old) (O.taken output.new) text.now result }
    ensures failed { O.failed output.new ≡ (O.failed output.old || is_err result) }
    ensures sent { IfOk result (λ done. O.sent output.new ≡ true) }
    ensures flushes { O.write_failed output.old ≡ false → FlushedOnce O.Outlet output.old output.new }
{
    let mut taken = 0;
    if send_all(output, &mut taken, text).is_err() || output.flush().is_err() {
        return Err(Failure::Write(taken));
    }
    Ok(())
}
