//! Execution of an opcode, a character or a control on a copy of the work.
ghost use Rattle.std.specs.Prelude.{IfOk, IsErrOf, OnOk, false, length, take, true, ◌≡◌, ◌≤◌};
ghost use Rattle.nap_draw.specs.Names.{IsCode, StatesAgree, operand_words};
ghost use Rattle.nap_draw.specs.Acts.{WantsBy};
ghost use Rattle.nap_draw.specs.Codes.{code_rule, IsMade};
ghost use Rattle.nap_draw.specs.Draws.{Draws, without_clear};
ghost use Rattle.nap_draw.specs.Limits.{run_limit};
ghost use Rattle.nap_draw.specs.Rule.{rule, IsDrawn};
ghost use Rattle.nap_codes.specs.declared.code.Code.TheVariants as codes;

use crate::fault::DrawFault;
use crate::work::{Effects, RUN_LIMIT, Work};
use nap_codes::{CharSet, Code, Opcode};
use nap_list::Sink;
use nap_values::Word;
use std::alloc::Global;

/// Returns the work after a character of the set, whose byte is from `20` to `7F`, and puts its entry into the sink;
/// the work passed is unchanged.
pub fn text<S: Sink>(work: &Work, set: CharSet, code: u8, sink: &mut S) -> Result<Work, DrawFault>
    requires agrees { StatesAgree work.now.state (S.state sink.old) }
    requires made { IsCode code }
    ensures draws { Draws S.took S.broke S.failed (code_rule work.now (codes.Char set code)) sink.old sink.new (without_clear result) }
    ensures agree { IfOk result (λ next. StatesAgree next.state (S.state sink.new)) }
    ensures memory { IsErrOf result DrawFault.Memory → WantsBy S.Sink (code_rule work.now (codes.Char set code)) sink.old sink.new }
    ensures failed { IsErrOf result DrawFault.Sink → S.failed sink.new ≡ true }
    ensures clear { OnOk result (S.failed sink.old ≡ false → S.failed sink.new ≡ false) }
{
    let mut next = work.copy();
    next.text(set, code, sink)?;
    Ok(next)
}

/// Returns the work after a character or a control, and puts its entries into the sink; the work passed is unchanged.
/// Opcodes, operand words and codes without a rule change nothing (PROFILE.md, Characters and controls).
pub fn control<S: Sink>(work: &Work, code: &Code, sink: &mut S) -> Result<Work, DrawFault>
    requires agrees { StatesAgree work.now.state (S.state sink.old) }
    requires made { IsMade code.now }
    ensures draws { Draws S.took S.broke S.failed (code_rule work.now code.now) sink.old sink.new (without_clear result) }
    ensures agree { IfOk result (λ next. StatesAgree next.state (S.state sink.new)) }
    ensures memory { IsErrOf result DrawFault.Memory → WantsBy S.Sink (code_rule work.now code.now) sink.old sink.new }
    ensures failed { IsErrOf result DrawFault.Sink → S.failed sink.new ≡ true }
    ensures clear { OnOk result (S.failed sink.old ≡ false → S.failed sink.new ≡ false) }
{
    let mut next = work.copy();
    next.control(code, sink)?;
    Ok(next)
}

/// Returns the effects of an opcode on its complete run, and puts its entries into the sink once all checks have
/// passed; the work passed is unchanged (PROFILE.md, Opcodes). A refused opcode puts nothing. If memory runs out or the
/// sink fails, the sink may have some of the first entries. The incremental opcodes aren't in the profile. `act` does
/// the same on bytes.
pub fn apply<S: Sink>(
    alloc: Global,
    work: &Work,
    op: Opcode,
    run: &[Word],
    sink: &mut S,
) -> Result<Effects, DrawFault>
    requires agrees { StatesAgree work.now.state (S.state sink.old) }
    requires few { length run.now ≤ run_limit }
    requires drawn { IsDrawn op }
    ensures draws { Draws S.took S.broke S.failed (rule work.now op run.now) sink.old sink.new result }
    ensures agree { IfOk result (λ effects. StatesAgree effects.work.state (S.state sink.new)) }
    ensures failed { IsErrOf result DrawFault.Sink → S.failed sink.new ≡ true }
    ensures clear { OnOk result (S.failed sink.old ≡ false → S.failed sink.new ≡ false) }
{
    let mut next = work.copy();
    let mut scratch = Vec::new(alloc);
    let bytes = word_bytes(run);
    let clears = next.act(alloc, &mut scratch, op, &bytes[..run.len()], sink)?;
    Ok(Effects { work: next, clears })
}

/// Returns the words of a run, one to a byte, padded with zero bytes. The array is on the stack, so that no refused
/// opcode can lack memory.
fn word_bytes(run: &[Word]) -> [u8; RUN_LIMIT]
    requires { length run.now ≤ run_limit }
    ensures { operand_words (take (length run.now) result) ≡ run.now }
{
    let mut bytes = [0; RUN_LIMIT];
    for at in 0..run.len() {
        bytes[at] = run[at].get();
    }
    bytes
}
