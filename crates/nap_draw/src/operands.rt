//! Operands of a run, and the checks that come before its points (PROFILE.md, Operands).
ghost use Rattle.std.specs.Prelude.{Err, IfErr, IfOk, List, OnOk, Result, drop, length, slice_get, slice_index, unwrap_or, ◌%◌, ◌≡◌};
ghost use Rattle.nap_draw.specs.Names.{Coordinates, Displacement, operand_words};
ghost use Rattle.nap_draw.specs.declared.fault.DrawFault.{DrawFault};
ghost use Rattle.nap_draw.specs.Operands.{moves};
ghost use Rattle.nap_draw.specs.Rule.{RuleResult, moves_of, with_operands, with_pairs, from_pen};
ghost use Rattle.nap_draw.specs.Draws.{stream, draw_cause};

use crate::fault::{DrawFault, Drawn};
use crate::work::Work;
use nap_values::{Domain, Move, Point, Word, multi_bytes};

/// Refuses a run without operands as Missing.
pub(crate) fn require_operand(work: &Work, run: &[u8]) -> Drawn
    ensures ok { IfOk result (λ _. (f : List Displacement → Result RuleResult DrawFault) → with_operands work.now (operand_words run.now) f ≡ f (moves_of work.now (operand_words run.now))) }
    ensures err { IfErr result (λ fault. (draw_cause fault ≡ stream) × ((f : List Displacement → Result RuleResult DrawFault) → with_operands work.now (operand_words run.now) f ≡ Err fault)) }
{
    if run.is_empty() {
        return Err(DrawFault::Missing);
    }
    Ok(())
}

/// Refuses a run without pairs of operands, or with half a pair, as Missing.
pub(crate) fn require_pairs(work: &Work, run: &[u8]) -> Drawn
    ensures ok { IfOk result (λ _. (f : List Displacement → Result RuleResult DrawFault) → with_pairs work.now (operand_words run.now) f ≡ f (moves_of work.now (operand_words run.now))) }
    ensures even { OnOk result (length (moves_of work.now (operand_words run.now)) % 2 ≡ 0) }
    ensures err { IfErr result (λ fault. (draw_cause fault ≡ stream) × ((f : List Displacement → Result RuleResult DrawFault) → with_pairs work.now (operand_words run.now) f ≡ Err fault)) }
{
    let count = operand_count(work.domain, run);
    if count == 0 || count % 2 == 1 {
        return Err(DrawFault::Missing);
    }
    Ok(())
}

/// Returns the point of the pen. Refuses a run without operands as Missing, and then an unknown pen as PenUnknown.
pub(crate) fn require_start(work: &Work, run: &[u8]) -> Result<Point, DrawFault>
    ensures ok { IfOk result (λ p. (f : Coordinates → List Displacement → Result RuleResult DrawFault) → from_pen work.now (operand_words run.now) f ≡ f p (moves_of work.now (operand_words run.now))) }
    ensures err { IfErr result (λ fault. (draw_cause fault ≡ stream) × ((f : Coordinates → List Displacement → Result RuleResult DrawFault) → from_pen work.now (operand_words run.now) f ≡ Err fault)) }
{
    if run.is_empty() {
        return Err(DrawFault::Missing);
    }
    work.pen_point()
}

/// Returns the number of multi-value operands of the run.
pub(crate) fn operand_count(domain: Domain, run: &[u8]) -> usize
    ensures { result ≡ length (moves domain.multi (operand_words run.now)) }
{
    run.len().div_ceil(usize::from(domain.multi()))
}

/// Returns the first multi-value operand, if there is one.
pub(crate) fn first_move(domain: Domain, run: &[u8]) -> Option<Move>
    ensures { result ≡ slice_get (moves domain.multi (operand_words run.now)) 0 }
{
    let size = domain.multi();
    let operand = run.chunks(usize::from(size)).next()?;
    Some(multi_bytes(operand))
}

/// Returns the word of the byte at an index, or zero after the end of the run.
pub(crate) fn word_at(run: &[u8], index: usize) -> Word
    ensures { result ≡ slice_index (operand_words run.now) index }
{
    word_or(run, index, Word::ZERO)
}

/// Returns the bytes of the run from an index on.
pub(crate) fn words_from(run: &[u8], index: usize) -> &[u8]
    ensures { result.now ≡ drop index run.now }
{
    run.get(index..).unwrap_or(&[])
}

/// Returns the word of the byte at an index, or `other` after the end of the run.
pub(crate) fn word_or(run: &[u8], index: usize, other: Word) -> Word
    ensures { result ≡ unwrap_or (slice_get (operand_words run.now) index) other }
{
    match run.get(index) {
        Some(byte) => Word::of_byte(*byte),
        None => other,
    }
}
