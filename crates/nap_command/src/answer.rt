//! What each command prints (PROFILE.md, The command).
ghost use Rattle.std.specs.Prelude.{◌≡◌, ◌+◌, ◌<◌, ◌≤◌, ◌^◌, ◌++◌, ◌∷◌, [], ℕ, List, true, false, Err, IfOk, MatchResult};
ghost use Rattle.std.specs.Io.KnownBytes.{Consumes};
ghost use Rattle.nap_list.specs.Limits.{reads_limit};
ghost use Rattle.nap_list.specs.Reading.{reading};
ghost use Rattle.nap_canon.specs.PageTexts.{refusal_of_text};
ghost use Rattle.nap_canon.specs.Sinking.{StartsText};
ghost use Rattle.nap_command.specs.Failures.{failure_text, verdict_status};
ghost use Rattle.nap_command.specs.Commands.{Fails, FailsToSpell, Finds, Denies, IsStream, PrintsBy, PrintsCount, canon_text, count_line, is_blank};

use crate::command::{Action, Command};
use crate::device::read_whole;
use crate::failure::Failure;
use hex::FromHexError;
use nap_canon::{CanonSink, refusal_of_text};
use nap_lines::LineSink;
use nap_list::{CountSink, Inlet, Outlet, Target};
use nap_reader::{Refusal, read_input, read_stream};
use std::alloc::{AllocError, Global};

/// What a printed answer says about the stream.
#[derive(Clone, Copy, PartialEq, Eq, Drop)]
pub enum Verdict {
    /// The stream is accepted.
    Accepted,
    /// The stream is refused.
    Refused,
}

/// What a command prints, with what it says about the stream.
#[derive(Drop)]
pub(crate) struct Printout {
    /// The bytes to print.
    pub text: Vec<u8>,
    /// Whether the stream is accepted.
    pub verdict: Verdict,
}

/// What a command prints, or why it prints nothing.
pub(crate) type Found = Result<Printout, Failure>;

/// How a command ends.
pub(crate) type Ending = Result<Verdict, Failure>;

impl Verdict {
    /// Returns the exit status.
    pub fn status(self) -> u8
        ensures { result ≡ verdict_status self }
    {
        match self {
            Verdict::Accepted => 0,
            Verdict::Refused => 1,
        }
    }
}

/// Whether hexadecimal text may have this byte between digits: a space, a tab, CR or LF.
fn is_blank(byte: u8) -> bool
    ensures { result ≡ is_blank byte }
{
    byte == b' ' || byte == b'\t' || byte == b'\r' || byte == b'\n'
}

/// Returns the bytes that hexadecimal text spells, in digits of either case.
pub(crate) fn bytes_of_hex(alloc: Global, text: &[u8]) -> Result<Vec<u8>, Failure>
    ensures { MatchResult result (λ stream. IsStream true text.now stream.items) (FailsToSpell text.now) }
{
    let digits: Vec<u8> = text
        .iter()
        .copied()
        .filter(|byte| !is_blank(*byte))
        .collect(alloc)?;
    match hex::decode(alloc, digits.as_slice()) {
        Ok(bytes) => Ok(bytes),
        Err(FromHexError::OutOfMemory) => Err(Failure::Memory),
        Err(_) => Err(Failure::Hex),
    }
}

/// Returns the line with the number of entries.
pub(crate) fn count_line(alloc: Global, count: u64) -> Result<Vec<u8>, AllocError>
    ensures { IfOk result (λ text. text.items ≡ count_line count) }
{
    let line = format!(in alloc; "accepted {count} entries\n")?;
    Ok(line.into_bytes())
}

/// Returns the line that reports a failure, with LF.
pub(crate) fn failure_line(alloc: Global, failure: Failure) -> Result<Vec<u8>, AllocError>
    ensures { IfOk result (λ text. text.items ≡ failure_text failure ++ 10 ∷ []) }
{
    Vec::from_slice(alloc, failure.line().as_bytes())
}

/// Returns what `check` prints of a page whose entries were counted.
fn print_count(alloc: Global, found: Result<CountSink, Refusal>) -> Found
    ensures { MatchResult result (λ a. PrintsCount found a.text.items a.verdict) (λ f. f ≡ Failure.Memory) }
{
    match found {
        Ok(sink) => Ok(Printout {
            text: count_line(alloc, sink.count())?,
            verdict: Verdict::Accepted,
        }),
        Err(refusal) => Ok(Printout {
            text: failure_line(alloc, Failure::Refused(refusal))?,
            verdict: Verdict::Refused,
        }),
    }
}

/// A sink of canonical text in memory.
type TextSink = CanonSink<Target<Vec<u8>>>;

/// Returns a sink with the header of its text. A failed write to memory is lack of memory.
fn begin_text<O: Outlet + Drop>(outlet: O) -> Result<CanonSink<O>, Failure>
    requires { O.failed outlet ≡ false }
    ensures { MatchResult result (λ s. StartsText O.Outlet outlet s × (O.failed s.outlet ≡ false)) (λ f. f ≡ Failure.Memory) }
{
    let sink = CanonSink::new(outlet);
    if sink.failed() {
        return Err(Failure::Memory);
    }
    Ok(sink)
}

/// Returns the text that `canon` prints: the canonical text, or the line of digits that spells it.
fn canon_text(alloc: Global, hex: bool, text: Vec<u8>) -> Result<Vec<u8>, AllocError>
    ensures { IfOk result (λ printed. printed.items ≡ canon_text hex text.items) }
{
    if !hex {
        return Ok(text);
    }
    let mut line = hex::encode(alloc, text.as_slice())?;
    line.push('\n')?;
    Ok(line.into_bytes())
}

/// Returns what `canon` prints of a page whose text was written to memory as it was read.
fn print_text(alloc: Global, hex: bool, found: Result<TextSink, Refusal>) -> Found
    ensures { MatchResult found
        (λ s. MatchResult result (λ a. (a.text.items ≡ canon_text hex s.outlet.writer.items) × (a.verdict ≡ Verdict.Accepted)) (λ f. f ≡ Failure.Memory))
        (λ r. result ≡ Err (Failure.Refused (refusal_of_text r))) }
{
    match found {
        Ok(sink) => Ok(Printout {
            text: canon_text(alloc, hex, sink.close().into_inner())?,
            verdict: Verdict::Accepted,
        }),
        Err(refusal) => Err(Failure::Refused(refusal_of_text(refusal))),
    }
}

/// Returns what a command prints of a stream.
pub(crate) fn answer_stream(alloc: Global, command: &Command, stream: &[u8]) -> Found
    ensures { MatchResult result (λ a. PrintsBy command.now.action command.now stream.now a.text.items a.verdict) (Denies command.now stream.now) }
{
    let budget = command.budget;
    match command.action {
        Action::List => {
            let sink = read_stream(alloc, budget, stream, LineSink::new(alloc))?;
            Ok(Printout {
                text: sink.into_text(),
                verdict: Verdict::Accepted,
            })
        }
        Action::Check => print_count(alloc, read_stream(alloc, budget, stream, CountSink::new())),
        Action::Canon => {
            let sink = begin_text(Target::new(Vec::new(alloc)))?;
            print_text(alloc, command.hex, read_stream(alloc, budget, stream, sink))
        }
    }
}

/// Returns what a command prints of the hexadecimal text that an input gives.
pub(crate) fn answer_text<I: Inlet>(alloc: Global, command: &Command, input: &mut I) -> Found
    requires calls { I.calls input.old < 2 ^ 63 }
    requires text { command.now.hex ≡ true }
    ensures few { I.calls input.new ≤ I.calls input.old + reads_limit }
    ensures found { let seen = reading I.Inlet input.old input.new in
        (p : List ℕ) × Consumes (I.left input.old) (I.left input.new) p
        × MatchResult result (λ a. Finds command.now p seen a.text.items a.verdict) (Fails command.now p seen) }
{
    let text = read_whole(alloc, input)?;
    let stream = bytes_of_hex(alloc, text.as_slice())?;
    answer_stream(alloc, command, stream.as_slice())
}

/// Returns what a command prints of the bytes that an input gives, none of which is kept.
// Kept out of the caller, whose frame would hold its buffers.
#[inline(never)]
pub(crate) fn answer_input<I: Inlet>(alloc: Global, command: &Command, input: &mut I) -> Found
    requires calls { I.calls input.old < 2 ^ 63 }
    requires bytes { command.now.hex ≡ false }
    ensures few { I.calls input.new ≤ I.calls input.old + reads_limit }
    ensures found { let seen = reading I.Inlet input.old input.new in
        (p : List ℕ) × Consumes (I.left input.old) (I.left input.new) p
        × MatchResult result (λ a. Finds command.now p seen a.text.items a.verdict) (Fails command.now p seen) }
{
    let budget = command.budget;
    match command.action {
        Action::List => {
            let sink = read_input(alloc, budget, input, LineSink::new(alloc))??;
            Ok(Printout {
                text: sink.into_text(),
                verdict: Verdict::Accepted,
            })
        }
        Action::Check => print_count(alloc, read_input(alloc, budget, input, CountSink::new())?),
        Action::Canon => {
            let sink = begin_text(Target::new(Vec::new(alloc)))?;
            match read_input(alloc, budget, input, sink)? {
                Ok(sink) => Ok(Printout {
                    text: sink.close().into_inner(),
                    verdict: Verdict::Accepted,
                }),
                Err(refusal) => Err(Failure::Refused(refusal_of_text(refusal))),
            }
        }
    }
}
