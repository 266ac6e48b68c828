//! `list` on its input, which it keeps since it reads it twice, and its output.
ghost use Rattle.std.specs.Prelude.{◌≡◌, ◌+◌, ◌<◌, ◌≤◌, ◌^◌, ℕ, List, false, true, vec_capacity, MatchResult};
ghost use Rattle.std.specs.Io.KnownBytes.{Appends, Consumes, Keeps};
ghost use Rattle.nap_list.specs.Flushing.{FlushedOnce, flush_count};
ghost use Rattle.nap_list.specs.Limits.{reads_limit};
ghost use Rattle.nap_list.specs.Reading.{IsReadWhole, Reading, reading};
ghost use Rattle.nap_lines.specs.Printing.{Closes, line_memory};
ghost use Rattle.nap_command.specs.Commands.{EndsListed, EndsSo, Fails, IsStream};

use crate::answer::{Ending, Verdict, bytes_of_hex};
use crate::command::{Action, Command};
use crate::device::read_whole;
use crate::execution::print_found;
use crate::failure::Failure;
use nap_lines::{LINE_MEMORY, LinePrinter};
use nap_list::{CountSink, Inlet, Outlet};
use nap_reader::{TwiceFault, read_twice};
use std::alloc::Global;

/// A page, and the memory in which its lines are made.
#[derive(Drop)]
struct KeptPage {
    page: Vec<u8>,
    memory: Vec<u8>,
    ghost enough: { line_memory ≤ vec_capacity memory },
}

/// Returns the bytes of the page that a command reads, those of its input or those that its hexadecimal text spells,
/// with the memory for its lines.
fn read_page<I: Inlet>(alloc: Global, command: &Command, input: &mut I) -> Result<KeptPage, Failure>
    requires { I.calls input.old < 2 ^ 63 }
    ensures few { I.calls input.new ≤ I.calls input.old + reads_limit }
    ensures read { let seen = reading I.Inlet input.old input.new in
        (p : List ℕ) × Consumes (I.left input.old) (I.left input.new) p
        × MatchResult result (λ kept. IsReadWhole seen p × IsStream command.now.hex p kept.page.items) (Fails command.now p seen) }
{
    let text = read_whole(alloc, input)?;
    let page = if command.hex {
        bytes_of_hex(alloc, text.as_slice())?
    } else {
        text
    };
    let memory = Vec::with_capacity(alloc, LINE_MEMORY)?;
    Ok(KeptPage { page, memory })
}

/// The count of a page's entries in both readings.
type CountedTwice = Result<CountSink, TwiceFault>;

/// Flushes the output of `list`, unless a write has failed, and returns how the command ends.
fn end_list<O: Outlet>(output: &mut O, written: u64, read: CountedTwice) -> Ending
    ensures taken { Keeps (O.taken output.old) (O.taken output.new) }
    ensures failed { O.failed output.old ≡ true → O.failed output.new ≡ true }
    ensures sent { O.failed output.new ≡ false → O.sent output.new ≡ true }
    ensures flushes { O.flushes output.new ≡ flush_count (O.failed output.old) (O.flushes output.old) }
    ensures write_failed { O.write_failed output.new ≡ O.write_failed output.old }
    ensures answer { EndsSo read written (O.failed output.new) result }
{
    if output.failed() || output.flush().is_err() {
        return Err(Failure::Write(written));
    }
    match read {
        Ok(_) => Ok(Verdict::Accepted),
        Err(TwiceFault::Refused(refusal)) => Err(Failure::Refused(refusal)),
        Err(TwiceFault::Memory) => Err(Failure::Memory),
    }
}

/// Returns the output of a printer, and the number of bytes that it took. Sends the buffered lines first if both
/// readings accepted the page.
fn finished<O: Outlet + Drop>(printer: LinePrinter<O>, read: &CountedTwice) -> (O, u64)
    ensures { MatchResult read.now (λ _. Closes O.Outlet printer result.0 result.1) (λ _. (result.0 ≡ printer.outlet) × (result.1 ≡ printer.written)) }
{
    match read {
        Ok(_) => printer.close(),
        Err(_) => printer.stop(),
    }
}

/// Prints the lines of a page where it is accepted, and flushes the output.
fn print_lines<O: Outlet + Drop>(
    alloc: Global,
    command: &Command,
    kept: KeptPage,
    output: O,
) -> (O, Ending)
    requires list { command.now.action ≡ Action.List }
    requires works { O.failed output ≡ false }
    ensures ends { (q : List ℕ) × Appends (O.taken output) (O.taken result.0) q
        × ((p : List ℕ) (seen : Reading) → IsReadWhole seen p → IsStream command.now.hex p kept.page.items → EndsListed command.now p seen q (O.failed result.0) result.1) }
    ensures sends { O.failed result.0 ≡ false → O.sent result.0 ≡ true }
    ensures flushes { FlushedOnce O.Outlet output result.0 }
{
    let KeptPage { page, memory } = kept;
    let printer = LinePrinter::new(memory, output);
    let (printer, read) = read_twice(
        alloc,
        command.budget,
        page.as_slice(),
        (CountSink::new(), printer),
    );
    let (mut output, written) = finished(printer, &read);
    let answer = end_list(&mut output, written, read);
    (output, answer)
}

/// Prints the lines of the page that the input gives: once all of it is accepted, as they are made. Flushes the output,
/// also if nothing is printed. A failed output replaces an earlier failure.
pub(crate) fn print_list<I: Inlet, O: Outlet + Drop>(
    alloc: Global,
    command: &Command,
    input: &mut I,
    output: O,
) -> (O, Ending)
    requires calls { I.calls input.old < 2 ^ 63 }
    requires list { command.now.action ≡ Action.List }
    requires works { O.failed output ≡ false }
    ensures few { I.calls input.new ≤ I.calls input.old + reads_limit }
    ensures ends { let seen = reading I.Inlet input.old input.new in
        (p : List ℕ) × (q : List ℕ) × Consumes (I.left input.old) (I.left input.new) p × Appends (O.taken output) (O.taken result.0) q
        × EndsListed command.now p seen q (O.failed result.0) result.1 }
    ensures sends { O.failed result.0 ≡ false → O.sent result.0 ≡ true }
    ensures flushes { FlushedOnce O.Outlet output result.0 }
{
    match read_page(alloc, command, input) {
        Ok(kept) => print_lines(alloc, command, kept, output),
        Err(failure) => print_found(output, Err(failure)),
    }
}
