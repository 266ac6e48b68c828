//! Execution of a command on its input and outputs (PROFILE.md, The command).
ghost use Rattle.std.specs.Prelude.{◌≡◌, ◌+◌, ◌<◌, ◌≤◌, ◌^◌, ℕ, List, [], true, false, Ok, Err, MatchResult};
ghost use Rattle.std.specs.Io.KnownBytes.{Appends, Consumes};
ghost use Rattle.nap_list.specs.Flushing.{FlushedOnce};
ghost use Rattle.nap_list.specs.Limits.{reads_limit};
ghost use Rattle.nap_list.specs.Reading.{reading};
ghost use Rattle.nap_command.specs.Devices.{Ready, devices};
ghost use Rattle.nap_command.specs.Commands.{IsPrinted, Ran, Reports, verdict_of_conversion};
ghost use Rattle.nap_command.specs.Making.{FailsToMake, FindsPage, Made, failure_of, verdict_of_page};

use crate::answer::{Ending, Found, Printout, Verdict, answer_input, answer_text};
use crate::command::{Action, Command};
use crate::device::write_whole;
use crate::failure::Failure;
use crate::listing::print_list;
use nap_canon::{ConvertFault, convert};
use nap_list::{Inlet, Outlet};
use nap_make::{ListFault, MakeFault, PageFault, make_page, page_of_input};
use std::alloc::Global;

/// Reports a failure on standard error, and returns its exit status. A failed write to standard error changes nothing.
pub fn report<E: Outlet>(failure: Failure, errors: &mut E) -> u8
    ensures { (e : List ℕ) × Appends (E.taken errors.old) (E.taken errors.new) e × Reports e (E.failed errors.new) (Err failure) result }
{
    let line = failure.line();
    let _ = write_whole(errors, line.as_bytes());
    failure.status()
}

/// Reports the failure of a command that ended with one, and returns the exit status.
pub(crate) fn report_end<E: Outlet>(ended: Ending, errors: &mut E) -> u8
    ensures { (e : List ℕ) × Appends (E.taken errors.old) (E.taken errors.new) e × Reports e (E.failed errors.new) ended result }
{
    match ended {
        Ok(verdict) => verdict.status(),
        Err(failure) => report(failure, errors),
    }
}

/// Prints what was found, and flushes the output, also if that is nothing. A failed output replaces an earlier failure.
pub(crate) fn print_found<O: Outlet + Drop>(output: O, found: Found) -> (O, Ending)
    requires { O.failed output ≡ false }
    ensures ends { (q : List ℕ) × Appends (O.taken output) (O.taken result.0) q
        × MatchResult found (λ a. IsPrinted a.text.items (Ok a.verdict) q (O.failed result.0) result.1) (λ f. IsPrinted [] (Err f) q (O.failed result.0) result.1) }
    ensures sends { O.failed result.0 ≡ false → O.sent result.0 ≡ true }
    ensures flushes { FlushedOnce O.Outlet output result.0 }
{
    let mut output = output;
    match found {
        Ok(printout) => match write_whole(&mut output, printout.text.as_slice()) {
            Ok(()) => (output, Ok(printout.verdict)),
            Err(fault) => (output, Err(fault)),
        },
        Err(failure) => match write_whole(&mut output, &[]) {
            Ok(()) => (output, Err(failure)),
            Err(fault) => (output, Err(fault)),
        },
    }
}

/// Returns how a command ends that converts a page.
fn verdict_of_conversion(converted: Result<u64, ConvertFault>) -> Ending
    ensures { result ≡ verdict_of_conversion converted }
{
    match converted {
        Ok(_) => Ok(Verdict::Accepted),
        Err(ConvertFault::Refused { refusal, .. }) => Err(Failure::Refused(refusal)),
        Err(ConvertFault::Read { .. }) => Err(Failure::Read),
        Err(ConvertFault::Write { written }) => Err(Failure::Write(written)),
    }
}

/// Executes a command on its input. Returns the output and the exit status (PROFILE.md, The command).
pub fn execute<I: Inlet, O: Outlet + Drop, E: Outlet>(
    alloc: Global,
    command: &Command,
    input: &mut I,
    output: O,
    errors: &mut E,
) -> (O, u8)
    requires { Ready I.Inlet O.Outlet input.old output }
    ensures { Ran I.Inlet command.now input.old input.new (devices I.Inlet O.Outlet E.Outlet input.old output errors.old)
        (devices I.Inlet O.Outlet E.Outlet input.new result.0 errors.new) result.1 }
{
    if command.stream {
        if command.hex {
            return (output, report_end(Err(Failure::Excluded), errors));
        }
        let (output, converted) = convert(alloc, input, output, command.budget);
        return (output, report_end(verdict_of_conversion(converted), errors));
    }
    if command.action == Action::List {
        let (output, ended) = print_list(alloc, command, input, output);
        return (output, report_end(ended, errors));
    }
    let found = if command.hex {
        answer_text(alloc, command, input)
    } else {
        answer_input(alloc, command, input)
    };
    let (output, ended) = print_found(output, found);
    (output, report_end(ended, errors))
}

/// Returns the failure of `make` whose lines make no page. A failed write to memory is lack of memory.
pub(crate) fn lines_failure(fault: MakeFault) -> Failure
    ensures { result ≡ failure_of fault }
{
    match fault {
        MakeFault::Line { line, column } => Failure::Line(line as u64, column as u64),
        MakeFault::Misfit { line } => Failure::Misfit(line as u64),
        MakeFault::Open { line, opening } => Failure::Open(line as u64, opening as u64),
        _ => Failure::Memory,
    }
}

/// Returns the page that the lines of an input make.
// Kept out of the caller, whose frame would hold its buffer.
#[inline(never)]
fn find_page<I: Inlet>(alloc: Global, input: &mut I) -> Found
    requires { I.calls input.old < 2 ^ 63 }
    ensures few { I.calls input.new ≤ I.calls input.old + reads_limit }
    ensures found { let seen = reading I.Inlet input.old input.new in
        (p : List ℕ) × Consumes (I.left input.old) (I.left input.new) p
        × MatchResult result (λ page. FindsPage p seen page.text.items page.verdict) (FailsToMake p seen) }
{
    match page_of_input(alloc, input) {
        Ok(text) => Ok(Printout {
            text,
            verdict: Verdict::Accepted,
        }),
        Err(ListFault::Lines(fault)) => Err(lines_failure(fault)),
        Err(ListFault::Read) => Err(Failure::Read),
    }
}

/// Returns how `make` ends that prints as it reads.
fn verdict_of_page(made: Result<u64, PageFault>) -> Ending
    ensures { result ≡ verdict_of_page made }
{
    match made {
        Ok(_) => Ok(Verdict::Accepted),
        Err(PageFault::Lines { fault, .. }) => Err(lines_failure(fault)),
        Err(PageFault::Read { .. }) => Err(Failure::Read),
        Err(PageFault::Write { written }) => Err(Failure::Write(written)),
    }
}

/// Executes `make` on its input, printing as it reads or at the end. Returns the output and the exit status.
pub fn execute_make<I: Inlet, O: Outlet + Drop, E: Outlet>(
    alloc: Global,
    stream: bool,
    input: &mut I,
    output: O,
    errors: &mut E,
) -> (O, u8)
    requires { Ready I.Inlet O.Outlet input.old output }
    ensures { Made stream (devices I.Inlet O.Outlet E.Outlet input.old output errors.old)
        (devices I.Inlet O.Outlet E.Outlet input.new result.0 errors.new) result.1 }
{
    if stream {
        let (output, made) = make_page(alloc, input, output);
        return (output, report_end(verdict_of_page(made), errors));
    }
    let (output, ended) = print_found(output, find_page(alloc, input));
    (output, report_end(ended, errors))
}
