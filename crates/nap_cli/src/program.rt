//! The program on its command line.
ghost use Rattle.std.specs.Prelude.{map, string_bytes};
ghost use Rattle.clap.specs.Values.{kind_of};
ghost use Rattle.nap_command.specs.Devices.{Ready, devices};
ghost use Rattle.nap_cli.specs.Explaining.{Explains, outputs};
ghost use Rattle.nap_cli.specs.CommandLine.{AnswersWords};

use crate::words::{Job, parse};
use crate::wrong::text_of;
use clap::Error;
use clap::error::ErrorKind;
use nap_command::batch::batch;
use nap_command::{Failure, execute, execute_make, report, write_whole};
use nap_list::{Inlet, Outlet};
use std::alloc::Global;

/// Prints help to the output. Reports a wrong command line on standard error, and leaves the output unchanged.
fn explain<O: Outlet, E: Outlet>(
    alloc: Global,
    words: &[String],
    error: Error,
    output: O,
    errors: &mut E,
) -> (O, u8)
    ensures { let seen = outputs O.Outlet E.Outlet in
        Explains (kind_of error) (seen output errors.old) (seen result.0 errors.new) result.1 }
{
    let Ok(text) = text_of(alloc, words, &error) else {
        return (output, report(Failure::Memory, errors));
    };
    if error.kind() == ErrorKind::OutOfMemory {
        return (output, report(Failure::Memory, errors));
    }
    if error.use_stderr() {
        let _ = write_whole(errors, text.as_slice());
        return (output, 2);
    }
    let mut output = output;
    match write_whole(&mut output, text.as_slice()) {
        Ok(()) => (output, 0),
        Err(fault) => (output, report(fault, errors)),
    }
}

/// Runs the program on its words, without its own name. Returns the output and the exit status (PROFILE.md, The
/// command).
pub fn run<I: Inlet, O: Outlet + Drop, E: Outlet>(
    alloc: Global,
    words: &[String],
    input: &mut I,
    output: O,
    errors: &mut E,
) -> (O, u8)
    requires { Ready I.Inlet O.Outlet input.old output }
    ensures { AnswersWords I.Inlet (map string_bytes words.now) input.old input.new (devices I.Inlet O.Outlet E.Outlet input.old output errors.old)
        (devices I.Inlet O.Outlet E.Outlet input.new result.0 errors.new) result.1 }
{
    match parse(alloc, words) {
        Ok(Job::Page(command)) => execute(alloc, &command, input, output, errors),
        Ok(Job::Make(stream)) => execute_make(alloc, stream, input, output, errors),
        Ok(Job::Batch) => {
            let mut output = output;
            let status = batch(alloc, input, &mut output, errors);
            (output, status)
        }
        Err(error) => explain(alloc, words, error, output, errors),
    }
}
