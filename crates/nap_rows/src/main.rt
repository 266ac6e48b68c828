//! Checks the streams of tables where only Rust can: cuts, what is charged, and sinks and outlets with little space.
//! Its arguments name the tables, a file each.
//!
//! A row is a line `STREAM | LIST | CANONICAL` of a stream that is accepted, or `STREAM | LIST | refused 10 Outside at 3`
//! of one that is refused. Scripts try the program with LIST, CANONICAL and the refusal. A line that begins with `#`
//! is a comment, an empty one is nothing.
//!
//! STREAM is bytes: hexadecimal digits, texts in quotes as `"A"`, and groups in brackets. `40*7` is seven times 40,
//! `(26 52)*3` three times 26 52.
//!
//! A fourth field has more, with `,` between: `budget N` (else the usual one), `charged N` (else 0), `turns N` (else as
//! many as bytes, if nothing is charged), `fed N` bytes read. `charged -` and `turns -` are any number. `stops` and
//! `breaks` say where sinks and outlets with little space stop the reading.
#![tactic(auto)]

mod answer;
mod notation;
mod outlets;
mod report;
mod row;
mod stops;
mod table;
mod trial;

use std::process::ExitCode;
use std::rt::Files;
use std::{env, io};
use table::{Trouble, check_file};

/// Checks the tables of these files, and prints each row that disagrees. Returns the number of these.
fn check_all(rt: &(impl Files + Print + AllocGlobal), names: &[String]) -> Result<u64, Trouble> {
    let mut wrong: u64 = 0;
    for name in names {
        wrong = wrong.saturating_add(check_file(rt, name)?);
    }
    Ok(wrong)
}

/// Prints how the checks ended, and returns the exit status.
fn conclude(rt: &(impl Print + Eprint), checked: Result<u64, Trouble>) -> io::Result<u8> {
    let trouble = match checked {
        Ok(0) => {
            println!(rt; "every row agrees")?;
            return Ok(0);
        }
        Ok(wrong) => {
            println!(rt; "{wrong} rows disagree")?;
            return Ok(1);
        }
        Err(Trouble::Unread(text)) => {
            eprintln!(rt; "{text}")?;
            return Ok(1);
        }
        Err(Trouble::Memory) => "no memory",
        Err(Trouble::Output) => "standard output failed",
    };
    eprintln!(rt; "{trouble}")?;
    Ok(3)
}

fn main(rt: HostRuntime) -> io::Result<ExitCode> {
    let names: Vec<String> = env::args(&rt)?.skip(1).collect(rt.alloc())?;
    let status = conclude(&rt, check_all(&rt, &names))?;
    Ok(ExitCode::from(status))
}
