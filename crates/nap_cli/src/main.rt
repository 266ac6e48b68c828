//! naplps: reads NAPLPS pages and rewrites them in one canonical spelling.
#![tactic(auto)]

mod program;
mod reporting;
mod words;
mod wrong;

use nap_list::{Source, Target};
pub use program::run;
use reporting::Counted;
pub use reporting::run_buffered;
use std::io::BufWriter;
use std::process::ExitCode;
use std::{env, io};

/// The size of the output's buffer in bytes, as many as a pipe takes at once.
const OUTPUT_BUFFER: usize = 65_536;

/// The memory for what most runs report.
const NOTES_SIZE: usize = 1_024;

fn main(rt: HostRuntime) -> io::Result<ExitCode> {
    let alloc = rt.alloc();
    let words = match env::args(&rt) {
        Ok(words) => words.skip(1).collect::<Vec<String>>(alloc).ok(),
        Err(error) if error.kind() == io::ErrorKind::InvalidData => {
            let _ = eprintln!(rt; "error: a word of the command line isn't UTF-8");
            return Ok(ExitCode::from(2));
        }
        Err(_) => None,
    };
    let output = BufWriter::with_capacity(alloc, OUTPUT_BUFFER, Counted::new(rt.stdout()));
    let notes = Vec::with_capacity(alloc, NOTES_SIZE);
    let (Some(words), Ok(output), Ok(notes)) = (words, output, notes) else {
        let _ = eprintln!(rt; "no memory");
        return Ok(ExitCode::from(3));
    };
    let mut input = Source::new(rt.stdin());
    let mut errors = Target::new(rt.stderr());
    let (_, status) = run_buffered(
        alloc,
        words.as_slice(),
        &mut input,
        output,
        notes,
        &mut errors,
    );
    Ok(ExitCode::from(status))
}
