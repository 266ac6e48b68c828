//! A file of rows.
use crate::report::Report;
use crate::row::Row;
use crate::trial::check;
use std::alloc::{AllocError, Global};
use std::rt::Files;
use std::{fs, io};

/// Why the checks end before all rows were tried.
#[derive(Drop)]
pub enum Trouble {
    /// Memory ran out.
    Memory,
    /// Standard output failed.
    Output,
    /// A file, with this name, wasn't read.
    Unread(String),
}

/// Returns what is wrong with the row of a line, or an empty text.
fn check_line(alloc: Global, line: &str) -> Result<String, AllocError> {
    let mut report = Report::new(alloc);
    let row = Row::parse(&mut report, line)?;
    if report.is_well() {
        check(&mut report, &row)?;
    }
    report.is_complete()?;
    Ok(report.text)
}

/// Checks the rows of a text, and prints those that disagree. Returns the number of these. A line that begins with `#`,
/// and an empty one, is no row.
fn check_text(rt: &(impl Print + AllocGlobal), name: &str, text: &str) -> Result<u64, Trouble> {
    let mut wrong: u64 = 0;
    let mut number: u64 = 0;
    for line in text.lines() {
        number = number.saturating_add(1);
        let line = line.trim();
        if line.is_empty() || line.starts_with('#') {
            continue;
        }
        let Ok(what) = check_line(rt.alloc(), line) else {
            return Err(Trouble::Memory);
        };
        if !what.is_empty() {
            wrong = wrong.saturating_add(1);
            if println!(rt; "{name}:{number}: {what}").is_err() {
                return Err(Trouble::Output);
            }
        }
    }
    Ok(wrong)
}

/// Checks the rows of a file, and returns the number of those that disagree.
pub fn check_file(rt: &(impl Files + Print + AllocGlobal), name: &String) -> Result<u64, Trouble> {
    match fs::read_to_string(rt, name) {
        Ok(text) => check_text(rt, name, &text),
        Err(error) => match format!(in rt.alloc(); "{name}: {error}") {
            Ok(text) => Err(Trouble::Unread(text)),
            Err(AllocError) => Err(Trouble::Memory),
        },
    }
}
