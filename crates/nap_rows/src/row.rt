//! A stream with what is wanted of it.
use crate::notation::{MOST, bytes_of};
use crate::report::Report;
use nap_reader::Budget;
use std::alloc::AllocError;

/// How a sink stops the reading.
#[derive(Clone, Copy, Drop)]
pub struct Stop {
    /// The place of the refusal.
    pub place: u64,
    /// The number of bytes read before it, unless it comes at the end.
    pub fed: Option<u64>,
    /// The number of turns before it.
    pub turns: Option<u64>,
}

/// A stream with what is wanted of it.
#[derive(Drop)]
pub struct Row<'a> {
    /// The bytes of the stream.
    pub stream: Vec<u8>,
    /// What is wanted beside the list and the canonical stream.
    more: &'a str,
    /// The budget under which it is read.
    pub budget: Budget,
}

/// Splits a text at the first of these characters, where it has one.
fn parted(text: &str, at: char) -> (&str, &str) {
    text.split_once(at).unwrap_or((text, ""))
}

/// Parses a decimal number.
fn number(report: &mut Report, text: &str) -> u64 {
    match text.trim().parse::<u64>() {
        Ok(number) => number,
        Err(_) => {
            report.tell("that is no number");
            0
        }
    }
}

/// Parses how a sink stops the reading: `PLACE/TAKEN/TURNS`, without TURNS or with it, and without TAKEN at the end.
fn stop_of(report: &mut Report, word: &str) -> Stop {
    let Some((place, taken)) = word.split_once('/') else {
        return Stop {
            place: number(report, word),
            fed: None,
            turns: None,
        };
    };
    let (fed, turns) = taken.split_once('/').unwrap_or((taken, taken));
    Stop {
        place: number(report, place),
        fed: Some(number(report, fed)),
        turns: Some(number(report, turns)),
    }
}

/// Parses a count, or `-` for any.
fn count(report: &mut Report, text: &str) -> Option<u64> {
    if text.trim() == "-" {
        return None;
    }
    Some(number(report, text))
}

/// Parses a budget.
fn budget(report: &mut Report, text: &str) -> Budget {
    let bytes = u32::try_from(number(report, text)).unwrap_or(u32::MAX);
    let budget = Budget::new(bytes);
    report.check(budget.is_some(), "no budget is as large as that");
    budget.unwrap_or(Budget::usual())
}

impl<'a> Row<'a> {
    /// Parses the row of a line. Its list and its canonical stream or its refusal, in the second and the third field,
    /// are nothing to it.
    pub fn parse(report: &mut Report, line: &'a str) -> Result<Row<'a>, AllocError> {
        let (stream, rest) = parted(line, '|');
        let (_, rest) = parted(rest, '|');
        let (_, more) = parted(rest, '|');
        let mut row = Row {
            stream: bytes_of(report, stream)?,
            more,
            budget: Budget::usual(),
        };
        if let Some(text) = row.item("budget") {
            row.budget = budget(report, text);
        }
        Ok(row)
    }

    /// Returns what follows this word in the last of its items, if there is one.
    fn item(&self, word: &str) -> Option<&'a str> {
        let mut last = None;
        for item in self.more.split(',') {
            let (found, rest) = parted(item.trim(), ' ');
            if found == word {
                last = Some(rest);
            }
        }
        last
    }

    /// Returns how sinks stop the reading, by an item of this name, if there is one.
    pub fn stops(&self, report: &mut Report, name: &str) -> Result<Vec<Stop>, AllocError> {
        let mut stops = Vec::new(report.alloc);
        let text = self.item(name).unwrap_or("");
        for word in text.split_whitespace() {
            let (word, times) = parted(word, '*');
            let stop = stop_of(report, word);
            let times = if times.is_empty() {
                1
            } else {
                number(report, times)
            };
            for _ in 0..times.min(MOST as u64) {
                stops.push(stop)?;
            }
        }
        Ok(stops)
    }

    /// Returns the wanted number of bytes read, if the row says so.
    pub fn fed(&self, report: &mut Report) -> Option<u64> {
        count(report, self.item("fed")?)
    }

    /// Returns how much is charged, if the row says so.
    pub fn charged(&self, report: &mut Report) -> Option<u64> {
        count(report, self.item("charged").unwrap_or("0"))
    }

    /// Returns the wanted number of turns for `fed` bytes, if there is one.
    pub fn turns(&self, report: &mut Report, fed: u64) -> Option<u64> {
        match self.item("turns") {
            Some(text) => count(report, text),
            None if self.charged(report) == Some(0) => Some(fed),
            None => None,
        }
    }
}
