//! Bytes as a row spells them.
use crate::report::Report;
use State::{Between, Counted, High, Quoted};
use std::alloc::{AllocError, Global};

/// The greatest number of bytes of a field.
pub const MOST: usize = 16_777_216;

/// What was read of the current part.
#[derive(Clone, Copy, Drop)]
enum State {
    /// No part is open.
    Between,
    /// The first digit of a byte.
    High(u8),
    /// A quote, and perhaps some characters.
    Quoted,
    /// `*`, and perhaps digits of how often the last part is repeated.
    Counted(Option<usize>),
}

/// The bytes so far.
#[derive(Drop)]
struct Spelling {
    state: State,
    bytes: Vec<u8>,
    /// The indices where the open groups begin.
    groups: Vec<usize>,
    /// The index where the last part begins, if it can be repeated.
    part: Option<usize>,
    /// What is wrong, or empty.
    wrong: &'static str,
}

/// Returns the value of a hexadecimal digit.
fn digit(byte: u8) -> Option<u8> {
    match byte {
        b'0'..=b'9' => Some(byte - b'0'),
        b'A'..=b'F' => Some(byte - b'A' + 10),
        b'a'..=b'f' => Some(byte - b'a' + 10),
        _ => None,
    }
}

impl Spelling {
    fn take(&mut self, byte: u8) -> Result<(), AllocError> {
        match self.state {
            Between => self.begin(byte),
            High(high) => self.end_byte(high, byte),
            Quoted if byte == b'"' => {
                self.state = Between;
                Ok(())
            }
            Quoted => Ok(self.bytes.push(byte)?),
            Counted(count) => self.count(count, byte),
        }
    }

    /// Reads a byte outside a part.
    fn begin(&mut self, byte: u8) -> Result<(), AllocError> {
        match byte {
            b' ' | b'\t' => {}
            b'(' => {
                self.part = None;
                self.groups.push(self.bytes.len())?;
            }
            b')' => {
                self.part = self.groups.pop();
                if self.part.is_none() {
                    self.wrong = "a group ends that didn't begin";
                }
            }
            b'"' => {
                self.part = Some(self.bytes.len());
                self.state = Quoted;
            }
            b'*' if self.part.is_some() => self.state = Counted(None),
            b'*' => self.wrong = "nothing stands before a count",
            _ => match digit(byte) {
                Some(high) => self.state = High(high),
                None => self.wrong = "that is no hexadecimal digit",
            },
        }
        Ok(())
    }

    /// Reads the second digit of a byte.
    fn end_byte(&mut self, high: u8, byte: u8) -> Result<(), AllocError> {
        let Some(low) = digit(byte) else {
            self.wrong = "a byte lacks its second digit";
            return Ok(());
        };
        self.part = Some(self.bytes.len());
        self.state = Between;
        Ok(self.bytes.push(high.wrapping_mul(16) | low)?)
    }

    /// Reads a byte after `*` and perhaps some digits.
    fn count(&mut self, count: Option<usize>, byte: u8) -> Result<(), AllocError> {
        if byte.is_ascii_digit() {
            let tens = count.unwrap_or(0).saturating_mul(10);
            let next = tens.saturating_add((byte - b'0') as usize);
            self.state = Counted(Some(next));
            return Ok(());
        }
        self.repeat(count)?;
        self.begin(byte)
    }

    /// Repeats the last part, so that it is there `count` times.
    fn repeat(&mut self, count: Option<usize>) -> Result<(), AllocError> {
        let (Some(count), Some(start)) = (count, self.part) else {
            self.wrong = "a count has no digits";
            return Ok(());
        };
        let start = start.min(self.bytes.len());
        let part = self.bytes.split_off(start)?;
        if part.len().saturating_mul(count) > MOST {
            self.wrong = "a part is repeated too often";
            return Ok(());
        }
        for _ in 0..count {
            self.bytes.extend_from_slice(&part)?;
        }
        self.part = None;
        self.state = Between;
        Ok(())
    }

    /// Ends the text.
    fn finish(&mut self) -> Result<(), AllocError> {
        match self.state {
            Between => {}
            High(_) => self.wrong = "a byte lacks its second digit",
            Quoted => self.wrong = "a text lacks its second quote",
            Counted(count) => self.repeat(count)?,
        }
        if !self.groups.is_empty() {
            self.wrong = "a group doesn't end";
        }
        if self.bytes.len() > MOST {
            self.wrong = "there are too many bytes";
        }
        Ok(())
    }
}

/// Returns the bytes that a text spells: hexadecimal digits, texts in quotes, and groups in brackets, each repeated as
/// often as a number after `*` says.
pub fn bytes_of(report: &mut Report, text: &str) -> Result<Vec<u8>, AllocError> {
    let mut spelling = Spelling {
        state: Between,
        bytes: Vec::new(report.alloc),
        groups: Vec::new(report.alloc),
        part: None,
        wrong: "",
    };
    for byte in text.as_bytes() {
        spelling.take(*byte)?;
        if !spelling.wrong.is_empty() {
            report.tell(spelling.wrong);
            return Ok(spelling.bytes);
        }
    }
    spelling.finish()?;
    report.check(spelling.wrong.is_empty(), spelling.wrong);
    Ok(spelling.bytes)
}
