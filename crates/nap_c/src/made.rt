//! Answers for lines that make a page.
ghost use Rattle.std.specs.Prelude.{◌≡◌};
ghost use Rattle.nap_c.specs.Answers.{AnswersMaking, answer_of_fault, made_answer, unmade_answer};

use crate::answer::{ACCEPTED, REFUSED, SMALL, copy_if_fits};
use nap_make::{MakeFault, page_of_lines};
use std::alloc::Global;

/// Fault: a line is no entry's.
const NO_LINE: u32 = 1;

/// Fault: the entry of a line doesn't fit.
const MISFIT: u32 = 2;

/// Fault: the definition that a line opens isn't ended.
const OPEN: u32 = 3;

/// Fault: memory ran out.
const NO_MEMORY: u32 = 4;

/// The answer to a call on lines, as C sees it.
#[repr(C)]
#[derive(Clone, Copy, Drop)]
pub struct Made {
    /// 0 they make a page, 1 they make none, 2 the room is too small for the page.
    pub status: u32,
    /// Why they make none: 1 a line is no entry's, 2 an entry doesn't fit, 3 a definition isn't ended, 4 memory ran
    /// out; or 0.
    pub fault: u32,
    /// The wrong line, or the last one if a definition isn't ended, counted from 1; or 0.
    pub line: u64,
    /// The column of a line that is no entry's, counted from 1; or 0.
    pub column: u64,
    /// The line that opens the definition that isn't ended, counted from 1; or 0.
    pub opening: u64,
    /// The number of bytes of the page.
    pub length: u64,
    /// The number of entries of the page.
    pub count: u64,
}

impl Made {
    /// Returns the answer for lines that make a page with this number of bytes and entries.
    fn made_answer(length: u64, count: u64) -> Made
        ensures { result ≡ made_answer length count }
    {
        Made {
            status: ACCEPTED,
            fault: 0,
            line: 0,
            column: 0,
            opening: 0,
            length,
            count,
        }
    }

    /// Returns the answer for lines that make no page.
    fn unmade_answer(fault: u32, line: u64, column: u64, opening: u64) -> Made
        ensures { result ≡ unmade_answer fault line column opening }
    {
        Made {
            status: REFUSED,
            fault,
            line,
            column,
            opening,
            ..Made::made_answer(0, 0)
        }
    }

    /// Returns the answer for a fault of lines. A failed write to memory is lack of memory.
    fn answer_of_fault(fault: MakeFault) -> Made
        ensures { result ≡ answer_of_fault fault }
    {
        match fault {
            MakeFault::Line { line, column } => {
                Made::unmade_answer(NO_LINE, line as u64, column as u64, 0)
            }
            MakeFault::Misfit { line } => Made::unmade_answer(MISFIT, line as u64, 0, 0),
            MakeFault::Open { line, opening } => Made::unmade_answer(
                OPEN,
                line as u64,
                0,
                opening as u64,
            ),
            _ => Made::unmade_answer(NO_MEMORY, 0, 0, 0),
        }
    }
}

/// Copies the page that lines make to a room.
#[unsafe(no_mangle)]
pub extern "C" fn naplps_make(alloc: Global, lines: &[u8], room: &mut [u8]) -> Made
    ensures { AnswersMaking lines.now room.old room.new result }
{
    match page_of_lines(alloc, lines) {
        Ok(page) => {
            let text = page.text.as_slice();
            let made = Made::made_answer(text.len() as u64, page.count as u64);
            if copy_if_fits(text, room) {
                return made;
            }
            Made {
                status: SMALL,
                ..made
            }
        }
        Err(fault) => Made::answer_of_fault(fault),
    }
}
