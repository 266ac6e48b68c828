//! The pages among the bytes of a request.
ghost use Rattle.std.specs.Prelude.{◌≡◌, ◌++◌, ◌∷◌, [], IfOk, decimal, length};
ghost use Rattle.nap_find.specs.Rows.{finds_of, open_of};
ghost use Rattle.nap_command.specs.Finding.{asked_for, find_line, find_lines, finds_text, found_line, open_line};

use itoa::Buffer;
use nap_find::{Asked, Find, find_all};
use std::alloc::{AllocError, Global};

/// The finds of bytes, as text.
#[derive(Drop)]
pub struct FindsText {
    /// A line for each find, and one with the offset below and the number of beginnings that were passed over.
    pub text: Vec<u8>,
    /// The number of finds.
    pub count: usize,
    /// The offset from which on bytes that follow may change the finds.
    pub open: u64,
}

/// Returns what is asked of finds with at least this number of entries.
fn asked_for(least: u32) -> Asked
    ensures { result ≡ asked_for least }
{
    Asked {
        bytes: 2 * least as usize,
        entries: u64::from(least),
        shapes: 1,
    }
}

/// Returns the line with the number of finds.
pub(crate) fn found_line(alloc: Global, count: u64) -> Result<Vec<u8>, AllocError>
    ensures { IfOk result (λ text. text.items ≡ found_line count) }
{
    let line = format!(in alloc; "found {count} pages\n")?;
    Ok(line.into_bytes())
}

/// Appends a number and a byte.
fn write_number(text: &mut Vec<u8>, number: u64, end: u8) -> Result<(), AllocError>
    ensures { IfOk result (λ done. text.new.items ≡ text.old.items ++ (decimal number ++ end ∷ [])) }
{
    let mut digits = Buffer::new();
    text.extend_from_slice(digits.format(number).as_bytes())?;
    text.push(end)?;
    Ok(())
}

/// Appends the line of a find.
fn write_find(text: &mut Vec<u8>, find: &Find) -> Result<(), AllocError>
    ensures { IfOk result (λ done. text.new.items ≡ text.old.items ++ find_line find.now) }
{
    write_number(text, find.begin, b' ')?;
    write_number(text, find.end, b'\n')
}

/// Appends the lines of finds.
fn write_finds(text: &mut Vec<u8>, finds: &[Find]) -> Result<(), AllocError>
    ensures { IfOk result (λ done. text.new.items ≡ text.old.items ++ find_lines finds.now) }
{
    for find in finds {
        write_find(text, find)?;
    }
    Ok(())
}

/// Appends the last line.
fn write_open(text: &mut Vec<u8>, place: u64, passed: u64) -> Result<(), AllocError>
    ensures { IfOk result (λ done. text.new.items ≡ text.old.items ++ open_line place passed) }
{
    text.extend_from_slice(b"open ")?;
    write_number(text, place, b' ')?;
    text.extend_from_slice(b"passed ")?;
    write_number(text, passed, b'\n')
}

/// Returns the pages among some bytes that have at least this number of entries (docs/FINDING.md).
pub fn find_pages(alloc: Global, least: u32, bytes: &[u8]) -> Result<FindsText, AllocError>
    ensures text { IfOk result (λ found. found.text.items ≡ finds_text least bytes.now) }
    ensures count { IfOk result (λ found. found.count ≡ length (finds_of (asked_for least) bytes.now)) }
    ensures open { IfOk result (λ found. found.open ≡ open_of (asked_for least) bytes.now) }
{
    let found = find_all(alloc, asked_for(least), bytes)?;
    let mut text = Vec::new(alloc);
    write_finds(&mut text, found.finds.as_slice())?;
    write_open(&mut text, found.open, found.passed)?;
    Ok(FindsText {
        text,
        count: found.finds.len(),
        open: found.open,
    })
}
