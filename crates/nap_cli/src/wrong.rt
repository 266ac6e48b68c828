//! Reports of a wrong command line.
ghost use Rattle.std.specs.Prelude.{◌≡◌, IfOk, map, string_bytes, ◌++◌, ◌<◌, true};
ghost use Rattle.std.specs.Char.{digit_char};
ghost use Rattle.nap_cli.specs.Explaining.{IsPlainText, byte_escape, is_plain, is_printable, shown_text, shown_words};

use crate::words::parse;
use clap::Error;
use clap::error::ErrorKind;
use nap_reader::Budget;
use std::alloc::{AllocError, Global};

/// Whether a byte is a printable character of ASCII.
pub fn is_printable(byte: u8) -> bool
    ensures { result ≡ is_printable byte }
{
    matches!(byte, b' '..=b'~')
}

/// Returns the hexadecimal digit of a number.
fn digit(number: u8) -> u8
    requires { number < 16 }
    ensures value { result ≡ digit_char number }
    ensures plain { is_plain result ≡ true }
{
    if number < 10 {
        b'0' + number
    } else {
        b'a' - 10 + number
    }
}

/// Appends the escape of a byte.
fn push_escape(plain: &mut Vec<u8>, byte: u8) -> Result<(), AllocError>
    ensures value { IfOk result (λ done. plain.new.items ≡ plain.old.items ++ byte_escape byte) }
    ensures plain { IsPlainText plain.old.items → IfOk result (λ done. IsPlainText plain.new.items) }
{
    plain.extend_from_slice(&[b'\\', b'x', digit(byte / 16), digit(byte % 16)])
}

/// Returns a text in which each byte but those of printable characters of ASCII is an escape, as `\x1b`. Its line ends
/// stay if they end `lines`.
pub fn escaped(alloc: Global, text: &[u8], lines: bool) -> Result<Vec<u8>, AllocError>
    ensures shown { IfOk result (λ plain. plain.items ≡ shown_text lines text.now) }
    ensures plain { IfOk result (λ plain. IsPlainText plain.items) }
{
    let mut plain = Vec::with_capacity(alloc, text.len())?;
    for &byte in text {
        if is_printable(byte) || (lines && byte == b'\n') {
            plain.push(byte)?;
        } else {
            push_escape(&mut plain, byte)?;
        }
    }
    Ok(plain)
}

/// Appended to clap's report of a word that is no command.
const COMMANDS: &str = "The commands are list, check, canon, make and batch.\n";

/// Appended to clap's report if a word may be meant as the file of a page.
const PAGE_HINT: &str = "A page is read from standard input: naplps check < FILE\n";

/// Appended to clap's report if a word may be meant as the file of the lines of `make`.
const LINES_HINT: &str = "Lines are read from standard input: naplps make < FILE\n";

/// Whether a word may be meant as the file of a page: one that clap took for a command, but not after `help`; or one
/// after a command that isn't an option.
fn names_file(words: &[String], kind: ErrorKind) -> bool {
    let mut words = words.iter();
    let Some(first) = words.next() else {
        return false;
    };
    match kind {
        ErrorKind::InvalidSubcommand => first.as_str() != "help",
        ErrorKind::UnknownArgument => {
            !first.as_str().starts_with('-') && words.any(|word| !word.as_str().starts_with('-'))
        }
        _ => false,
    }
}

/// Returns how the input is given to the command that the first of these words names.
fn hint_for(words: &[String]) -> &'static str {
    match words.first() {
        Some(first) if first.as_str() == "make" => LINES_HINT,
        _ => PAGE_HINT,
    }
}

/// Returns clap's report of a wrong value of `--budget`, with the allowed range instead of what follows its last colon.
fn with_range(alloc: Global, said: &str) -> Result<String, AllocError> {
    match said.rsplit_once(": ") {
        Some((value, _)) => format!(in alloc;
            "{value}: it takes a number from 0 to {}\n\nFor more information, try '--help'.\n",
            Budget::MOST
        ),
        None => String::from_str(alloc, said),
    }
}

/// Returns these words with escapes for all but printable characters of ASCII.
fn escaped_words(alloc: Global, words: &[String]) -> Result<Vec<String>, AllocError>
    ensures { IfOk result (λ shown. map string_bytes shown.items ≡ shown_words (map string_bytes words.now)) }
{
    let mut shown = Vec::with_capacity(alloc, words.len())?;
    for word in words {
        let Ok(text) = String::from_utf8(escaped(alloc, word.as_bytes(), false)?) else {
            // All of it is ASCII.
            unreachable!()
        };
        shown.push(text)?;
    }
    Ok(shown)
}

/// Returns what clap says of these words, as if they had been given with their escapes.
fn said_of(alloc: Global, words: &[String], error: &Error) -> Result<String, AllocError> {
    if words.iter().all(|word| word.as_bytes().iter().all(|&byte| is_printable(byte))) {
        return error.to_string(alloc);
    }
    let words = escaped_words(alloc, words)?;
    match parse(alloc, words.as_slice()) {
        Ok(_) => error.to_string(alloc),
        Err(error) => error.to_string(alloc),
    }
}

/// Returns clap's report of these words, followed by help.
pub fn text_of(alloc: Global, words: &[String], error: &Error) -> Result<Vec<u8>, AllocError>
    ensures { IfOk result (λ text. IsPlainText text.items) }
{
    let kind = error.kind();
    let mut text = said_of(alloc, words, error)?;
    if kind == ErrorKind::ValueValidation {
        text = with_range(alloc, text.as_str())?;
    }
    if kind == ErrorKind::InvalidSubcommand {
        text.push_str(COMMANDS)?;
    }
    if names_file(words, kind) {
        text.push_str(hint_for(words))?;
    }
    escaped(alloc, text.as_bytes(), true)
}
