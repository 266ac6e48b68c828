//! The checks of a row.
use crate::answer::{Answer, Cut, answer_in, read_into};
use crate::outlets::check_outlets;
use crate::report::Report;
use crate::row::Row;
use crate::stops::check_stops;
use nap_canon::{ConvertFault, canon, canon_form1, convert, is_plain, normalise};
use nap_lines::{LineSink, line_of};
use nap_list::{Entry, Source, Target};
use nap_reader::{Budget, Reader, Refusal, read_all};
use std::alloc::{AllocError, Global};

/// A stream is cut at every index up to this length.
const SHORT: usize = 64;

/// A stream with more turns is read less often.
const LONG: u64 = 20_000;

/// Checks that the counts of an answer are what the row wants.
fn check_counts(report: &mut Report, row: &Row<'_>, answer: &Answer) {
    let all = row.stream.len() as u64;
    let past = match answer.refusal {
        Some(refusal) if answer.early => refusal.place.saturating_add(1),
        _ => all,
    };
    let is_in_range = past <= answer.fed && answer.fed <= all;
    report.check(
        is_in_range,
        "the bytes taken aren't those up to the refused",
    );
    let fed = row.fed(report).unwrap_or(answer.fed);
    report.same_count("fed", fed, answer.fed);
    let charged = row.charged(report).unwrap_or(answer.charged);
    report.same_count("charged", charged, answer.charged);
    let turns = row.turns(report, answer.fed).unwrap_or(answer.turns);
    report.same_count("turns", turns, answer.turns);
}

/// Checks that the stream in these pieces has the same answer.
fn check_cut(report: &mut Report, row: &Row<'_>, answer: &Answer, cut: Cut) {
    let other = answer_in(report, row.budget, &row.stream, cut);
    report.check(other.is(answer), "the answer isn't that of the whole");
}

/// Checks that the stream has the same answer in single bytes and in every cut, or in cuts near its end if it is
/// longer. A stream with many turns has no empty pieces between its bytes, and no cuts if it is short.
fn check_cuts(report: &mut Report, row: &Row<'_>, answer: &Answer) {
    let length = row.stream.len();
    let few = answer.turns <= LONG;
    report.try_now("in single bytes", 1);
    check_cut(report, row, answer, Cut::Single(few));
    let first = if length > SHORT {
        length - 4
    } else if few {
        0
    } else {
        return;
    };
    for place in first..=length {
        report.try_now("cut at", place);
        check_cut(report, row, answer, Cut::At(place));
    }
}

/// Checks that reading the stream in one call has the same answer.
fn check_whole(report: &mut Report, row: &Row<'_>, answer: &Answer) {
    let is_same = match read_all(report.alloc, row.budget, &row.stream) {
        Ok(list) => answer.refusal.is_none() && list == answer.list,
        Err(refusal) => answer.refusal == Some(refusal),
    };
    report.check(is_same, "read in one call it has another answer");
}

/// Returns the lines of a list, each with LF.
fn lines_of(alloc: Global, list: &[Entry]) -> Result<String, AllocError> {
    let mut lines = String::new(alloc);
    for entry in list {
        lines.push_str(&line_of(alloc, entry)?)?;
        lines.push('\n')?;
    }
    Ok(lines)
}

/// Checks that a sink of lines has those of the list, which are tried of the program.
fn check_lines(report: &mut Report, row: &Row<'_>, list: &[Entry]) -> Result<(), AllocError> {
    let alloc = report.alloc;
    let reader = Reader::new(alloc, row.budget, LineSink::new(alloc));
    let (sink, _) = read_into(report, reader, &row.stream, Cut::Whole);
    let wanted = lines_of(alloc, list)?;
    let is_same = sink.into_text().as_slice() == wanted.as_bytes();
    report.check(is_same, "a sink of lines has others");
    Ok(())
}

/// Converts the stream from memory to memory, and returns the bytes and the result.
fn converted(alloc: Global, row: &Row<'_>) -> (Vec<u8>, Result<u64, ConvertFault>) {
    let mut input = Source::new(row.stream.as_slice());
    let output = Target::new(Vec::new(alloc));
    let (output, outcome) = convert(alloc, &mut input, output, row.budget);
    (output.into_inner(), outcome)
}

/// Checks that the calls above the reader refuse a refused stream in the same way.
fn check_refused(report: &mut Report, row: &Row<'_>, refusal: Refusal) {
    let refused = normalise(report.alloc, row.budget, &row.stream).err();
    report.check(refused == Some(refusal), "normalise refuses it otherwise");
    let (bytes, outcome) = converted(report.alloc, row);
    let written = bytes.len() as u64;
    let fault = ConvertFault::Refused { refusal, written };
    report.check(outcome == Err(fault), "convert refuses it otherwise");
}

/// Checks that a plain stream has this list, and no macros.
fn check_plain(report: &mut Report, list: &[Entry], stream: &[u8]) {
    report.check(is_plain(stream), "it isn't plain");
    let budget = Budget::new(0).unwrap_or(Budget::usual());
    let answer = answer_in(report, budget, stream, Cut::Whole);
    let is_list = answer.refusal.is_none() && answer.list.as_slice() == list;
    report.check(is_list, "it isn't read as the list");
    report.same_count("charged", 0, answer.charged);
    report.same_count("turns", stream.len() as u64, answer.turns);
}

/// Checks that a stream has this canonical stream.
fn check_normal(report: &mut Report, budget: Budget, stream: &[u8], text: &[u8]) {
    let found = normalise(report.alloc, budget, stream);
    let is_text = found.is_ok_and(|found| found.as_slice() == text);
    report.check(is_text, "it has another canonical stream");
}

/// Checks that each call that makes the canonical stream gives the same, which has the same list and is its own
/// canonical stream, and that outlets with any space take it.
fn check_canonical(report: &mut Report, row: &Row<'_>, answer: &Answer) -> Result<(), AllocError> {
    let Ok(text) = canon(report.alloc, &answer.list) else {
        report.tell("canon fails");
        return Ok(());
    };
    check_normal(report, row.budget, &row.stream, &text);
    let (bytes, outcome) = converted(report.alloc, row);
    let is_text = outcome == Ok(text.len() as u64) && bytes == text;
    report.check(is_text, "convert writes another");
    if answer.turns <= LONG {
        check_outlets(report, row, &text)?;
    }
    report.try_now("the canonical stream", 1);
    check_plain(report, &answer.list, &text);
    check_normal(report, row.budget, &text, &text);
    Ok(())
}

/// Checks that the text in form 1 has the same list.
fn check_form1(report: &mut Report, answer: &Answer) {
    report.try_now("form", 1);
    match canon_form1(report.alloc, &answer.list) {
        Ok(text) => check_plain(report, &answer.list, &text),
        Err(_) => report.tell("canon_form1 fails"),
    }
}

/// Checks a row.
pub fn check(report: &mut Report, row: &Row<'_>) -> Result<(), AllocError> {
    let answer = answer_in(report, row.budget, &row.stream, Cut::Whole);
    check_counts(report, row, &answer);
    check_cuts(report, row, &answer);
    report.try_now("whole", 1);
    check_whole(report, row, &answer);
    let few = answer.turns <= LONG;
    if few {
        check_lines(report, row, &answer.list)?;
    }
    check_stops(report, row, &answer)?;
    report.try_now("whole", 1);
    match answer.refusal {
        Some(refusal) if few => check_refused(report, row, refusal),
        Some(_) => {}
        None => {
            check_canonical(report, row, &answer)?;
            check_form1(report, &answer);
        }
    }
    Ok(())
}
