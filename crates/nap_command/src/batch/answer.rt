//! The answer to a request.
ghost use Rattle.std.specs.Prelude.{◌≡◌, ◌++◌, ◌∷◌, [], IfOk, IfSome, IsSome, ◌≤◌, false, true, drop, length};
ghost use Rattle.nap_command.specs.declared.command.Action.TheVariants.{Check};
ghost use Rattle.nap_command.specs.Commands.{PrintsBy, count_line};
ghost use Rattle.nap_command.specs.Answers.{AnswersLines, IsAnswer, answer_text, ended_line, page_command};
ghost use Rattle.nap_command.specs.Failures.{failure_text};
ghost use Rattle.nap_command.specs.Finding.{AnswersFinds};
ghost use Rattle.nap_command.specs.declared.batch.answer.TheConstants.{HEAD_SPACE};

use crate::answer::{Printout, answer_stream, count_line, failure_line};
use crate::batch::finding::{find_pages, found_line};
use crate::batch::places::read_places;
use crate::batch::request::Question;
use crate::command::{Action, Command};
use crate::execution::lines_failure;
use crate::failure::Failure;
use itoa::Buffer;
use nap_canon::page_text;
use nap_lines::LineSink;
use nap_make::page_of_lines;
use nap_reader::{Budget, Refusal, read_counted};
use std::alloc::{AllocError, Global};
use std::marker::Model;

/// The space before a body for what goes out first: the line of an accepted page, and the number of bytes of the body.
pub(crate) const HEAD_SPACE: usize = 64;

/// The memory for the text of most answers.
const TEXT_SIZE: usize = 32_768;

/// The body of an answer, with space before it or none.
#[derive(Drop)]
pub struct Body {
    text: Vec<u8>,
    start: usize,
}

impl Model for Body {
    ghost use Rattle.std.specs.Prelude.{ℕ, List, ◌≤◌, drop, length};

    ghost Value = { List ℕ };

    ghost view = { λ b. drop b.start b.text.items };

    ghost invariant = { λ b. b.start ≤ length b.text.items };
}

/// Returns a text of `HEAD_SPACE` bytes, with memory for more.
pub(crate) fn text_with_space(alloc: Global) -> Result<Vec<u8>, AllocError>
    ensures { IfOk result (λ text. length text.items ≡ HEAD_SPACE) }
{
    let mut text = Vec::with_capacity(alloc, TEXT_SIZE)?;
    text.extend_from_slice(&[0; HEAD_SPACE])?;
    Ok(text)
}

impl Body {
    /// Makes a body without space before it.
    pub(crate) fn new(text: Vec<u8>) -> Body
        ensures { result ≡ text.items }
    {
        Body { text, start: 0 }
    }

    /// Makes the body that comes after the first `HEAD_SPACE` bytes of a text.
    pub(crate) fn after_space(text: Vec<u8>) -> Body
        requires { HEAD_SPACE ≤ length text.items }
        ensures { result ≡ drop HEAD_SPACE text.items }
    {
        Body {
            text,
            start: HEAD_SPACE,
        }
    }

    /// Returns the bytes of the body.
    pub fn as_slice(&self) -> &[u8]
        ensures { result.now ≡ self.now }
    {
        &self.text[self.start..]
    }

    /// Puts these bytes before the body if there is space for them, and returns whether there was.
    pub(crate) fn prepend(&mut self, bytes: &[u8]) -> bool
        ensures yes { result ≡ true → self.new ≡ bytes.now ++ self.old }
        ensures no { result ≡ false → self.new ≡ self.old }
    {
        if bytes.len() > self.start {
            return false;
        }
        let end = self.start;
        let start = end - bytes.len();
        self.text[start..end].copy_from_slice(bytes);
        self.start = start;
        true
    }
}

/// The answer to a request: a line, and a body (docs/BATCH.md).
#[derive(Drop)]
pub struct BatchAnswer {
    /// Whether the page is accepted, as `check` prints it, with LF.
    pub line: Vec<u8>,
    /// What was asked for.
    pub body: Body,
}

impl BatchAnswer {
    /// Returns the bytes of the answer in two parts: the line with the number of bytes of the body, and the body.
    /// The first part is empty if the body had space for it.
    pub fn into_parts(self) -> Result<(Vec<u8>, Body), AllocError>
        ensures { IfOk result (λ parts. parts.0.items ++ parts.1 ≡ answer_text self.line.items self.body) }
    {
        let BatchAnswer { line, mut body } = self;
        let mut head = line;
        let mut digits = Buffer::new();
        head.extend_from_slice(digits.format(body.as_slice().len()).as_bytes())?;
        head.push(b'\n')?;
        if body.prepend(head.as_slice()) {
            head.clear();
        }
        Ok((head, body))
    }
}

/// Returns what `check` prints of a page.
fn check_answer(alloc: Global, budget: Budget, page: &[u8]) -> Result<Printout, AllocError>
    ensures { IfOk result (λ a. PrintsBy Check (page_command Check budget) page.now a.text.items a.verdict) }
{
    let command = Command {
        action: Action::Check,
        hex: false,
        budget,
        stream: false,
    };
    // `check` prints a refusal, and fails only for lack of memory.
    answer_stream(alloc, &command, page).map_err(|_| AllocError)
}

/// Returns the answer for a page that is refused, or for lines that make none, without a body.
fn failure_answer(alloc: Global, failure: Failure) -> Result<BatchAnswer, AllocError>
    ensures { IfOk result (λ a. (a.line.items ≡ failure_text failure ++ 10 ∷ []) × (a.body ≡ [])) }
{
    Ok(BatchAnswer {
        line: failure_line(alloc, failure)?,
        body: Body::new(Vec::new(alloc)),
    })
}

/// Returns the answer for an accepted page: the line of its number of entries, and a body.
fn accepted_answer(alloc: Global, count: Option<u64>, body: Body) -> Result<BatchAnswer, AllocError>
    ensures { IfOk result (λ a. IfSome count (λ n. a.line.items ≡ count_line n) × IsSome count × (a.body ≡ body)) }
{
    match count {
        Some(count) => Ok(BatchAnswer {
            line: count_line(alloc, count)?,
            body,
        }),
        // The number of entries exceeds a `u64`.
        None => Err(AllocError),
    }
}

/// Returns the answer with the lines of a page's entries.
fn list_answer(alloc: Global, budget: Budget, page: &[u8]) -> Result<BatchAnswer, AllocError>
    ensures { IfOk result (λ a. IsAnswer Question.List budget page.now a.line.items a.body) }
{
    let text = text_with_space(alloc)?;
    match read_counted(alloc, budget, page, LineSink::over(text)) {
        Ok((sink, count)) => accepted_answer(alloc, count, Body::after_space(sink.into_text())),
        Err(refusal) => failure_answer(alloc, Failure::Refused(refusal)),
    }
}

/// Returns the answer with the canonical text of a page.
fn canon_answer(alloc: Global, budget: Budget, page: &[u8]) -> Result<BatchAnswer, AllocError>
    ensures { IfOk result (λ a. IsAnswer Question.Canon budget page.now a.line.items a.body) }
{
    let made = page_text(alloc, budget, page)?;
    match made {
        Ok(found) => accepted_answer(alloc, found.count, Body::new(found.text)),
        Err(refusal) => failure_answer(alloc, Failure::Refused(refusal)),
    }
}

/// Returns the line of a page with this number of entries, or with this refusal.
fn ended_line(alloc: Global, ended: Result<usize, Refusal>) -> Result<Vec<u8>, AllocError>
    ensures { IfOk result (λ text. text.items ≡ ended_line ended) }
{
    match ended {
        Ok(count) => count_line(alloc, count as u64),
        Err(refusal) => failure_line(alloc, Failure::Refused(refusal)),
    }
}

/// Returns the answer with the places of a page's entries.
fn places_answer(alloc: Global, budget: Budget, page: &[u8]) -> Result<BatchAnswer, AllocError>
    ensures { IfOk result (λ a. IsAnswer Question.Places budget page.now a.line.items a.body) }
{
    let placed = read_places(alloc, budget, page)?;
    let line = ended_line(alloc, placed.ended)?;
    Ok(BatchAnswer {
        line,
        body: Body::new(placed.text),
    })
}

/// Returns the answer with the page that lines make.
fn make_answer(alloc: Global, lines: &[u8]) -> Result<BatchAnswer, AllocError>
    ensures { IfOk result (λ a. AnswersLines lines.now a.line.items a.body) }
{
    match page_of_lines(alloc, lines) {
        Ok(page) => Ok(BatchAnswer {
            line: count_line(alloc, page.count as u64)?,
            body: Body::new(page.text),
        }),
        Err(fault) => failure_answer(alloc, lines_failure(fault)),
    }
}

/// Returns the answer with the pages among some bytes, each of which has so many entries at least.
fn find_answer(alloc: Global, least: Budget, bytes: &[u8]) -> Result<BatchAnswer, AllocError>
    ensures { IfOk result (λ a. AnswersFinds least bytes.now a.line.items a.body) }
{
    let found = find_pages(alloc, least.get(), bytes)?;
    Ok(BatchAnswer {
        line: found_line(alloc, found.count as u64)?,
        body: Body::new(found.text),
    })
}

/// Returns the answer to a question about a page. The error is lack of memory, but not in reading the page.
pub fn answer_page(
    alloc: Global,
    question: Question,
    budget: Budget,
    page: &[u8],
) -> Result<BatchAnswer, AllocError>
    ensures { IfOk result (λ a. IsAnswer question budget page.now a.line.items a.body) }
{
    match question {
        Question::Check => {
            let checked = check_answer(alloc, budget, page)?;
            Ok(BatchAnswer {
                line: checked.text,
                body: Body::new(Vec::new(alloc)),
            })
        }
        Question::List => list_answer(alloc, budget, page),
        Question::Canon => canon_answer(alloc, budget, page),
        Question::Places => places_answer(alloc, budget, page),
        Question::Make => make_answer(alloc, page),
        Question::Find => find_answer(alloc, budget, page),
    }
}
