//! The request that bytes begin with, and its line.
ghost use Rattle.std.specs.Prelude.{◌≡◌, ◌≢◌, ◌≤◌, ◌<◌, ◌+◌, ◌^◌, ℕ, List, MatchOption, length};
ghost use Rattle.nap_reader.specs.Budgets.{most_budget};
ghost use Rattle.nap_command.specs.Requests.{IsFront, IsLine, IsNumber, question_name};

use nap_make::{numeral, split_at_byte};
use nap_reader::Budget;

/// What is asked about a page.
#[derive(Clone, Copy, PartialEq, Eq, Drop)]
pub enum Question {
    /// The number of its entries.
    Check,
    /// A line for each entry.
    List,
    /// Its canonical stream.
    Canon,
    /// A line for each entry, after the place of the byte that added it.
    Places,
    /// The page that its lines make.
    Make,
    /// The pages among its bytes.
    Find,
}

/// The greatest number of bytes of a page.
pub const PAGE_LIMIT: u32 = 16_777_216;

/// The greatest number of bytes of a request's line, without LF.
const LINE_LIMIT: usize = 24;

/// The line of a request: the question, the budget and the length of the page.
#[derive(Clone, Copy, PartialEq, Eq, Drop)]
pub struct RequestLine {
    /// The question.
    pub question: Question,
    /// How many bytes of macro bodies may be charged; or how many entries a find has at least.
    pub budget: Budget,
    /// The number of bytes of the page.
    pub size: u32,
}

/// What bytes begin with.
#[derive(Clone, Copy, PartialEq, Eq, Drop)]
pub enum RequestFront {
    /// A complete request, whose page begins at this index.
    Whole(RequestLine, usize),
    /// An incomplete request: the number of bytes that its page lacks, or 0 if its line is incomplete.
    More(usize),
    /// No request, whatever follows.
    Wrong,
}

impl Question {
    /// Returns the question with this name.
    fn named(name: &[u8]) -> Option<Question>
        ensures { MatchOption result ((q : Question) → name.now ≢ question_name q) (λ q. name.now ≡ question_name q) }
    {
        match name {
            _ if name == b"check".as_slice() => Some(Question::Check),
            _ if name == b"list".as_slice() => Some(Question::List),
            _ if name == b"canon".as_slice() => Some(Question::Canon),
            _ if name == b"places".as_slice() => Some(Question::Places),
            _ if name == b"make".as_slice() => Some(Question::Make),
            _ if name == b"find".as_slice() => Some(Question::Find),
            _ => None,
        }
    }
}

/// Parses a decimal number of at most `most`.
fn number_below(digits: &[u8], most: u32) -> Option<u32>
    ensures { MatchOption result ((n : ℕ) → IsNumber most digits.now n → ⊥) (IsNumber most digits.now) }
{
    let value = numeral(digits)?;
    if value > most {
        return None;
    }
    Some(value)
}

/// Parses a budget.
fn budget(digits: &[u8]) -> Option<Budget>
    ensures { MatchOption result ((n : ℕ) → IsNumber most_budget digits.now n → ⊥) (λ b. IsNumber most_budget digits.now b) }
{
    Budget::new(number_below(digits, Budget::MOST)?)
}

/// Parses the line of a request, without LF.
pub fn parse_line(line: &[u8]) -> Option<RequestLine>
    ensures { MatchOption result ((r : RequestLine) → IsLine line.now r → ⊥) (IsLine line.now) }
{
    let (name, numbers) = split_at_byte(line, b' ')?;
    let (budget_digits, size_digits) = split_at_byte(numbers, b' ')?;
    let question = Question::named(name)?;
    let budget = budget(budget_digits)?;
    let size = number_below(size_digits, PAGE_LIMIT)?;
    Some(RequestLine {
        question,
        budget,
        size,
    })
}

/// Returns what the bytes begin with.
pub fn request_front_of(bytes: &[u8]) -> RequestFront
    ensures { IsFront bytes.now result }
{
    let Some((line, following)) = split_at_byte(bytes, b'\n') else {
        if bytes.len() > LINE_LIMIT {
            return RequestFront::Wrong;
        }
        return RequestFront::More(0);
    };
    let Some(request) = parse_line(line) else {
        return RequestFront::Wrong;
    };
    let size = request.size as usize;
    if following.len() < size {
        return RequestFront::More(size - following.len());
    }
    RequestFront::Whole(request, line.len() + 1)
}
