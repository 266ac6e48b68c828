//! Laws about requests and answers. Each is the contract of a function that does nothing.
#![tactic(auto, using(crate::proofs::LawLemmas::laws))]

ghost use Rattle.std.specs.Prelude.{◌≡◌};
ghost use Rattle.nap_make.specs.Numbers.{digits_limit};
ghost use Rattle.nap_make.specs.declared.number.TheConstants.{DIGITS};
ghost use Rattle.nap_command.specs.declared.batch.request.TheConstants.{LINE_LIMIT, PAGE_LIMIT};
ghost use Rattle.nap_command.specs.declared.batch.service.TheConstants.{REQUESTS};
ghost use Rattle.nap_command.specs.Limits.{request_line_limit, page_limit, requests_limit};
ghost use Rattle.nap_command.specs.Laws.{AnswersAreThoseOfCommands, BegunRequestsAreNone, EntriesAreBounded, PlacesAreExact, RequestsAreCutOneWay, TextIsBounded};

/// Bytes begin with at most one complete request.
pub fn requests_are_cut_one_way()
    ensures { RequestsAreCutOneWay }
{}

/// Bytes that begin with an incomplete request don't begin with a complete one.
pub fn begun_requests_are_none()
    ensures { BegunRequestsAreNone }
{}

/// Each answer has what the command of the same name prints.
pub fn answers_are_those_of_commands()
    ensures { AnswersAreThoseOfCommands }
{}

/// The places are the lines of all entries, each after a number and a space: that of the byte with which the entry came,
/// or the page's length. They never fall.
pub fn places_are_exact()
    ensures { PlacesAreExact }
{}

/// A page has at most 21 entries for each of its bytes and each byte of its budget (PROFILE.md, Macros).
pub fn entries_are_bounded()
    ensures { EntriesAreBounded }
{}

/// The canonical text of these entries has at most 190 bytes for each of these bytes, and three more.
pub fn text_is_bounded()
    ensures { TextIsBounded }
{}

/// The constants have the values of the profile: 8 digits, 16,777,216 bytes of a page, and 2^42 requests.
pub fn limits()
    ensures digits { DIGITS ≡ digits_limit }
    ensures line { LINE_LIMIT ≡ request_line_limit }
    ensures page { PAGE_LIMIT ≡ page_limit }
    ensures requests { REQUESTS ≡ requests_limit }
{}
