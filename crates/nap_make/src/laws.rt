//! Laws about lines, and about the pages that they make. Each is the contract of a function that does nothing.
#![tactic(auto, using(crate::proofs::PublicLaws::laws))]

ghost use Rattle.nap_make.specs.Laws.{AnswersOfMakeAgree, ColumnsAreOne};
ghost use Rattle.nap_make.specs.Laws.{LineTellsEntry, LinesAreBounded, LinesHaveNoEnds, LinesTellLists};
ghost use Rattle.nap_make.specs.PageLaws.{ListsTellStreams, MadePagesAgree};

/// Entries in range with equal lines are equal, and so are lists of them.
pub fn lines_tell_apart()
    ensures entries { LineTellsEntry }
    ensures lists { LinesTellLists }
{}

/// No line of a well-made entry in range has more than 32,112 bytes.
pub fn lines_are_bounded()
    ensures { LinesAreBounded }
{}

/// No line of an entry in range contains LF.
pub fn lines_have_no_ends()
    ensures { LinesHaveNoEnds }
{}

/// The fault of a line has one column.
pub fn columns_are_one()
    ensures { ColumnsAreOne }
{}

/// Lines have one answer, lack of memory and failed devices apart.
pub fn answers_of_make_agree()
    ensures { AnswersOfMakeAgree }
{}

/// Accepted pages have equal canonical streams exactly if their lists have equal lines.
pub fn lists_tell_streams()
    ensures { ListsTellStreams }
{}

/// Lines make at most one page; its list has these lines, and it is its own canonical stream. The lines of the list of
/// an accepted page make the canonical stream of that page.
pub fn made_pages_agree()
    ensures { MadePagesAgree }
{}
