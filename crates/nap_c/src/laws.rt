//! Laws about the library. Each is the contract of a function that does nothing.
ghost use Rattle.nap_c.specs.Answers.{LibraryAnswersAsBatch};

/// The calls of the library and `batch` give the same lines, texts and places of a page, or the same refusal, unless
/// memory runs out for one of them.
#[tactic(auto, using(crate::proofs::LawLemmas::library_answers_as_batch))]
pub fn library_answers_as_batch()
    ensures { LibraryAnswersAsBatch }
{}
