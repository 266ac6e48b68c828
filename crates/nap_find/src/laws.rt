//! Laws about finds. Each is the contract of a function that does nothing.
ghost use Rattle.std.specs.Prelude.{◌≡◌};
ghost use Rattle.nap_find.specs.Rows.{block_limit};
ghost use Rattle.nap_find.specs.declared.finder.TheConstants.{BLOCK_LIMIT};
ghost use Rattle.nap_find.specs.Laws.{FindsArePages, FoundInPieces};

/// The finds of bytes are pages that have what is asked for. They come in order, and none overlaps another.
#[tactic(auto, using(crate::proofs::FindLaws::finds_are_pages))]
pub fn finds_are_pages()
    ensures { FindsArePages }
{}

/// The constants have the values of the definitions (FINDING.md, Rows, A page, Which beginnings are tried).
pub fn limits()
    ensures block { BLOCK_LIMIT ≡ block_limit }
{}

/// What is known of bytes doesn't depend on how they are cut into pieces.
#[tactic(auto, using(crate::proofs::FindLaws::pieces_agree))]
pub fn pieces_agree()
    ensures { FoundInPieces }
{}
