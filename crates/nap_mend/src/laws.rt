//! Laws about pages in files. Each is the contract of a function that does nothing.
ghost use Rattle.nap_mend.specs.Laws.{HeadersHaveOneFind};

/// A page after a header is the only find of the bytes.
#[tactic(auto, using(crate::proofs::PublicLaws::headers_have_one_find))]
pub fn headers_have_one_find()
    ensures { HeadersHaveOneFind }
{}
