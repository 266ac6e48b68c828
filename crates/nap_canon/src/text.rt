//! The canonical text of a display list (PROFILE.md, Canonical text).
ghost use Rattle.std.specs.Prelude.{◌≡◌, ◌↔◌, ℕ, IsErrOf, IfOk, OnOk};
ghost use Rattle.nap_canon.specs.declared.text.CanonFault.TheVariants.{Memory};
ghost use Rattle.nap_canon.specs.Names.{AllFit, AllInRange, IsIllegalAt, Legal, start};
ghost use Rattle.nap_canon.specs.TextAnswers.{IsTextAnswer};
ghost use Rattle.nap_canon.specs.Laws.{IsReadAs};
ghost use Rattle.nap_canon.specs.Plain.{IsPlain};
ghost use Rattle.nap_canon.specs.Text.{text_in, text, text1};
ghost use Rattle.nap_canon.specs.PageTexts.{IsPageText, refusal_of_text};

use crate::canon_sink::CanonSink;
use crate::ranges::in_range;
use nap_list::{Entry, Target, legal};
use nap_reader::{Budget, Fault, Refusal, read_counted};
use std::alloc::{AllocError, Global};
use thiserror::Error;

/// A form of canonical text.
#[derive(Clone, Copy, Drop)]
pub(crate) enum Form {
    /// Form 1: each entry has its own opcode, and each line both its points.
    One,
    /// Form 2: points, lines and rectangles may join the run of their opcode, and a line that starts at the pen has
    /// only its end.
    Two,
}

/// Why a display list has no canonical text.
#[derive(Clone, Copy, PartialEq, Eq, Debug, Drop, Error)]
pub enum CanonFault {
    /// The index of the first entry that doesn't fit, or the length if a definition is left open.
    #[error("the display list is not legal at {0}")]
    Illegal(usize),
    /// Memory ran out for the text.
    #[error("no memory")]
    Memory,
}

impl From<AllocError> for CanonFault {
    ghost from_gives = { λ _ e. e ≡ Memory };

    fn from(_: AllocError) -> Self {
        CanonFault::Memory
    }
}

/// The number of bytes of the header.
const HEADER: usize = 3;

/// The number of bytes of a typical entry: an opcode, and a point or a displacement.
const ENTRY: usize = 9;

/// Returns the text of entries that fit, in this form. A failed write to memory is lack of memory.
fn text_in_form(alloc: Global, form: Form, entries: &[Entry]) -> Result<Vec<u8>, AllocError>
    requires { AllFit start entries.now }
    ensures text { IfOk result (λ bytes. bytes.items ≡ text_in form entries.now) }
    ensures range { OnOk result (AllInRange entries.now) }
{
    let bytes = Vec::with_capacity(alloc, HEADER + ENTRY * entries.len())?;
    let mut sink = CanonSink::in_form(form, Target::new(bytes));
    if sink.failed() {
        return Err(AllocError);
    }
    for entry in entries {
        in_range(entry);
        let Ok(()) = sink.put_ref(entry) else {
            return Err(AllocError);
        };
    }
    Ok(sink.close().into_inner())
}

/// Returns the text of a legal display list, in this form. Any other fault than `Memory` is found before any memory is
/// taken.
fn canon_in(alloc: Global, form: Form, entries: &[Entry]) -> Result<Vec<u8>, CanonFault>
    ensures { IsTextAnswer form entries.now result }
{
    if let Err(index) = legal(entries) {
        return Err(CanonFault::Illegal(index));
    }
    let bytes = text_in_form(alloc, form, entries)?;
    Ok(bytes)
}

/// Returns the canonical text of a legal display list. Any other fault than `Memory` is found before any memory is
/// taken (PROFILE.md, Canonical text).
pub fn canon(alloc: Global, entries: &[Entry]) -> Result<Vec<u8>, CanonFault>
    ensures illegal { (index : ℕ) → IsErrOf result (CanonFault.Illegal index) ↔ IsIllegalAt index entries.now }
    ensures legal { IfOk result (λ bytes. Legal entries.now) }
    ensures range { IfOk result (λ bytes. AllInRange entries.now) }
    ensures text { IfOk result (λ bytes. bytes.items ≡ text entries.now) }
    ensures plain { IfOk result (λ bytes. IsPlain bytes.items) }
    ensures read_back { IfOk result (λ bytes. (budget : ℕ) → IsReadAs budget bytes.items entries.now) }
    // Lack of memory is for the text: the list is legal.
    ensures memory { IsErrOf result CanonFault.Memory → Legal entries.now }
{
    canon_in(alloc, Form::Two, entries)
}

/// Returns the text of a legal display list in form 1, in which canonical streams were written before. It is a stream
/// with the same list, but in general isn't canonical (PROFILE.md, Form 1).
pub fn canon_form1(alloc: Global, entries: &[Entry]) -> Result<Vec<u8>, CanonFault>
    ensures illegal { (index : ℕ) → IsErrOf result (CanonFault.Illegal index) ↔ IsIllegalAt index entries.now }
    ensures legal { IfOk result (λ bytes. Legal entries.now) }
    ensures range { IfOk result (λ bytes. AllInRange entries.now) }
    ensures text { IfOk result (λ bytes. bytes.items ≡ text1 entries.now) }
    ensures plain { IfOk result (λ bytes. IsPlain bytes.items) }
    ensures read_back { IfOk result (λ bytes. (budget : ℕ) → IsReadAs budget bytes.items entries.now) }
    ensures memory { IsErrOf result CanonFault.Memory → Legal entries.now }
{
    canon_in(alloc, Form::One, entries)
}

/// The canonical text of a page, and the number of its entries, if a `u64` can hold it.
#[derive(Drop)]
pub struct PageText {
    /// The bytes of the text.
    pub text: Vec<u8>,
    /// The number of entries.
    pub count: Option<u64>,
}

/// Returns the refusal of a page whose text is kept in memory, where a failed sink is lack of memory.
pub fn refusal_of_text(refusal: Refusal) -> Refusal
    ensures { result ≡ refusal_of_text refusal }
{
    match refusal.fault {
        Fault::Sink => Refusal {
            fault: Fault::Memory,
            place: refusal.place,
        },
        _ => refusal,
    }
}

/// Returns the canonical text of a page, or its refusal. The text is written to memory as the page is read, and no
/// entry is kept. The outer error is lack of memory before anything is read.
pub fn page_text(
    alloc: Global,
    budget: Budget,
    page: &[u8],
) -> Result<Result<PageText, Refusal>, AllocError>
    ensures { IfOk result (λ found. IsPageText budget page.now found) }
{
    let sink = CanonSink::new(Target::new(Vec::new(alloc)));
    if sink.failed() {
        return Err(AllocError);
    }
    match read_counted(alloc, budget, page, sink) {
        Ok((sink, count)) => {
            let text = sink.close().into_inner();
            Ok(Ok(PageText { text, count }))
        }
        Err(refusal) => Ok(Err(refusal_of_text(refusal))),
    }
}
