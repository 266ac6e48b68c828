//! The page of the lines that an input gives.
ghost use Rattle.std.specs.Prelude.{◌≡◌, ◌+◌, ◌^◌, ◌<◌, ◌≤◌, ℕ, List, true, false, MatchResult};
ghost use Rattle.std.specs.Io.KnownBytes.{Appends, Consumes};
ghost use Rattle.nap_make.specs.Types.{EndsOutput, FlushedOnce, reading, reads_limit};
ghost use Rattle.nap_make.specs.Pages.{ConcludesPage, MakesPage, ReadsNoMore, MakesWhole};
ghost use Rattle.nap_make.specs.Texts.{DeniesInput, DeniesLines, IsPageMade, fault_of_input, fault_of_text};

use crate::lines::{ListFault, MakeFault, make_list, put_lines};
use nap_canon::CanonSink;
use nap_list::{Inlet, Outlet, READ_SIZE, STREAM_READ_SIZE, Target};
use std::alloc::Global;
use thiserror::Error;

/// A page made of lines.
#[derive(Drop)]
pub struct MadePage {
    /// The bytes of the page, which is its own canonical stream.
    pub text: Vec<u8>,
    /// The number of its entries, which is the number of lines.
    pub count: usize,
}

/// Returns the fault of lines whose page is made in memory, where a failed write is lack of memory.
fn fault_of_text(fault: MakeFault) -> MakeFault
    ensures { result ≡ fault_of_text fault }
{
    match fault {
        MakeFault::Write => MakeFault::Memory,
        _ => fault,
    }
}

/// Returns the fault of an input whose page is made in memory, where a failed write is lack of memory.
fn fault_of_input(fault: ListFault) -> ListFault
    ensures { result ≡ fault_of_input fault }
{
    match fault {
        ListFault::Lines(fault) => ListFault::Lines(fault_of_text(fault)),
        ListFault::Read => ListFault::Read,
    }
}

/// Returns the page that these lines make, or why they make none. It is written to memory as the lines are read
/// (PROFILE.md, Lines that make a page).
pub fn page_of_lines(alloc: Global, lines: &[u8]) -> Result<MadePage, MakeFault>
    ensures { MatchResult result (IsPageMade lines.now) (DeniesLines lines.now) }
{
    let sink = CanonSink::new(Target::new(Vec::new(alloc)));
    if sink.failed() {
        return Err(MakeFault::Memory);
    }
    let (sink, made) = put_lines(alloc, lines, sink);
    match made {
        Ok(count) => Ok(MadePage {
            text: sink.close().into_inner(),
            count,
        }),
        Err(fault) => Err(fault_of_text(fault)),
    }
}

/// Returns the page that the lines of an input make, or why they make none. It is written to memory as the lines are
/// read (PROFILE.md, Lines that make a page).
pub fn page_of_input<I: Inlet>(alloc: Global, input: &mut I) -> Result<Vec<u8>, ListFault>
    requires calls { I.calls input.old < 2 ^ 63 }
    ensures few { I.calls input.new ≤ I.calls input.old + reads_limit }
    ensures more { I.calls input.old ≤ I.calls input.new }
    ensures makes { let seen = reading I.Inlet input.old input.new in
        (p : List ℕ) × Consumes (I.left input.old) (I.left input.new) p
        × MatchResult result (λ page. MakesWhole p seen page.items) (DeniesInput p seen) }
{
    let sink = CanonSink::new(Target::new(Vec::new(alloc)));
    if sink.failed() {
        return Err(ListFault::Lines(MakeFault::Memory));
    }
    let (sink, made) = make_list(alloc, input, sink, &mut [0; READ_SIZE]);
    match made {
        Ok(()) => Ok(sink.close().into_inner()),
        Err(fault) => Err(fault_of_input(fault)),
    }
}

/// Why no page was made, and how many bytes the output took before, saturating at the greatest `u64`.
#[derive(Clone, Copy, PartialEq, Eq, Debug, Drop, Error)]
pub enum PageFault {
    /// The lines aren't those of a list. The text of the lines before is written.
    #[error("{fault}, once {written} bytes were written")]
    Lines { fault: MakeFault, written: u64 },
    /// A read failed, or there were as many reads as one input may have. The text of the lines so far is written.
    #[error("the input failed, once {written} bytes were written")]
    Read { written: u64 },
    /// A write or the flush failed.
    #[error("the output failed, once it had taken {written} bytes")]
    Write { written: u64 },
}

/// The output, and how many bytes of a page it took.
type Ended<O> = (O, Result<u64, PageFault>);

/// Flushes the output, unless a write has failed, and returns it with the answer.
fn conclude<O: Outlet + Drop>(sink: CanonSink<O>, made: Result<(), ListFault>) -> Ended<O>
    ensures ends { EndsOutput O.Outlet sink.outlet result.0 }
    ensures answer { ConcludesPage sink.written made (O.failed result.0) result.1 }
{
    let (output, ended) = sink.finish();
    let answer = match ended {
        Err(written) => Err(PageFault::Write { written }),
        Ok(written) => match made {
            Ok(()) => Ok(written),
            Err(ListFault::Lines(fault)) => Err(PageFault::Lines { fault, written }),
            Err(ListFault::Read) => Err(PageFault::Read { written }),
        },
    };
    (output, answer)
}

/// Writes the page that the lines of an input make, as they are read, and flushes the output. Returns the output, and
/// the number of bytes that it took. Nothing is read after a failed write. Keeps one line at most, so its memory
/// doesn't grow with the page (PROFILE.md, Lines that make a page).
pub fn make_page<I: Inlet, O: Outlet + Drop>(alloc: Global, input: &mut I, output: O) -> Ended<O>
    requires calls { I.calls input.old < 2 ^ 63 }
    requires works { O.failed output ≡ false }
    ensures few { I.calls input.new ≤ I.calls input.old + reads_limit }
    ensures more { I.calls input.old ≤ I.calls input.new }
    ensures sent { O.failed result.0 ≡ false → O.sent result.0 ≡ true }
    ensures makes { let seen = reading I.Inlet input.old input.new in
        (p : List ℕ) × (q : List ℕ) × Consumes (I.left input.old) (I.left input.new) p × Appends (O.taken output) (O.taken result.0) q
        × MakesPage p seen q (O.failed result.0) result.1
        × ReadsNoMore (O.write_failed result.0) p seen
        × FlushedOnce O.Outlet output result.0 }
{
    let sink = CanonSink::new(output);
    if sink.failed() {
        return conclude(sink, Ok(()));
    }
    let (sink, made) = make_list(alloc, input, sink, &mut [0; STREAM_READ_SIZE]);
    conclude(sink, made)
}
