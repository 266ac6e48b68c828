//! Readers between two pieces of a stream, their budgets, and the names of faults.
use super::entries::{DOT, entries_of};
use nap_codes::{CodeFault, Left};
use nap_draw::DrawFault;
use nap_list::{Entry, ListSink, Sink};
use nap_reader::{Budget, Fault, RUN_LIMIT, Reader, Refusal};
use std::alloc::Global;
use std::process::Abort;
use std::test::Fail;

/// Feeds a piece, with few bytes before it.
fn feed<S: Sink>(rt: &impl Abort, reader: &mut Reader<S>, piece: &[u8]) -> Result<(), Refusal> {
    assert!(rt; reader.fed() < 1 << 32);
    assert!(rt; piece.len() < 1 << 32);
    reader.feed(piece)
}

/// Whether the bytes are accepted so far, and these are their entries before the end comes.
#[tactic(auto, unfolding(nap_list::specs::State::walk))]
fn begins(rt: &impl Abort, alloc: Global, bytes: &[u8], list: &[Entry]) -> bool {
    let mut reader = Reader::new(alloc, Budget::usual(), ListSink::new(alloc));
    feed(rt, &mut reader, bytes).is_ok() && reader.into_sink().into_list().as_slice() == list
}

#[test]
fn an_open_run_has_no_entry_yet(rt: HostRuntime) -> Result<(), Fail> {
    let alloc = rt.alloc();
    let point = entries_of(alloc, &[DOT])?;
    let found = [
        begins(&rt, alloc, b"\x0E&R@@", &[]),
        begins(&rt, alloc, b"\x0E&R@@\x0F", &point),
        begins(&rt, alloc, b"\x0E&R@@)P@@", &point),
    ];
    assert!(rt; found == [true; 3]);
    Ok(())
}

#[test]
fn budgets_have_a_limit(rt: HostRuntime) {
    let budgets = [
        Budget::new(0).map(Budget::get),
        Budget::new(16_777_217).map(Budget::get),
        Budget::new(67_108_864).map(Budget::get),
        Budget::new(67_108_865).map(Budget::get),
    ];
    assert!(rt; budgets == [Some(0), Some(16_777_217), Some(67_108_864), None]);
    let limits = [
        Budget::usual().get() == 1_048_576,
        Budget::MOST == 67_108_864,
        Budget::USUAL == 1_048_576,
        RUN_LIMIT == 16_384,
    ];
    assert!(rt; limits == [true; 4]);
}

#[test]
fn a_refusal_prints_what_is_wrong_and_where(rt: HostRuntime) -> Result<(), Fail> {
    let refusal = Refusal {
        fault: Fault::LeftOut(Left::Can),
        place: 7,
    };
    let text = format!(in rt.alloc(); "{refusal}")?;
    assert_eq!(rt; text.as_str(), "CAN is not supported at 7");
    Ok(())
}

#[test]
fn faults_have_numbers_and_names(rt: HostRuntime) {
    for (fault, number, name) in [
        (Fault::from(CodeFault::EighthBit), 1, "EighthBit"),
        (Fault::LeftOut(Left::Can), 6, "LeftOut"),
        (Fault::from(DrawFault::Outside), 10, "Outside"),
        (Fault::LongRun, 13, "LongRun"),
        (Fault::Sink, 22, "Sink"),
    ] {
        assert!(rt; (fault.number(), fault.name()) == (number, name), "{name}");
    }
}
