//! Opcodes and controls whose sink fails.
use super::drawing::{has_rule, is_made};
use super::entries::{MIDDLE, Sample, Shade, Spot, entries_of};
use super::samples::{word, words};
use crate::faltering::Faltering;
use Sample::{Blink, DefEnd, Dot, Glyph, Letter, Line, Rect, Wait};
use Shade::AtStart;
use nap_codes::{CharSet, Code, Mask, Opcode};
use nap_draw::{DrawFault, RUN_LIMIT, Work, apply};
use nap_list::{Entry, SinkFault};
use std::alloc::{AllocError, Global};
use std::test::Fail;

/// How a sink fails, and the fault that is returned then.
type Why = (SinkFault, DrawFault);

const FAULTS: [Why; 2] = [
    (SinkFault::Memory, DrawFault::Memory),
    (SinkFault::Write, DrawFault::Sink),
];

/// Whether a sink has these entries and then failed, and its fault was returned.
fn stops(sink: Faltering, fault: Option<DrawFault>, want: &[Entry], why: Why) -> bool {
    fault == Some(why.1)
        && sink.failed == (why.0 == SinkFault::Write)
        && sink.list.into_list().as_slice() == want
}

/// Whether an opcode at the start gives the first of these entries, and then its sink fails, with the work unchanged.
#[tactic(auto, unfolding(nap_list::specs::State::walk))]
fn falters(
    alloc: Global,
    opcode: (Opcode, &[u8]),
    want: &[Entry],
    why: Why,
) -> Result<bool, AllocError> {
    let (op, bytes) = opcode;
    let run = words(alloc, bytes)?;
    if !has_rule(op) || run.len() > RUN_LIMIT {
        return Ok(false);
    }
    let mut sink = Faltering::new(alloc, want.len(), why.0);
    let work = Work::start();
    let answer = apply(alloc, &work, op, &run, &mut sink);
    Ok(work == Work::start() && stops(sink, answer.err(), want, why))
}

/// An opcode with its operands, and entries that it gives before its last one.
const OPCODES: &[(Opcode, &[u8], &[Sample])] = &[
    (
        Opcode::PointAbs,
        b"R@@I@@@@@",
        &[Dot(MIDDLE, AtStart), Dot((2, 2), AtStart)],
    ),
    (
        Opcode::LineAbs,
        b"R@@I@@@@@",
        &[Line((0, 0), MIDDLE, AtStart), Line(MIDDLE, (2, 2), AtStart)],
    ),
    (Opcode::Wait, b"R@@", &[Wait(18), Wait(0)]),
    (
        Opcode::SetRectFilled,
        b"@@@R@@I@@@@@",
        &[Rect(true, (0, 0), MIDDLE, AtStart)],
    ),
    (Opcode::Blink, b"DABCD", &[Blink(1_048_576, AtStart)]),
    (Opcode::Reset, b"A@", &[]),
    (Opcode::ArcFilled, b"I@@", &[]),
    (Opcode::SetPolyOutlined, b"I@@I@@", &[]),
    (Opcode::Field, b"", &[]),
    (Opcode::Blink, b"", &[]),
];

#[test]
fn sinks_fail_after_any_entry_of_an_opcode(rt: HostRuntime) -> Result<(), Fail> {
    let alloc = rt.alloc();
    for (op, bytes, samples) in OPCODES {
        let list = entries_of(alloc, samples)?;
        for why in FAULTS {
            for count in 0..=list.len() {
                let falters = falters(alloc, (*op, bytes), &list[..count], why)?;
                assert!(rt; falters, "{op:?} after {count}");
            }
        }
    }
    Ok(())
}

/// Whether two codes give these entries, the sink fails during those of the second, and the work is as after the first.
#[tactic(auto, unfolding(nap_list::specs::State::walk))]
fn second_falters(alloc: Global, first: &Code, second: &Code, want: &[Entry], why: Why) -> bool {
    if !is_made(first) || !is_made(second) {
        return false;
    }
    let mut sink = Faltering::new(alloc, want.len(), why.0);
    let mut work = Work::start();
    let Ok(()) = work.control(first, &mut sink) else {
        return false;
    };
    let before = work.copy();
    let answer = work.control(second, &mut sink);
    work == before && stops(sink, answer.err(), want, why)
}

/// A letter, and a repetition of it.
const REPEATED: &[Sample] = &[
    Letter(Spot::Start),
    Letter(Spot::After),
    Letter(Spot::After),
];

/// A definition that ends.
const DEFINED: &[Sample] = &[Glyph(0x41), DefEnd];

/// A definition that doesn't end.
const OPEN: &[Sample] = &[Glyph(0x41)];

/// Checks that two codes give these entries, and that sinks fail after any of them but the first.
fn falters_amid(
    alloc: Global,
    first: Code,
    second: Code,
    samples: &[Sample],
) -> Result<bool, AllocError> {
    let list = entries_of(alloc, samples)?;
    for why in FAULTS {
        for count in 1..=list.len() {
            if !second_falters(alloc, &first, &second, &list[..count], why) {
                return Ok(false);
            }
        }
    }
    Ok(true)
}

#[test]
fn sinks_fail_amid_a_repeat_and_a_definition(rt: HostRuntime) -> Result<(), Fail> {
    let alloc = rt.alloc();
    let letter = Code::Char(CharSet::Primary, 0x41);
    let falters = [
        falters_amid(alloc, letter, Code::Repeat(word(3)), REPEATED)?,
        falters_amid(alloc, Code::DefGlyph(0x41), Code::DefMask(Mask::B), DEFINED)?,
        falters_amid(alloc, Code::DefGlyph(0x41), Code::End, OPEN)?,
    ];
    assert!(rt; falters == [true; 3]);
    Ok(())
}
