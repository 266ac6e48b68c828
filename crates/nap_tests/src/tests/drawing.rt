//! Calls that draw, with answers that no stream shows.
ghost use Rattle.std.specs.Prelude.{IsTrue};
ghost use Rattle.nap_list.specs.Entry.{IsCode};
ghost use Rattle.nap_draw.specs.Codes.{IsMade};
ghost use Rattle.nap_draw.specs.Rule.{IsDrawn};

use super::entries::{Sample, Spot, entries_of};
use super::samples::{word, words};
use nap_codes::{CharSet, Code, Opcode, TextStep};
use nap_draw::{DrawFault, Effects, RUN_LIMIT, Work, apply, control, text};
use nap_list::{Entry, ListSink, Pen};
use std::alloc::{AllocError, Global};
use std::test::Fail;

/// Whether the profile has a rule for the opcode.
pub fn has_rule(op: Opcode) -> bool
    ensures { IsTrue result → IsDrawn op }
{
    match op {
        Opcode::IncrementalPoint => false,
        Opcode::IncrementalLine => false,
        Opcode::IncrementalPolyFilled => false,
        _ => true,
    }
}

fn is_code(code: u8) -> bool
    ensures { IsTrue result → IsCode code }
{
    0x20 <= code && code <= 0x7F
}

/// Whether the bytes in the code are codes of a G set.
pub fn is_made(code: &Code) -> bool
    ensures { IsTrue result → IsMade code.now }
{
    match *code {
        Code::Char(_, code) => is_code(code),
        Code::DefGlyph(code) => is_code(code),
        Code::Step(TextStep::Aps(a, b)) => is_code(a) && is_code(b),
        _ => true,
    }
}

/// Returns the current lengths of operands and the saved ones, after a RESET of these bytes; zeros if it is refused.
///
/// DOMAIN sets the longest ones before it.
#[tactic(auto, unfolding(nap_list::specs::State::walk))]
fn lengths_after_a_reset(alloc: Global, reset: &[u8]) -> [u8; 4] {
    let domain = b"_".as_slice();
    let mut scratch = Vec::new(alloc);
    let mut sink = ListSink::new(alloc);
    let mut work = Work::start();
    if domain.len() > RUN_LIMIT || reset.len() > RUN_LIMIT {
        return [0; 4];
    }
    let Ok(_) = work.act(alloc, &mut scratch, Opcode::Domain, domain, &mut sink) else {
        return [0; 4];
    };
    let Ok(_) = work.act(alloc, &mut scratch, Opcode::Reset, reset, &mut sink) else {
        return [0; 4];
    };
    let Work { domain, saved, .. } = work;
    [
        domain.multi(),
        domain.single(),
        saved.multi(),
        saved.single(),
    ]
}

/// The bytes of a RESET, and the lengths after it.
const LENGTHS: &[(&[u8], [u8; 4])] = &[
    (b"", [8, 4, 3, 1]),
    (b"@", [8, 4, 3, 1]),
    (b"~\x7f", [8, 4, 3, 1]),
    (b"A", [3, 1, 3, 1]),
    (b"\x7f", [3, 1, 3, 1]),
    // Only the low six bits of a byte count.
    (b"\x01", [3, 1, 3, 1]),
    (b"\xc0", [8, 4, 3, 1]),
];

#[test]
fn a_reset_chooses_lengths(rt: HostRuntime) {
    for (bytes, want) in LENGTHS {
        let lengths = lengths_after_a_reset(rt.alloc(), bytes);
        assert!(rt; lengths == *want, "by {bytes:?}");
    }
}

/// Whether a RESET has one effect on a work and on a copy, which leaves the work unchanged.
#[tactic(auto, unfolding(nap_list::specs::State::walk))]
fn does_the_same_to_a_copy(alloc: Global) -> Result<bool, AllocError> {
    let bytes = b"AP".as_slice();
    let run = words(alloc, bytes)?;
    if run.len() > RUN_LIMIT || bytes.len() > RUN_LIMIT {
        return Ok(false);
    }
    let start = Work::start();
    let mut sink = ListSink::new(alloc);
    let Ok(effects) = apply(alloc, &start, Opcode::Reset, &run, &mut sink) else {
        return Ok(false);
    };
    let mut scratch = Vec::new(alloc);
    let mut other_sink = ListSink::new(alloc);
    let mut work = Work::start();
    let Ok(clears) = work.act(alloc, &mut scratch, Opcode::Reset, bytes, &mut other_sink) else {
        return Ok(false);
    };
    Ok(
        start == Work::start()
            && clears
            && effects == Effects { work, clears }
            && sink.into_list() == other_sink.into_list(),
    )
}

/// Whether a letter and a flag change copies of a work, and not the work.
#[tactic(auto, unfolding(nap_list::specs::State::walk))]
fn keeps_the_work(alloc: Global, want: &[Entry]) -> bool {
    let start = Work::start();
    let mut sink = ListSink::new(alloc);
    let Ok(typed) = text(&start, CharSet::Primary, 0x41, &mut sink) else {
        return false;
    };
    let Ok(reversed) = control(&typed, &Code::Reverse(true), &mut sink) else {
        return false;
    };
    start == Work::start()
        && typed.state.drawing.pen == Pen::After
        && !typed.state.drawing.text.reverse
        && reversed.state.drawing.text.reverse
        && sink.into_list().as_slice() == want
}

/// Whether a code that is no control is accepted after a letter, leaves the work unchanged, and has no entry.
#[tactic(auto, unfolding(nap_list::specs::State::walk))]
fn does_nothing(alloc: Global, code: &Code, want: &[Entry]) -> bool {
    if !is_made(code) {
        return false;
    }
    let mut work = Work::start();
    let mut sink = ListSink::new(alloc);
    let Ok(()) = work.text(CharSet::Primary, 0x41, &mut sink) else {
        return false;
    };
    let before = work.copy();
    let Ok(()) = work.control(code, &mut sink) else {
        return false;
    };
    work == before && sink.into_list().as_slice() == want
}

#[test]
fn works_and_their_copies(rt: HostRuntime) -> Result<(), Fail> {
    let alloc = rt.alloc();
    let letter = entries_of(alloc, &[Sample::Letter(Spot::Start)])?;
    let found = [
        does_the_same_to_a_copy(alloc)?,
        keeps_the_work(alloc, &letter),
        does_nothing(alloc, &Code::Op(Opcode::PointAbs), &letter),
        does_nothing(alloc, &Code::Operand(word(18)), &letter),
    ];
    assert!(rt; found == [true; 4]);
    Ok(())
}

const FAULTS: &[(DrawFault, &str)] = &[
    (DrawFault::Missing, "an operand is missing"),
    (DrawFault::PenUnknown, "the position of the pen is unknown"),
    (DrawFault::Memory, "no memory"),
];

#[test]
fn faults_have_texts(rt: HostRuntime) -> Result<(), Fail> {
    for (fault, want) in FAULTS {
        let text = format!(in rt.alloc(); "{fault}")?;
        assert!(rt; text.as_str() == *want, "{text}");
    }
    Ok(())
}
