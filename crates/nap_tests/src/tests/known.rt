//! The known colours of the map.
use super::entries::{Sample, Spot, entry_of};
use Sample::{Red, Reset};
use nap_list::{KNOWN, Known, State};
use std::alloc::{AllocError, Global};
use std::test::Fail;

/// Returns the state after a colour at each address below this.
fn with_colours(alloc: Global, count: u32) -> Result<State, AllocError> {
    let mut state = State::start();
    for number in 0..count {
        take(&mut state, alloc, Red(number, 9))?;
    }
    Ok(state)
}

/// Returns how many of these entries fit in sequence.
fn fitting(state: State, alloc: Global, samples: &[Sample]) -> Result<usize, AllocError> {
    let mut state = state;
    let mut count: usize = 0;
    for sample in samples {
        if !take(&mut state, alloc, *sample)? {
            break;
        }
        count = count.wrapping_add(1);
    }
    Ok(count)
}

/// Advances past the entry if it fits, and returns whether it does.
fn take(state: &mut State, alloc: Global, sample: Sample) -> Result<bool, AllocError> {
    let entry = entry_of(alloc, sample)?;
    let fits = state.fits(&entry);
    if fits {
        state.step(&entry);
    }
    Ok(fits)
}

/// The number of known colours, entries after them, and how many of these fit.
const ROWS: &[(u32, &[Sample], usize)] = &[
    // Sixteen colours are known, and the oldest is forgotten.
    (16, &[Red(0, 9)], 0),
    (17, &[Red(0, 9)], 1),
    (17, &[Red(1, 9)], 0),
    (17, &[Red(16, 9)], 0),
    // A colour that is set again is the newest.
    (16, &[Red(0, 8), Red(16, 9), Red(0, 8)], 2),
    (16, &[Red(0, 8), Red(16, 9), Red(1, 9)], 3),
    // A RESET that chooses colours forgets all.
    (1, &[Reset(0, 0x3F, Spot::Start), Red(0, 9)], 1),
    (1, &[Reset(1, 0x3F, Spot::Start), Red(0, 9)], 1),
    (1, &[Reset(2, 0x3F, Spot::Start), Red(0, 9)], 2),
    (1, &[Reset(4, 0x3F, Spot::Start), Red(0, 9)], 2),
    (1, &[Reset(6, 0x3F, Spot::Start), Red(0, 9)], 2),
    (1, &[Reset(8, 0x3F, Spot::Start), Red(0, 9)], 1),
];

#[test]
fn colours_are_known_until_they_are_forgotten(rt: HostRuntime) -> Result<(), Fail> {
    let alloc = rt.alloc();
    for (colours, samples, want) in ROWS {
        let count = fitting(with_colours(alloc, *colours)?, alloc, samples)?;
        assert!(rt; count == *want, "{count} of {want} after {colours}");
    }
    Ok(())
}

#[test]
fn a_copy_knows_the_same(rt: HostRuntime) -> Result<(), Fail> {
    let state = with_colours(rt.alloc(), 5)?;
    let answers = [
        KNOWN == 16,
        state.known.copy() == state.known,
        state.known != Known::new(),
        state.copy() == state,
    ];
    assert!(rt; answers == [true; 4]);
    Ok(())
}
