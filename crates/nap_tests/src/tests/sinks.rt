//! Sinks that count and that keep, and points kept in memory.
use super::entries::{MIDDLE, QUARTER, Sample, entries_of, entry_of};
use super::samples::{at, corners, word};
use Sample::{Bell, Poly, Wait};
use nap_list::{CountSink, Entry, ListSink, Points, SHAPE_POINTS, Sink};
use std::test::Fail;

#[test]
fn sinks_count_entries_and_keep_their_order(rt: HostRuntime) -> Result<(), Fail> {
    let alloc = rt.alloc();
    let mut counts = CountSink::new();
    let before = counts.count();
    counts.put(Entry::Wait(word(10)))?;
    counts.put(Entry::Bell)?;
    counts.put(Entry::Bell)?;
    let mut list = ListSink::new(alloc);
    list.put(Entry::Wait(word(10)))?;
    list.put(Entry::Bell)?;
    let found = [
        (before, counts.count()) == (0, 3),
        list.into_list() == entries_of(alloc, &[Wait(10), Bell])?,
    ];
    assert!(rt; found == [true; 2]);
    Ok(())
}

#[test]
fn points_keep_their_order(rt: HostRuntime) -> Result<(), Fail> {
    let alloc = rt.alloc();
    let three = entry_of(alloc, Poly(3))?;
    let two = entry_of(alloc, Poly(2))?;
    let found = [
        corners(alloc, 2)?.as_slice() == [at(QUARTER), at(MIDDLE)].as_slice(),
        Points::new(alloc).as_slice().is_empty(),
        Points::with_capacity(alloc, SHAPE_POINTS)?
            .as_slice()
            .is_empty(),
        Points::with_capacity(alloc, usize::MAX).is_err(),
        // Shapes are equal by their points.
        two == entry_of(alloc, Poly(2))?,
        two != three,
    ];
    assert!(rt; found == [true; 6]);
    Ok(())
}
