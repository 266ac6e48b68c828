//! Pages of each kind, where any growth of memory may be refused: a run of this test refuses one after another.
use nap_canon::{CanonFault, ConvertFault, canon, convert, normalise};
use nap_list::{ListSink, Source, Target};
use nap_reader::{Budget, Fault, Reader, Refusal, read_all};
use std::alloc::Global;
use std::io;
use std::io::Write;

const POINT: &[u8] = b"\x0E!_&R@@@@@@@";

const CIRCLE: &[u8] = b"\x0E!_.@@@@@@@@I@@@@@@@\x7F@@@@@@@";

// Takes the bytes that are expected, and no others, without memory.
#[derive(Drop)]
struct Expecting<'a> {
    rest: &'a [u8],
}

impl Write for Expecting<'_> {
    fn write(&mut self, buf: &[u8]) -> io::Result<usize> {
        match self.rest.split_at_checked(buf.len()) {
            Some((front, rest)) if front == buf => {
                self.rest = rest;
                Ok(buf.len())
            }
            _ => Err(io::ErrorKind::Other.into()),
        }
    }

    fn flush(&mut self) -> io::Result<()> {
        Ok(())
    }
}

// Whether the refusal is lack of memory, at a byte of the page or at its end.
fn lacks(bytes: &[u8], refusal: Refusal) -> bool {
    refusal.fault == Fault::Memory && refusal.place <= bytes.len() as u64
}

// Whether the page has `entries` entries, or lacks memory.
fn reads_whole(alloc: Global, bytes: &[u8], entries: usize) -> bool {
    match read_all(alloc, Budget::usual(), bytes) {
        Ok(list) => list.len() == entries,
        Err(refusal) => lacks(bytes, refusal),
    }
}

// Whether the page has `entries` entries, or the first of them and a lasting refusal.
#[tactic(auto, unfolding(nap_list::specs::State::walk))]
fn reads(alloc: Global, bytes: &[u8], entries: usize) -> bool {
    if bytes.len() >= 1 << 32 {
        return false;
    }
    let mut reader = Reader::new(alloc, Budget::usual(), ListSink::new(alloc));
    if let Err(refusal) = reader.feed(bytes) {
        if !lacks(bytes, refusal) || reader.feed(b"\x00") != Err(refusal) {
            return false;
        }
    }
    let kept = reader.into_sink().into_list();
    let is_front = match read_all(alloc, Budget::usual(), bytes) {
        Ok(list) => list.as_slice().starts_with(kept.as_slice()),
        Err(_) => true,
    };
    is_front && kept.len() <= entries && reads_whole(alloc, bytes, entries)
}

// Whether the page has this canonical stream, or memory runs out for it.
fn writes(alloc: Global, bytes: &[u8], want: &[u8]) -> bool {
    match normalise(alloc, Budget::usual(), bytes) {
        Ok(text) if text.as_slice() == want => {}
        Err(refusal) if lacks(bytes, refusal) => {}
        _ => return false,
    }
    let Ok(list) = read_all(alloc, Budget::usual(), bytes) else {
        return true;
    };
    match canon(alloc, &list) {
        Ok(text) => text.as_slice() == want,
        Err(fault) => fault == CanonFault::Memory,
    }
}

// Whether the canonical stream is written, or a prefix of it if memory runs out.
fn streams(alloc: Global, bytes: &[u8], want: &[u8]) -> bool {
    let output = Target::new(Expecting { rest: want });
    let (output, answer) = convert(alloc, &mut Source::new(bytes), output, Budget::usual());
    let Expecting { rest } = output.into_inner();
    let out = want.len().saturating_sub(rest.len()) as u64;
    match answer {
        Ok(written) => rest.is_empty() && written == out,
        Err(ConvertFault::Refused { refusal, written }) => lacks(bytes, refusal) && written == out,
        Err(fault) => fault == ConvertFault::Write { written: 0 },
    }
}

fn survives(alloc: Global, bytes: &[u8], want: &[u8], entries: usize) -> bool {
    reads(alloc, bytes, entries) && writes(alloc, bytes, want) && streams(alloc, bytes, want)
}

// Pages, with their canonical streams and numbers of entries.
const PAGES: &[(&[u8], &[u8], usize)] = &[
    (b"\x0E&R@@", POINT, 1),
    (b"\x0E.@@@I@@\x7F@@", CIRCLE, 1),
    (b"\x1B@!\x0E&R\x1BE\x1B/z\x1D!@@", POINT, 1),
    (b"\x1BA!\x0E&R\x1BCA\x1BE", b"\x0E!_&R@@@@@@@\x1BCA\x1BE", 3),
    (
        b"\x0E$P@@\x1BCA!@&I\x1BE(R@@",
        b"\x0E!_\x1BCA&I@@@@@@@\x1BE*P@@@@@@@R@@@@@@@",
        4,
    ),
    (
        b"\x19A\x1DB\x1B({C",
        b"\x0E!_\x19A\x1DB\x1B+{\x1DC\x1B+}",
        3,
    ),
];

#[test]
fn short_pages_survive_want_of_memory(rt: HostRuntime) {
    for (bytes, want, entries) in PAGES {
        assert!(rt; survives(rt.alloc(), bytes, want, *entries), "{bytes:?}");
    }
}

#[test]
fn a_large_shape_survives_want_of_memory(rt: HostRuntime) {
    let mut page = [0x40; 2_004];
    let mut want = [0x40; 16_012];
    page[..4].copy_from_slice(b"\x0E!@4");
    want[..4].copy_from_slice(b"\x0E!_6");
    assert!(rt; survives(rt.alloc(), &page, &want, 1));
}

#[test]
fn a_full_store_survives_want_of_memory(rt: HostRuntime) {
    let alloc = rt.alloc();
    let Ok(mut page) = Vec::with_capacity(alloc, 1_048_581) else {
        return;
    };
    let taken = page.extend_from_slice(b"\x1B@!").is_ok()
        && page.resize(1_048_579, 0x41).is_ok()
        && page.extend_from_slice(b"\x1BE").is_ok();
    assert!(rt; taken && survives(alloc, page.as_slice(), b"\x0E!_", 0));
}
