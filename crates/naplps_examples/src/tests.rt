//! Each example on a page that is accepted and on one that is refused.
use crate::converting::convert_all;
use crate::extent::{Extent, extent_of};
use crate::listing::list;
use naplps::{ConvertFault, Fault, Refusal};
use std::test::Fail;

/// A point in the middle, a line from it to the corner, and the bell.
const PAGE: &[u8] = b"\x0E\x26\x52\x40\x40\x28\x40\x40\x40\x07";

/// The page, and then a byte of eight bits.
const REFUSED: &[u8] = b"\x0E\x26\x52\x40\x40\x28\x40\x40\x40\x07\x80";

const REFUSAL: Refusal = Refusal {
    fault: Fault::EighthBit,
    place: 10,
};

const LINES: &str = "POINT 4194304,4194304 pel=0,0 colour=own-start
LINE 4194304,4194304 0,0 pel=0,0 colour=own-start texture=0/none
BELL
";

const CANONICAL: &[u8] =
    b"\x0E\x21\x5F\x26\x52\x40\x40\x40\x40\x40\x40\x40\x28\x40\x40\x40\x40\x40\x40\x40\x40\x07";

#[test]
fn a_page_is_listed(rt: HostRuntime) -> Result<(), Fail> {
    let alloc = rt.alloc();
    assert_eq!(rt; list(alloc, PAGE)?.as_str(), LINES);
    assert_eq!(rt; list(alloc, REFUSED)?.as_str(), "EighthBit at 10\n");
    Ok(())
}

#[test]
fn a_page_is_converted(rt: HostRuntime) {
    let alloc = rt.alloc();
    let refused = ConvertFault::Refused {
        refusal: REFUSAL,
        written: 22,
    };
    for (page, wanted) in [(PAGE, Ok(22)), (REFUSED, Err(refused))] {
        let (bytes, answer) = convert_all(alloc, page, Vec::new(alloc));
        assert!(rt; answer == wanted);
        assert!(rt; bytes.as_slice() == CANONICAL);
    }
}

#[test]
fn a_page_has_an_extent(rt: HostRuntime) {
    let alloc = rt.alloc();
    let wanted = Extent {
        left: 0,
        bottom: 0,
        right: 4_194_304,
        top: 4_194_304,
    };
    assert!(rt; extent_of(alloc, PAGE) == Ok(wanted));
    assert!(rt; extent_of(alloc, REFUSED) == Err(REFUSAL));
    assert!(rt; extent_of(alloc, b"\x07") == Ok(Extent::nowhere()));
}
