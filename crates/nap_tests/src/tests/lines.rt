//! The line of an entry that no stream gives.
use super::samples::hand;
use nap_codes::Size;
use nap_lines::line_of;
use nap_list::{Entry, Pen};
use std::test::Fail;

#[test]
fn to_the_end_of_the_line_at_the_start(rt: HostRuntime) -> Result<(), Fail> {
    let hand = hand(Size::Double, Pen::Start);
    let line = line_of(rt.alloc(), &Entry::ToEol { hand })?;
    let want = "TO-EOL pen=start colour=own-start text=0,0/double/----";
    assert!(rt; line.as_str() == want, "{line}");
    Ok(())
}
