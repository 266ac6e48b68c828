//! Writing of all bytes to an outlet.
ghost use Rattle.nap_list.specs.Sending.{SendsBytes};

use crate::device::Outlet;

/// Writes all bytes, and adds the number taken to `written`, saturating. The error is the number before a failed write.
pub fn send_all<O: Outlet>(outlet: &mut O, written: &mut u64, bytes: &[u8]) -> Result<(), usize>
    ensures { SendsBytes O.Outlet outlet.old written.old bytes.now outlet.new written.new result }
{
    let mut taken = 0;
    while taken < bytes.len() {
        let Ok(count) = outlet.write(&bytes[taken..]) else {
            return Err(taken);
        };
        *written = written.saturating_add(count as u64);
        taken += count;
    }
    Ok(())
}
