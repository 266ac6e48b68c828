//! Legality of display lists.
ghost use Rattle.std.specs.Prelude.{◌↔◌, ℕ, IsOk, IsErrOf};
ghost use Rattle.nap_list.specs.State.{Legal, IsIllegalAt};

use crate::entry::Entry;
use crate::state::State;

/// Checks that each entry fits and that no definition is left open (PROFILE.md, Which entries fit). The error is the
/// index of the first entry that doesn't fit, or the length if only a definition is left open.
pub fn legal(entries: &[Entry]) -> Result<(), usize>
    ensures ok { IsOk result ↔ Legal entries.now }
    ensures err { (index : ℕ) → IsErrOf result index ↔ IsIllegalAt index entries.now }
{
    let mut state = State::start();
    for (index, entry) in entries.iter().enumerate() {
        if !state.fits(entry) {
            return Err(index);
        }
        state.step(entry);
    }
    if state.definition.is_some() {
        return Err(entries.len());
    }
    Ok(())
}
