//! Laws about states and lists. Each is the contract of a function that does nothing.
#![tactic(auto, using(crate::proofs::PublicLaws::laws))]

ghost use Rattle.std.specs.Prelude.{◌≡◌};
ghost use Rattle.nap_list.specs.Laws.{WalksJoin, FitsJoin, StartAgrees, CurrentAttributesChangeNothing, LegalIsNowhereIllegal, BatchIsCurrent, TextLeaves, TextEntriesAreWellMade};
ghost use Rattle.nap_list.specs.Agreement.{AgreeingFits};
ghost use Rattle.nap_list.specs.Limits.{points_limit, read_limit, reads_limit, known_limit};
ghost use Rattle.nap_list.specs.declared.device.TheConstants.{READ_SIZE, READS};
ghost use Rattle.nap_list.specs.declared.known.TheConstants.{KNOWN};
ghost use Rattle.nap_list.specs.declared.shape.TheConstants.{SHAPE_POINTS};

/// The state after two lists is the state after the second, begun at the state after the first.
pub fn walks_join()
    ensures { WalksJoin }
{}

/// Two lists fit one after the other exactly if the first fits, and the second fits the state that the first leaves.
pub fn fits_join()
    ensures { FitsJoin }
{}

/// If a state agrees with that of the entries so far, an entry of its attributes fits, and they agree after it.
pub fn agreeing_fits()
    ensures { AgreeingFits }
{}

/// The state at the start agrees with the state of the empty list.
pub fn start_agrees()
    ensures { StartAgrees }
{}

/// Applying attributes that are already current changes nothing.
pub fn current_attributes_change_nothing()
    ensures { CurrentAttributesChangeNothing }
{}

/// A legal list is illegal at no index.
pub fn legal_is_nowhere_illegal()
    ensures { LegalIsNowhereIllegal }
{}

/// After the first entry of a batch, the attributes of each further one are current when it comes.
pub fn batch_is_current()
    ensures { BatchIsCurrent }
{}

/// A text leaves the state that its last byte leaves, with the attributes of its first.
pub fn text_leaves()
    ensures { TextLeaves }
{}

/// The limits of points, reads, bytes of a read and known colours are those of the profile (PROFILE.md, Limits).
pub fn limits()
    ensures points { SHAPE_POINTS ≡ points_limit }
    ensures reads { READS ≡ reads_limit }
    ensures read { READ_SIZE ≡ read_limit }
    ensures known { KNOWN ≡ known_limit }
{}

/// Each byte of a text gives a well-made entry.
pub fn text_entries_are_well_made()
    ensures { TextEntriesAreWellMade }
{}
