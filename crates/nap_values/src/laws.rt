//! Laws about the definitions of this crate. Each is the contract of a function that does nothing.
ghost use Rattle.nap_values.specs.Laws.{MovesSpellOnce, PointsSpellOnce, AddressesSpellOnce, ColoursSpellOnce, MissingWordsAreZero, ValuesAreInRange, DisplacementsLeadThere, DisplacementsAreUnique, PointsAreInside};

/// Each displacement is spelled by exactly one operand of eight words.
pub fn moves_spell_once()
    ensures { MovesSpellOnce }
{}

/// Each point is spelled by exactly one operand of eight words.
pub fn points_spell_once()
    ensures { PointsSpellOnce }
{}

/// Each address is spelled by exactly one operand of four words.
pub fn addresses_spell_once()
    ensures { AddressesSpellOnce }
{}

/// Each colour is spelled by exactly one operand of eight words.
pub fn colours_spell_once()
    ensures { ColoursSpellOnce }
{}

/// An operand that is cut short has the value of the operand padded with zero words.
pub fn missing_words_are_zero()
    ensures { MissingWordsAreZero }
{}

/// Every value that an operand spells is in the range of its type.
pub fn values_are_in_range()
    ensures { ValuesAreInRange }
{}

/// Moving a point by the displacement to another point gives that other point.
pub fn displacements_lead_there()
    ensures { DisplacementsLeadThere }
{}

/// The displacement between two points is the only one that moves the first to the second.
pub fn displacements_are_unique()
    ensures { DisplacementsAreUnique }
{}

/// A point given by a displacement from the origin is on the unit screen, and no other displacement gives it.
pub fn points_are_inside()
    ensures { PointsAreInside }
{}
