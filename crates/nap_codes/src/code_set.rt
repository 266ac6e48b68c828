//! Code sets, the registers G0 to G3, and designations of sets to them (PROFILE.md, Code sets and escapes).
ghost use Rattle.std.specs.Prelude.{◌≡◌};
ghost use Rattle.nap_codes.specs.CodeSets.{after_control0, char_set_of, set_at, start_sets, with_set};
ghost use Rattle.nap_codes.specs.Tables.{designation};

/// A set of 96 codes (PROFILE.md, Designations). Those of characters come first, so that one comparison tells them.
#[derive(Clone, Copy, PartialEq, Eq, Debug, Drop)]
pub enum CodeSet {
    /// The primary characters: letters, digits and signs.
    Primary,
    /// The supplementary characters: accents and further signs.
    Supplementary,
    /// The mosaic characters.
    Mosaic,
    /// The dynamically redefinable characters (DRCS).
    Drcs,
    /// The picture description instructions: opcodes and the words of their operands.
    Pdi,
    /// Calls of macros.
    Macros,
}

/// One of the four registers for code sets (PROFILE.md, Code sets and escapes).
#[derive(Clone, Copy, PartialEq, Eq, Debug, Drop)]
pub enum GSet {
    /// Holds the primary characters at the start of a stream, and is in GL there.
    G0,
    /// Holds the PDI set at the start of a stream.
    G1,
    /// Holds the supplementary characters at the start of a stream.
    G2,
    /// Holds the mosaic characters at the start of a stream.
    G3,
}

/// The sets in the four registers, and the register in GL, whose set gives the bytes `20` to `7F` their meaning.
#[derive(Clone, Copy, PartialEq, Eq, Debug, Drop)]
pub struct CodeSets {
    /// The set in G0.
    pub g0: CodeSet,
    /// The set in G1.
    pub g1: CodeSet,
    /// The set in G2.
    pub g2: CodeSet,
    /// The set in G3.
    pub g3: CodeSet,
    /// The register in GL.
    pub gl: GSet,
}

impl CodeSet {
    /// Returns the character set, or `None` for the PDI set and the macro set.
    pub(crate) fn char_set(self) -> Option<CharSet>
        ensures { result ≡ char_set_of self }
    {
        match self {
            CodeSet::Primary => Some(CharSet::Primary),
            CodeSet::Supplementary => Some(CharSet::Supplementary),
            CodeSet::Mosaic => Some(CharSet::Mosaic),
            CodeSet::Drcs => Some(CharSet::Drcs),
            CodeSet::Macros | CodeSet::Pdi => None,
        }
    }
}

impl CodeSets {
    /// Returns the code sets at the start of a stream.
    pub fn start() -> CodeSets
        ensures { result ≡ start_sets }
    {
        CodeSets {
            g0: CodeSet::Primary,
            g1: CodeSet::Pdi,
            g2: CodeSet::Supplementary,
            g3: CodeSet::Mosaic,
            gl: GSet::G0,
        }
    }

    /// Returns the set in a register.
    #[inline]
    pub fn set_at(self, place: GSet) -> CodeSet
        ensures { result ≡ set_at self place }
    {
        let sets = [self.g0, self.g1, self.g2, self.g3];
        sets[place as usize]
    }

    /// Returns the code sets with this register in GL.
    pub(crate) fn with_gl(self, place: GSet) -> CodeSets
        ensures { result ≡ record self { gl = place } }
    {
        CodeSets { gl: place, ..self }
    }

    /// Returns the code sets after a control of the C0 set, which SO and SI change.
    #[tactic(auto, unfolding(crate::specs::CodeSets::after_control0))]
    pub(crate) fn after_control0(self, byte: u8) -> CodeSets
        ensures { result ≡ after_control0 self byte }
    {
        match byte {
            0x0E => self.with_gl(GSet::G1),
            0x0F => self.with_gl(GSet::G0),
            _ => self,
        }
    }

    /// Returns the code sets with the set in the register of this number, 0 to 3.
    #[tactic(auto, unfolding(crate::specs::CodeSets::with_set))]
    pub(crate) fn with_set(self, number: u8, set: CodeSet) -> CodeSets
        ensures { result ≡ with_set self number set }
    {
        match number {
            0 => CodeSets { g0: set, ..self },
            1 => CodeSets { g1: set, ..self },
            2 => CodeSets { g2: set, ..self },
            _ => CodeSets { g3: set, ..self },
        }
    }
}

/// Returns what an escape sequence designates: a register's number, 0 to 3, and its set (PROFILE.md, Designations).
#[tactic(auto, unfolding(crate::specs::Tables::designation, crate::specs::Tables::row_of, crate::specs::Tables::number_rows, crate::specs::Tables::set_rows))]
pub fn designate(intermediate: u8, last: u8) -> Option<(u8, CodeSet)>
    ensures { result ≡ designation intermediate last }
{
    let number = match intermediate {
        0x28 | 0x2C => 0,
        0x29 | 0x2D => 1,
        0x2A | 0x2E => 2,
        0x2B | 0x2F => 3,
        _ => return None,
    };
    let set = match last {
        0x42 => CodeSet::Primary,
        0x7C => CodeSet::Supplementary,
        0x57 => CodeSet::Pdi,
        0x7D => CodeSet::Mosaic,
        0x7A => CodeSet::Macros,
        0x7B => CodeSet::Drcs,
        _ => return None,
    };
    Some((number, set))
}

/// A set whose codes are characters.
#[derive(Clone, Copy, PartialEq, Eq, Debug, Drop)]
pub enum CharSet {
    /// The primary characters: letters, digits and signs.
    Primary,
    /// The supplementary characters: accents and further signs.
    Supplementary,
    /// The mosaic characters.
    Mosaic,
    /// The dynamically redefinable characters (DRCS).
    Drcs,
}
