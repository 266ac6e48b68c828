//! The known colours of the colour map (PROFILE.md, Known colours of the map).
ghost use Rattle.std.specs.Cmp.Lexicographic.{pointwise};
ghost use Rattle.std.specs.Cmp.Rules.{comparing};
ghost use Rattle.std.specs.Prelude.{[], ◌≡◌, List};
ghost use Rattle.std.proofs.Common.{rules};
ghost use Rattle.nap_list.specs.Known.{same_colour_at, is_known, with_known_colour, known_after_reset};
ghost use Rattle.nap_list.specs.declared.known.MapColour.{MapColour};

use arrayvec::ArrayVec;
use nap_values::{Addr, Grb, Word};
use std::marker::Model;

/// The greatest number of known colours (PROFILE.md, Limits).
pub const KNOWN: usize = 16;

/// An address of the colour map, with the colour that was set there.
#[derive(Clone, Copy, PartialEq, Eq, Debug, Drop)]
pub struct MapColour {
    /// The address.
    pub addr: Addr,
    /// The colour.
    pub grb: Grb,
}

impl Default for MapColour {
    fn default() -> MapColour {
        MapColour {
            addr: Addr::try_new(0).unwrap(),
            grb: Grb::new(0, 0, 0),
        }
    }
}

/// At most 16 known colours, the last set first, each address once (PROFILE.md, Known colours of the map).
#[derive(Drop)]
pub struct Known {
    colours: ArrayVec<MapColour, KNOWN>,
}

impl Model for Known {
    ghost Value = { List MapColour };

    ghost view = { λ k. k.colours.items };
}

impl Known {
    /// Returns no known colours.
    pub fn new() -> Known
        ensures { result ≡ [] }
    {
        Known {
            colours: ArrayVec::new(),
        }
    }

    /// Returns a copy, which takes no memory.
    pub fn copy(&self) -> Known
        ensures { result ≡ self.now }
    {
        let mut colours = ArrayVec::new();
        colours.try_extend_from_slice(&self.colours).unwrap();
        Known { colours }
    }

    /// Whether this colour is known at this address.
    pub fn has(&self, addr: Addr, grb: Grb) -> bool
        ensures { result ≡ is_known addr grb self.now }
    {
        let wanted = MapColour { addr, grb };
        self.colours.iter().any(|known| *known == wanted)
    }

    /// Sets the colour at an address: puts it first, removes an older colour of the address, and keeps at most 16.
    pub fn set(&mut self, addr: Addr, grb: Grb)
        ensures { self.new ≡ with_known_colour addr grb self.old }
    {
        let mut next = MapColour { addr, grb };
        let mut kept = 0;
        for i in 0..self.colours.len() {
            let old = self.colours[i];
            if old.addr != addr {
                self.colours[kept] = next;
                next = old;
                kept += 1;
            }
        }
        self.colours.truncate(kept);
        if kept < KNOWN {
            self.colours.push(next);
        }
    }

    /// Applies RESET with this first word: if it chooses colours, no colour is known afterwards (PROFILE.md, RESET).
    pub fn reset(&mut self, first: Word)
        ensures { self.new ≡ known_after_reset first self.old }
    {
        if first.get() / 2 % 4 != 0 {
            self.colours.clear();
        }
    }
}

impl PartialEq for Known {
    ghost eq = { pointwise same_colour_at };

    ghost laws = { Prim.search (comparing, rules) depth 12 };

    fn eq(&self, other: &Known) -> bool {
        self.colours.as_slice() == other.colours.as_slice()
    }
}

impl Eq for Known {
    ghost laws = { Prim.search (comparing, rules) depth 12 };
}
