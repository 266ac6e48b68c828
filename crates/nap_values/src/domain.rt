//! The lengths of operands.
ghost use Rattle.std.specs.Prelude.{◌≡◌, ◌≤◌, ◌↔◌, IsSome, IfSome};
ghost use Rattle.nap_values.specs.Domains.{OperandLengths};

use std::marker::Model;

/// The operand lengths, in words: 1 to 8 for a multi-value operand, 1 to 4 for a single-value one (PROFILE.md, DOMAIN).
#[derive(Clone, Copy, PartialEq, Eq, Debug, Drop)]
pub struct Domain {
    multi: u8,
    single: u8,
}

impl Model for Domain {
    ghost Value = { OperandLengths };

    ghost view = { λ d. record { multi = d.multi; single = d.single } };

    ghost invariant = { λ d. (1 ≤ d.multi) × (d.multi ≤ 8) × (1 ≤ d.single) × (d.single ≤ 4) };

    ghost inverse = { λ v. record { multi = v.multi; single = v.single } };
}

impl Domain {
    /// The operand lengths at the start of a stream: 3 and 1 (PROFILE.md, The drawing state).
    pub const START: Domain = Domain {
        multi: 3,
        single: 1,
    };

    /// Returns the operand lengths, or `None` if `multi` is outside 1 to 8 or `single` outside 1 to 4.
    pub fn try_new(multi: u8, single: u8) -> Option<Domain>
        ensures found { IsSome result ↔ ((1 ≤ multi) × (multi ≤ 8) × (1 ≤ single) × (single ≤ 4)) }
        ensures value { IfSome result (λ d. d ≡ record { multi = multi; single = single }) }
    {
        if multi >= 1 && multi <= 8 && single >= 1 && single <= 4 {
            Some(Domain { multi, single })
        } else {
            None
        }
    }

    /// Returns the number of words of a multi-value operand.
    pub fn multi(self) -> u8
        ensures value { result ≡ self.multi }
        ensures least { 1 ≤ result }
        ensures most { result ≤ 8 }
    {
        self.multi
    }

    /// Returns the number of words of a single-value operand.
    pub fn single(self) -> u8
        ensures value { result ≡ self.single }
        ensures least { 1 ≤ result }
        ensures most { result ≤ 4 }
    {
        self.single
    }
}
