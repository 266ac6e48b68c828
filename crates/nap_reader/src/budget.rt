//! The budget of a reading.
ghost use Rattle.std.specs.Prelude.{◌≡◌, ◌≤◌, ◌↔◌, IsSome, IfSome};
ghost use Rattle.nap_reader.specs.Budgets.{most_budget, usual_budget};

use std::marker::Model;

/// The number of bytes of macro bodies that one reading may be charged (PROFILE.md, Limits).
#[derive(Clone, Copy, PartialEq, Eq, Debug, Drop)]
pub struct Budget(u32);

impl Model for Budget {
    ghost use Rattle.std.specs.Prelude.{ℕ, ◌≤◌};
    ghost use Rattle.nap_reader.specs.Budgets.{most_budget};

    ghost Value = { ℕ };

    ghost view = { λ b. b.0 };

    ghost invariant = { λ b. b.0 ≤ most_budget };

    ghost inverse = { λ n. record { 0 = n } };
}

impl Budget {
    /// The greatest budget, in bytes.
    pub const MOST: u32 = 67_108_864;

    /// The default budget, in bytes.
    pub const USUAL: u32 = 1_048_576;

    /// Returns the budget of `bytes`, or `None` above `MOST`.
    pub fn new(bytes: u32) -> Option<Budget>
        ensures found { IsSome result ↔ (bytes ≤ most_budget) }
        ensures value { IfSome result (λ budget. budget ≡ bytes) }
    {
        if bytes <= Self::MOST {
            Some(Budget(bytes))
        } else {
            None
        }
    }

    /// Returns the default budget.
    pub fn usual() -> Budget
        ensures { result ≡ usual_budget }
    {
        Budget(Self::USUAL)
    }

    /// Returns the budget in bytes.
    pub fn get(self) -> u32
        ensures value { result ≡ self }
        ensures most { result ≤ most_budget }
    {
        self.0
    }
}
