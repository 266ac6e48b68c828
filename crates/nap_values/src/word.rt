//! The six-bit words that operands are made of.
ghost use Rattle.std.specs.Prelude.{◌≡◌, ◌<◌, ◌%◌, ◌↔◌, IsSome, IfSome, ℕ};

use std::marker::Model;

/// A word: six bits of an operand, carried by one byte of the stream (PROFILE.md, Operands).
#[derive(Clone, Copy, PartialEq, Eq, Debug, Drop)]
pub struct Word(u8);

impl Model for Word {
    ghost Value = { ℕ };

    ghost view = { λ w. w.0 };

    ghost invariant = { λ w. w.0 < 64 };

    ghost inverse = { λ n. record { 0 = n } };
}

impl Word {
    /// The word with all bits zero.
    pub const ZERO: Word = Word(0);

    /// Every word is below this limit.
    pub const LIMIT: u8 = 64;

    /// Returns the word with this number, or `None` above 63.
    pub fn try_new(number: u8) -> Option<Word>
        ensures found { IsSome result ↔ (number < 64) }
        ensures value { IfSome result (λ word. word ≡ number) }
    {
        if number >= Self::LIMIT {
            return None;
        }
        Some(Word(number))
    }

    /// Returns the word that a byte carries: its low six bits (PROFILE.md, Operands).
    #[inline]
    pub fn of_byte(byte: u8) -> Word
        ensures { result ≡ byte % 64 }
    {
        Word(byte % Self::LIMIT)
    }

    /// Returns the number of the word, from 0 to 63.
    #[inline]
    pub fn get(self) -> u8
        ensures value { result ≡ self }
        ensures below { result < 64 }
    {
        self.0
    }
}
