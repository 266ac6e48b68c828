//! Parsing of numbers.
ghost use Rattle.std.specs.Prelude.{◌≡◌, ◌≢◌, ◌<◌, ◌≤◌, ◌∷◌, ℕ, negsuc, suc, MatchOption, decimal};
ghost use Rattle.std.specs.Char.{digit_char};
ghost use Rattle.std.specs.Fmt.{signed_decimal};
ghost use Rattle.nap_make.specs.Types.{IsAddress, IsCode, IsWord, code_text};
ghost use Rattle.nap_make.specs.Numbers.{IsNumeralOf, IsSigned, IsNibble};
ghost use Rattle.nap_make.specs.Reading.{IsParsed, BothFit, pair_text};

use crate::cutting::split_at_byte;
use nap_values::{Addr, Word};

/// The greatest number of digits of a number.
pub const DIGITS: usize = 8;

/// Displacements are below this limit, and at least its negative.
const DISPLACEMENT_LIMIT: u32 = 8_388_608;

/// Words are below this limit.
const WORDS: u32 = Word::LIMIT as u32;

/// Parses at most eight decimal digits, with leading zeros or without.
pub fn numeral(digits: &[u8]) -> Option<u32>
    ensures { MatchOption result ((n : ℕ) → IsNumeralOf digits.now n → ⊥) (IsNumeralOf digits.now) }
{
    if digits.is_empty() || digits.len() > DIGITS {
        return None;
    }
    let mut value: u32 = 0;
    for digit in digits {
        if !digit.is_ascii_digit() {
            return None;
        }
        value = value * 10 + u32::from(*digit - b'0');
    }
    Some(value)
}

/// Parses a decimal number below the limit, without leading zeros.
pub(crate) fn number_below(digits: &[u8], limit: u32) -> Option<u32>
    requires { limit ≤ 100000000 }
    ensures { IsParsed (λ n. n < limit) decimal digits.now result }
{
    let value = numeral(digits)?;
    if value >= limit {
        return None;
    }
    if digits[0] != b'0' {
        return Some(value);
    }
    if digits.len() == 1 {
        return Some(value);
    }
    None
}

/// Parses a negative number after its minus.
fn negative(digits: &[u8]) -> Option<i32>
    ensures { MatchOption result ((n : ℕ) → IsSigned (negsuc n) → digits.now ≢ decimal (suc n)) (λ z. IsSigned z × (45 ∷ digits.now ≡ signed_decimal z)) }
{
    let size = number_below(digits, DISPLACEMENT_LIMIT + 1)?;
    if size == 0 {
        return None;
    }
    Some(-(size as i32))
}

/// Parses a signed number of 24 bits.
pub(crate) fn signed(bytes: &[u8]) -> Option<i32>
    ensures { IsParsed IsSigned signed_decimal bytes.now result }
{
    if bytes.len() == 0 {
        return None;
    }
    if bytes[0] != b'-' {
        let size = number_below(bytes, DISPLACEMENT_LIMIT)?;
        return Some(size as i32);
    }
    negative(&bytes[1..])
}

/// Parses a word.
pub(crate) fn word(bytes: &[u8]) -> Option<Word>
    ensures { IsParsed IsWord decimal bytes.now result }
{
    let number = number_below(bytes, WORDS)?;
    Word::try_new(number as u8)
}

/// Parses two words separated by a comma.
pub(crate) fn two_words(bytes: &[u8]) -> Option<(Word, Word)>
    ensures { IsParsed (BothFit IsWord IsWord) (pair_text decimal 44 decimal) bytes.now result }
{
    let (first, second) = split_at_byte(bytes, b',')?;
    Some((word(first)?, word(second)?))
}

/// Parses three words separated by commas.
pub(crate) fn three_words(bytes: &[u8]) -> Option<(Word, (Word, Word))>
    ensures { IsParsed (BothFit IsWord (BothFit IsWord IsWord)) (pair_text decimal 44 (pair_text decimal 44 decimal)) bytes.now result }
{
    let (first, others) = split_at_byte(bytes, b',')?;
    Some((word(first)?, two_words(others)?))
}

/// Parses an address of the colour map.
pub(crate) fn addr(bytes: &[u8]) -> Option<Addr>
    ensures { IsParsed IsAddress decimal bytes.now result }
{
    let number = number_below(bytes, Addr::LIMIT)?;
    Addr::try_new(number)
}

/// Returns the value of a lower-case hexadecimal digit.
fn nibble(digit: u8) -> Option<u8>
    ensures { MatchOption result ((d : ℕ) → IsNibble d → digit ≢ digit_char d) (λ d. IsNibble d × (digit ≡ digit_char d)) }
{
    match digit {
        b'0'..=b'9' => Some(digit - b'0'),
        b'a'..=b'f' => Some(digit - b'a' + 10),
        _ => None,
    }
}

/// Parses the code of a character, from `20` to `7F`.
pub(crate) fn code(bytes: &[u8]) -> Option<u8>
    ensures { IsParsed IsCode code_text bytes.now result }
{
    if bytes.len() != 2 {
        return None;
    }
    let high = nibble(bytes[0])?;
    let low = nibble(bytes[1])?;
    if high < 2 {
        return None;
    }
    if high > 7 {
        return None;
    }
    Some(high * 16 + low)
}
