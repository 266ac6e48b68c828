//! Decoding of operands that are given as bytes. A byte carries a word in its low six bits; its other bits are ignored.
ghost use Rattle.std.specs.Prelude.{◌≡◌, ◌≤◌, ◌-◌, ◌++◌, ◌∷◌, ℕ, List, is_some, length, take, replicate};
ghost use Rattle.nap_values.specs.Operands.{operand_words, multi_of, single_of, colour_of};
ghost use Rattle.nap_values.specs.Coordinates.{point_at, IsInSquare};
ghost use Rattle.nap_values.specs.PackedCoordinates.{words_in};
ghost use Rattle.nap_values.specs.Spellings.{operand_bytes, move_bytes, point_bytes, addr_bytes, grb_bytes};

use crate::colours::{Addr, Grb};
use crate::packed::PackedWords;
use crate::point::{Move, Point};
use crate::word::Word;
use arrayvec::ArrayVec;

/// Selects the low six bits of each of eight bytes.
const LOW: u64 = 0x3F3F_3F3F_3F3F_3F3F;

/// Selects the low six bits of the first three of eight bytes.
const LOW_OF_THREE: u64 = 0x3F3F_3F00_0000_0000;

/// The greatest number of words of an operand.
pub(crate) const MOST_WORDS: usize = 8;

/// Decodes a multi-value operand of at most eight bytes as a displacement. Missing words count as zero.
#[inline]
pub fn multi_bytes(operand: &[u8]) -> Move
    requires { length operand.now ≤ 8 }
    ensures { result ≡ multi_of (operand_words operand.now) }
{
    if let [first, second, third] = operand {
        return Move::from_words(pack_eight([*first, *second, *third, 0, 0, 0, 0, 0]));
    }
    Move::from_words(pack_padded(operand))
}

/// Decodes the first three of eight bytes as a multi-value operand of three words.
#[inline]
pub fn multi_first_three(block: &[u8; 8]) -> Move
    ensures { result ≡ multi_of (operand_words (take 3 block.now)) }
{
    Move::from_words(PackedWords::new(u64::from_be_bytes(*block) & LOW_OF_THREE))
}

/// Whether an operand with this first byte spells a point on the unit screen: its sign bits of x and y are clear.
#[inline]
pub fn begins_inside(first: u8) -> bool
    ensures { (rest : List ℕ) → result ≡ is_some (point_at (multi_of (operand_words (first ∷ rest)))) }
{
    first & 0x24 == 0
}

/// Decodes a single-value operand of at most four bytes as an address. Missing words count as zero.
pub fn single_bytes(operand: &[u8]) -> Addr
    requires { length operand.now ≤ 4 }
    ensures { result ≡ single_of (operand_words operand.now) }
{
    let mut number: u32 = 0;
    let mut unit = Addr::LIMIT;
    for byte in operand {
        unit /= 64;
        number += u32::from(*byte % Word::LIMIT) * unit;
    }
    Addr::new(number)
}

/// Packs the words that eight bytes carry.
#[inline]
pub(crate) fn pack_eight(bytes: [u8; MOST_WORDS]) -> PackedWords
    ensures { words_in result ≡ operand_words bytes }
{
    PackedWords::new(u64::from_be_bytes(bytes) & LOW)
}

/// Packs the words of at most eight bytes. Not inlined, so that loops over three bytes keep their registers.
#[inline(never)]
pub(crate) fn pack_padded(run: &[u8]) -> PackedWords
    requires { length run.now ≤ 8 }
    ensures { words_in result ≡ operand_words run.now ++ replicate (8 - length run.now) 0 }
{
    match run {
        [a] => pack_eight([*a, 0, 0, 0, 0, 0, 0, 0]),
        [a, b] => pack_eight([*a, *b, 0, 0, 0, 0, 0, 0]),
        [a, b, c] => pack_eight([*a, *b, *c, 0, 0, 0, 0, 0]),
        [a, b, c, d] => pack_eight([*a, *b, *c, *d, 0, 0, 0, 0]),
        [a, b, c, d, e] => pack_eight([*a, *b, *c, *d, *e, 0, 0, 0]),
        [a, b, c, d, e, f] => pack_eight([*a, *b, *c, *d, *e, *f, 0, 0]),
        [a, b, c, d, e, f, g] => pack_eight([*a, *b, *c, *d, *e, *f, *g, 0]),
        [a, b, c, d, e, f, g, h] => pack_eight([*a, *b, *c, *d, *e, *f, *g, *h]),
        _ => pack_eight([0; MOST_WORDS]),
    }
}

/// Decodes eight words, whatever `size` is, as a displacement. Missing words count as zero, further ones not at all.
pub fn multi(run: &[Word], size: u8) -> Move
    ensures { result ≡ multi_of run.now }
{
    multi_bytes(&padded_bytes(run))
}

/// Decodes four words, whatever `size` is, as an address. Missing words count as zero, further ones not at all.
pub fn single(run: &[Word], size: u8) -> Addr
    ensures { result ≡ single_of run.now }
{
    single_bytes(&padded_bytes(run)[..4])
}

/// Decodes eight words, whatever `size` is, as a colour. Missing words count as zero, further ones not at all.
pub fn colour(run: &[Word], size: u8) -> Grb
    ensures { result ≡ colour_of run.now }
{
    colour_bytes(&padded_bytes(run))
}

/// Returns the first eight words, one to a byte, padded with zero bytes.
fn padded_bytes(run: &[Word]) -> [u8; MOST_WORDS]
    ensures { operand_words result ≡ take 8 run.now ++ replicate (8 - length run.now) 0 }
{
    let mut bytes = [0; MOST_WORDS];
    for at in 0..run.len().min(MOST_WORDS) {
        bytes[at] = run[at].get();
    }
    bytes
}

/// Decodes a multi-value operand of at most eight bytes as a colour. Missing words count as zero.
pub fn colour_bytes(operand: &[u8]) -> Grb
    requires { length operand.now ≤ 8 }
    ensures { result ≡ colour_of (operand_words operand.now) }
{
    Grb::from_words(colour_words(operand))
}

/// Packs the words of a colour, with zero words after them.
#[inline(always)]
fn colour_words(operand: &[u8]) -> PackedWords
    requires { length operand.now ≤ 8 }
    ensures { colour_of (words_in result) ≡ colour_of (operand_words operand.now) }
{
    if let [word] = operand {
        return pack_eight([*word, 0, 0, 0, 0, 0, 0, 0]);
    }
    if let [first, second] = operand {
        return pack_eight([*first, *second, 0, 0, 0, 0, 0, 0]);
    }
    pack_padded(operand)
}

/// Returns the eight operand bytes that carry these words.
#[inline]
fn put_words(words: PackedWords) -> ArrayVec<u8, 8>
    ensures { result.items ≡ operand_bytes (words_in words) }
{
    let bytes = 0x4040_4040_4040_4040 + words.get();
    // LLVM compiles this to one instruction, and `to_be_bytes` to some twenty.
    ArrayVec::from(bytes.swap_bytes().to_le_bytes())
}

/// Returns the eight bytes that spell a displacement in a multi-value operand of eight words (PROFILE.md, Operands).
#[tactic(auto, unfolding(crate::specs::Spellings::move_bytes))]
#[inline]
pub fn put_move(step: Move) -> ArrayVec<u8, 8>
    ensures { result.items ≡ move_bytes step }
{
    put_words(step.words())
}

/// Returns the eight bytes that spell a point in a multi-value operand of eight words (PROFILE.md, Operands).
#[tactic(auto, unfolding(crate::specs::Spellings::point_bytes))]
#[inline]
pub fn put_point(point: Point) -> ArrayVec<u8, 8>
    ensures bytes { result.items ≡ point_bytes point }
    ensures inside { IsInSquare point }
{
    put_words(point.words())
}

/// Returns the four bytes that spell an address in a single-value operand of four words (PROFILE.md, Operands).
pub fn put_addr(addr: Addr) -> ArrayVec<u8, 8>
    ensures { result.items ≡ addr_bytes addr }
{
    let mut bytes = ArrayVec::new();
    let mut rest = addr.get();
    let mut unit = Addr::LIMIT;
    for i in 0..4_usize {
        unit /= 64;
        bytes.push(64 + (rest / unit) as u8);
        rest %= unit;
    }
    bytes
}

/// Returns the eight bytes that spell a colour in a multi-value operand of eight words (PROFILE.md, Operands).
#[inline]
pub fn put_grb(grb: Grb) -> ArrayVec<u8, 8>
    ensures { result.items ≡ grb_bytes grb }
{
    put_words(grb.words())
}
