//! Blocks of lines of characters, which differ only in the digits of their codes.
ghost use Rattle.std.specs.Prelude.{◌≡◌, ◌+◌, ◌*◌, ◌≤◌, All, drop, length, take};
ghost use Rattle.nap_lines.specs.Blocks.{filled, patched, recoded};
ghost use Rattle.nap_lines.specs.Lines.{code_text};

use crate::backward_buffer::digit;

/// Returns `count` items from `first`.
#[inline(always)]
pub(crate) fn slice_part<X>(items: &[X], first: usize, count: usize) -> &[X]
    requires { first + count ≤ length items.now }
    ensures { result.now ≡ take count (drop first items.now) }
{
    &items[first..first + count]
}

/// The number of bytes of a block of lines.
pub(crate) const BLOCK: usize = 1_024;

/// Copies bytes to an index of the block.
#[inline(always)]
fn copy_at(block: &mut [u8], at: usize, bytes: &[u8])
    requires within { at + length bytes.now ≤ length block.old }
    ensures { block.new ≡ patched block.old at bytes.now }
{
    block[at..at + bytes.len()].copy_from_slice(bytes);
}

/// Puts the two digits of a code at an index.
#[inline(always)]
fn put_code(block: &mut [u8], at: usize, code: u8)
    requires within { at + 2 ≤ length block.old }
    ensures { block.new ≡ patched block.old at (code_text code) }
{
    block[at] = digit(code / 16);
    block[at + 1] = digit(code % 16);
}

/// Fills the beginning of a block with `count` copies of a line.
pub(crate) fn fill_lines(block: &mut [u8], line: &[u8], count: usize)
    requires within { count * length line.now ≤ length block.old }
    ensures within { count * length line.now ≤ length block.old }
    ensures block { block.new ≡ filled count line.now block.old }
{
    let size = line.len();
    for i in 0..count {
        copy_at(block, i * size, line);
    }
}

/// Writes the digits of codes into the lines of a block, one code a line at index `place`, up to the first that is no
/// character's code. Returns their number.
#[inline(always)]
pub(crate) fn recode_lines(block: &mut [u8], size: usize, place: usize, codes: &[u8]) -> usize
    requires place { place + 2 ≤ size }
    requires within { length codes.now * size ≤ length block.old }
    ensures count { result ≤ length codes.now }
    ensures characters { All (λ code. 0x20 ≤ code) (take result codes.now) }
    ensures block { block.new ≡ recoded size place codes.now result block.old }
{
    for i in 0..codes.len() {
        let code = codes[i];
        if code < 0x20 {
            return i;
        }
        put_code(block, i * size + place, code);
    }
    codes.len()
}
