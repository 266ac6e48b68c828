//! Lines that are written after the places of their entries.
ghost use Rattle.std.specs.Prelude.{◌≡◌, ◌++◌, ◌+◌, ◌^◌, ◌<◌, ◌≤◌, ℕ, List, [], ◌∷◌, IfOk, decimal, length};
ghost use Rattle.nap_list.specs.declared.entry.Entry.{Entry};
ghost use Rattle.nap_list.specs.Range.{InRange};
ghost use Rattle.nap_lines.specs.Lines.{line};

use itoa::write_digits;
use memchr::memchr;
use std::alloc::{AllocError, Global};

/// The memory for the lines of most pages.
const TEXT_SIZE: usize = 32_768;

/// Lines of entries, each after its place.
#[derive(Drop)]
pub(crate) struct Written {
    pub(crate) text: Vec<u8>,
    /// The number of lines.
    pub(crate) count: usize,
    /// The number of bytes of the lines without their places.
    pub(crate) known: usize,
    ghost few: { count ≤ known },
}

/// Returns the length of the first of some lines, with its LF.
#[tactic(auto, using(crate::proofs::LineLemmas::first_end, crate::proofs::LineLemmas::some_end))]
#[inline(always)]
fn first_line_len(lines: &[u8]) -> usize
    requires { 0 < length lines.now }
    ensures some { 0 < result }
    ensures within { result ≤ length lines.now }
    ensures first { (e : Entry) (rest : List ℕ) → InRange e → lines.now ≡ (line e ++ 10 ∷ []) ++ rest → result ≡ length (line e) + 1 }
{
    match memchr(b'\n', lines) {
        Some(end) => end + 1,
        None => lines.len(),
    }
}

/// Appends a place and a space.
#[inline(always)]
fn write_place(text: &mut Vec<u8>, place: usize) -> Result<(), AllocError>
    ensures { IfOk result (λ done. text.new.items ≡ text.old.items ++ (decimal place ++ 32 ∷ [])) }
{
    let mut front = [b' '; 24];
    let from = write_digits(place as u64, &mut front, 23);
    text.extend_from_slice(&front[from..])
}

impl Written {
    ghost use Rattle.nap_command.specs.Placing.{AreNew, WritesPlaces};

    /// Makes a text without lines.
    pub(crate) fn new(alloc: Global) -> Result<Written, AllocError>
        ensures { IfOk result (λ w. (w.text.items ≡ []) × (w.count ≡ 0) × (w.known ≡ 0)) }
    {
        Ok(Written {
            text: Vec::with_capacity(alloc, TEXT_SIZE)?,
            count: 0,
            known: 0,
        })
    }

    /// Appends those of these lines that aren't written yet: the first after this place, and each next one after a place
    /// that is greater by the step.
    pub(crate) fn write_new(
        &mut self,
        place: usize,
        step: usize,
        lines: &[u8],
    ) -> Result<(), AllocError>
        requires near { step ≤ 1 }
        requires small { place + length lines.now < 2 ^ 64 }
        ensures { IfOk result (λ done. (es : List Entry) → AreNew self.old.known lines.now es → WritesPlaces self.old self.new place step es lines.now) }
    {
        let mut at = place;
        while self.known < lines.len() {
            let rest = &lines[self.known..];
            let size = first_line_len(rest);
            write_place(&mut self.text, at)?;
            self.text.extend_from_slice(&rest[..size])?;
            self.known += size;
            self.count += 1;
            at += step;
        }
        Ok(())
    }
}
