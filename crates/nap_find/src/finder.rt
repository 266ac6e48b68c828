//! Finds in bytes that come in pieces.
ghost use Rattle.std.specs.Prelude.{◌≡◌, ◌+◌, ◌<◌, ◌≤◌, ◌^◌, ◌-◌, [], IfOk, OnOk, OnErr, IsErr, length, drop, take, true, false, ◌==◌, get_or, ℕ};
ghost use Rattle.nap_find.specs.Beginnings.{is_opener};
ghost use Rattle.nap_find.specs.Rows.{block_limit, can_fill, finds_of, found_of, is_row_byte, makes_fill, open_of, same_with};

use crate::beginning::is_opener;
use crate::block::find_in_block;
use crate::find::{Asked, Found};
use memchr::memchr3;
use std::alloc::{AllocError, Global};

/// The number of bytes of a row that are kept at most.
pub const BLOCK_LIMIT: usize = 1_048_576;

/// The number of equal bytes that are counted at the end of a row at most.
const SAME_LIMIT: usize = 256;

/// Finds the pages in bytes that come in any pieces (FINDING.md). It keeps a block of bytes at most.
#[derive(Drop)]
pub struct Finder {
    alloc: Global,
    asked: Asked,
    row: Vec<u8>,
    same: usize,
    place: u64,
    lacks: bool,
}

/// Returns the number of bytes before the first one that opens a row.
fn before_opener(piece: &[u8]) -> usize
    ensures within { result ≤ length piece.now }
    ensures others { (k : ℕ) → k < result → is_opener (get_or piece.now k 0) ≡ false }
{
    match memchr3(0x0C, 0x0E, 0x1B, piece) {
        Some(index) => index,
        None => piece.len(),
    }
}

/// Whether equal bytes can be a fill.
fn can_fill(byte: u8) -> bool
    ensures { result ≡ can_fill byte }
{
    byte == 0x00 || byte == 0x1A || byte == 0x20
}

/// Whether a byte only makes a row longer.
fn is_row_byte(byte: u8) -> bool
    ensures { result ≡ is_row_byte byte }
{
    byte < 0x80 && !can_fill(byte)
}

/// Returns the number of bytes before the first one that does more than make a row longer, or `most` if that is less.
fn plain_count(piece: &[u8], most: usize) -> usize
    ensures within { result ≤ length piece.now }
    ensures most { result ≤ most }
    ensures plain { (k : ℕ) → k < result → is_row_byte (get_or piece.now k 0) ≡ true }
{
    let count = piece.len().min(most);
    for index in 0..count {
        if !is_row_byte(piece[index]) {
            return index;
        }
    }
    count
}

/// Whether so many equal bytes are a fill.
fn makes_fill(byte: u8, same: usize) -> bool
    ensures { result ≡ makes_fill byte same }
{
    (byte == 0x00 && same >= 16) || (byte == 0x1A && same >= 8) || (byte == 0x20 && same >= 256)
}

impl Finder {
    ghost use Rattle.nap_find.specs.declared.find.Found.{Found};
    ghost use Rattle.nap_find.specs.Rows.{end_row, find_ended, find_on, go_on, nothing_found, step, step_in_row};
    ghost use Rattle.nap_find.specs.Finders.{asked_of, length_so_far, finding_of, lacks, open_in};
    ghost use Rattle.nap_find.specs.Verdicts.{block_of};

    /// Returns a finder of pages that have what is asked for, before any byte. Takes no memory.
    pub fn new(alloc: Global, asked: Asked) -> Finder
        ensures asked { asked_of result ≡ asked }
        ensures finding { (found : Found) → found.finds.items ≡ [] → found.passed ≡ 0 → finding_of result found ≡ nothing_found }
        ensures bytes { length_so_far result ≡ 0 }
        ensures lacks { lacks result ≡ false }
    {
        Finder {
            alloc,
            asked,
            row: Vec::new(alloc),
            same: 0,
            place: 0,
            lacks: false,
        }
    }

    /// Ends the row after `count` of its bytes; the next byte has this place.
    fn end_row(&mut self, count: usize, place: u64, found: &mut Found) -> Result<(), AllocError>
        requires count { count ≤ length self.old.row.items }
        requires few { length_so_far self.old < 2 ^ 63 }
        ensures finding { OnOk result (finding_of self.new found.new ≡ end_row self.old.asked (finding_of self.old found.old) (take count self.old.row.items) place) }
        ensures asked { self.new.asked ≡ self.old.asked }
        ensures lacks { self.new.lacks ≡ self.old.lacks }
    {
        find_in_block(
            self.alloc,
            &self.asked,
            false,
            &self.row[..count],
            self.place,
            found,
        )?;
        self.row.clear();
        self.same = 0;
        self.place = place;
        Ok(())
    }

    /// Decides what can be decided of a full block, and goes on with the rest.
    fn go_on(&mut self, found: &mut Found) -> Result<(), AllocError>
        requires few { length_so_far self.old < 2 ^ 63 }
        ensures finding { OnOk result (finding_of self.new found.new ≡ go_on (finding_of self.old found.old) (block_of self.old.asked true self.old.row.items)) }
        ensures bytes { OnOk result (length_so_far self.new ≡ length_so_far self.old) }
        ensures asked { self.new.asked ≡ self.old.asked }
        ensures lacks { self.new.lacks ≡ self.old.lacks }
    {
        let decided = find_in_block(
            self.alloc,
            &self.asked,
            true,
            self.row.as_slice(),
            self.place,
            found,
        )?;
        self.row = Vec::from_slice(self.alloc, &self.row[decided..])?;
        self.place += decided as u64;
        Ok(())
    }

    /// Returns the number of equal bytes at the end of the row that can be a fill, counted to the limit, once this byte
    /// comes.
    fn same_with(&self, byte: u8) -> usize
        requires { 0 < length self.now.row.items }
        ensures { result ≡ same_with self.now.row.items self.now.same byte }
    {
        if !can_fill(byte) {
            0
        } else if byte == self.row[self.row.len() - 1] {
            self.same.saturating_add(1).min(SAME_LIMIT)
        } else {
            1
        }
    }

    /// Takes a byte while a row is open.
    fn step_in_row(&mut self, byte: u8, found: &mut Found) -> Result<(), AllocError>
        requires some { 0 < length self.old.row.items }
        requires few { length_so_far self.old + 1 < 2 ^ 63 }
        ensures finding { OnOk result (finding_of self.new found.new ≡ step_in_row self.old.asked (finding_of self.old found.old) byte) }
        ensures bytes { OnOk result (length_so_far self.new ≡ length_so_far self.old + 1) }
        ensures asked { self.new.asked ≡ self.old.asked }
        ensures lacks { self.new.lacks ≡ self.old.lacks }
    {
        let count = self.row.len();
        let end = self.place + count as u64;
        if byte >= 0x80 {
            return self.end_row(count, end + 1, found);
        }
        let same = self.same_with(byte);
        self.row.push(byte)?;
        self.same = same;
        if makes_fill(byte, same) {
            let kept = self.row.len().saturating_sub(same);
            return self.end_row(kept, end + 1, found);
        }
        if self.row.len() == BLOCK_LIMIT {
            return self.go_on(found);
        }
        Ok(())
    }

    /// Takes a byte.
    #[tactic(auto, unfolding(crate::specs::Rows::step))]
    fn step(&mut self, byte: u8, found: &mut Found) -> Result<(), AllocError>
        requires { length_so_far self.old + 1 < 2 ^ 63 }
        ensures finding { OnOk result (finding_of self.new found.new ≡ step self.old.asked (finding_of self.old found.old) byte) }
        ensures bytes { OnOk result (length_so_far self.new ≡ length_so_far self.old + 1) }
        ensures asked { self.new.asked ≡ self.old.asked }
        ensures lacks { self.new.lacks ≡ self.old.lacks }
    {
        if !self.row.is_empty() {
            return self.step_in_row(byte, found);
        }
        if is_opener(byte) {
            self.row.push(byte)?;
            self.same = 1;
        } else {
            self.place += 1;
        }
        Ok(())
    }

    /// Passes over the bytes before the next row, if none is open, and returns their number.
    fn pass_over(&mut self, piece: &[u8]) -> usize
        requires { length_so_far self.old + length piece.now < 2 ^ 63 }
        ensures finding { (found : Found) → find_on self.old.asked (finding_of self.new found) (drop result piece.now) ≡ find_on self.old.asked (finding_of self.old found) piece.now }
        ensures within { result ≤ length piece.now }
        ensures bytes { length_so_far self.new ≡ length_so_far self.old + result }
        ensures asked { self.new.asked ≡ self.old.asked }
        ensures lacks { self.new.lacks ≡ self.old.lacks }
    {
        let open = self.row.len();
        if open > 0 {
            return 0;
        }
        let count = before_opener(piece);
        self.place += count as u64;
        count
    }

    /// Takes the first bytes that only make the open row longer, if one is open, and returns their number.
    fn take_plain(&mut self, piece: &[u8]) -> Result<usize, AllocError>
        requires { length_so_far self.old + length piece.now < 2 ^ 63 }
        ensures finding { IfOk result (λ count. (found : Found) → find_on self.old.asked (finding_of self.new found) (drop count piece.now) ≡ find_on self.old.asked (finding_of self.old found) piece.now) }
        ensures within { IfOk result (λ count. count ≤ length piece.now) }
        ensures bytes { IfOk result (λ count. length_so_far self.new ≡ length_so_far self.old + count) }
        ensures asked { self.new.asked ≡ self.old.asked }
        ensures lacks { self.new.lacks ≡ self.old.lacks }
    {
        let open = self.row.len();
        if open == 0 || open >= BLOCK_LIMIT {
            return Ok(0);
        }
        let count = plain_count(piece, BLOCK_LIMIT - 1 - open);
        if count > 0 {
            self.row.extend_from_slice(&piece[..count])?;
            self.same = 0;
        }
        Ok(count)
    }

    /// Takes the bytes of a piece.
    fn take_all(&mut self, piece: &[u8], found: &mut Found) -> Result<(), AllocError>
        requires { length_so_far self.old + length piece.now < 2 ^ 63 }
        ensures finding { OnOk result (finding_of self.new found.new ≡ find_on self.old.asked (finding_of self.old found.old) piece.now) }
        ensures bytes { OnOk result (length_so_far self.new ≡ length_so_far self.old + length piece.now) }
        ensures asked { self.new.asked ≡ self.old.asked }
        ensures lacks { self.new.lacks ≡ self.old.lacks }
    {
        let mut at = 0;
        while at < piece.len() {
            let passed = self.pass_over(&piece[at..]);
            at += passed;
            let plain = self.take_plain(&piece[at..])?;
            at += plain;
            if at < piece.len() {
                self.step(piece[at], found)?;
                at += 1;
            }
        }
        Ok(())
    }

    /// Takes the next piece of the bytes, and adds the finds that are decided by it. Without memory it answers an error,
    /// also to each further piece.
    pub fn feed(&mut self, piece: &[u8], found: &mut Found) -> Result<(), AllocError>
        requires { length_so_far self.old + length piece.now < 2 ^ 63 }
        ensures finding { OnOk result (finding_of self.new found.new ≡ find_on (asked_of self.old) (finding_of self.old found.old) piece.now) }
        ensures bytes { OnOk result (length_so_far self.new ≡ length_so_far self.old + length piece.now) }
        ensures asked { asked_of self.new ≡ asked_of self.old }
        ensures lacks { OnErr result (lacks self.new ≡ true) }
        ensures latched { lacks self.old ≡ true → IsErr result }
    {
        if self.lacks {
            return Err(AllocError);
        }
        let taken = self.take_all(piece, found);
        if taken.is_err() {
            self.lacks = true;
        }
        taken
    }

    /// Returns the offset from which on bytes that follow may change what is found.
    pub fn open(&self) -> u64
        ensures { result ≡ open_in self.now }
    {
        self.place
    }

    /// Ends the bytes, and adds the finds of the open row.
    pub fn finish(self, found: &mut Found) -> Result<(), AllocError>
        requires { length_so_far self < 2 ^ 63 }
        ensures finds { OnOk result (found.new.finds.items ≡ (find_ended (asked_of self) (finding_of self found.old)).finds) }
        ensures passed { OnOk result (found.new.passed ≡ (find_ended (asked_of self) (finding_of self found.old)).passed) }
        ensures latched { lacks self ≡ true → IsErr result }
    {
        if self.lacks {
            return Err(AllocError);
        }
        let mut finder = self;
        let count = finder.row.len();
        let end = finder.place + count as u64;
        finder.end_row(count, end, found)
    }
}

/// Returns the finds of these bytes.
pub fn find_all(alloc: Global, asked: Asked, bytes: &[u8]) -> Result<Found, AllocError>
    requires { length bytes.now < 2 ^ 63 }
    ensures finds { IfOk result (λ found. found.finds.items ≡ finds_of asked bytes.now) }
    ensures passed { IfOk result (λ found. found.passed ≡ (found_of asked bytes.now).passed) }
    ensures open { IfOk result (λ found. found.open ≡ open_of asked bytes.now) }
{
    let mut finder = Finder::new(alloc, asked);
    let mut found = Found::new(alloc);
    finder.feed(bytes, &mut found)?;
    let open = finder.open();
    finder.finish(&mut found)?;
    found.open = open;
    Ok(found)
}
