//! Reading of a line.
ghost use Rattle.std.specs.Prelude.{◌≡◌, ◌+◌, length, List, MatchOption, ◌++◌, ◌∷◌, [], true, ◌≤◌};
ghost use Rattle.nap_make.specs.Types.{Coordinates};
ghost use Rattle.nap_make.specs.Entries.{IsNameAlone, IsColumnAtName, IsWrittenAlone, TellsLine};
ghost use Rattle.nap_make.specs.Kinds.{HasPoints, IsChosen, line_from, least_points};
ghost use Rattle.nap_make.specs.Rows.{EndsPoints, TellsRow};

use crate::attribute::point;
use crate::cutting::{equals, named, split_at_byte};
use crate::entry::{entry_of, shape_of};
use crate::fault::LineFault;
use crate::field::{FIELDS, Sort, Value};
use crate::kind::Kind;
use arrayvec::ArrayVec;
use nap_list::{Entry, Points, SHAPE_POINTS};
use std::alloc::Global;

/// The entry of a line, or why it has none.
type Answer = Result<Entry, LineFault>;

/// The fields that a line has to have after its points: those with a space behind them, and the one with its end behind.
pub(crate) type Row = (&'static [Sort], Sort);

/// Reads the fields of a row, or returns how many bytes are left from the first wrong one on.
fn read_row(values: &mut ArrayVec<Value, FIELDS>, row: Row, bytes: &[u8]) -> Result<(), usize>
    requires none { values.old.items ≡ [] }
    requires few { length row.0.now ≤ 4 }
    ensures { TellsRow (row.entry.0.now ++ row.entry.1 ∷ []) bytes.now values.new.items result }
{
    let mut rest = bytes;
    for sort in row.0 {
        let Some((word, more)) = split_at_byte(rest, b' ') else {
            return Err(rest.len());
        };
        if !sort.read(word, values) {
            return Err(rest.len());
        }
        rest = more;
    }
    if row.1.read(rest, values) {
        return Ok(());
    }
    Err(rest.len())
}

/// Reads as many points as there are, a space behind each, up to the limit. Returns their number, whether memory held all
/// of them, and what follows them.
fn read_points<'a>(points: &mut Points, bytes: &'a [u8]) -> (usize, bool, &'a [u8])
    requires none { points.old ≡ [] }
    ensures { (all : List Coordinates) × EndsPoints bytes.now all result.2.now × (result.0 ≡ length all) × (result.1 ≡ true → points.new ≡ all) }
{
    let (mut count, mut kept, mut rest) = (0, true, bytes);
    while count < SHAPE_POINTS {
        let Some((word, more)) = split_at_byte(rest, b' ') else {
            return (count, kept, rest);
        };
        let Some(at) = point(word) else {
            return (count, kept, rest);
        };
        kept = kept && points.push(at).is_ok();
        count += 1;
        rest = more;
    }
    (count, kept, rest)
}

/// Reads what a line of an arc or polygon with at least so many points has after its beginning and a space.
fn shape_entry(alloc: Global, kind: Kind, least: usize, end: usize, rest: &[u8]) -> Answer
    requires shape { HasPoints kind }
    requires least { least ≡ least_points kind }
    requires end { end ≡ length (line_from kind rest.now) + 1 }
    ensures { TellsLine (line_from kind rest.now) result }
{
    let mut points = Points::new(alloc);
    let (count, kept, left) = read_points(&mut points, rest);
    if count < least {
        return Err(LineFault::Line(end - left.len()));
    }
    let mut values: ArrayVec<Value, FIELDS> = ArrayVec::new();
    if let Err(left) = read_row(&mut values, kind.row(), left) {
        return Err(LineFault::Line(end - left));
    }
    if !kept {
        return Err(LineFault::Memory);
    }
    shape_of(kind, points, values.as_slice())
}

/// Reads what a line of a kind without points has after its beginning and a space. `end` is the column after the line.
fn plain_entry(kind: Kind, end: usize, rest: &[u8]) -> Answer
    requires plain { HasPoints kind → ⊥ }
    requires chosen { IsChosen kind rest.now }
    requires end { end ≡ length (line_from kind rest.now) + 1 }
    ensures { TellsLine (line_from kind rest.now) result }
{
    let mut values: ArrayVec<Value, FIELDS> = ArrayVec::new();
    match read_row(&mut values, kind.row(), rest) {
        Ok(()) => entry_of(kind, values.as_slice()),
        Err(left) => Err(LineFault::Line(end - left)),
    }
}

/// Reads what a line of this kind has after its beginning and a space.
fn entry_after(alloc: Global, kind: Kind, end: usize, rest: &[u8]) -> Answer
    requires chosen { IsChosen kind rest.now }
    requires end { end ≡ length (line_from kind rest.now) + 1 }
    ensures { TellsLine (line_from kind rest.now) result }
{
    match kind {
        Kind::ArcOutlined | Kind::ArcFilled => shape_entry(alloc, kind, 3, end, rest),
        Kind::PolyOutlined | Kind::PolyFilled => shape_entry(alloc, kind, 2, end, rest),
        _ => plain_entry(kind, end, rest),
    }
}

/// Reads a line that is a name alone.
fn entry_alone(bytes: &[u8]) -> Option<Entry>
    ensures { MatchOption result (IsNameAlone bytes.now → ⊥) (IsWrittenAlone bytes.now) }
{
    named!(bytes, Entry: b"BELL" => Bell, b"END" => DefEnd)
}

/// Returns the column of the fault of a line whose first word, before a space, is no kind's name.
fn column_at_name(name: &[u8]) -> usize
    ensures { IsColumnAtName name.now result }
{
    match name {
        b"BELL" | b"END" => name.len() + 1,
        _ => 1,
    }
}

/// Returns the well-made entry whose line these bytes are, without LF (PROFILE.md, Lines that make a page).
pub fn entry_of_line(alloc: Global, bytes: &[u8]) -> Result<Entry, LineFault>
    ensures { TellsLine bytes.now result }
{
    let Some((name, rest)) = split_at_byte(bytes, b' ') else {
        return match entry_alone(bytes) {
            Some(entry) => Ok(entry),
            None => Err(LineFault::Line(1)),
        };
    };
    match Kind::of(name, rest) {
        Some((kind, others)) => entry_after(alloc, kind, bytes.len() + 1, others),
        None => Err(LineFault::Line(column_at_name(name))),
    }
}
