//! The scratch list of points that a run is decoded into. It is borrowed from the caller; its contents before are
//! ignored.
ghost use Rattle.std.specs.Prelude.{IfErr, IfOk, IfSome, IsErrOf, List, None, Option, [], drop, false, length, nat_le, option_map, true, vec_capacity, vec_len, ◌+◌, ◌/◌, ◌<◌, ◌∷◌, ◌≡◌, ◌≤◌, ◌⊎◌};
ghost use Rattle.nap_draw.specs.Names.{Coordinates, operand_words};
ghost use Rattle.nap_draw.specs.declared.fault.DrawFault.TheVariants.{Memory, Outside};
ghost use Rattle.nap_draw.specs.Operands.{moves};
ghost use Rattle.nap_draw.specs.Geometry.{points_at, relative_spans, rect_chain_spans, points_reached};
ghost use Rattle.nap_draw.specs.Execution.{Fills, Filling, LacksPlaces, pair_spans, rect_spans};

use crate::fault::{DrawFault, Drawn};
use crate::figures::span_by;
use nap_list::corner;
use nap_values::{Domain, MovingPoint, Point, multi_bytes, multi_first_three};
use std::mem::{forget, replace};

/// Takes the vector out of the reference and leaves an empty one. So a loop keeps the pointer and the length in
/// registers, instead of loading and storing them for each point.
#[inline(always)]
fn take_vector(scratch: &mut Vec<Point>) -> Vec<Point>
    ensures items { result.items ≡ scratch.old.items }
    ensures len { vec_len result ≡ vec_len scratch.old }
    ensures capacity { vec_capacity result ≡ vec_capacity scratch.old }
    ensures after { vec_capacity scratch.new ≡ 0 }
{
    let alloc = *scratch.allocator();
    replace(scratch, Vec::new(alloc))
}

/// Puts the vector back, on every way out. The empty vector holds no memory, so it needs no drop.
#[inline(always)]
fn put_back(scratch: &mut Vec<Point>, points: Vec<Point>)
    requires { vec_capacity scratch.old ≡ 0 }
    ensures { scratch.new ≡ points }
{
    forget(replace(scratch, points));
}

/// Empties the scratch list and reserves memory for the points of `bytes` operand bytes. Returns whether memory ran
/// out.
#[inline(always)]
fn reset_scratch(scratch: &mut Vec<Point>, bytes: usize, domain: Domain) -> bool
    ensures items { scratch.new.items ≡ [] }
    ensures len { vec_len scratch.new ≡ 0 }
    ensures space { vec_capacity scratch.old ≤ vec_capacity scratch.new }
    ensures lacks { result ≡ true → vec_capacity scratch.old < bytes }
{
    if clear_if_fits(scratch, bytes) {
        return false;
    }
    let places = bytes.div_ceil(usize::from(domain.multi())).min(bytes);
    scratch.reserve_exact(places).is_err()
}

/// Empties the scratch list, and returns whether it has memory for `places` points.
#[inline(always)]
fn clear_if_fits(scratch: &mut Vec<Point>, places: usize) -> bool
    ensures items { scratch.new.items ≡ [] }
    ensures len { vec_len scratch.new ≡ 0 }
    ensures space { vec_capacity scratch.new ≡ vec_capacity scratch.old }
    ensures places { result ≡ nat_le places (vec_capacity scratch.new) }
{
    scratch.clear();
    places <= scratch.capacity()
}

/// Returns lack of memory as an error if `full` is true: a point had no memory.
fn memory_fault_if(full: bool) -> Drawn
    ensures ok { IfOk result (λ _. full ≡ false) }
    ensures err { IfErr result (λ fault. (full ≡ true) × (fault ≡ Memory)) }
{
    if full {
        return Err(DrawFault::Memory);
    }
    Ok(())
}

/// The bytes that a decoding leaves, or why there are none.
type Left<'a> = Result<&'a [u8], DrawFault>;

/// Decodes each operand as a point.
pub(crate) fn points_into(scratch: &mut Vec<Point>, domain: Domain, run: &[u8]) -> Drawn
    ensures fills { Fills (points_at (moves domain.multi (operand_words run.now))) scratch.new.items result }
    ensures memory { LacksPlaces (length run.now) scratch.old scratch.new result }
{
    let size = domain.multi();
    let mut full = reset_scratch(scratch, run.len(), domain);
    let rest = fill_whole_points(scratch, size, run)?;
    for operand in rest.chunks(usize::from(size)) {
        let Some(point) = multi_bytes(operand).point() else {
            return Err(DrawFault::Outside);
        };
        full |= scratch.push(point).is_err();
    }
    memory_fault_if(full)
}

/// Decodes the complete operands of three words, the most common length, if the scratch list has memory for all points.
/// Reads eight bytes at once as long as there are as many. Returns the bytes left.
fn fill_whole_points<'a>(scratch: &mut Vec<Point>, size: u8, run: &'a [u8]) -> Left<'a>
    requires { scratch.old.items ≡ [] }
    ensures ok { IfOk result (λ rest. Filling (points_at (moves size (operand_words run.now))) (points_at (moves size (operand_words rest.now))) false (λ prefix. scratch.new.items ≡ prefix)) }
    ensures err { IfErr result (λ fault. (fault ≡ Outside) × (points_at (moves size (operand_words run.now)) ≡ None)) }
    ensures space { vec_capacity scratch.new ≡ vec_capacity scratch.old }
    ensures few { IfOk result (λ rest. vec_len scratch.new + length rest.now ≤ length run.now) }
{
    if size != 3 || run.len() / 3 > scratch.capacity() {
        return Ok(run);
    }
    let mut points = take_vector(scratch);
    let mut rest = run;
    while let Some((block, _)) = rest.split_first_chunk::<8>() {
        let (_, after) = rest.split_at(3);
        let Some(point) = multi_first_three(block).point() else {
            put_back(scratch, points);
            return Err(DrawFault::Outside);
        };
        points.push_reserved(point);
        rest = after;
    }
    while rest.len() >= 3 {
        let (operand, after) = rest.split_at(3);
        let Some(point) = multi_bytes(operand).point() else {
            put_back(scratch, points);
            return Err(DrawFault::Outside);
        };
        points.push_reserved(point);
        rest = after;
    }
    put_back(scratch, points);
    Ok(rest)
}

/// Decodes the far corners of rectangles: each at a displacement from the corner where the one before it left the pen.
pub(crate) fn corners_into(
    scratch: &mut Vec<Point>,
    from: Point,
    domain: Domain,
    run: &[u8],
) -> Drawn
    ensures fills { Fills (rect_chain_spans from (moves domain.multi (operand_words run.now))) (rect_spans from scratch.new.items) result }
    ensures memory { LacksPlaces (length run.now) scratch.old scratch.new result }
{
    let size = domain.multi();
    let mut at = from;
    let mut full = reset_scratch(scratch, run.len(), domain);
    for operand in run.chunks(usize::from(size)) {
        let Some(point) = at.by(multi_bytes(operand)) else {
            return Err(DrawFault::Outside);
        };
        full |= scratch.push(point).is_err();
        at = corner(at, point);
    }
    memory_fault_if(full)
}

/// Decodes pairs of operands: a point, and the point at a displacement from it.
pub(crate) fn pairs_into(scratch: &mut Vec<Point>, domain: Domain, run: &[u8]) -> Drawn
    ensures fills { Fills (relative_spans (moves domain.multi (operand_words run.now))) (pair_spans scratch.new.items) result }
    ensures memory { LacksPlaces (length run.now) scratch.old scratch.new result }
{
    let size = domain.multi();
    let mut full = reset_scratch(scratch, run.len(), domain);
    let mut operands = run.chunks(usize::from(size));
    while let Some(first) = operands.next() {
        let Some(second) = operands.next() else {
            return Err(DrawFault::Outside);
        };
        let Some(span) = span_by(multi_bytes(first).point(), multi_bytes(second)) else {
            return Err(DrawFault::Outside);
        };
        full |= scratch.push(span.from).is_err();
        full |= scratch.push(span.to).is_err();
    }
    memory_fault_if(full)
}

/// The least number of bytes of a run that is decoded by four operands.
const LONG_RUN: usize = 128;

/// Decodes the points reached from `from`, one displacement after another.
pub(crate) fn steps_into(scratch: &mut Vec<Point>, from: Point, domain: Domain, run: &[u8]) -> Drawn
    ensures fills { Fills (points_reached from (moves domain.multi (operand_words run.now))) scratch.new.items result }
    ensures memory { LacksPlaces (length run.now) scratch.old scratch.new result }
{
    if domain.multi() != 3 || !has_places(scratch, run) {
        return fill_any_steps(scratch, from, domain, run);
    }
    if run.len() >= LONG_RUN {
        return fill_by_four(scratch, from, domain, run);
    }
    let mut walk = MovingPoint::from_point(from);
    let rest = fill_steps_of_three(scratch, &mut walk, run)?;
    if rest.is_empty() {
        return Ok(());
    }
    fill_more_steps(scratch, walk, domain, rest, false)
}

/// Empties the scratch list, and returns whether it has memory for the points of complete operands of three words. It
/// mostly has memory for many more, which is found without a division.
#[inline(always)]
fn has_places(scratch: &mut Vec<Point>, run: &[u8]) -> bool
    ensures items { scratch.new.items ≡ [] }
    ensures len { vec_len scratch.new ≡ 0 }
    ensures space { vec_capacity scratch.new ≡ vec_capacity scratch.old }
    ensures places { result ≡ true → length run.now / 3 ≤ vec_capacity scratch.new }
{
    clear_if_fits(scratch, run.len()) || run.len() / 3 <= scratch.capacity()
}

/// Decodes the points reached by operands of any length and number. The scratch list may have to grow.
#[inline(never)]
fn fill_any_steps(scratch: &mut Vec<Point>, from: Point, domain: Domain, run: &[u8]) -> Drawn
    ensures fills { Fills (points_reached from (moves domain.multi (operand_words run.now))) scratch.new.items result }
    ensures memory { LacksPlaces (length run.now) scratch.old scratch.new result }
{
    let full = reset_scratch(scratch, run.len(), domain);
    if domain.multi() != 3 || run.len() / 3 > scratch.capacity() {
        return fill_more_steps(scratch, MovingPoint::from_point(from), domain, run, full);
    }
    fill_by_four(scratch, from, domain, run)
}

/// Decodes the points reached by operands of three words, by four up to the last five or fewer, if the scratch list has
/// memory for all.
#[inline(never)]
fn fill_by_four(scratch: &mut Vec<Point>, from: Point, domain: Domain, run: &[u8]) -> Drawn
    requires three { domain.multi ≡ 3 }
    requires empty { scratch.old.items ≡ [] }
    requires places { length run.now / 3 ≤ vec_capacity scratch.old }
    ensures fills { Fills (points_reached from (moves domain.multi (operand_words run.now))) scratch.new.items result }
    ensures memory { LacksPlaces (length run.now) scratch.old scratch.new result }
{
    let mut points = take_vector(scratch);
    let mut walk = MovingPoint::from_point(from);
    let mut rest = run;
    while rest.len() >= 17 {
        let (_, others) = rest.split_at(12);
        let Some((first, second, third, fourth)) = next_four(&mut walk, rest) else {
            put_back(scratch, points);
            return Err(DrawFault::Outside);
        };
        points.push_reserved(first);
        points.push_reserved(second);
        points.push_reserved(third);
        points.push_reserved(fourth);
        rest = others;
    }
    put_back(scratch, points);
    fill_more_steps(scratch, walk, domain, rest, false)
}

/// Decodes the points reached by a walk, after those in the scratch list. `lacks` says that memory ran out for one
/// before.
#[inline(never)]
fn fill_more_steps(
    scratch: &mut Vec<Point>,
    mut walk: MovingPoint,
    domain: Domain,
    run: &[u8],
    lacks: bool,
) -> Drawn
    ensures fills { (all : Option (List Coordinates)) → Filling all (points_reached walk (moves domain.multi (operand_words run.now))) lacks (λ prefix. scratch.old.items ≡ prefix) → Fills all scratch.new.items result }
    ensures space { vec_capacity scratch.old ≤ vec_capacity scratch.new }
    ensures memory { IsErrOf result Memory → (lacks ≡ true) ⊎ (vec_capacity scratch.old < vec_len scratch.old + length run.now) }
{
    let mut full = lacks;
    for operand in run.chunks(usize::from(domain.multi())) {
        let Some(point) = walk.advance(multi_bytes(operand)) else {
            return Err(DrawFault::Outside);
        };
        full |= scratch.push(point).is_err();
    }
    memory_fault_if(full)
}

/// Decodes the points reached by complete operands of three words. Leaves the walk at the last of them, and returns the
/// bytes left.
#[inline(always)]
fn fill_steps_of_three<'a>(
    scratch: &mut Vec<Point>,
    walk: &mut MovingPoint,
    run: &'a [u8],
) -> Left<'a>
    requires empty { scratch.old.items ≡ [] }
    requires places { length run.now / 3 ≤ vec_capacity scratch.old }
    ensures ok { IfOk result (λ rest. Filling (points_reached walk.old (moves 3 (operand_words run.now))) (points_reached walk.new (moves 3 (operand_words rest.now))) false (λ prefix. scratch.new.items ≡ prefix)) }
    ensures err { IfErr result (λ fault. (fault ≡ Outside) × (points_reached walk.old (moves 3 (operand_words run.now)) ≡ None)) }
    ensures space { vec_capacity scratch.new ≡ vec_capacity scratch.old }
    ensures few { IfOk result (λ rest. vec_len scratch.new + length rest.now ≤ length run.now) }
{
    let mut points = take_vector(scratch);
    let mut rest = run;
    while rest.len() >= 8 {
        let (_, others) = rest.split_at(3);
        let Some(point) = next_point(walk, rest) else {
            put_back(scratch, points);
            return Err(DrawFault::Outside);
        };
        points.push_reserved(point);
        rest = others;
    }
    while rest.len() >= 3 {
        let (operand, others) = rest.split_at(3);
        let Some(point) = walk.advance(multi_bytes(operand)) else {
            put_back(scratch, points);
            return Err(DrawFault::Outside);
        };
        points.push_reserved(point);
        rest = others;
    }
    put_back(scratch, points);
    Ok(rest)
}

/// Returns the next point, by the displacement of the first three of at least eight bytes.
#[inline(always)]
fn next_point(walk: &mut MovingPoint, bytes: &[u8]) -> Option<Point>
    requires { 8 ≤ length bytes.now }
    ensures some { IfSome result (λ at. points_reached walk.old (moves 3 (operand_words bytes.now)) ≡ option_map (λ points. at ∷ points) (points_reached walk.new (moves 3 (operand_words (drop 3 bytes.now))))) }
    ensures none { result ≡ None → points_reached walk.old (moves 3 (operand_words bytes.now)) ≡ None }
{
    let (block, _) = bytes.split_first_chunk::<8>()?;
    walk.advance(multi_first_three(block))
}

/// Returns the next four points, by the displacements of the first twelve of at least seventeen bytes.
#[inline(always)]
fn next_four(walk: &mut MovingPoint, bytes: &[u8]) -> Option<(Point, Point, Point, Point)>
    requires { 17 ≤ length bytes.now }
    ensures some { IfSome result (λ (a, b, c, d). points_reached walk.old (moves 3 (operand_words bytes.now)) ≡ option_map (λ points. a ∷ b ∷ c ∷ d ∷ points) (points_reached walk.new (moves 3 (operand_words (drop 12 bytes.now))))) }
    ensures none { result ≡ None → points_reached walk.old (moves 3 (operand_words bytes.now)) ≡ None }
{
    let first = next_point(walk, bytes)?;
    let second = next_point(walk, &bytes[3..])?;
    let third = next_point(walk, &bytes[6..])?;
    let fourth = next_point(walk, &bytes[9..])?;
    Some((first, second, third, fourth))
}
