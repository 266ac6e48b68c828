//! The pages of a block of a row.
ghost use Rattle.std.specs.Prelude.{◌≡◌, ◌+◌, ◌<◌, ◌≤◌, ◌^◌, ◌++◌, IfOk, OnOk, length, map, nat_lt, ◌&&◌};
ghost use Rattle.nap_find.specs.Verdicts.{block_of};
ghost use Rattle.nap_find.specs.Rows.{find_at};
ghost use Rattle.nap_find.specs.Shapes.{capped_sum};

use crate::beginning::{next_beginning, passed_over, retry_from};
use crate::drawn_sink::capped_sum;
use crate::find::{Asked, Find, Found};
use crate::verdict::{Verdict, verdict_on};
use std::alloc::{AllocError, Global};

/// Whether more bytes may decide about a beginning, and there is a place for it in the next block.
fn may_wait(more: bool, from: usize) -> bool
    ensures { result ≡ (more && nat_lt 0 from) }
{
    more && from > 0
}

/// Finds the pages of a block that lies at this place, and returns how many of its bytes are decided. More of its row
/// may follow.
pub(crate) fn find_in_block(
    alloc: Global,
    asked: &Asked,
    more: bool,
    row: &[u8],
    place: u64,
    found: &mut Found,
) -> Result<usize, AllocError>
    requires { place + length row.now < 2 ^ 63 }
    ensures pages { OnOk result (found.new.finds.items ≡ found.old.finds.items ++ map (find_at place) (block_of asked.now more row.now).pages) }
    ensures passed { OnOk result (found.new.passed ≡ capped_sum found.old.passed (block_of asked.now more row.now).passed) }
    ensures decided { IfOk result (λ n. n ≡ (block_of asked.now more row.now).decided) }
    ensures within { IfOk result (λ n. n ≤ length row.now) }
{
    let is_short = row.len() < asked.bytes;
    if is_short {
        return Ok(row.len());
    }
    let mut at = 0;
    for _ in 0..row.len() + 1 {
        let Some(from) = next_beginning(row, at) else {
            return Ok(row.len());
        };
        let verdict = verdict_on(alloc, asked, may_wait(more, from), &row[from..])?;
        match verdict {
            Verdict::Page(bytes) => {
                found.finds.push(Find {
                    begin: place + from as u64,
                    end: place + (from + bytes) as u64,
                })?;
                at = from + bytes.max(1);
            }
            Verdict::None(reach) => {
                let passed = passed_over(&row[from..], reach);
                found.passed = capped_sum(found.passed, passed as u64);
                at = from + retry_from(&row[from..], reach);
            }
            Verdict::Waits => return Ok(from),
        }
    }
    Ok(row.len())
}
