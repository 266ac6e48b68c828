//! Converts a page while it is read.
ghost use Rattle.std.specs.Prelude.{◌≡◌, ℕ, List};
ghost use Rattle.naplps_examples.specs.Converting.{Converted};

use naplps::device::{Source, Target};
use naplps::{Budget, ConvertFault, convert};
use std::alloc::Global;
use std::io::{Read, Write};

/// Writes the canonical stream of what the reader gives to the writer. Returns the writer, and how many bytes it took.
pub fn convert_all<R: Read + Drop, W: Write + Drop>(
    alloc: Global,
    reader: R,
    writer: W,
) -> (W, Result<u64, ConvertFault>)
    ensures { (page : List ℕ) → R.remaining reader ≡ Some page →
        Converted page (W.contents writer) (W.contents result.0) result.1 }
{
    let mut input = Source::new(reader);
    let (output, answer) = convert(alloc, &mut input, Target::new(writer), Budget::usual());
    (output.into_inner(), answer)
}
