//! Lists a page.
ghost use Rattle.std.specs.Prelude.{◌≡◌, IfOk, string_bytes};
ghost use Rattle.naplps.specs.Budgets.{usual_budget};
ghost use Rattle.naplps.specs.Stream.{means};
ghost use Rattle.naplps_examples.specs.Listing.{listing};

use naplps::{Budget, Fault, line_of, read_all};
use std::alloc::{AllocError, Global};

/// Returns what a page draws, a line for each entry; or the name of its refusal, and the place of a byte.
pub fn list(alloc: Global, page: &[u8]) -> Result<String, AllocError>
    ensures { IfOk result (λ text. string_bytes text ≡ listing (means usual_budget page.now)) }
{
    match read_all(alloc, Budget::usual(), page) {
        Ok(entries) => {
            let mut text = String::new(alloc);
            for entry in &entries {
                text.push_str(&line_of(alloc, entry)?)?;
                text.push('\n')?;
            }
            Ok(text)
        }
        Err(refusal) if refusal.fault == Fault::Memory => Err(AllocError),
        Err(refusal) => format!(in alloc; "{} at {}\n", refusal.fault.name(), refusal.place),
    }
}
