//! A sink that fails.
ghost use Rattle.std.specs.Prelude.{◌≡◌, ◌++◌, [], List, true};
ghost use Rattle.std.proofs.Common.{sym, ap, ◌∙◌, append-nil, append_assoc};
ghost use Rattle.nap_list.specs.State.{start, walk};
ghost use Rattle.nap_list.specs.declared.entry.Entry.{Entry};

use nap_list::{Entry, ListSink, Shape, Sink, SinkFault};
use std::alloc::Global;

/// A sink that takes `left` entries, and then fails with `fault` at each put.
#[derive(Drop)]
pub struct Faltering {
    /// The entries taken.
    pub list: ListSink,
    /// The number of entries that it still takes.
    pub left: usize,
    /// The fault of a put that fails.
    pub fault: SinkFault,
    /// Whether it has failed as a device.
    pub failed: bool,
}

impl Faltering {
    /// Returns a sink that takes `left` entries, and then fails with `fault` at each put.
    pub fn new(alloc: Global, left: usize, fault: SinkFault) -> Faltering
        ensures { result.list ≡ [] }
    {
        Faltering {
            list: ListSink::new(alloc),
            left,
            fault,
            failed: false,
        }
    }
}

impl Sink for Faltering {
    ghost state = { λ s. walk start s.list };

    ghost wants = { λ s d. Unit {0} };

    ghost failed = { λ s. s.failed };

    ghost took = { λ s d t. t.list ≡ s.list ++ d };

    ghost broke = { λ s d e t. t.list ≡ s.list ++ d };

    fn put(&mut self, entry: Entry) -> Result<(), SinkFault> {
        if self.failed {
            return Err(SinkFault::Write);
        }
        if self.left == 0 {
            match self.fault {
                SinkFault::Memory => return Err(SinkFault::Memory),
                SinkFault::Write => {
                    self.failed = true;
                    return Err(SinkFault::Write);
                }
            }
        }
        self.list.put(entry)?;
        self.left -= 1;
        Ok(())
    }

    fn put_shape(&mut self, alloc: Global, shape: &Shape) -> Result<(), SinkFault> {
        if self.failed {
            return Err(SinkFault::Write);
        }
        let entry = shape.entry(alloc)?;
        self.put(entry)
    }

    ghost took_none = { λ s. sym (append-nil s.list) };

    ghost took_more = { λ s t u d e a b. b ∙ (ap (λ (list : List Entry). list ++ e) a ∙ append_assoc s.list d e) };

    ghost wants_more = { λ s t d e f a b. tt {0} };

    ghost took_broke = { λ s t u d e x a b. b ∙ (ap (λ (list : List Entry). list ++ e) a ∙ append_assoc s.list d e) };
}
