//! Sinks, which take entries one after another or in batches.
ghost use Rattle.std.specs.Prelude.{◌≡◌, List, [], ◌∷◌, ◌++◌, Bool, true, false, OnOk, IsErrOf, length};
ghost use Rattle.std.proofs.Common.{sym, ap, ◌∙◌, append-nil, append_assoc};
ghost use Rattle.nap_list.specs.declared.state.State.{State};
ghost use Rattle.nap_list.specs.declared.entry.Entry.{Entry};
ghost use Rattle.nap_list.specs.declared.sink.SinkFault.TheVariants.{Memory};
ghost use Rattle.nap_list.specs.State.{AllFit, Fits, after, start, walk};
ghost use Rattle.nap_list.specs.Batches.{batch_entries};
ghost use Rattle.nap_list.specs.Putting.{Put, PutSome, TakesAll, UnlessAll, sink_model};
ghost use Rattle.nap_list.specs.Shapes.{entry_of_shape};

use crate::batch::Batch;
use crate::entry::Entry;
use crate::shape::Shape;
use crate::state::State;
use std::alloc::{AllocError, AllocFailed, Global};
use std::marker::Model;
use thiserror::Error;

/// Why a sink didn't take an entry.
#[derive(Clone, Copy, PartialEq, Eq, Debug, Drop, Error)]
pub enum SinkFault {
    /// Memory ran out.
    #[error("no memory")]
    Memory,
    /// The sink's device failed.
    #[error("the device failed")]
    Write,
}

impl From<AllocError> for SinkFault {
    ghost from_gives = { λ _ e. e ≡ Memory };

    fn from(_: AllocError) -> Self {
        SinkFault::Memory
    }
}

impl<T: Drop> From<AllocFailed<T>> for SinkFault {
    ghost from_gives = { λ _ e. e ≡ Memory };

    fn from(_: AllocFailed<T>) -> Self {
        SinkFault::Memory
    }
}

/// Why a sink didn't take all of a batch.
#[derive(Clone, Copy, PartialEq, Eq, Debug, Drop)]
pub struct BatchFault {
    /// The number of entries taken.
    pub taken: usize,
    /// Why the next one wasn't.
    pub fault: SinkFault,
}

impl BatchFault {
    /// Returns lack of memory as the error if `taken` is less than the number of entries of the batch.
    #[inline(always)]
    pub fn error_unless_all(taken: usize, batch: &Batch) -> Result<(), BatchFault>
        ensures { UnlessAll taken (length (batch_entries batch.now)) result }
    {
        if taken < batch.len() {
            return Err(BatchFault {
                taken,
                fault: SinkFault::Memory,
            });
        }
        Ok(())
    }
}

/// Takes the entries of a display list in order. It need not keep them.
pub trait Sink {
    /// The state that the next entry has to fit.
    ghost state: { Self → State };

    /// Whether memory may run out for these entries.
    ghost wants: { Self → List Entry → Type 0 };

    /// Whether the device has failed.
    ghost failed: { Self → Bool };

    /// The second sink is the first one after it took the list.
    ghost took: { Self → List Entry → Self → Type 0 };

    /// The second sink is the first one after it took the list, and failed during the entry.
    ghost broke: { Self → List Entry → Entry → Self → Type 0 };

    /// Takes one entry. After an error it has taken none, but its device may have a part. A failed sink takes no more.
    fn put(&mut self, entry: Entry) -> Result<(), SinkFault>
        requires { Fits (state self.old) entry }
        ensures took { OnOk result (took self.old (entry ∷ []) self.new) }
        ensures after { OnOk result (state self.new ≡ after (state self.old) entry) }
        ensures memory { IsErrOf result SinkFault.Memory → self.new ≡ self.old }
        ensures wants { IsErrOf result SinkFault.Memory → wants self.old (entry ∷ []) }
        ensures refuses { failed self.old ≡ true → IsErrOf result SinkFault.Write }
        ensures write { IsErrOf result SinkFault.Write → failed self.new ≡ true }
        ensures only_write { failed self.new ≡ true → IsErrOf result SinkFault.Write }
        ensures state { IsErrOf result SinkFault.Write → state self.new ≡ state self.old }
        ensures broke { IsErrOf result SinkFault.Write → failed self.old ≡ false → broke self.old [] entry self.new }
        ensures still { IsErrOf result SinkFault.Write → failed self.old ≡ true → self.new ≡ self.old };

    /// Takes the entries of a batch, as `put` takes them one after another. The error has the number of entries taken.
    fn put_batch(&mut self, batch: &Batch) -> Result<(), BatchFault>
        requires { AllFit (state self.old) (batch_entries batch.now) }
        ensures { Put (sink_model state wants failed took broke) (batch_entries batch.now) self.old self.new result }
    {
        for taken in 0..batch.len() {
            if let Err(fault) = self.put(batch.entry(taken)) {
                return Err(BatchFault { taken, fault });
            }
        }
        Ok(())
    }

    /// Takes a shape with borrowed points, as `put` takes its entry. A sink that keeps the entry copies the points.
    fn put_shape(&mut self, alloc: Global, shape: &Shape) -> Result<(), SinkFault>
        requires { Fits (state self.old) (entry_of_shape shape.now) }
        ensures { PutSome (sink_model state wants failed took broke) (entry_of_shape shape.now ∷ []) self.old self.new result };

    /// Whether it is worth calling `put_alike`: of entries that leave the same state, this sink needs only the number.
    fn counts_only(&self) -> bool {
        false
    }

    /// Takes any list of `count` entries that leaves the state of its last one; false, and none, if it needs them.
    fn put_alike(&mut self, count: usize, last: &Entry) -> bool
        ensures took { result ≡ true → (list : List Entry) → length list ≡ count → walk (state self.old) list ≡ after (state self.old) last.now → TakesAll (sink_model state wants failed took broke) list self.old self.new }
        ensures none { result ≡ false → self.new ≡ self.old }
    {
        false
    }

    /// Taking nothing changes nothing.
    ghost took_none: { (s : Self) → took s [] s };

    /// Two lists taken one after the other are taken as one.
    ghost took_more: { (s t u : Self) (d e : List Entry) → took s d t → took t e u → took s (d ++ e) u };

    /// If memory may run out for entries after a list, it may run out for the list, these entries and any more.
    ghost wants_more: { (s t : Self) (d e f : List Entry) → took s d t → wants t e → wants s (d ++ (e ++ f)) };

    /// A failure after a list that was taken is a failure after the whole.
    ghost took_broke: { (s t u : Self) (d e : List Entry) (x : Entry) → took s d t → broke t e x u → broke s (d ++ e) x u };
}

/// Keeps the entries in memory. Fails only if memory runs out.
#[derive(Drop)]
pub struct ListSink {
    list: Vec<Entry>,
}

impl Model for ListSink {
    ghost Value = { List Entry };

    ghost view = { λ s. s.list.items };
}

impl ListSink {
    /// Returns a sink that has taken no entry, and no memory.
    pub fn new(alloc: Global) -> ListSink
        ensures { result ≡ [] }
    {
        ListSink {
            list: Vec::new(alloc),
        }
    }

    /// Returns the entries taken.
    pub fn entries(&self) -> &[Entry]
        ensures { result.now ≡ self.now }
    {
        self.list.as_slice()
    }

    /// Returns the list of the entries taken.
    pub fn into_list(self) -> Vec<Entry>
        ensures { result.items ≡ self }
    {
        let ListSink { list } = self;
        list
    }
}

impl Sink for ListSink {
    ghost state = { λ s. walk start s };

    ghost wants = { λ s d. Unit {0} };

    ghost failed = { λ s. false };

    ghost took = { λ s d t. t ≡ s ++ d };

    ghost broke = { λ s d e t. ⊥ };

    #[tactic(auto, using(crate::specs::Walks::walk_more))]
    fn put(&mut self, entry: Entry) -> Result<(), SinkFault> {
        self.list.push(entry)?;
        Ok(())
    }

    fn put_shape(&mut self, alloc: Global, shape: &Shape) -> Result<(), SinkFault> {
        let entry = shape.entry(alloc)?;
        self.put(entry)
    }

    ghost took_none = { λ s. sym (append-nil s) };

    ghost took_more = { λ s t u d e a b. b ∙ (ap (λ (list : List Entry). list ++ e) a ∙ append_assoc s d e) };

    ghost wants_more = { λ s t d e f a b. tt {0} };

    ghost took_broke = { λ s t u d e x a b. absurd b };
}
