//! The input of a reader: the bytes of called bodies, and then those of the piece.
ghost use Rattle.std.specs.Prelude.{◌≡◌, ◌+◌, ◌++◌, ◌≤◌, [], ◌∷◌, None, length, vec_capacity, IfOk, MatchOption, ◌-◌, ◌<◌, MatchResult, Some, OnErr, OnOk, take, ◌*◌, ◌^◌};
ghost use Rattle.nap_reader.specs.Bodies.{no_names, store_limit, body_of};
ghost use Rattle.nap_reader.specs.Budgets.{most_budget};
ghost use Rattle.nap_reader.specs.Carried.{HasName, HasName-prop};
ghost use Rattle.nap_reader.specs.Framed.{FramesIn, unread};
ghost use Rattle.nap_reader.specs.Stored.{no_promise};
ghost use Rattle.nap_codes.specs.Laws.{IsGraphic};

use crate::body::OpenBody;
use crate::budget::Budget;
use crate::fault::Fault;
use crate::frames::Frames;
use crate::prefix::is_operand;
use crate::store::{Promise, STORE_LIMIT, Store};
use std::alloc::{AllocError, Global};

/// The macro bodies, those that are being read, and the counts of bytes read.
#[derive(Drop)]
pub(crate) struct Input {
    pub(crate) store: Store,
    /// The body that is being defined.
    pub(crate) body: Option<OpenBody>,
    pub(crate) frames: Frames,
    pub(crate) budget: Budget,
    /// The number of bytes of the piece that were consumed.
    pub(crate) at: usize,
    /// The number of bytes of the stream that were consumed.
    pub(crate) fed: u64,
    /// The number of bytes of the stream and of bodies that were consumed.
    pub(crate) turns: u64,
    /// The number of bytes of bodies that were charged.
    pub(crate) charged: u64,
    ghost within: { charged ≤ budget },
    ghost small: { charged ≤ most_budget },
    ghost named: { HasName body } by { HasName-prop body },
    ghost framed: { FramesIn (length store.bytes) frames.stack.items },
    ghost turned: { turns + length (unread store.bytes frames.stack.items) ≡ fed + charged },
    ghost counted: { fed ≤ turns },
    ghost few: { store.stored + length store.body ≤ store_limit },
    ghost paired: { length store.bytes ≤ store.stored + length store.body + charged },
    ghost deep: { store.promise.charged ≤ frames.stack.capacity },
}

impl Input {
    ghost use Rattle.nap_reader.specs.NextBytes.{CanAdvance, IsNextText, Moves, Reads, StoresBody, next_bytes, promise_after, CannotShow, CanPass};
    ghost use Rattle.nap_reader.specs.Stream.{bytes_of, all_at};
    ghost use Rattle.nap_reader.specs.Stored.{store_shown, Exceeds, store_bound, store_grown};

    /// Returns the input before any byte.
    pub(crate) fn new(alloc: Global, budget: Budget) -> Input
        ensures store { result.store ≡ record { names = no_names; bytes = []; body = []; stored = 0; promise = no_promise } }
        ensures none { (result.body ≡ None) × (result.frames.stack.items ≡ []) }
        ensures budget { result.budget ≡ budget }
        ensures counts { (result.fed ≡ 0) × (result.turns ≡ 0) × (result.charged ≡ 0) }
    {
        Input {
            store: Store::new(alloc),
            body: None,
            frames: Frames::new(alloc),
            budget,
            at: 0,
            fed: 0,
            turns: 0,
            charged: 0,
        }
    }

    /// Returns the input before any byte, under this budget, with memory for all bodies, and for a reading that is charged
    /// no more than this one. The old input's memory is used again.
    pub(crate) fn again(self, budget: Budget) -> Result<Input, AllocError>
        ensures store { IfOk result (λ input. input.store ≡ record { names = no_names; bytes = []; body = []; stored = 0; promise = promise_after self }) }
        ensures none { IfOk result (λ input. (input.body ≡ None) × (input.frames.stack.items ≡ [])) }
        ensures budget { IfOk result (λ input. input.budget ≡ budget) }
        ensures counts { IfOk result (λ input. (input.fed ≡ 0) × (input.turns ≡ 0) × (input.charged ≡ 0)) }
    {
        let promise = Promise {
            stored: STORE_LIMIT,
            charged: self.charged as usize,
        };
        let Input {
            mut store,
            mut frames,
            ..
        } = self;
        store.empty();
        store.reserve(promise)?;
        frames.empty();
        frames.reserve(promise.charged)?;
        Ok(Input {
            store,
            body: None,
            frames,
            budget,
            at: 0,
            fed: 0,
            turns: 0,
            charged: 0,
        })
    }

    /// Begins a new piece.
    pub(crate) fn begin_piece(&mut self)
        ensures { self.new ≡ record self.old { at = 0 } }
    {
        self.at = 0;
    }

    /// Returns the next contiguous bytes, if there are any, and whether a byte that isn't an operand byte follows them.
    #[inline(always)]
    pub(crate) fn next_slice<'a>(&'a self, piece: &'a [u8]) -> Option<(Slice<'a>, bool)>
        requires { Reads self.now piece.now }
        ensures { MatchOption result (next_bytes self.now piece.now ≡ []) (λ x. IsNextText self.now piece.now x.0.place x.0.step x.0.bytes.now x.1) }
    {
        let Some((bytes, place)) = self.frames.innermost(self.store.bytes()) else {
            if self.at == piece.len() {
                return None;
            }
            let slice = Slice {
                bytes: &piece[self.at..],
                place: self.fed,
                step: 1,
            };
            return Some((slice, false));
        };
        let step = 0;
        let slice = Slice { bytes, place, step };
        match self.frames.byte_after(self.store.bytes(), piece, self.at) {
            Some(byte) => Some((slice, !is_operand(byte))),
            None => Some((slice, false)),
        }
    }

    /// Advances past `count` of the next bytes, at most those of their slice.
    #[inline(always)]
    pub(crate) fn advance(&mut self, count: usize)
        requires { CanAdvance self.old count }
        ensures { Moves self.old self.new count [] self.old.store self.old.body }
    {
        self.turns += count as u64;
        if self.frames.is_empty() {
            self.at += count;
            self.fed += count as u64;
        } else {
            self.frames.take_from_innermost(self.store.bytes(), count);
        }
    }

    /// Unbinds all names.
    pub(crate) fn clear(&mut self)
        ensures { StoresBody self.old self.new (record self.old.store { names = no_names }) self.old.body }
    {
        self.store.clear();
    }

    /// Returns how many bytes may still be charged.
    fn budget_left(&self) -> u64
        ensures left { result ≡ self.now.budget - self.now.charged }
        ensures most { result + self.now.charged ≤ most_budget }
    {
        u64::from(self.budget.get()) - self.charged
    }

    /// Charges the body of a name, which comes next in the stream with this place (PROFILE.md, Macros).
    pub(crate) fn call(&mut self, name: u8, place: u64) -> Result<(), Fault>
        requires { IsGraphic name }
        ensures { MatchResult result (λ _. Moves self.old self.new 0 (all_at place (body_of self.old.store.names name)) self.old.store self.old.body) (λ fault. CannotShow self.old self.new (body_of self.old.store.names name) fault) }
    {
        let span = self.store.span(name);
        let count = (span.end - span.start) as u64;
        if count == 0 {
            return Ok(());
        }
        if count > self.budget_left() {
            return Err(Fault::Budget);
        }
        let Ok(()) = self.frames.reserve(1) else {
            return Err(Fault::Memory);
        };
        self.frames.push_reserved(span, place);
        self.charged += count;
        Ok(())
    }

    /// Ends a body that is presented: binds it to the name and charges it. Its bytes and the two that end it come next
    /// in the stream, with this place (PROFILE.md, Macros).
    pub(crate) fn show(&mut self, name: u8, ender: u8, place: u64) -> Result<(), Fault>
        requires { IsGraphic name }
        ensures { MatchResult result (λ _. Moves self.old self.new 0 (all_at place (self.old.store.body ++ 0x1B ∷ ender ∷ [])) (store_shown self.old.store name ender) None) (λ fault. CannotShow self.old self.new (self.old.store.body ++ 0x1B ∷ ender ∷ []) fault) }
    {
        let count = self.store.open_len() as u64 + 2;
        if count > self.budget_left() {
            return Err(Fault::Budget);
        }
        let Ok(()) = self.frames.reserve(1) else {
            return Err(Fault::Memory);
        };
        let Ok(span) = self.store.show(name, ender) else {
            return Err(Fault::Memory);
        };
        self.frames.push_reserved(span, place);
        self.charged += count;
        self.body = None;
        Ok(())
    }

    /// Opens the body of a macro, or keeps an ESC of it as undecided, at this place.
    #[inline(always)]
    pub(crate) fn set_body(&mut self, name: u8, show: bool, escape: Option<u64>)
        requires { IsGraphic name }
        ensures { StoresBody self.old self.new self.old.store (Some (record { name = name; show = show; escape = escape })) }
    {
        self.body = Some(OpenBody { name, show, escape });
    }

    /// Adds the undecided ESC to the body.
    pub(crate) fn keep_escape(&mut self, body: OpenBody) -> Result<(), AllocError>
        requires named { IsGraphic body.name }
        requires few { self.old.store.stored + length self.old.store.body < store_limit }
        ensures ok { OnOk result (StoresBody self.old self.new (store_grown self.old.store (0x1B ∷ [])) (Some (record body { escape = None }))) }
        ensures err { OnErr result (self.new ≡ self.old) }
        ensures full { OnErr result (Exceeds self.old.store.promise (self.old.store.stored + length self.old.store.body + 1) self.old.charged) }
    {
        self.store.push(0x1B)?;
        self.set_body(body.name, body.show, None);
        Ok(())
    }

    /// Ends a body, and binds it to the name.
    pub(crate) fn bind(&mut self, name: u8)
        requires { IsGraphic name }
        ensures { StoresBody self.old self.new (store_bound self.old.store name) None }
    {
        self.store.bind(name);
        self.body = None;
    }

    /// Adds the next `count` bytes to the open body, and advances past them.
    #[inline(always)]
    pub(crate) fn keep(&mut self, count: usize, piece: &[u8]) -> Result<(), AllocError>
        requires next { CanPass self.old piece.now count }
        requires few { self.old.store.stored + length self.old.store.body + count ≤ store_limit }
        ensures ok { OnOk result (Moves self.old self.new count [] (store_grown self.old.store (bytes_of (take count (next_bytes self.old piece.now)))) self.old.body) }
        ensures err { OnErr result (self.new ≡ self.old) }
        ensures full { OnErr result (Exceeds self.old.store.promise (self.old.store.stored + length self.old.store.body + count) self.old.charged) }
    {
        self.append(count, piece)?;
        self.advance(count);
        Ok(())
    }

    /// Adds the next `count` bytes to the open body.
    #[inline(always)]
    fn append(&mut self, count: usize, piece: &[u8]) -> Result<(), AllocError>
        requires next { CanPass self.old piece.now count }
        requires few { self.old.store.stored + length self.old.store.body + count ≤ store_limit }
        ensures ok { OnOk result (StoresBody self.old self.new (store_grown self.old.store (bytes_of (take count (next_bytes self.old piece.now)))) self.old.body) }
        ensures err { OnErr result (self.new ≡ self.old) }
        ensures full { OnErr result (Exceeds self.old.store.promise (self.old.store.stored + length self.old.store.body + count) self.old.charged) }
    {
        match self.frames.next() {
            Some(next) => self.store.extend_within(next, count),
            None => self.store.extend(&piece[self.at..self.at + count]),
        }
    }
}

/// The next contiguous bytes: the rest of the innermost body, else of the piece.
#[derive(Clone, Copy, Drop)]
pub(crate) struct Slice<'a> {
    /// The bytes, at least one.
    pub(crate) bytes: &'a [u8],
    /// The place of the first byte.
    pub(crate) place: u64,
    /// The difference of the places of two neighbours: 1 in the piece, 0 in a body.
    pub(crate) step: u64,
    ghost near: { step ≤ 1 },
    ghost fits: { place + step * length bytes.now < 2 ^ 64 },
}

impl<'a> Slice<'a> {
    /// Returns the place of the byte at an index.
    #[inline(always)]
    pub(crate) fn place_of(&self, index: usize) -> u64
        requires { index ≤ length self.now.bytes.now }
        ensures { result ≡ self.now.place + self.now.step * index }
    {
        self.place + self.step * index as u64
    }
}
