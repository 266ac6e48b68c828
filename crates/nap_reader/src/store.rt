//! The store of macro bodies.
ghost use Rattle.std.specs.Prelude.{false, ◌≡◌, ◌↔◌, ◌+◌, ◌<◌, ◌≤◌, [], ◌∷◌, ◌++◌, length, OnOk, OnErr, IfOk};
ghost use Rattle.nap_reader.specs.Bodies.{no_names, body_of, store_limit};
ghost use Rattle.nap_reader.specs.Stored.{IsBefore, no_promise, promised, store_bound, store_grown, sublist_at, store_shown, sublist};
ghost use Rattle.nap_codes.specs.Laws.{IsGraphic};

use std::alloc::{AllocError, Global};
use std::marker::Model;

/// The greatest number of bytes of macro bodies in one stream, those that were bound again or cleared included
/// (PROFILE.md, Limits).
pub const STORE_LIMIT: usize = 1_048_576;

/// A part of the store.
#[derive(Clone, Copy, Drop)]
pub(crate) struct Span {
    pub(crate) start: usize,
    pub(crate) end: usize,
}

/// The empty part.
const EMPTY: Span = Span { start: 0, end: 0 };

/// The macro bodies, one after another, and those that the names are bound to.
#[derive(Drop)]
pub(crate) struct Store {
    bytes: Vec<u8>,
    spans: [Span; 96],
    /// Whether a name may be bound.
    bound: bool,
    from: usize,
    stored: usize,
    promise: Promise,
}

/// How much a reading may store and be charged in the memory that there is.
#[derive(Clone, Copy, Drop)]
pub(crate) struct Promise {
    /// The number of bytes of bodies.
    pub(crate) stored: usize,
    /// The number of bytes of bodies that are charged.
    pub(crate) charged: usize,
}

/// The promise where there is no memory.
pub(crate) const NO_PROMISE: Promise = Promise {
    stored: 0,
    charged: 0,
};

impl Model for Store {
    ghost use Rattle.std.specs.Prelude.{◌≡◌, false, map, drop, vec_capacity};
    ghost use Rattle.nap_reader.specs.Bodies.{no_names};
    ghost use Rattle.nap_reader.specs.Stored.{IsStore, StoreState, sublist_at};

    ghost Value = { StoreState };

    ghost view = { λ s. record { names = map (sublist_at s.bytes.items) s.spans; bytes = s.bytes.items; body = drop s.from s.bytes.items; stored = s.stored; promise = s.promise } };

    ghost invariant = { λ s. IsStore s.bytes.items s.spans s.from s.stored s.promise (vec_capacity s.bytes) × (s.bound ≡ false → map (sublist_at s.bytes.items) s.spans ≡ no_names) };
}

impl Store {
    /// Returns an empty store, which takes no memory.
    pub(crate) fn new(alloc: Global) -> Store
        ensures { result ≡ record { names = no_names; bytes = []; body = []; stored = 0; promise = no_promise } }
    {
        Store {
            bytes: Vec::new(alloc),
            spans: [EMPTY; 96],
            bound: false,
            from: 0,
            stored: 0,
            promise: NO_PROMISE,
        }
    }

    /// Leaves no bodies, and keeps the memory.
    pub(crate) fn empty(&mut self)
        ensures { self.new ≡ record { names = no_names; bytes = []; body = []; stored = 0; promise = self.old.promise } }
    {
        self.bytes.clear();
        self.spans = [EMPTY; 96];
        self.bound = false;
        self.from = 0;
        self.stored = 0;
    }

    /// Reserves memory in an empty store for a reading that stores and is charged as much as this.
    pub(crate) fn reserve(&mut self, promise: Promise) -> Result<(), AllocError>
        requires { self.old.bytes ≡ [] }
        ensures ok { OnOk result (self.new ≡ record self.old { promise = promise }) }
        ensures err { OnErr result (self.new ≡ self.old) }
    {
        let Some(bytes) = promise.stored.checked_add(promise.charged) else {
            return Err(AllocError);
        };
        self.bytes.reserve(bytes)?;
        self.promise = promise;
        Ok(())
    }

    /// Returns how many more bytes the bodies may have.
    pub(crate) fn space_left(&self) -> usize
        ensures { result + (self.now.stored + length self.now.body) ≡ store_limit }
    {
        STORE_LIMIT - self.stored - (self.bytes.len() - self.from)
    }

    /// Returns the number of bytes of the open body.
    pub(crate) fn open_len(&self) -> usize
        ensures count { result ≡ length self.now.body }
        ensures few { result ≤ store_limit }
    {
        self.bytes.len() - self.from
    }

    /// Appends a byte to the open body.
    pub(crate) fn push(&mut self, byte: u8) -> Result<(), AllocError>
        requires { self.old.stored + length self.old.body < store_limit }
        ensures ok { OnOk result (self.new ≡ store_grown self.old (byte ∷ [])) }
        ensures err { OnErr result (self.new ≡ self.old) }
        ensures full { OnErr result (promised self.old.promise < length self.old.bytes + 1) }
    {
        self.bytes.push(byte)?;
        Ok(())
    }

    /// Ends the open body, and binds it to the name.
    pub(crate) fn bind(&mut self, name: u8)
        requires { IsGraphic name }
        ensures { self.new ≡ store_bound self.old name }
    {
        let end = self.bytes.len();
        self.spans[usize::from(name - 0x20)] = Span {
            start: self.from,
            end,
        };
        self.bound = true;
        self.stored += end - self.from;
        self.from = end;
    }

    /// Ends the open body, binds it to the name, and stores ESC and the byte that ended it after the body, which are
    /// presented with it. These two don't count for the limit.
    pub(crate) fn show(&mut self, name: u8, ender: u8) -> Result<Span, AllocError>
        requires { IsGraphic name }
        ensures ok { OnOk result (self.new ≡ store_shown self.old name ender) }
        ensures next { IfOk result (λ span. sublist_at self.new.bytes span ≡ self.old.body ++ 0x1B ∷ ender ∷ []) }
        ensures within { IfOk result (λ span. (span.start < span.end) × (span.end ≤ length self.new.bytes)) }
        ensures err { OnErr result (self.new ≡ self.old) }
        ensures full { OnErr result (promised self.old.promise < length self.old.bytes + 2) }
    {
        self.bytes.reserve(2)?;
        let start = self.from;
        let end = self.bytes.len();
        self.bytes.push_reserved(0x1B);
        self.bytes.push_reserved(ender);
        self.spans[usize::from(name - 0x20)] = Span { start, end };
        self.bound = true;
        self.stored += end - start;
        self.from = self.bytes.len();
        Ok(Span {
            start,
            end: self.from,
        })
    }

    /// Unbinds all names.
    pub(crate) fn clear(&mut self)
        ensures { self.new ≡ record self.old { names = no_names } }
    {
        if self.bound {
            self.spans = [EMPTY; 96];
            self.bound = false;
        }
    }

    /// Returns where the body of a name is.
    pub(crate) fn span(&self, name: u8) -> Span
        requires { IsGraphic name }
        ensures body { sublist_at self.now.bytes result ≡ body_of self.now.names name }
        ensures within { IsBefore (length self.now.bytes) result }
    {
        self.spans[usize::from(name - 0x20)]
    }

    /// Whether the name is bound to a body that has a byte.
    #[inline(always)]
    pub(crate) fn has_body(&self, name: u8) -> bool
        requires { IsGraphic name }
        ensures { result ≡ false ↔ (body_of self.now.names name ≡ []) }
    {
        let span = self.span(name);
        span.start != span.end
    }

    /// Returns all bytes of the store.
    pub(crate) fn bytes(&self) -> &[u8]
        ensures { result.now ≡ self.now.bytes }
    {
        &self.bytes
    }

    /// Appends bytes to the open body, often one.
    #[inline(always)]
    pub(crate) fn extend(&mut self, bytes: &[u8]) -> Result<(), AllocError>
        requires { self.old.stored + length self.old.body + length bytes.now ≤ store_limit }
        ensures ok { OnOk result (self.new ≡ store_grown self.old bytes.now) }
        ensures err { OnErr result (self.new ≡ self.old) }
        ensures full { OnErr result (promised self.old.promise < length self.old.bytes + length bytes.now) }
    {
        if bytes.len() != 1 {
            return self.bytes.extend_from_slice(bytes);
        }
        self.push(bytes[0])
    }

    /// Appends bytes that are in the store already to the open body.
    pub(crate) fn extend_within(&mut self, from: usize, count: usize) -> Result<(), AllocError>
        requires within { from + count ≤ length self.old.bytes }
        requires few { self.old.stored + length self.old.body + count ≤ store_limit }
        ensures ok { OnOk result (self.new ≡ store_grown self.old (sublist self.old.bytes from (from + count))) }
        ensures err { OnErr result (self.new ≡ self.old) }
        ensures full { OnErr result (promised self.old.promise < length self.old.bytes + count) }
    {
        self.bytes.extend_from_within(from..from + count)
    }
}
