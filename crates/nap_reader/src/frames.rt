//! The macro bodies that are being read.
ghost use Rattle.std.specs.Prelude.{true, ℕ, List, ◌≡◌, ◌<◌, ◌≤◌, ◌+◌, ◌↔◌, [], ◌∷◌, ◌++◌, drop, length, MatchOption, OnOk, OnErr};
ghost use Rattle.smallvec.specs.SmallVec.{HasRoomFor};
ghost use Rattle.nap_reader.specs.Framed.{FramesIn, Innermost, unread};
ghost use Rattle.nap_reader.specs.Stream.{bytes_of};

use crate::store::Span;
use smallvec::SmallVec;
use std::alloc::{AllocError, Global};

/// A body that is being read: its unread bytes in the store, all of them with one place.
#[derive(Clone, Copy, Default, Drop)]
pub(crate) struct Frame {
    next: usize,
    end: usize,
    place: u64,
}

/// The bodies that are being read, the innermost last. Each has an unread byte.
#[derive(Drop)]
pub(crate) struct Frames {
    stack: SmallVec<Frame, 8>,
}

impl Frames {
    /// Returns no bodies.
    pub(crate) fn new(alloc: Global) -> Frames
        ensures { result.stack.items ≡ [] }
    {
        Frames {
            stack: SmallVec::new(alloc),
        }
    }

    /// Leaves no body, and keeps the memory.
    pub(crate) fn empty(&mut self)
        ensures items { self.new.stack.items ≡ [] }
        ensures memory { self.new.stack.capacity ≡ self.old.stack.capacity }
    {
        self.stack.clear();
    }

    /// Reserves memory for `count` more bodies.
    #[inline(always)]
    pub(crate) fn reserve(&mut self, count: usize) -> Result<(), AllocError>
        ensures items { self.new.stack.items ≡ self.old.stack.items }
        ensures ok { OnOk result (HasRoomFor self.new.stack count) }
        ensures memory { self.old.stack.capacity ≤ self.new.stack.capacity }
        ensures full { OnErr result (self.old.stack.capacity < length self.old.stack.items + count) }
    {
        // (nearly each call has room, and the vector's own function isn't inlined)
        if count <= self.stack.capacity() - self.stack.len() {
            return Ok(());
        }
        self.stack.reserve(count)
    }

    /// Adds a part of the store as the innermost body, with this place. Memory for it has to be reserved.
    pub(crate) fn push_reserved(&mut self, span: Span, place: u64)
        requires some { span.start < span.end }
        requires space { HasRoomFor self.old.stack 1 }
        ensures items { self.new.stack.items ≡ self.old.stack.items ++ record { next = span.start; end = span.end; place = place } ∷ [] }
        ensures memory { self.new.stack.capacity ≡ self.old.stack.capacity }
    {
        self.stack.push_reserved(Frame {
            next: span.start,
            end: span.end,
            place,
        });
    }

    /// Returns the index in the store of the next byte, if a body is being read.
    pub(crate) fn next(&self) -> Option<usize>
        ensures { MatchOption result (self.now.stack.items ≡ []) (λ next. (before : List Frame) × (frame : Frame) × (self.now.stack.items ≡ before ++ frame ∷ []) × (next ≡ frame.next)) }
    {
        let frame = self.stack.last()?;
        Some(frame.next)
    }

    /// Whether no body is being read.
    #[inline]
    pub(crate) fn is_empty(&self) -> bool
        ensures { result ≡ true ↔ self.now.stack.items ≡ [] }
    {
        self.stack.is_empty()
    }

    /// Returns the unread bytes of the innermost body, with their place.
    pub(crate) fn innermost<'a>(&self, bytes: &'a [u8]) -> Option<(&'a [u8], u64)>
        requires { FramesIn (length bytes.now) self.now.stack.items }
        ensures { MatchOption result (self.now.stack.items ≡ []) (λ x. Innermost bytes.now self.now.stack.items x.0.now x.1) }
    {
        let frame = self.stack.last()?;
        Some((&bytes[frame.next..frame.end], frame.place))
    }

    /// Returns the byte after the innermost body: of the body outside it, else of the piece.
    pub(crate) fn byte_after(&self, bytes: &[u8], piece: &[u8], at: usize) -> Option<u8>
        requires framed { FramesIn (length bytes.now) self.now.stack.items }
        requires within { at ≤ length piece.now }
        ensures { (before : List Frame) (frame : Frame) → self.now.stack.items ≡ before ++ frame ∷ [] →
            MatchOption result (bytes_of (unread bytes.now before) ++ drop at piece.now ≡ []) (λ byte. (rest : List ℕ) × (bytes_of (unread bytes.now before) ++ drop at piece.now ≡ byte ∷ rest)) }
    {
        let frames = self.stack.as_slice();
        if frames.len() > 1 {
            return Some(bytes[frames[frames.len() - 2].next]);
        }
        if frames.is_empty() || at == piece.len() {
            return None;
        }
        Some(piece[at])
    }

    /// Advances past `count` bytes of the innermost body, which has as many.
    pub(crate) fn take_from_innermost(&mut self, bytes: &[u8], count: usize)
        requires { FramesIn (length bytes.now) self.old.stack.items }
        ensures given { ((before : List Frame) (frame : Frame) → self.old.stack.items ≡ before ++ frame ∷ [] → frame.next + count ≤ frame.end) →
            unread bytes.now self.new.stack.items ≡ drop count (unread bytes.now self.old.stack.items) }
        ensures within { FramesIn (length bytes.now) self.new.stack.items }
        ensures memory { self.new.stack.capacity ≡ self.old.stack.capacity }
    {
        if self.stack.len() == 0 {
            return;
        }
        let Some(frame) = self.stack.pop() else {
            return;
        };
        if count < frame.end - frame.next {
            self.stack.push_reserved(Frame {
                next: frame.next + count,
                end: frame.end,
                place: frame.place,
            });
        }
    }
}
