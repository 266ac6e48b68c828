//! A page that is checked in pieces, as C keeps it.
ghost use Rattle.std.specs.Prelude.{◌≡◌, None, Some};
ghost use Rattle.std.specs.Option.{MatchOption};
ghost use Rattle.std.specs.declared.option.Option.{Option};
ghost use Rattle.std.specs.Box.Ownership.{box_owns};
ghost use Rattle.nap_c.specs.declared.pieces.Check.{Check};
ghost use Rattle.nap_c.specs.Kept.{check_coded, page_at};

use crate::pieces::Check;
use std::alloc::{Allocator, Global};
use std::marker::Model;
use std::mem::replace;
use std::ptr::null_mut;

/// The pointer of a box, which it owns, and the allocator that frees it.
pub struct RawBox<T, A: Allocator> {
    pub(crate) at: *mut T,
    pub(crate) alloc: A,
    pub(crate) ghost value: { T },
}

impl<T, A: Allocator> Model for RawBox<T, A> {
    ghost also_owns = { λ l. box_owns (A.dealloc_token l.alloc) T.row l.at l.value };
}

impl<T: Drop, A: Allocator> RawBox<T, A> {
    /// Takes a box apart.
    pub(crate) fn from_box(value: Box<T, A>) -> RawBox<T, A>
        ensures { result.value ≡ value.value }
    {
        let (at, alloc) = Box::into_raw_with_allocator(value);
        RawBox { at, alloc }
    }

    /// Makes the box again.
    pub(crate) fn into_box(self) -> Box<T, A>
        ensures { result.value ≡ self.value }
    {
        let RawBox { at, alloc } = self;
        unsafe { Box::from_raw(alloc, at) }
    }
}

/// A page that is checked in pieces, if one is begun: null, or a pointer to a box.
#[repr(C)]
pub struct Checking {
    at: *mut u8,
    pub ghost check: { Option Check } by { check_coded },
}

impl Model for Checking {
    ghost also_owns = { λ c. page_at c.at c.check };
}

impl Checking {
    /// Returns no page.
    fn none() -> Checking
        ensures { result.check ≡ None }
    {
        Checking { at: null_mut() }
    }

    /// Returns a page with what is known of it.
    fn some(check: RawBox<Check, Global>) -> Checking
        ensures { result.check ≡ Some check.value }
    {
        let RawBox { at, alloc: _ } = check;
        Checking { at: at as *mut u8 }
    }

    /// Returns what is known of the page, if one is begun.
    fn into_raw_box(self, alloc: Global) -> Option<RawBox<Check, Global>>
        ensures { MatchOption result (self.check ≡ None) (λ l. self.check ≡ Some l.value) }
    {
        let Checking { at } = self;
        if at.is_null() {
            None
        } else {
            Some(RawBox {
                at: at as *mut Check,
                alloc,
            })
        }
    }

    /// Takes out what is known of the page. No page is begun afterwards.
    pub(crate) fn take(&mut self, alloc: Global) -> Option<Box<Check>>
        ensures none { self.new.check ≡ None }
        ensures known { MatchOption result (self.old.check ≡ None) (λ b. self.old.check ≡ Some b.value) }
    {
        match replace(self, Checking::none()).into_raw_box(alloc) {
            Some(check) => Some(check.into_box()),
            None => None,
        }
    }

    /// Puts in what is known of a page, and drops the one that was begun.
    pub(crate) fn put(&mut self, alloc: Global, check: Box<Check>)
        ensures { self.new.check ≡ Some check.value }
    {
        let old = replace(self, Checking::some(RawBox::from_box(check)));
        if let Some(check) = old.into_raw_box(alloc) {
            drop(check.into_box());
        }
    }
}
