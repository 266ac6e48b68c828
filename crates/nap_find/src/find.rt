//! Finds, and what is asked of them.
ghost use Rattle.std.specs.Prelude.{◌≡◌, []};

use std::alloc::Global;

/// What a find has at least (FINDING.md, A page).
#[derive(Clone, Copy, PartialEq, Eq, Debug, Drop)]
pub struct Asked {
    /// The number of bytes.
    pub bytes: usize,
    /// The number of entries of its display list.
    pub entries: u64,
    /// The number of points, lines, arcs, rectangles and polygons among them.
    pub shapes: u64,
}

/// A page among other bytes.
#[derive(Clone, Copy, PartialEq, Eq, Debug, Drop)]
pub struct Find {
    /// The offset of its first byte.
    pub begin: u64,
    /// The offset after its last byte.
    pub end: u64,
}

/// The finds of bytes, in order.
#[derive(Drop)]
pub struct Found {
    /// The finds.
    pub finds: Vec<Find>,
    /// How many beginnings were passed over, since too many came before a refused byte; at most the greatest `u64`.
    pub passed: u64,
    /// The offset from which on bytes that follow may change what is found: that of the open row, or else of the end.
    pub open: u64,
}

impl Found {
    /// Returns no finds. Takes no memory.
    pub fn new(alloc: Global) -> Found
        ensures finds { result.finds.items ≡ [] }
        ensures passed { result.passed ≡ 0 }
        ensures open { result.open ≡ 0 }
    {
        Found {
            finds: Vec::new(alloc),
            passed: 0,
            open: 0,
        }
    }
}
