//! A box taken apart, for a struct that keeps the box as a pointer.
#![tactic(auto)]

ghost use Rattle.std.specs.Prelude.{◌≡◌};
ghost use Rattle.std.specs.Box.Ownership.{box_owns};

use std::alloc::Allocator;
use std::marker::Model;

/// A box as the pointer to its value and the allocator of its block. It owns what the box owned.
pub struct RawBox<T, A: Allocator> {
    /// Where the value is.
    pub at: *mut T,
    /// The allocator that frees the block.
    pub alloc: A,
    /// The value.
    pub ghost value: { T },
}

impl<T, A: Allocator> Model for RawBox<T, A> {
    ghost also_owns = { λ r. box_owns (A.dealloc_token r.alloc) T.row r.at r.value };
}

impl<T: Drop, A: Allocator> RawBox<T, A> {
    /// Takes a box apart.
    pub fn of(boxed: Box<T, A>) -> RawBox<T, A>
        ensures { result.value ≡ boxed.value }
    {
        let (at, alloc) = Box::into_raw_with_allocator(boxed);
        RawBox { at, alloc }
    }

    /// Puts the box together again.
    pub fn into_box(self) -> Box<T, A>
        ensures { result.value ≡ self.value }
    {
        let RawBox { at, alloc } = self;
        unsafe { Box::from_raw(alloc, at) }
    }
}
