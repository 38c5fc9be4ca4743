//! A box taken apart and put together, for a type that keeps the box's pointer beside other things.
//!
//! `Box::into_raw_with_allocator` gives the pointer away as a bare value: what it leads to is owned,
//! but no type says so. Here the pointer and the allocator stand in a struct that owns what the box
//! owned, and whose value contracts see, so that safe code can hold it and make the box of it again.
//!
//! ```ignore
//! let parts = Parts::of(Box::new(alloc, 7)?);
//! let Parts { ptr, alloc } = parts;
//! // Another struct keeps `ptr`, and owns what it leads to.
//! let seven = Parts { ptr, alloc }.into_box();
//! ```

ghost use Rattle.std.specs.Prelude.{◌≡◌};
ghost use Rattle.std.specs.Box.Ownership.{box_owns};

use std::alloc::Allocator;
use std::marker::Model;

/// The pointer and the allocator of a box. It owns what the box owned.
pub struct Parts<T, A: Allocator> {
    /// The pointer to the value.
    pub ptr: *mut T,
    /// The allocator that the value's memory is of.
    pub alloc: A,
    /// The value.
    pub ghost value: { T },
}

impl<T, A: Allocator> Model for Parts<T, A> {
    ghost also_owns = { λ p. box_owns (A.dealloc_token p.alloc) T.row p.ptr p.value };
}

impl<T, A: Allocator> Parts<T, A> {
    /// Takes a box apart.
    pub fn of(boxed: Box<T, A>) -> Parts<T, A>
    where
        T: Drop,
        ensures { result.value ≡ boxed.value }
    {
        let (ptr, alloc) = Box::into_raw_with_allocator(boxed);
        Parts { ptr, alloc }
    }

    /// Puts the box together again.
    pub fn into_box(self) -> Box<T, A>
        ensures { result.value ≡ self.value }
    {
        let Parts { ptr, alloc } = self;
        unsafe { Box::from_raw(alloc, ptr) }
    }
}
