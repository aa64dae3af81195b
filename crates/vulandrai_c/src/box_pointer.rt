//! A box, taken apart into the place of its value and the allocator that frees it.

ghost use Rattle.std.specs.Prelude.{◌≡◌};
ghost use Rattle.std_alloc.specs.Box.Ownership.{box_owns};

use std::alloc::Allocator;
use std::marker::Model;

/// The place of a boxed value, and the allocator that its memory goes back to. `BoxPointer` owns
/// what the box owned.
pub(crate) struct BoxPointer<T, A: Allocator> {
    pub(crate) place: *mut T,
    pub(crate) heap: A,
    pub(crate) ghost content: { T },
}

impl<T, A: Allocator> Model for BoxPointer<T, A> {
    ghost also_owns = { λ b. box_owns (A.dealloc_token b.heap) T.row b.place b.content };
}

impl<T: Drop, A: Allocator> BoxPointer<T, A> {
    /// The place and the allocator of a box.
    pub(crate) fn from_box(boxed: Box<T, A>) -> BoxPointer<T, A>
        ensures { result.content ≡ boxed.value }
    {
        let (place, heap) = Box::into_raw_with_allocator(boxed);
        BoxPointer { place, heap }
    }

    /// The box again.
    pub(crate) fn into_box(self) -> Box<T, A>
        ensures { result.value ≡ self.content }
    {
        let BoxPointer { place, heap } = self;
        unsafe { Box::from_raw(heap, place) }
    }
}
