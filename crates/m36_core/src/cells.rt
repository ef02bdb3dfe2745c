//! A block of raw memory, as a row of slots. A slot is empty or holds a value. Only the functions
//! of this file use the pointer to the block.
ghost use Rattle.std.specs.Prelude.{◌≡◌, ℕ, ◌+◌, ◌<◌, ◌≤◌, List, Option, Some, None, length, take};
ghost use Rattle.std.specs.Prelude.{drop, replicate, get_or, slice_set, IfOk, ⊤};
ghost use Rattle.std.specs.Borrow.{sem};
ghost use Rattle.std.specs.Vec.Ownership.{FitsInBlock};
ghost use base.Fml.{ftrue};
ghost use denote.RawPtr.{Ptr};
ghost use Rattle.m36_core.specs.Places.{slot_values, AreAllFilled};
ghost use Rattle.m36_core.specs.Ownership.{cells_own, cells_share, deed_owns};

use std::alloc::{AllocError, Allocator};
use std::marker::{Model, PhantomData, Send, Sync};
use std::mem::{align_of, size_of};
use std::slice;

/// The pointer to the block. It owns nothing.
pub struct Base<T> {
    ptr: *mut T,
}

impl<T> Clone for Base<T> {
    ghost is_clone = { λ x y. y ≡ x };

    ghost is_infallible = { λ _. ⊤ };

    fn clone(&self) -> Result<Base<T>, AllocError> {
        Ok(*self)
    }
}

impl<T> Copy for Base<T> {}

unsafe impl<T> Send for Base<T> {}

unsafe impl<T> Sync for Base<T> {}

/// The owner of the slots. It has no size at run time; its holder keeps the pointer and the number
/// of slots.
pub struct Cells<T> {
    mark: PhantomData<*const T>,
    ghost at: { Ptr },
    ghost slots: { List (Option T) },
}

impl<T> Model for Cells<T> {
    ghost also_owns = { λ c. cells_own T.row c.at c.slots };

    ghost also_shares = { λ c _ κ. cells_share T.row c.at c.slots κ };
}

unsafe impl<T: Send> Send for Cells<T> {}

unsafe impl<T: Sync> Sync for Cells<T> {}

/// The right to return the block of `len` slots at `at` to `alloc`. It has no size at run time.
pub struct Deed<T, A: Allocator> {
    mark: PhantomData<*const (T, A)>,
    ghost at: { Ptr },
    ghost len: { ℕ },
    ghost alloc: { A },
}

impl<T, A: Allocator> Model for Deed<T, A> {
    ghost also_owns = { λ d. deed_owns T.row (A.dealloc_token d.alloc) d.at d.len };

    ghost also_shares = { λ _ _ _. ftrue };
}

unsafe impl<T, A: Allocator + Send> Send for Deed<T, A> {}

// A shared reference to a deed gives access to nothing, so it may cross threads.
unsafe impl<T, A: Allocator> Sync for Deed<T, A> {}

/// Allocates a block of `len` empty slots.
pub(crate) fn allocate<T, A: Allocator>(
    alloc: &A,
    len: usize,
) -> Result<(Base<T>, Cells<T>, Deed<T, A>), AllocError>
    requires { FitsInBlock T.row len }
    ensures { IfOk result (λ r. (r.1.at ≡ r.0.ptr) × (r.1.slots ≡ replicate len None)
        × (r.2.at ≡ r.0.ptr) × (r.2.len ≡ len) × (r.2.alloc ≡ alloc.now)) }
{
    match alloc.allocate(len * size_of::<T>(), align_of::<T>()) {
        Ok(block) => {
            let base = Base {
                ptr: block as *mut T,
            };
            Ok((
                base,
                Cells { mark: PhantomData },
                Deed { mark: PhantomData },
            ))
        }
        Err(error) => Err(error),
    }
}

/// Returns a block to the allocator that it came from.
pub(crate) fn deallocate<T, A: Allocator>(
    alloc: &A,
    base: Base<T>,
    len: usize,
    cells: Cells<T>,
    deed: Deed<T, A>,
)
    requires { (cells.at ≡ base.ptr) × (length cells.slots ≡ len) × (deed.at ≡ base.ptr)
        × (deed.len ≡ len) × (deed.alloc ≡ alloc.now) }
{
    let Cells { mark: _ } = cells;
    let Deed { mark: _ } = deed;
    unsafe {
        alloc.deallocate(base.ptr as *mut u8, len * size_of::<T>(), align_of::<T>());
    }
}

impl<T> Cells<T> {
    ghost use Rattle.m36_core.specs.Lends.{lends_range};

    /// Writes a value into the slot at an index. `base` has to be the pointer to these slots.
    pub(crate) fn write(&mut self, base: Base<T>, index: usize, item: T)
        requires { (base.ptr ≡ self.old.at) × (index < length self.old.slots) }
        ensures { (self.new.at ≡ self.old.at)
            × (self.new.slots ≡ slice_set self.old.slots index (Some item)) }
    {
        unsafe { base.ptr.add(index).write(item) }
    }

    /// The value in the slot at an index. Every slot has to hold a value, and `base` has to be the
    /// pointer to these slots.
    pub(crate) fn get(&self, base: Base<T>, index: usize) -> &T
        requires { (base.ptr ≡ self.now.at) × AreAllFilled self.now.slots
            × (index < length self.now.slots) }
        ensures { get_or self.now.slots index None ≡ Some result.now }
    {
        unsafe { &*base.ptr.add(index) }
    }

    /// The `len` values that begin at index `from`.
    pub(crate) fn slice(&self, base: Base<T>, from: usize, len: usize) -> &[T]
        requires { (base.ptr ≡ self.now.at) × AreAllFilled self.now.slots
            × (from + len ≤ length self.now.slots) }
        ensures { result.now ≡ take len (drop from (slot_values self.now.slots)) }
    {
        unsafe { slice::from_raw_parts(base.ptr.add(from), len) }
    }

    /// The `len` values that begin at index `from`, to be written.
    pub(crate) fn slice_mut(&mut self, base: Base<T>, from: usize, len: usize) -> &mut [T]
        requires { (base.ptr ≡ self.old.at) × AreAllFilled self.old.slots
            × (from + len ≤ length self.old.slots) }
        ensures* writes_back { sem 𝓛 (lends_range T.row self.entry from result) }
        ensures value { result.now ≡ take len (drop from (slot_values self.old.slots)) }
    {
        unsafe { slice::from_raw_parts_mut(base.ptr.add(from), len) }
    }
}
