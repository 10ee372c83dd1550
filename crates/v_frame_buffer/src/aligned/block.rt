//! The block of memory behind a buffer: five functions, which are the only ones that use pointers.
//!
//! A block is represented by three parts, so that each function takes only the parts that it needs. `Base` is the address,
//! which can be copied and owns nothing. `Cells` owns the entries and the uninitialized memory after them. `Deed` is the right
//! to free the block. `Cells` and `Deed` have size zero. In contracts they name the address that they belong to, so that parts
//! of different blocks cannot be confused.
ghost use Rattle.std.specs.Prelude.{◌≡◌, ℕ, ◌+◌, ◌*◌, ◌<◌, List, [], ◌∷◌, ◌++◌, ◌≤◌, length, slice_range, IfOk, IsOk, ⊤};
ghost use Rattle.std.specs.Borrow.{sem};
ghost use Rattle.std.specs.Mem.{type_size};
ghost use Rattle.std.specs.Vec.Ownership.{FitsInBlock};
ghost use base.Fml.{ftrue};
ghost use denote.RawPtr.{Ptr};
ghost use Rattle.v_frame_buffer.specs.Block.{cells_own, cells_lent, deed_owns};

use std::alloc::{AllocError, Allocator};
use std::marker::{Model, PhantomData, Send, Sync};
use std::mem::{align_of, size_of};
use std::slice;

/// The address at which a block begins. It owns nothing.
pub(super) struct Base<T> {
    ptr: *mut T,
}

impl<T> Clone for Base<T> {
    ghost is_clone = { λ x y. y ≡ x };

    ghost is_infallible = { λ _. ⊤ };

    fn clone(&self) -> Result<Base<T>, AllocError> {
        Ok(*self)
    }
}

impl<T> Copy for Base<T> {}

unsafe impl<T> Send for Base<T> {}

unsafe impl<T> Sync for Base<T> {}

/// The entries of a block, in the order in which they were written, and the uninitialized memory after them. Its size is zero.
pub(super) struct Cells<T> {
    mark: PhantomData<*const T>,
    pub(super) ghost at: { Ptr },
    pub(super) ghost items: { List T },
    pub(super) ghost spare: { ℕ },
}

impl<T> Model for Cells<T> {
    ghost also_owns = { λ c. cells_own T.row c.at c.items c.spare };

    ghost also_shares = { λ c _ κ. cells_lent T.row c.at c.items c.spare κ };
}

unsafe impl<T: Send> Send for Cells<T> {}

unsafe impl<T: Sync> Sync for Cells<T> {}

/// The right to free the block of `len` entries at the address `at`, which `alloc` allocated. Its size is zero.
pub(super) struct Deed<T, A: Allocator> {
    mark: PhantomData<*const (T, A)>,
    pub(super) ghost at: { Ptr },
    pub(super) ghost len: { ℕ },
    pub(super) ghost alloc: { A },
}

impl<T, A: Allocator> Model for Deed<T, A> {
    ghost also_owns = { λ d. deed_owns T.row (A.dealloc_token d.alloc) d.at d.len };

    ghost also_shares = { λ _ _ _. ftrue };
}

unsafe impl<T, A: Allocator + Send> Send for Deed<T, A> {}

// A shared reference to it owns nothing.
unsafe impl<T, A: Allocator> Sync for Deed<T, A> {}

/// Allocates memory for `len` entries. If the entries take no bytes, no memory is requested.
pub(super) fn allocate<T, A: Allocator>(
    alloc: &A,
    len: usize,
) -> Result<(Base<T>, Cells<T>, Deed<T, A>), AllocError>
    requires fits { FitsInBlock T.row len }
    ensures room { IfOk result (λ r. (r.1.at ≡ r.0.ptr) × (r.1.items ≡ []) × (r.1.spare ≡ len)) }
    ensures deed { IfOk result (λ r. (r.2.at ≡ r.0.ptr) × (r.2.len ≡ len) × (r.2.alloc ≡ alloc.now)) }
    ensures no_bytes { len * type_size T.row ≡ 0 → IsOk result }
{
    let bytes = len * size_of::<T>();
    let empty: [T; 0] = [];
    let mut ptr = (&raw const empty) as *mut T;
    if bytes != 0 {
        match alloc.allocate(bytes, align_of::<T>()) {
            Ok(block) => ptr = block as *mut T,
            Err(refused) => return Err(refused),
        }
    }
    Ok((
        Base { ptr },
        Cells { mark: PhantomData },
        Deed { mark: PhantomData },
    ))
}

/// Drops the entries, each once and in order, and frees the memory.
pub(super) fn deallocate<T: Drop, A: Allocator>(
    alloc: &A,
    base: Base<T>,
    written: usize,
    len: usize,
    cells: Cells<T>,
    deed: Deed<T, A>,
)
    requires cells { (cells.at ≡ base.ptr) × (length cells.items ≡ written) × (written + cells.spare ≡ len) }
    requires deed { (deed.at ≡ base.ptr) × (deed.len ≡ len) × (deed.alloc ≡ alloc.now) }
{
    let Cells { mark: _ } = cells;
    let Deed { mark: _ } = deed;
    let mut place = 0;
    while place < written {
        let _dropped = unsafe { base.ptr.add(place).read() };
        place += 1;
    }
    let bytes = len * size_of::<T>();
    if bytes != 0 {
        unsafe {
            alloc.deallocate(base.ptr as *mut u8, bytes, align_of::<T>());
        }
    }
}

impl<T> Cells<T> {
    ghost use Rattle.v_frame_buffer.specs.BlockLends.{LendsItems};

    /// Writes the entry at index `place`, which is the first unwritten one.
    pub(super) fn write_next(&mut self, base: Base<T>, place: usize, entry: T)
        requires { (base.ptr ≡ self.old.at) × (length self.old.items ≡ place) × (0 < self.old.spare) }
        ensures items { (self.new.at ≡ self.old.at) × (self.new.items ≡ self.old.items ++ entry ∷ []) }
        ensures spare { self.new.spare + 1 ≡ self.old.spare }
    {
        unsafe { base.ptr.add(place).write(entry) }
    }

    /// Returns the entries. Their number is `len`.
    pub(super) fn slice(&self, base: Base<T>, len: usize) -> &[T]
        requires { (base.ptr ≡ self.now.at) × (length self.now.items ≡ len) }
        ensures { result.now ≡ self.now.items }
    {
        unsafe { slice::from_raw_parts(base.ptr as *const T, len) }
    }

    /// Returns the entries from index `start` up to, but excluding, index `end` for writing.
    pub(super) fn slice_mut(&mut self, base: Base<T>, start: usize, end: usize) -> &mut [T]
        requires base { base.ptr ≡ self.old.at }
        requires order { start ≤ end }
        requires within { end ≤ length self.old.items }
        ensures* writes_back { sem 𝓛 (LendsItems T.row self.entry start result) }
        ensures value { result.now ≡ slice_range self.old.items start end }
    {
        unsafe { slice::from_raw_parts_mut(base.ptr.add(start), end - start) }
    }
}
