//! A block of memory that is being filled.
ghost use Rattle.std.specs.Prelude.{◌≡◌, ◌+◌, ◌<◌, [], ◌∷◌, ◌++◌, IsOk, IfOk};
ghost use Rattle.v_frame_buffer.specs.Filling.{filled_with};

use super::AlignedData;
use super::block::{Base, Cells, Deed, allocate, deallocate};
use std::alloc::{AllocError, Global};
use std::marker::Model;
use std_alloc::room::may_hold;

/// A block that is being filled from index 0. If it is dropped before it is full, it drops the written entries and frees the
/// memory.
pub(super) struct Filling<T> {
    base: Base<T>,
    written: usize,
    len: usize,
    cells: Cells<T>,
    deed: Deed<T, Global>,
    alloc: Global,
}

impl<T> Model for Filling<T> {
    ghost use Rattle.v_frame_buffer.specs.Filling.{Filled, filled_with, filled_code, IsBlock};

    ghost Value = { Filled T };

    ghost coded = { filled_code T.code };

    ghost view = { λ f. filled_with f.cells.items f.cells.spare };

    ghost invariant = { λ f. IsBlock f.base f.cells f.deed f.alloc f.written f.len };
}

impl<T> Filling<T> {
    /// Returns a block for `len` entries, none of which is written. For `len` 0 this never fails.
    pub(super) fn new(alloc: Global, len: usize) -> Result<Self, AllocError>
        ensures room { IfOk result (λ f. f ≡ filled_with [] len) }
        ensures no_entries { len ≡ 0 → IsOk result }
    {
        if len != 0 && !may_hold::<T>(len) {
            return Err(AllocError);
        }
        let (base, cells, deed) = allocate(&alloc, len)?;
        Ok(Filling {
            base,
            written: 0,
            len,
            cells,
            deed,
            alloc,
        })
    }

    /// Writes the next entry.
    #[inline]
    pub(super) fn push(&mut self, entry: T)
        requires { 0 < self.old.spare }
        ensures items { self.new.items ≡ self.old.items ++ entry ∷ [] }
        ensures spare { self.new.spare + 1 ≡ self.old.spare }
    {
        self.cells.write_next(self.base, self.written, entry);
        self.written += 1;
    }

    /// Returns the buffer, after every entry has been written.
    pub(super) fn finish(self) -> AlignedData<T>
        requires { self.spare ≡ 0 }
        ensures { result ≡ self.items }
    {
        let Filling {
            base,
            written: _,
            len,
            cells,
            deed,
            alloc,
        } = self;
        AlignedData {
            base,
            len,
            cells,
            deed,
            alloc,
        }
    }
}

/// Drops the written entries and frees the memory.
impl<T: Drop> Drop for Filling<T> {
    fn drop(self) {
        let Filling {
            base,
            written,
            len,
            cells,
            deed,
            alloc,
        } = self;
        deallocate(&alloc, base, written, len, cells, deed);
    }
}
