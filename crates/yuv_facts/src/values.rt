//! The number of times that each value occurs in a plane over all frames of a stream.
ghost use Rattle.std.specs.Prelude.{◌^◌, OnOk};
ghost use Rattle.v_frame.specs.Prelude.{table_of};
ghost use Rattle.yuv_facts.specs.Values.{AddsTable, CountsTable};

use crate::value_counts::ValueCounts;
use std::alloc::{AllocError, Global};
use v_frame::pixel::Pixel;
use v_frame::plane::PlaneRef;
use v_frame_statistics::{histogram, histogram_of_depth};

/// A type of samples whose values can be counted.
pub(crate) trait CountedPixel: Pixel {
    /// Adds the number of times that each value occurs among the visible pixels of a plane.
    ///
    /// # Errors
    ///
    /// [`AllocError`] if there is not enough memory.
    fn add_counts(
        alloc: Global,
        plane: &PlaneRef<'_, Self>,
        counts: &mut ValueCounts,
    ) -> Result<(), AllocError>
        ensures { OnOk result (CountsTable Self.form (256 ^ Self.BYTES) (table_of plane.now)
            counts.old.counts.items counts.new.counts.items) };
}

impl CountedPixel for u8 {
    fn add_counts(
        _alloc: Global,
        plane: &PlaneRef<'_, u8>,
        counts: &mut ValueCounts,
    ) -> Result<(), AllocError> {
        let table = histogram(plane);
        counts.add(&table);
        Ok(())
    }
}

impl CountedPixel for u16 {
    fn add_counts(
        alloc: Global,
        plane: &PlaneRef<'_, u16>,
        counts: &mut ValueCounts,
    ) -> Result<(), AllocError> {
        // All 16 bits are counted, including values above the bit depth of the stream.
        let table = histogram_of_depth(alloc, plane, 16)?;
        counts.add(table.as_slice());
        Ok(())
    }
}

/// Adds the counts in `table`, which has those of the values from 0 on. Each count is limited to `u64::MAX`.
pub(crate) fn add_counts(counts: &mut [u64], table: &[u64])
    ensures { AddsTable table.now counts.old counts.new }
{
    let shared = counts.len().min(table.len());
    for value in 0..shared {
        counts[value] = counts[value].saturating_add(table[value]);
    }
}
