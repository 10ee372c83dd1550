//! Histograms of planes.
ghost use Rattle.std.specs.Prelude.{◌≡◌, ◌^◌, ◌≤◌, IfOk, vec_len};
ghost use Rattle.v_frame.specs.Prelude.{row_major, table_of};
ghost use Rattle.v_frame_statistics.specs.Histogram.{Counts};

use crate::rows;
use std::alloc::{AllocError, Global};
use v_frame::plane::PlaneRef;

/// Returns the histogram of the visible pixels of an 8-bit plane: entry `v` is the number of pixels with value `v`.
pub fn histogram(plane: &PlaneRef<'_, u8>) -> [u64; 256]
    ensures { Counts 256 (row_major (table_of plane.now)) result }
{
    rows::histogram(&plane.as_rows_ref())
}

/// Returns the histogram of the visible pixels for a bit depth. It has `2^bit_depth` entries, and entry `v` is the number of
/// pixels with value `v`. A pixel with a value of `2^bit_depth` or more is not counted.
///
/// # Errors
///
/// Returns [`AllocError`] if the memory for the histogram cannot be allocated.
pub fn histogram_of_depth(
    alloc: Global,
    plane: &PlaneRef<'_, u16>,
    bit_depth: u8,
) -> Result<Vec<u64>, AllocError>
    requires { bit_depth ≤ 16 }
    ensures entries { IfOk result (λ table. vec_len table ≡ 2 ^ bit_depth) }
    ensures counts { IfOk result (λ table.
        Counts (2 ^ bit_depth) (row_major (table_of plane.now)) table.items) }
{
    rows::histogram_of_depth(alloc, &plane.as_rows_ref(), bit_depth)
}
