//! Cases that compare two planes block by block, as motion search does.

use v_frame::pixel::Pixel;
use v_frame::plane::{Plane, RowsRef};
use v_frame_ops::rows::{sum_of_absolute_differences, sum_of_squared_errors};

/// The measure by which two blocks are compared.
#[derive(Clone, Copy)]
pub enum Measure {
    Absolute,
    Squared,
}

/// Compares blocks of `size` by `size` pixels of one plane with the first block of the same rows of another plane, as motion
/// search compares one block with many. Returns the sum of the results.
#[inline(never)]
pub fn compare_blocks<T: Pixel>(a: &Plane<T>, b: &Plane<T>, size: usize, measure: Measure) -> u64 {
    if size == 0 {
        return 0;
    }
    let (a, b) = (
        a.as_plane_ref().as_rows_ref(),
        b.as_plane_ref().as_rows_ref(),
    );
    let mut sum = 0u64;
    for row in 0..a.height() / size {
        let y = row.wrapping_mul(size);
        let Some(block) = a.region(0, y, size, size) else {
            continue;
        };
        for column in 0..b.width() / size {
            if let Some(other) = b.region(column.wrapping_mul(size), y, size, size) {
                sum = sum.wrapping_add(compared(&block, &other, measure));
            }
        }
    }
    sum
}

/// Returns the difference of two blocks. The function is inlined, because a call takes longer than the work on an 8 by 8 block.
#[inline(always)]
fn compared<T: Pixel>(block: &RowsRef<'_, T>, other: &RowsRef<'_, T>, measure: Measure) -> u64 {
    if block.width() != other.width() || block.height() != other.height() {
        return 0;
    }
    let sum = match measure {
        Measure::Absolute => sum_of_absolute_differences(block, other),
        Measure::Squared => sum_of_squared_errors(block, other),
    };
    u64::try_from(sum).unwrap_or(0)
}
