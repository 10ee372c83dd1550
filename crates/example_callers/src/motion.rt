//! Building blocks of motion search: the cost of a block, comparisons of planes, and the picture at half the size.
ghost use Rattle.std.specs.Prelude.{◌≡◌, ◌*◌, ◌+◌, ◌≤◌, ◌↔◌, ℕ, List, IsTrue, Some, SomeIff, slice_get, unsigned_abs};
ghost use Rattle.v_frame.specs.Prelude.{absolute_differences, halved, rectangle, row_major, squared_errors, table_of};
ghost use Rattle.v_frame.specs.Prelude.{buffer_column, buffer_row, whole_rows, IsInBuffer, IsInside};
ghost use Rattle.v_frame_ops.specs.Prelude.{IsPadded};

use v_frame::pixel::Pixel;
use v_frame::plane::{Plane, PlaneRef};
use v_frame_ops::{
    downscale, first_difference, pad, sum_of_absolute_differences, sum_of_squared_errors,
};

/// Returns the sum of the absolute differences between a block and the visible pixels of `plane` from column `x` of row `y` on.
/// Returns `None` if the block does not fit there.
pub fn cost_of_block<T: Pixel>(
    plane: &PlaneRef<'_, T>,
    block: &PlaneRef<'_, T>,
    x: usize,
    y: usize,
) -> Option<u128>
    ensures { let size = block.now.geometry in SomeIff result
        (IsInside plane.now.geometry x y size.width size.height)
        (absolute_differences T.form.value
        (row_major (rectangle x y size.width size.height (table_of plane.now)))
        (row_major (table_of block.now))) }
{
    let region = plane.region(x, y, block.width(), block.height())?;
    Some(sum_of_absolute_differences(&region, block))
}

/// Returns the sum of the absolute differences between a block and the pixels at which a motion vector points, from column `x`
/// of row `y` on. These may lie in the border. Returns `None` if one of them lies outside the buffer.
pub fn cost_of_vector<T: Pixel>(
    plane: &PlaneRef<'_, T>,
    block: &PlaneRef<'_, T>,
    x: isize,
    y: isize,
) -> Option<u128>
    ensures { let size = block.now.geometry in let all = plane.now.geometry in SomeIff result
        (IsInBuffer all x y size.width size.height)
        (absolute_differences T.form.value
        (row_major (rectangle (unsigned_abs (buffer_column all x)) (unsigned_abs (buffer_row all y))
        size.width size.height (whole_rows plane.now)))
        (row_major (table_of block.now))) }
{
    let region = plane.region_with_border(x, y, block.width(), block.height())?;
    Some(sum_of_absolute_differences(&region, block))
}

/// Returns whether the sum of the squared errors of two planes of the same size is at most `most`.
pub fn is_close<T: Pixel>(a: &PlaneRef<'_, T>, b: &PlaneRef<'_, T>, most: u128) -> bool
    requires wide { a.now.geometry.width ≡ b.now.geometry.width }
    requires high { a.now.geometry.height ≡ b.now.geometry.height }
    ensures { IsTrue result ↔ (squared_errors T.form.value (row_major (table_of a.now))
        (row_major (table_of b.now)) ≤ most) }
{
    sum_of_squared_errors(a, b) <= most
}

/// Returns whether two planes of the same size show equal pixels.
pub fn show_the_same<T: Pixel>(a: &PlaneRef<'_, T>, b: &PlaneRef<'_, T>) -> bool
    requires wide { a.now.geometry.width ≡ b.now.geometry.width }
    requires high { a.now.geometry.height ≡ b.now.geometry.height }
    ensures { IsTrue result ↔ (table_of a.now ≡ table_of b.now) }
{
    first_difference(a, b).is_none()
}

/// Writes `source` at half the width and height into `target`, and repeats the edge pixels of `target` into its border.
pub fn next_level<T: Pixel>(source: &PlaneRef<'_, T>, target: &mut Plane<T>)
    requires wide { source.now.geometry.width ≡ 2 * target.old.geometry.width }
    requires high { source.now.geometry.height ≡ 2 * target.old.geometry.height }
    ensures rows { (y : ℕ) (top bottom : List T) → slice_get (table_of source.now) (2 * y) ≡ Some top
        → slice_get (table_of source.now) (2 * y + 1) ≡ Some bottom
        → slice_get (table_of target.new) y ≡ Some (halved T.form top bottom) }
    ensures padded { IsPadded target.new }
{
    downscale(source, target);
    pad(target);
}
