//! Rectangles of planes that are written row by row.
ghost use Rattle.std.specs.Prelude.{◌≡◌, ◌≢◌, ℕ, ◌+◌, ◌<◌, ◌≤◌, ◌⊎◌, List, Some, drop, length, reverse, slice_get, take};
ghost use Rattle.v_frame.specs.Prelude.{KeepsBorder, table_of, with_item_by};
ghost use Rattle.example_callers.specs.Rectangles.{with_pixels};

use v_frame::plane::Plane;

/// Writes `pixels` into each row of a rectangle, which begins at column `x` of row `y` and has `height` rows.
pub fn fill_rectangle<T: Copy>(
    plane: &mut Plane<T>,
    x: usize,
    y: usize,
    pixels: &[T],
    height: usize,
)
    requires wide { x + length pixels.now ≤ plane.old.geometry.width }
    requires high { y + height ≤ plane.old.geometry.height }
    ensures inside { (k : ℕ) (row : List T) → y ≤ k → k < y + height
        → slice_get (table_of plane.old) k ≡ Some row
        → slice_get (table_of plane.new) k ≡ Some (with_pixels row x pixels.now) }
    ensures outside { (k : ℕ) → (k < y) ⊎ (y + height ≤ k)
        → slice_get (table_of plane.new) k ≡ slice_get (table_of plane.old) k }
    ensures border { KeepsBorder plane.old plane.new }
{
    // A height that was read fits into its type, and so does the sum that it limits.
    let _rows = plane.height();
    for row in y..y + height {
        put_in_row(plane, x, row, pixels);
    }
}

/// Copies a rectangle of `width` by `height` pixels from `source` to `plane`. The rectangle begins at column `from_x` of row
/// `from_y` in `source`, and at column `x` of row `y` in `plane`.
pub fn blit<T: Copy>(
    plane: &mut Plane<T>,
    x: usize,
    y: usize,
    source: &Plane<T>,
    from_x: usize,
    from_y: usize,
    width: usize,
    height: usize,
)
    requires wide { x + width ≤ plane.old.geometry.width }
    requires high { y + height ≤ plane.old.geometry.height }
    requires source_wide { from_x + width ≤ source.now.geometry.width }
    requires source_high { from_y + height ≤ source.now.geometry.height }
    ensures inside { (k : ℕ) (row pixels : List T) → k < height
        → slice_get (table_of plane.old) (y + k) ≡ Some row
        → slice_get (table_of source.now) (from_y + k) ≡ Some pixels
        → slice_get (table_of plane.new) (y + k)
        ≡ Some (with_pixels row x (take width (drop from_x pixels))) }
    ensures outside { (k : ℕ) → (k < y) ⊎ (y + height ≤ k)
        → slice_get (table_of plane.new) k ≡ slice_get (table_of plane.old) k }
    ensures border { KeepsBorder plane.old plane.new }
{
    // Heights that were read fit into their type, and so do the sums that they limit.
    let _rows = (plane.height(), source.height());
    for k in 0..height {
        let pixels = part_of_row(source, from_y + k, from_x, width);
        put_in_row(plane, x, y + k, pixels);
    }
}

/// Returns `count` pixels of row `y`, from column `x` on.
fn part_of_row<T>(plane: &Plane<T>, y: usize, x: usize, count: usize) -> &[T]
    requires high { y < plane.now.geometry.height }
    requires wide { x + count ≤ plane.now.geometry.width }
    ensures part { (row : List T) → slice_get (table_of plane.now) y ≡ Some row
        → result.now ≡ take count (drop x row) }
    ensures count { length result.now ≡ count }
{
    &plane.visible_row(y)[x..x + count]
}

/// Writes pixels into row `y` of a plane, from column `x` on.
fn put_in_row<T: Copy>(plane: &mut Plane<T>, x: usize, y: usize, pixels: &[T])
    requires wide { x + length pixels.now ≤ plane.old.geometry.width }
    requires high { y < plane.old.geometry.height }
    ensures row { (row : List T) → slice_get (table_of plane.old) y ≡ Some row
        → slice_get (table_of plane.new) y ≡ Some (with_pixels row x pixels.now) }
    ensures others { (k : ℕ) → k ≢ y
        → slice_get (table_of plane.new) k ≡ slice_get (table_of plane.old) k }
    ensures border { KeepsBorder plane.old plane.new }
{
    put_pixels(plane.visible_row_mut(y), x, pixels);
}

/// Writes pixels into a row, from column `x` on.
fn put_pixels<T: Copy>(row: &mut [T], x: usize, pixels: &[T])
    requires { x + length pixels.now ≤ length row.old }
    ensures { row.new ≡ with_pixels row.old x pixels.now }
{
    row[x..x + pixels.len()].copy_from_slice(pixels);
}

/// Mirrors a row: its last pixel becomes its first.
pub fn mirror_row<T>(plane: &mut Plane<T>, y: usize)
    requires { y < plane.old.geometry.height }
    ensures table { let rows = table_of plane.old in
        table_of plane.new ≡ with_item_by reverse rows y (slice_get rows y) }
    ensures border { KeepsBorder plane.old plane.new }
{
    plane.visible_row_mut(y).reverse();
}
