//! One row of another width, computed from two source rows.
ghost use Rattle.std.specs.Prelude.{◌≡◌, ◌+◌, ◌*◌, ◌/◌, ◌^◌, ◌<◌, ◌≤◌, ℕ, [], ◌∷◌, ◌++◌, Some, length, slice_get};
ghost use Rattle.v_frame_convert.specs.Depth.{at_depth};
ghost use Rattle.v_frame_convert.specs.Scale.{mean_of, nearest_value, values_at, SizesFit};
ghost use Rattle.v_frame_convert.specs.ScaledRows.{mean_in_two_rows, HoldsMeans};
ghost use Rattle.v_frame_convert.specs.declared.scale.Scale.TheVariants.{Quarter, Half, Same, Double, Quadruple};

use crate::depth_change::DepthChange;
use crate::scale::Scale;
use v_frame::pixel::Pixel;

/// Returns the value of the pixel at column `x`.
#[inline(always)]
fn value_at<S: Pixel>(row: &[S], x: usize) -> u32
    requires { x < length row.now }
    ensures value { result ≡ nearest_value S.form row.now x }
    ensures fits { result < 65536 }
{
    u32::from(row[x].into_u16())
}

/// Returns the value of the pixel at column `x + after`, or of the last pixel if the row ends before that column.
fn value_near<S: Pixel>(row: &[S], x: usize, after: usize) -> u32
    requires { x < length row.now }
    ensures value { result ≡ nearest_value S.form row.now (x + after) }
    ensures fits { result < 65536 }
{
    let left = row.len() - 1 - x;
    value_at(row, x + after.min(left))
}

/// Returns the pixel of `value` at the other depth.
#[inline(always)]
fn changed<T: Pixel>(value: u32, change: &DepthChange) -> T
    requires value { value < 65536 }
    requires depth { 2 ^ change.now.to ≤ 256 ^ T.BYTES }
    ensures { result ≡ T.form.pixel_of (at_depth change.now.from change.now.to value) }
{
    T::from_value(change.apply(value as u16))
}

/// Returns the mean of the pixels at column `x` of two rows, at the other depth.
#[inline(always)]
fn mean_at<S: Pixel, T: Pixel>(top: &[S], bottom: &[S], x: usize, change: &DepthChange) -> T
    requires top { x < length top.now }
    requires bottom { x < length bottom.now }
    requires depth { 2 ^ change.now.to ≤ 256 ^ T.BYTES }
    ensures { result ≡ T.form.pixel_of (at_depth change.now.from change.now.to
        (mean_of (values_at S.form (x ∷ []) top.now ++ values_at S.form (x ∷ []) bottom.now))) }
{
    changed((value_at(top, x) + value_at(bottom, x) + 1) / 2, change)
}

/// Returns the mean of four columns of two rows, from column `x` on, at the other depth.
#[inline(always)]
fn mean_of_four<S: Pixel, T: Pixel>(top: &[S], bottom: &[S], x: usize, change: &DepthChange) -> T
    requires top { x + 3 < length top.now }
    requires bottom { x + 3 < length bottom.now }
    requires depth { 2 ^ change.now.to ≤ 256 ^ T.BYTES }
    ensures { let columns = x ∷ (x + 1) ∷ (x + 2) ∷ (x + 3) ∷ [] in
        result ≡ T.form.pixel_of (at_depth change.now.from change.now.to
        (mean_of (values_at S.form columns top.now ++ values_at S.form columns bottom.now))) }
{
    changed((four_at(top, x) + four_at(bottom, x) + 4) / 8, change)
}

/// Returns the mean of four columns of two rows, from column `x` on, at the other depth. Columns past the end of the rows count
/// as the last column.
fn mean_of_last_four<S: Pixel, T: Pixel>(
    top: &[S],
    bottom: &[S],
    x: usize,
    change: &DepthChange,
) -> T
    requires top { x < length top.now }
    requires bottom { x < length bottom.now }
    requires depth { 2 ^ change.now.to ≤ 256 ^ T.BYTES }
    ensures { let columns = x ∷ (x + 1) ∷ (x + 2) ∷ (x + 3) ∷ [] in
        result ≡ T.form.pixel_of (at_depth change.now.from change.now.to
        (mean_of (values_at S.form columns top.now ++ values_at S.form columns bottom.now))) }
{
    changed((four_near(top, x) + four_near(bottom, x) + 4) / 8, change)
}

/// Writes the mean of each column of two rows.
fn mean_row<S: Pixel, T: Pixel>(top: &[S], bottom: &[S], row: &mut [T], change: &DepthChange)
    requires top { SizesFit Same (length top.now) (length row.old) }
    requires bottom { length bottom.now ≡ length top.now }
    requires depth { 2 ^ change.now.to ≤ 256 ^ T.BYTES }
    ensures { HoldsMeans S.form T.form change.now.from change.now.to Same top.now bottom.now
        (length row.new) row.new }
{
    for x in 0..row.len() {
        row[x] = mean_at(top, bottom, x, change);
    }
}

/// Writes the mean of each pair of columns of two rows.
fn half_row<S: Pixel, T: Pixel>(top: &[S], bottom: &[S], row: &mut [T], change: &DepthChange)
    requires top { SizesFit Half (length top.now) (length row.old) }
    requires bottom { length bottom.now ≡ length top.now }
    requires depth { 2 ^ change.now.to ≤ 256 ^ T.BYTES }
    ensures { HoldsMeans S.form T.form change.now.from change.now.to Half top.now bottom.now
        (length row.new) row.new }
{
    let pairs = top.len() / 2;
    for x in 0..pairs {
        let upper = value_at(top, 2 * x) + value_at(top, 2 * x + 1);
        let lower = value_at(bottom, 2 * x) + value_at(bottom, 2 * x + 1);
        row[x] = changed((upper + lower + 2) / 4, change);
    }
    // The last column of an odd width has no second pixel.
    for x in pairs..row.len() {
        let upper = value_at(top, 2 * x) + value_near(top, 2 * x, 1);
        let lower = value_at(bottom, 2 * x) + value_near(bottom, 2 * x, 1);
        row[x] = changed((upper + lower + 2) / 4, change);
    }
}

/// Writes the mean of each group of four columns of two rows.
fn quarter_row<S: Pixel, T: Pixel>(top: &[S], bottom: &[S], row: &mut [T], change: &DepthChange)
    requires top { SizesFit Quarter (length top.now) (length row.old) }
    requires bottom { length bottom.now ≡ length top.now }
    requires depth { 2 ^ change.now.to ≤ 256 ^ T.BYTES }
    ensures { HoldsMeans S.form T.form change.now.from change.now.to Quarter top.now bottom.now
        (length row.new) row.new }
{
    let groups = top.len() / 4;
    for x in 0..groups {
        row[x] = mean_of_four(top, bottom, 4 * x, change);
    }
    // The last columns of a width that is not divisible by four.
    for x in groups..row.len() {
        row[x] = mean_of_last_four(top, bottom, 4 * x, change);
    }
}

/// Returns the sum of the values of four columns, from column `x` on.
#[inline(always)]
fn four_at<S: Pixel>(row: &[S], x: usize) -> u32
    requires { x + 3 < length row.now }
    ensures value { let at = nearest_value S.form row.now in
        result ≡ at x + at (x + 1) + at (x + 2) + at (x + 3) }
    ensures fits { result ≤ 4 * 65535 }
{
    value_at(row, x) + value_at(row, x + 1) + value_at(row, x + 2) + value_at(row, x + 3)
}

/// Returns the sum of the values of four columns, from column `x` on. Columns past the end of the row count as the last column.
fn four_near<S: Pixel>(row: &[S], x: usize) -> u32
    requires { x < length row.now }
    ensures value { let at = nearest_value S.form row.now in
        result ≡ at x + at (x + 1) + at (x + 2) + at (x + 3) }
    ensures fits { result ≤ 4 * 65535 }
{
    value_at(row, x) + value_near(row, x, 1) + value_near(row, x, 2) + value_near(row, x, 3)
}

/// Writes the mean of each column of two rows twice.
fn double_row<S: Pixel, T: Pixel>(top: &[S], bottom: &[S], row: &mut [T], change: &DepthChange)
    requires top { SizesFit Double (length top.now) (length row.old) }
    requires bottom { length bottom.now ≡ length top.now }
    requires depth { 2 ^ change.now.to ≤ 256 ^ T.BYTES }
    ensures { HoldsMeans S.form T.form change.now.from change.now.to Double top.now bottom.now
        (length row.new) row.new }
{
    let pairs = row.len() / 2;
    for i in 0..pairs {
        let pixel = mean_at(top, bottom, i, change);
        row[2 * i] = pixel;
        row[2 * i + 1] = pixel;
    }
    // The last column of an odd width.
    for x in 2 * pairs..row.len() {
        row[x] = mean_at(top, bottom, pairs, change);
    }
}

/// Writes the mean of each column of two rows four times.
fn quadruple_row<S: Pixel, T: Pixel>(top: &[S], bottom: &[S], row: &mut [T], change: &DepthChange)
    requires top { SizesFit Quadruple (length top.now) (length row.old) }
    requires bottom { length bottom.now ≡ length top.now }
    requires depth { 2 ^ change.now.to ≤ 256 ^ T.BYTES }
    ensures { HoldsMeans S.form T.form change.now.from change.now.to Quadruple top.now bottom.now
        (length row.new) row.new }
{
    let groups = row.len() / 4;
    for i in 0..groups {
        let pixel = mean_at(top, bottom, i, change);
        row[4 * i] = pixel;
        row[4 * i + 1] = pixel;
        row[4 * i + 2] = pixel;
        row[4 * i + 3] = pixel;
    }
    // The last columns of a width that is not divisible by four.
    for x in 4 * groups..row.len() {
        row[x] = mean_at(top, bottom, groups, change);
    }
}

/// Writes a row of another width, computed from two source rows.
pub(crate) fn scale_row<S: Pixel, T: Pixel>(
    top: &[S],
    bottom: &[S],
    row: &mut [T],
    across: Scale,
    change: &DepthChange,
)
    requires top { SizesFit across (length top.now) (length row.old) }
    requires bottom { length bottom.now ≡ length top.now }
    requires depth { 2 ^ change.now.to ≤ 256 ^ T.BYTES }
    ensures { HoldsMeans S.form T.form change.now.from change.now.to across top.now bottom.now
        (length row.new) row.new }
{
    match across {
        Scale::Quarter => quarter_row(top, bottom, row, change),
        Scale::Half => half_row(top, bottom, row, change),
        Scale::Same => mean_row(top, bottom, row, change),
        Scale::Double => double_row(top, bottom, row, change),
        Scale::Quadruple => quadruple_row(top, bottom, row, change),
    }
}
