//! The minimum and the maximum of the pixels of a picture.
ghost use Rattle.std.specs.Prelude.{◌≡◌, ◌<◌, ◌≤◌, ◌⊎◌, length};
ghost use Rattle.v_frame.specs.Prelude.{row_major};
ghost use Rattle.v_frame_statistics.specs.Extremes.{IsGreatest, IsLeast};

use v_frame::pixel::Pixel;
use v_frame::plane::RowsRef;

/// The pixels with the smallest and the largest value.
#[derive(Clone, Copy)]
pub(crate) struct Extremes<T> {
    pub(crate) least: T,
    pub(crate) greatest: T,
}

/// Returns the pixel with the smallest value.
pub fn minimum<T: Pixel>(rows: &RowsRef<'_, T>) -> T
    ensures { IsLeast T.form.value (row_major rows.now) result }
{
    let _positive = rows.width();
    let mut least = least_of_row(rows.visible_row(0));
    for y in 1..rows.height() {
        least = lesser(least, least_of_row(rows.visible_row(y)));
    }
    least
}

/// Returns the pixel with the largest value.
pub fn maximum<T: Pixel>(rows: &RowsRef<'_, T>) -> T
    ensures { IsGreatest T.form.value (row_major rows.now) result }
{
    let _positive = rows.width();
    let mut greatest = greatest_of_row(rows.visible_row(0));
    for y in 1..rows.height() {
        greatest = greater(greatest, greatest_of_row(rows.visible_row(y)));
    }
    greatest
}

/// Returns the pixel with the smallest value in a row.
fn least_of_row<T: Pixel>(row: &[T]) -> T
    requires { 0 < length row.now }
    ensures { IsLeast T.form.value row.now result }
{
    let mut least = row[0];
    for x in 1..row.len() {
        let pixel = row[x];
        if pixel.into_u16() < least.into_u16() {
            least = pixel;
        }
    }
    least
}

/// Returns the pixel with the largest value in a row.
fn greatest_of_row<T: Pixel>(row: &[T]) -> T
    requires { 0 < length row.now }
    ensures { IsGreatest T.form.value row.now result }
{
    let mut greatest = row[0];
    for x in 1..row.len() {
        let pixel = row[x];
        if greatest.into_u16() < pixel.into_u16() {
            greatest = pixel;
        }
    }
    greatest
}

/// Returns the pixels with the smallest and the largest value in a row.
pub(crate) fn extremes_of_row<T: Pixel>(row: &[T]) -> Extremes<T>
    requires { 0 < length row.now }
    ensures least { IsLeast T.form.value row.now result.least }
    ensures greatest { IsGreatest T.form.value row.now result.greatest }
{
    let (mut least, mut greatest) = (row[0], row[0]);
    for x in 0..row.len() {
        let pixel = row[x];
        least = lesser(least, pixel);
        greatest = greater(greatest, pixel);
    }
    Extremes { least, greatest }
}

/// Returns the pixel with the smaller value, or the first one if the values are equal.
#[inline(always)]
pub(crate) fn lesser<T: Pixel>(first: T, second: T) -> T
    ensures { ((result ≡ first) × (T.form.value first ≤ T.form.value second))
        ⊎ ((result ≡ second) × (T.form.value second ≤ T.form.value first)) }
{
    if second.into_u16() < first.into_u16() {
        second
    } else {
        first
    }
}

/// Returns the pixel with the larger value, or the first one if the values are equal.
#[inline(always)]
pub(crate) fn greater<T: Pixel>(first: T, second: T) -> T
    ensures { ((result ≡ first) × (T.form.value second ≤ T.form.value first))
        ⊎ ((result ≡ second) × (T.form.value first ≤ T.form.value second)) }
{
    if first.into_u16() < second.into_u16() {
        second
    } else {
        first
    }
}
