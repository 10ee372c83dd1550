//! An upper bound for the values of a picture.
ghost use Rattle.std.specs.Prelude.{◌≤◌};
ghost use Rattle.v_frame_measures.specs.ColumnSums.{HasValuesUpTo, IsUpTo};

use v_frame::pixel::Pixel;
use v_frame::plane::RowsRef;

/// Returns the bitwise OR of all values of a picture, which is an upper bound for each value. For bytes the compiler knows that
/// the result is below 256.
pub(crate) fn bits_of_rows<T: Pixel>(picture: &RowsRef<'_, T>) -> u16
    ensures { HasValuesUpTo T.form.value result picture.now }
{
    let mut bits = 0;
    for y in 0..picture.height() {
        bits |= bits_of_row(picture.visible_row(y));
    }
    bits
}

/// Returns the bitwise OR of all values of a row.
fn bits_of_row<T: Pixel>(row: &[T]) -> u16
    ensures { IsUpTo T.form.value result row.now }
{
    let mut bits = 0;
    for x in 0..row.len() {
        bits |= row[x].into_u16();
    }
    bits
}
