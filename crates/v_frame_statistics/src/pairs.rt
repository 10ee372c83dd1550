//! Sums over two planes of the same size.
ghost use Rattle.std.specs.Prelude.{◌≡◌};
ghost use Rattle.v_frame.specs.Prelude.{row_major, table_of};
ghost use Rattle.v_frame_statistics.specs.PairSums.{ArePairSums};

use crate::rows;
use crate::rows::PairSums;
use v_frame::pixel::Pixel;
use v_frame::plane::PlaneRef;

/// Returns the sums over the visible pixels of two planes of the same size from which SSIM, covariance and correlation are
/// computed. For the sums over a block, pass a [`region`](PlaneRef::region) of each plane.
pub fn pair_sums<T: Pixel>(a: &PlaneRef<'_, T>, b: &PlaneRef<'_, T>) -> PairSums
    requires wide { a.now.geometry.width ≡ b.now.geometry.width }
    requires high { a.now.geometry.height ≡ b.now.geometry.height }
    ensures { ArePairSums T.form.value (row_major (table_of a.now)) (row_major (table_of b.now))
        result }
{
    rows::pair_sums(&a.as_rows_ref(), &b.as_rows_ref())
}
