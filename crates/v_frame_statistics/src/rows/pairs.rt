//! Sums over two pictures of the same size.
ghost use Rattle.std.specs.Prelude.{◌≡◌};
ghost use Rattle.v_frame.specs.Prelude.{height_of, row_major, width_of};
ghost use Rattle.v_frame_statistics.specs.PairSums.{ArePairSums};

use crate::row_pairs::sums_of_two_rows;
use v_frame::pixel::Pixel;
use v_frame::plane::RowsRef;

/// The sums over two pictures of the same size from which SSIM, covariance and correlation are computed.
#[derive(Clone, Copy, Debug, PartialEq, Eq)]
pub struct PairSums {
    /// The sum of the values of the first picture.
    pub first: u128,
    /// The sum of the values of the second picture.
    pub second: u128,
    /// The sum of the squared values of the first picture.
    pub first_squares: u128,
    /// The sum of the squared values of the second picture.
    pub second_squares: u128,
    /// The sum of the products of two values at the same position.
    pub products: u128,
}

/// Returns the sums over two pictures of the same size. The sums are exact and never overflow.
pub fn pair_sums<T: Pixel>(a: &RowsRef<'_, T>, b: &RowsRef<'_, T>) -> PairSums
    requires wide { width_of a.now ≡ width_of b.now }
    requires high { height_of a.now ≡ height_of b.now }
    ensures { ArePairSums T.form.value (row_major a.now) (row_major b.now) result }
{
    prove!(a.height() == b.height());
    let (mut first, mut second) = (0, 0);
    let (mut first_squares, mut second_squares, mut products) = (0, 0, 0);
    for y in 0..a.height() {
        let here = sums_of_two_rows(a.visible_row(y), b.visible_row(y));
        first += here.first;
        second += here.second;
        first_squares += here.first_squares;
        second_squares += here.second_squares;
        products += here.products;
    }
    PairSums {
        first,
        second,
        first_squares,
        second_squares,
        products,
    }
}
