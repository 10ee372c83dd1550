//! Sums over parts of two pictures.
ghost use Rattle.std.specs.Prelude.{◌≡◌, ◌+◌, ◌≤◌, ◌<◌, ◌^◌, ℕ, [], ◌∷◌, length};
ghost use Rattle.v_frame.specs.Prelude.{height_of, rectangle, row_major, width_of};
ghost use Rattle.v_frame_measures.specs.PixelSums.{added, sums_of, sums_of_rectangle, AreSumsOver};

use v_frame::pixel::Pixel;
use v_frame::plane::RowsRef;

/// The sums over a part of two pictures from which SSIM is computed.
#[derive(Clone, Copy)]
pub struct PixelSums {
    /// The sum of the values of the first picture.
    pub first: u64,
    /// The sum of the values of the second picture.
    pub second: u64,
    /// The sum of the squared values of both pictures.
    pub squares: u64,
    /// The sum of the products of two values at the same position.
    pub products: u64,
}

impl PixelSums {
    /// The sums over no pixels.
    const NONE: PixelSums = PixelSums {
        first: 0,
        second: 0,
        squares: 0,
        products: 0,
    };

    /// Returns the sums over both parts together.
    #[inline(always)]
    pub(crate) fn plus(&self, more: &PixelSums) -> Self
        requires first { self.now.first + more.now.first < 2 ^ 64 }
        requires second { self.now.second + more.now.second < 2 ^ 64 }
        requires squares { self.now.squares + more.now.squares < 2 ^ 64 }
        requires products { self.now.products + more.now.products < 2 ^ 64 }
        ensures value { result ≡ added self.now more.now }
        ensures bound { (m n : ℕ) → AreSumsOver m self.now → AreSumsOver n more.now
            → AreSumsOver (m + n) result }
    {
        PixelSums {
            first: self.first + more.first,
            second: self.second + more.second,
            squares: self.squares + more.squares,
            products: self.products + more.products,
        }
    }
}

/// Returns the sums over four columns of eight rows, from column `x` of row `y` on.
#[inline(always)]
pub(crate) fn sums_of_columns<T: Pixel>(
    a: &RowsRef<'_, T>,
    b: &RowsRef<'_, T>,
    x: usize,
    y: usize,
) -> PixelSums
    requires wide { width_of a.now ≡ width_of b.now }
    requires high { height_of a.now ≡ height_of b.now }
    requires across { x + 4 ≤ width_of a.now }
    requires down { y + 8 ≤ height_of a.now }
    ensures value { result ≡ sums_of_rectangle T.form.value x y 4 8 a.now b.now }
    ensures bound { AreSumsOver 32 result }
{
    let _height = a.height();
    let mut sums = PixelSums::NONE;
    for row in 0..8 {
        let (p, q) = (a.visible_row(y + row), b.visible_row(y + row));
        sums = sums.plus(&sums_of_pixels(&p[x..x + 4], &q[x..x + 4]));
    }
    sums
}

/// Returns the sums over four pixels of each picture.
#[inline(always)]
fn sums_of_pixels<T: Pixel>(p: &[T], q: &[T]) -> PixelSums
    requires first { length p.now ≡ 4 }
    requires second { length q.now ≡ 4 }
    ensures value { result ≡ sums_of T.form.value p.now q.now }
    ensures bound { AreSumsOver 4 result }
{
    let mut sums = PixelSums::NONE;
    for i in 0..4 {
        sums = sums.plus(&sums_of_pixel(p[i], q[i]));
    }
    sums
}

/// Returns the sums over one pixel of each picture.
#[inline(always)]
fn sums_of_pixel<T: Pixel>(p: T, q: T) -> PixelSums
    ensures value { result ≡ sums_of T.form.value (p ∷ []) (q ∷ []) }
    ensures bound { AreSumsOver 1 result }
{
    let (a, b) = (u64::from(p.into_u16()), u64::from(q.into_u16()));
    PixelSums {
        first: a,
        second: b,
        squares: a * a + b * b,
        products: a * b,
    }
}
