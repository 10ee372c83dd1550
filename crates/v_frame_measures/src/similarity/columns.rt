//! Sums over columns of four pixels with values below 8192. These sums fit 32 bits, so the compiler vectorizes the loops.
ghost use Rattle.std.specs.Prelude.{◌≡◌, ◌+◌, ◌*◌, ◌≤◌, ◌<◌, ◌^◌, ℕ, [], ◌∷◌, drop, slice_index, take};
ghost use Rattle.v_frame.specs.Prelude.{height_of, width_of};
ghost use Rattle.v_frame_measures.specs.ColumnSums.{AreColumnSums, AreSmall, HasNarrowValues, IsNarrowPart, four_of};

use v_frame::pixel::Pixel;
use v_frame::plane::RowsRef;

/// Sums over 32 adjacent columns of two pictures, each column in the same four rows.
#[derive(Drop)]
pub struct ColumnSums {
    /// The sums of the values of the first picture.
    pub first: [u32; 32],
    /// The sums of the values of the second picture.
    pub second: [u32; 32],
    /// The sums of the squared values of both pictures.
    pub squares: [u32; 32],
    /// The sums of the products of two values at the same position.
    pub products: [u32; 32],
}

impl ColumnSums {
    /// Returns sums that are all zero.
    #[inline(always)]
    pub(crate) fn none() -> Self {
        ColumnSums {
            first: [0; 32],
            second: [0; 32],
            squares: [0; 32],
            products: [0; 32],
        }
    }

    /// Sets all entries to the sums over the columns from column `x` on, in the four rows from row `y` on.
    #[inline(always)]
    pub(crate) fn sum_rows<T: Pixel>(
        &mut self,
        a: &RowsRef<'_, T>,
        b: &RowsRef<'_, T>,
        x: usize,
        y: usize,
    )
        requires wide { width_of a.now ≡ width_of b.now }
        requires high { height_of a.now ≡ height_of b.now }
        requires across { x + 32 ≤ width_of a.now }
        requires down { y + 4 ≤ height_of a.now }
        requires first { HasNarrowValues T.form.value a.now }
        requires second { HasNarrowValues T.form.value b.now }
        ensures value { AreColumnSums T.form.value x (take 4 (drop y a.now)) (take 4 (drop y b.now)) self.new }
        ensures small { AreSmall self.new }
    {
        // This call is needed only for its contract, which the proof uses.
        let _height = a.height();
        let (p0, p1) = (a.visible_row(y), a.visible_row(y + 1));
        let (p2, p3) = (a.visible_row(y + 2), a.visible_row(y + 3));
        let (q0, q1) = (b.visible_row(y), b.visible_row(y + 1));
        let (q2, q3) = (b.visible_row(y + 2), b.visible_row(y + 3));
        self.sum_parts(
            &p0[x..x + 32],
            &p1[x..x + 32],
            &p2[x..x + 32],
            &p3[x..x + 32],
            &q0[x..x + 32],
            &q1[x..x + 32],
            &q2[x..x + 32],
            &q3[x..x + 32],
        );
    }

    /// Sets all entries to the sums over the columns of four rows of each picture: `p0` to `p3` of the first and `q0` to `q3`
    /// of the second.
    #[inline(always)]
    fn sum_parts<T: Pixel>(
        &mut self,
        p0: &[T],
        p1: &[T],
        p2: &[T],
        p3: &[T],
        q0: &[T],
        q1: &[T],
        q2: &[T],
        q3: &[T],
    )
        requires p0 { IsNarrowPart T.form.value p0.now }
        requires p1 { IsNarrowPart T.form.value p1.now }
        requires p2 { IsNarrowPart T.form.value p2.now }
        requires p3 { IsNarrowPart T.form.value p3.now }
        requires q0 { IsNarrowPart T.form.value q0.now }
        requires q1 { IsNarrowPart T.form.value q1.now }
        requires q2 { IsNarrowPart T.form.value q2.now }
        requires q3 { IsNarrowPart T.form.value q3.now }
        ensures value { AreColumnSums T.form.value 0 (p0.now ∷ p1.now ∷ p2.now ∷ p3.now ∷ [])
            (q0.now ∷ q1.now ∷ q2.now ∷ q3.now ∷ []) self.new }
        ensures small { AreSmall self.new }
    {
        for i in 0..32 {
            let (a, b, c, d) = (p0[i], p1[i], p2[i], p3[i]);
            let (e, f, g, h) = (q0[i], q1[i], q2[i], q3[i]);
            self.first[i] = sum_of_values(a, b, c, d);
            self.second[i] = sum_of_values(e, f, g, h);
            self.squares[i] = sum_of_four(
                squares_of(a, e),
                squares_of(b, f),
                squares_of(c, g),
                squares_of(d, h),
            );
            self.products[i] = sum_of_four(
                product_of(a, e),
                product_of(b, f),
                product_of(c, g),
                product_of(d, h),
            );
        }
    }
}

/// Sets the eight entries of `sums` from index `k` on to sums of four adjacent entries of `numbers`.
#[inline(always)]
pub(crate) fn put_sums_of_fours(sums: &mut [u32; 128], k: usize, numbers: &[u32; 32])
    requires inside { k + 8 ≤ 128 }
    requires small { (i : ℕ) → i < 32 → slice_index numbers.now i < 2 ^ 30 }
    ensures made { (j : ℕ) → j < 8 → slice_index sums.new (k + j) ≡ four_of numbers.now (4 * j) }
    ensures kept { (j : ℕ) → j < k → slice_index sums.new j ≡ slice_index sums.old j }
{
    for j in 0..8 {
        let i = 4 * j;
        sums[k + j] = numbers[i] + numbers[i + 1] + numbers[i + 2] + numbers[i + 3];
    }
}

/// Returns the sum of the values of four pixels.
#[inline(always)]
fn sum_of_values<T: Pixel>(a: T, b: T, c: T, d: T) -> u32
    requires a { T.form.value a < 8192 }
    requires b { T.form.value b < 8192 }
    requires c { T.form.value c < 8192 }
    requires d { T.form.value d < 8192 }
    ensures value { result ≡ T.form.value a + T.form.value b + T.form.value c + T.form.value d }
    ensures bound { result ≤ 65536 }
{
    sum_of_four(
        narrow_value(a),
        narrow_value(b),
        narrow_value(c),
        narrow_value(d),
    )
}

/// Returns the sum of four numbers.
#[inline(always)]
fn sum_of_four(a: u32, b: u32, c: u32, d: u32) -> u32
    requires { a + b + c + d < 2 ^ 32 }
    ensures { result ≡ a + b + c + d }
{
    a + b + c + d
}

/// Returns the sum of the squared values of two pixels.
#[inline(always)]
fn squares_of<T: Pixel>(p: T, q: T) -> u32
    requires first { T.form.value p < 8192 }
    requires second { T.form.value q < 8192 }
    ensures value { result ≡ T.form.value p * T.form.value p + T.form.value q * T.form.value q }
    ensures bound { result ≤ 134184962 }
{
    product_of(p, p) + product_of(q, q)
}

/// Returns the product of the values of two pixels.
#[inline(always)]
fn product_of<T: Pixel>(p: T, q: T) -> u32
    requires first { T.form.value p < 8192 }
    requires second { T.form.value q < 8192 }
    ensures value { result ≡ T.form.value p * T.form.value q }
    ensures bound { result ≤ 67092481 }
{
    narrow_value(p) * narrow_value(q)
}

/// Returns the value of a pixel, which is below 8192. The mask shows this limit to the compiler.
#[inline(always)]
fn narrow_value<T: Pixel>(pixel: T) -> u32
    requires { T.form.value pixel < 8192 }
    ensures value { result ≡ T.form.value pixel }
    ensures bound { result < 8192 }
{
    u32::from(pixel.into_u16() & 8191)
}
