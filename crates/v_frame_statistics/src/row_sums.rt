//! Sums over rows, in blocks whose sums fit narrow integers, so that the compiler vectorizes the loops.
ghost use Rattle.std.specs.Prelude.{◌≡◌, ◌+◌, ◌*◌, ◌/◌, ◌%◌, ◌<◌, ◌≤◌, ◌↔◌, All, IsTrue, length};
ghost use Rattle.v_frame_statistics.specs.RowSums.{AreValueSums, ValueSumsAtMost};
ghost use Rattle.v_frame_statistics.specs.Sums.{sum_of_values};

use v_frame::pixel::Pixel;

/// The sum of some values and the sum of their squares.
#[derive(Clone, Copy)]
pub(crate) struct ValueSums {
    pub(crate) values: u128,
    pub(crate) squares: u128,
}

/// Returns the sum of the values of a row.
pub(crate) fn values_of_row<T: Pixel>(row: &[T]) -> u128
    ensures value { result ≡ sum_of_values T.form.value row.now }
    ensures bound { result ≤ 65536 * length row.now }
{
    let mut sum: u128 = 0;
    let blocks = row.len() / 4096;
    for block in 0..blocks {
        let start = 4096 * block;
        sum += u128::from(values_of_block(&row[start..start + 4096]));
    }
    sum + u128::from(values_of_block(&row[4096 * blocks..]))
}

/// Returns the sum of the values of a row and the sum of their squares.
pub(crate) fn sums_of_row<T: Pixel>(row: &[T]) -> ValueSums
    ensures value { AreValueSums T.form.value row.now result }
    ensures bound { ValueSumsAtMost (length row.now) result }
{
    let (mut values, mut squares) = (0, 0);
    let blocks = row.len() / 4096;
    for block in 0..blocks {
        let start = 4096 * block;
        let here = sums_of_block(&row[start..start + 4096]);
        values += here.values;
        squares += here.squares;
    }
    let rest = sums_of_block(&row[4096 * blocks..]);
    ValueSums {
        values: values + rest.values,
        squares: squares + rest.squares,
    }
}

/// Returns the sum of the values of a block.
fn values_of_block<T: Pixel>(block: &[T]) -> u32
    requires { length block.now ≤ 4096 }
    ensures value { result ≡ sum_of_values T.form.value block.now }
    ensures bound { result ≤ 65536 * length block.now }
{
    let mut sum: u32 = 0;
    for x in 0..block.len() {
        sum += u32::from(block[x].into_u16());
    }
    sum
}

/// Returns the sum of the values of a block and the sum of their squares. The low and the high halves of the squares are summed
/// separately, so that 32 bits suffice for each sum.
fn sums_of_block<T: Pixel>(block: &[T]) -> ValueSums
    requires { length block.now ≤ 4096 }
    ensures value { AreValueSums T.form.value block.now result }
    ensures bound { ValueSumsAtMost (length block.now) result }
{
    let (mut values, mut low, mut high): (u32, u32, u32) = (0, 0, 0);
    for x in 0..block.len() {
        let pixel = block[x];
        let square = product_of(pixel, pixel);
        values += u32::from(pixel.into_u16());
        low += low_half(square);
        high += high_half(square);
    }
    ValueSums {
        values: u128::from(values),
        squares: joined_halves(low, high),
    }
}

/// Returns the low 16 bits.
#[inline(always)]
pub(crate) fn low_half(product: u32) -> u32
    ensures { result ≡ product % 65536 }
{
    product & 65535
}

/// Returns the high 16 bits.
#[inline(always)]
pub(crate) fn high_half(product: u32) -> u32
    ensures { result ≡ product / 65536 }
{
    product >> 16
}

/// Returns the sum of products from the sums of their low and high halves.
#[inline(always)]
pub(crate) fn joined_halves(low: u32, high: u32) -> u128
    ensures { result ≡ low + 65536 * high }
{
    u128::from(low) + (u128::from(high) << 16)
}

/// Returns whether all values of a block are below 1024, as values of up to 10 bits are. Sums of 4096 products of such values
/// fit 32 bits. For bytes the compiler knows the result. For most blocks with larger values, the test ends after the first 64
/// pixels.
pub(crate) fn are_small<T: Pixel>(block: &[T]) -> bool
    ensures { IsTrue result ↔ All (λ p. T.form.value p < 1024) block.now }
{
    let (first, rest) = block.split_at(block.len().min(64));
    have_small_values(first) && have_small_values(rest)
}

/// Returns whether all values are below 1024.
fn have_small_values<T: Pixel>(block: &[T]) -> bool
    ensures { IsTrue result ↔ All (λ p. T.form.value p < 1024) block.now }
{
    let mut greatest = 0;
    for x in 0..block.len() {
        greatest = greatest.max(block[x].into_u16());
    }
    greatest < 1024
}

/// Returns the product of two small values.
#[inline(always)]
pub(crate) fn product_of_small<T: Pixel>(p: T, q: T) -> u32
    requires first { T.form.value p < 1024 }
    requires second { T.form.value q < 1024 }
    ensures value { result ≡ T.form.value p * T.form.value q }
    ensures bound { result ≤ 1046529 }
{
    product_of(p, q)
}

/// Returns the product of the values of two pixels.
#[inline(always)]
pub(crate) fn product_of<T: Pixel>(p: T, q: T) -> u32
    ensures { result ≡ T.form.value p * T.form.value q }
{
    u32::from(p.into_u16()) * u32::from(q.into_u16())
}
