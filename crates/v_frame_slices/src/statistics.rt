//! Statistics of pictures, for any type of pixel.
ghost use Rattle.v_frame_slices.specs.Found.{SumsPairs, SumsPixels};

use crate::layout::{Rows, Sum};
use crate::status::{FIRST, OK, SECOND, SIZES};
use v_frame::pixel::Pixel;
use v_frame_statistics::rows as statistics;

/// The number of pixels of a picture, the sums of their values and of the squares, and the least and the greatest value.
#[derive(Drop)]
#[repr(C)]
pub struct Statistics {
    pub count: u64,
    pub sum: Sum,
    pub sum_of_squares: Sum,
    pub minimum: u32,
    pub maximum: u32,
}

/// The sums over two pictures from which SSIM and correlations are computed.
#[derive(Drop)]
#[repr(C)]
pub struct PairStatistics {
    pub first: Sum,
    pub second: Sum,
    pub first_squares: Sum,
    pub second_squares: Sum,
    pub products: Sum,
}

/// Adds up the pixels of a picture and their squares, and finds the least and the greatest value.
pub fn of_picture<T: Pixel>(rows: &Rows, buffer: &[T], found: &mut Statistics) -> u32
    ensures sums { SumsPixels rows.now buffer.now T.form.value found.old found.new result }
{
    let Some(rows) = rows.of(buffer) else {
        return FIRST;
    };
    let of_rows = statistics::statistics(&rows);
    *found = Statistics {
        count: of_rows.count as u64,
        sum: Sum::of(of_rows.sum),
        sum_of_squares: Sum::of(of_rows.sum_of_squares),
        minimum: u32::from(of_rows.minimum.into_u16()),
        maximum: u32::from(of_rows.maximum.into_u16()),
    };
    OK
}

/// Adds up the pixels of two pictures of the same size, their squares and their products.
pub fn of_pair<T: Pixel>(
    a_rows: &Rows,
    a: &[T],
    b_rows: &Rows,
    b: &[T],
    found: &mut PairStatistics,
) -> u32
    ensures sums { SumsPairs a_rows.now b_rows.now a.now b.now T.form found.old found.new result }
{
    let Some(first) = a_rows.of(a) else {
        return FIRST;
    };
    let Some(second) = b_rows.of(b) else {
        return SECOND;
    };
    if !a_rows.same_size(b_rows) {
        return SIZES;
    }
    let sums = statistics::pair_sums(&first, &second);
    *found = PairStatistics {
        first: Sum::of(sums.first),
        second: Sum::of(sums.second),
        first_squares: Sum::of(sums.first_squares),
        second_squares: Sum::of(sums.second_squares),
        products: Sum::of(sums.products),
    };
    OK
}
