//! Counts of pixels with a value, or with a value in a range.
ghost use Rattle.std.specs.Prelude.{◌≡◌, ◌≢◌, length, nat_eq};
ghost use Rattle.v_frame.specs.Prelude.{row_major};
ghost use Rattle.v_frame_slices.specs.Found.{CountsBetween};
ghost use Rattle.v_frame_slices.specs.Counts.{is_between};
ghost use Rattle.v_frame_slices.specs.Layout.{fits, picture};
ghost use Rattle.v_frame_slices.specs.Status.{status_of_one, status_of_sized};
ghost use Rattle.v_frame_statistics.specs.Prelude.{Counts};

use crate::layout::Rows;
use crate::status::{FIRST, OK, SIZES};
use v_frame::pixel::Pixel;
use v_frame_statistics::rows as statistics;

/// Counts the pixels with a value from `least` to `greatest`.
pub fn between<T: Pixel>(rows: &Rows, buffer: &[T], least: T, greatest: T, count: &mut u64) -> u32
    ensures counts { CountsBetween rows.now buffer.now T.form.value least greatest count.old count.new result }
{
    let Some(source) = rows.of(buffer) else {
        return FIRST;
    };
    *count = statistics::count_pixels(
        &source,
        |p: T|
            ensures { result ≡ is_between T.form.value least greatest p }
        { least.into_u16() <= p.into_u16() && p.into_u16() <= greatest.into_u16() },
    ) as u64;
    OK
}

/// Sets entry `v` of `counts` to the number of pixels with the value `v`.
pub fn histogram_of_bytes(rows: &Rows, buffer: &[u8], counts: &mut [u64]) -> u32
    ensures status { result ≡ status_of_sized (fits rows.now (length buffer.now)) (nat_eq (length counts.old) 256) }
    ensures counts { result ≡ 0 → Counts 256 (row_major (picture rows.now buffer.now)) counts.new }
    ensures refused { result ≢ 0 → counts.new ≡ counts.old }
{
    let Some(source) = rows.of(buffer) else {
        return FIRST;
    };
    if counts.len() != 256 {
        return SIZES;
    }
    counts.copy_from_slice(&statistics::histogram(&source));
    OK
}

/// Sets entry `v` of `counts` to the number of pixels with the value `v`. A pixel whose value has no entry is not counted.
pub fn histogram_of_words(rows: &Rows, buffer: &[u16], counts: &mut [u64]) -> u32
    ensures status { result ≡ status_of_one (fits rows.now (length buffer.now)) }
    ensures counts { result ≡ 0
        → Counts (length counts.old) (row_major (picture rows.now buffer.now)) counts.new }
    ensures refused { result ≢ 0 → counts.new ≡ counts.old }
{
    let Some(source) = rows.of(buffer) else {
        return FIRST;
    };
    statistics::histogram_into(&source, counts);
    OK
}
