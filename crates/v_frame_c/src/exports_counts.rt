//! The exports that count pixels.
ghost use Rattle.std.specs.Prelude.{◌≡◌, ◌≢◌, length, nat_eq};
ghost use Rattle.v_frame.specs.Prelude.{one_byte, row_major, two_bytes};
ghost use Rattle.v_frame_slices.specs.Found.{CountsBetween};
ghost use Rattle.v_frame_slices.specs.Layout.{fits, picture};
ghost use Rattle.v_frame_slices.specs.Status.{status_of_one, status_of_sized};
ghost use Rattle.v_frame_statistics.specs.Prelude.{Counts};

use v_frame_slices::counts;
use v_frame_slices::layout::Rows;

/// Counts the pixels with a value from `least` to `greatest`.
#[unsafe(no_mangle)]
pub extern "C" fn v_frame_count_between_u8(
    rows: &Rows,
    buffer: &[u8],
    least: u8,
    greatest: u8,
    count: &mut u64,
) -> u32
    ensures counts { CountsBetween rows.now buffer.now one_byte.value least greatest count.old count.new result }
{
    counts::between(rows, buffer, least, greatest, count)
}

/// Counts the pixels with a value from `least` to `greatest`.
#[unsafe(no_mangle)]
pub extern "C" fn v_frame_count_between_u16(
    rows: &Rows,
    buffer: &[u16],
    least: u16,
    greatest: u16,
    count: &mut u64,
) -> u32
    ensures counts { CountsBetween rows.now buffer.now two_bytes.value least greatest count.old count.new result }
{
    counts::between(rows, buffer, least, greatest, count)
}

/// Sets entry `v` of `counts` to the number of pixels with the value `v`.
#[unsafe(no_mangle)]
pub extern "C" fn v_frame_histogram_u8(rows: &Rows, buffer: &[u8], counts: &mut [u64]) -> u32
    ensures status { result ≡ status_of_sized (fits rows.now (length buffer.now)) (nat_eq (length counts.old) 256) }
    ensures counts { result ≡ 0 → Counts 256 (row_major (picture rows.now buffer.now)) counts.new }
    ensures refused { result ≢ 0 → counts.new ≡ counts.old }
{
    counts::histogram_of_bytes(rows, buffer, counts)
}

/// Sets entry `v` of `counts` to the number of pixels with the value `v`. A pixel whose value has no entry is not counted.
#[unsafe(no_mangle)]
pub extern "C" fn v_frame_histogram_u16(rows: &Rows, buffer: &[u16], counts: &mut [u64]) -> u32
    ensures status { result ≡ status_of_one (fits rows.now (length buffer.now)) }
    ensures counts { result ≡ 0
        → Counts (length counts.old) (row_major (picture rows.now buffer.now)) counts.new }
    ensures refused { result ≢ 0 → counts.new ≡ counts.old }
{
    counts::histogram_of_words(rows, buffer, counts)
}
