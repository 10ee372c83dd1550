//! Histograms of pictures.
ghost use Rattle.std.specs.Prelude.{◌≡◌, ◌+◌, ◌^◌, ◌<◌, ◌≤◌, ◌∷◌, ℕ, [], IfOk, length, slice_index, slice_set, vec_len};
ghost use Rattle.v_frame.specs.Prelude.{row_major};
ghost use Rattle.v_frame_statistics.specs.Histogram.{Counts, CountsMore, HasRoom};

use std::alloc::{AllocError, Global};
use v_frame::plane::RowsRef;

/// A count for each value of a byte.
type Table = [u64; 256];

/// Returns the histogram of an 8-bit picture: entry `v` is the number of pixels with value `v`.
pub fn histogram(rows: &RowsRef<'_, u8>) -> [u64; 256]
    ensures { Counts 256 (row_major rows.now) result }
{
    // Four rows are counted into four tables, so that a count does not wait for the previous count of the same value.
    let (mut first, mut second) = (empty_table(), empty_table());
    let (mut third, mut fourth) = (empty_table(), empty_table());
    let height = rows.height();
    let fours = height / 4;
    for four in 0..fours {
        let y = 4 * four;
        let (a, b) = (rows.visible_row(y), rows.visible_row(y + 1));
        let (c, d) = (rows.visible_row(y + 2), rows.visible_row(y + 3));
        count_four_rows(&mut first, &mut second, &mut third, &mut fourth, a, b, c, d);
    }
    for y in 4 * fours..height {
        count_row(&mut first, rows.visible_row(y));
    }
    add_tables(&mut first, &second);
    add_tables(&mut third, &fourth);
    add_tables(&mut first, &third);
    first
}

/// Returns the histogram of a picture for a bit depth. It has `2^bit_depth` entries, and entry `v` is the number of pixels with
/// value `v`. A pixel with a value of `2^bit_depth` or more is not counted.
///
/// # Errors
///
/// Returns [`AllocError`] if the memory for the histogram cannot be allocated.
pub fn histogram_of_depth(
    alloc: Global,
    rows: &RowsRef<'_, u16>,
    bit_depth: u8,
) -> Result<Vec<u64>, AllocError>
    requires { bit_depth ≤ 16 }
    ensures entries { IfOk result (λ table. vec_len table ≡ 2 ^ bit_depth) }
    ensures counts { IfOk result (λ table.
        Counts (2 ^ bit_depth) (row_major rows.now) table.items) }
{
    let entries = 1usize << bit_depth;
    let mut table = Vec::with_capacity(alloc, entries)?;
    table.resize(entries, 0u64)?;
    histogram_into(rows, &mut table);
    Ok(table)
}

/// Sets entry `v` of `counts` to the number of pixels with value `v`. A pixel whose value has no entry is not counted.
pub fn histogram_into(rows: &RowsRef<'_, u16>, counts: &mut [u64])
    ensures { Counts (length counts.old) (row_major rows.now) counts.new }
{
    counts.fill(0);
    for y in 0..rows.height() {
        count_words(counts, rows.visible_row(y));
    }
}

/// Returns a table of zeros.
#[inline(always)]
fn empty_table() -> Table
    ensures { (v : ℕ) → v < 256 → slice_index result v ≡ 0 }
{
    [0; 256]
}

/// Counts the pixels of four rows of the same width, each row into its own table.
fn count_four_rows(
    first: &mut Table,
    second: &mut Table,
    third: &mut Table,
    fourth: &mut Table,
    a: &[u8],
    b: &[u8],
    c: &[u8],
    d: &[u8],
)
    requires b { length b.now ≡ length a.now }
    requires c { length c.now ≡ length a.now }
    requires d { length d.now ≡ length a.now }
    requires first { HasRoom 256 first.old (length a.now) }
    requires second { HasRoom 256 second.old (length a.now) }
    requires third { HasRoom 256 third.old (length a.now) }
    requires fourth { HasRoom 256 fourth.old (length a.now) }
    ensures first { CountsMore 256 a.now first.old first.new }
    ensures second { CountsMore 256 b.now second.old second.new }
    ensures third { CountsMore 256 c.now third.old third.new }
    ensures fourth { CountsMore 256 d.now fourth.old fourth.new }
{
    for x in 0..a.len() {
        count_one(first, a[x]);
        count_one(second, b[x]);
        count_one(third, c[x]);
        count_one(fourth, d[x]);
    }
}

/// Counts the pixels of a row.
fn count_row(table: &mut Table, row: &[u8])
    requires { HasRoom 256 table.old (length row.now) }
    ensures { CountsMore 256 row.now table.old table.new }
{
    for x in 0..row.len() {
        count_one(table, row[x]);
    }
}

/// Counts one pixel.
#[inline(always)]
fn count_one(table: &mut Table, pixel: u8)
    requires { slice_index table.old pixel + 1 < 2 ^ 64 }
    ensures { table.new ≡ slice_set table.old pixel (slice_index table.old pixel + 1) }
{
    table[usize::from(pixel)] += 1;
}

/// Adds the counts of `other` to `table`.
fn add_tables(table: &mut Table, other: &Table)
    requires { (v : ℕ) → v < 256 → slice_index table.old v + slice_index other.now v < 2 ^ 64 }
    ensures { (v : ℕ) → v < 256
        → slice_index table.new v ≡ slice_index table.old v + slice_index other.now v }
{
    for v in 0..256 {
        table[v] += other[v];
    }
}

/// Counts the pixels of a row whose values have an entry. It reads four pixels before it counts the first of them.
fn count_words(counts: &mut [u64], row: &[u16])
    requires { HasRoom (length counts.old) counts.old (length row.now) }
    ensures { CountsMore (length counts.old) row.now counts.old counts.new }
{
    let fours = row.len() / 4;
    for four in 0..fours {
        let x = 4 * four;
        let (a, b, c, d) = (row[x], row[x + 1], row[x + 2], row[x + 3]);
        count_word(counts, a);
        count_word(counts, b);
        count_word(counts, c);
        count_word(counts, d);
    }
    for x in 4 * fours..row.len() {
        count_word(counts, row[x]);
    }
}

/// Counts one pixel if its value has an entry.
#[inline(always)]
fn count_word(counts: &mut [u64], pixel: u16)
    requires { HasRoom (length counts.old) counts.old 1 }
    ensures { CountsMore (length counts.old) (pixel ∷ []) counts.old counts.new }
{
    let value = usize::from(pixel);
    if value < counts.len() {
        counts[value] += 1;
    }
}
