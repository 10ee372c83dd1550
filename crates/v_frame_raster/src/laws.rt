//! Laws of pixels, tables, geometries and chroma sizes: facts that callers may rely on beyond a single call.
//!
//! Each function makes the calls that its law is about, and its contract states the law. A law that is only about definitions
//! has an empty body. Not part of `v_frame` 0.7.0.
ghost use Rattle.std.specs.Prelude.{◌≡◌, ℕ, ◌+◌, ◌*◌, ◌^◌, ◌<◌, ◌≤◌, ◌↔◌, List, ◌++◌, length, drop, Some, Ok, IsTrue, slice_get};
ghost use Rattle.std.specs.Prelude.{slice_set, sum_by, zip};
ghost use Rattle.std.specs.Ordering.{nat_cmp};
ghost use Rattle.v_frame_raster.specs.Pixel.{bytes_of};
ghost use Rattle.v_frame_raster.specs.Laws.{AddsUp, AgreesBelow, WrittenBelow, IsQuotient, HasChromaSize};
ghost use Rattle.v_frame_raster.specs.Chroma.{subsampled};
ghost use Rattle.v_frame_raster.specs.declared.chroma.ChromaSubsampling.{ChromaSubsampling};
ghost use Rattle.v_frame_raster.specs.Geometry.{Geometry};
ghost use Rattle.v_frame_raster.specs.PixelRows.{absolute_differences, squared_errors, halved};
ghost use Rattle.v_frame_raster.specs.Table.{Table, row_major};

use crate::geometry::PlaneGeometry;
use crate::pixel::Pixel;
use std::cmp::Ordering;

/// The value of a pixel determines the pixel. If a pixel has the given value, this function returns it.
pub fn pixel_of_value<T: Pixel>(value: u16) -> Option<T>
    ensures { (p : T) → T.form.value p < 256 ^ T.BYTES → T.form.value p ≡ value → result ≡ Some p }
{
    T::try_from_u16(value)
}

/// The bytes of a pixel determine the pixel. If a pixel has the given bytes, this function returns it.
pub fn pixel_of_bytes<T: Pixel>(bytes: &[u8]) -> T
    requires { length bytes.now ≡ T.BYTES }
    ensures { (p : T) → T.form.value p < 256 ^ T.BYTES
        → bytes.now ≡ bytes_of T.BYTES (T.form.value p) → result ≡ p }
{
    T::from_le(bytes)
}

/// Two pixels are equal if and only if their values are equal.
pub fn pixels_are_equal<T: Pixel>(p: T, q: T) -> bool
    ensures { IsTrue result ↔ (T.form.value p ≡ T.form.value q) }
{
    p == q
}

/// Pixels are ordered by their values.
pub fn pixels_compare<T: Pixel>(p: T, q: T) -> Ordering
    ensures { result ≡ nat_cmp (T.form.value p) (T.form.value q) }
{
    p.cmp(&q)
}

/// Pixels with equal values have equal hashes.
pub fn pixels_hash<T: Pixel>()
    ensures { (p q : T) → T.form.value p ≡ T.form.value q → T.hash_input p ≡ T.hash_input q }
{}

/// Two tables with the same number of rows are equal if they agree row by row. With this law, the effect of a loop over rows
/// can be stated as one table.
pub fn tables_agree_by_rows<T>()
    ensures { (table other : Table T) → length table ≡ length other
        → ((y : ℕ) → y < length table → slice_get table y ≡ slice_get other y) → table ≡ other }
{}

/// Two lists are equal if they have the same length and agree at each index. The lists may be two rows or two tables.
pub fn lists_agree_by_items<X>()
    ensures { (xs ys : List X) → length xs ≡ length ys
        → ((k : ℕ) → k < length xs → slice_get xs k ≡ slice_get ys k) → xs ≡ ys }
{}

/// A list that is written from the front, one item at a time, ends up as the list of these items. This law is for loops that
/// write the pixels of a row, or rows.
pub fn lists_are_written<X>()
    ensures begun { (expected now : List X) → length now ≡ length expected → AgreesBelow expected now 0 }
    ensures item { (expected now : List X) (i : ℕ) (item : X) → AgreesBelow expected now i
        → slice_get expected i ≡ Some item → AgreesBelow expected (slice_set now i item) (i + 1) }
    ensures whole { (expected now : List X) (end : ℕ) → AgreesBelow expected now end → length expected ≤ end
        → now ≡ expected }
{}

/// A list that is written in place from the front, one item at a time, ends up as the list of these items. Until an item is
/// written, it is unchanged.
pub fn lists_are_written_in_place<X>()
    ensures begun { (expected old : List X) → length old ≡ length expected → WrittenBelow expected old old 0 }
    ensures item { (expected old now : List X) (i : ℕ) (item : X) → WrittenBelow expected old now i
        → slice_get expected i ≡ Some item → WrittenBelow expected old (slice_set now i item) (i + 1) }
    ensures whole { (expected old now : List X) (end : ℕ) → WrittenBelow expected old now end
        → length expected ≤ end → now ≡ expected }
{}

/// The pixels of a table from row `y` on are the pixels of row `y`, followed by the pixels of the rows after it.
pub fn rows_follow<T>()
    ensures { (table : Table T) (y : ℕ) (row : List T) → slice_get table y ≡ Some row
        → row_major (drop y table) ≡ row ++ row_major (drop (y + 1) table) }
{}

/// The sum over all pairs of pixels of two rows is the total of the sums over their parts. The sum over two tables is the total
/// of the sums over their rows. The law holds for any amount that a pair adds.
pub fn sums_of_pairs_add_up<T>()
    ensures { (of : T × T → ℕ) → AddsUp (λ xs ys. sum_by of (zip xs ys)) }
{}

/// A value of `depth` bits fits into a pixel with at least `depth` bits.
pub fn depths_fit<T: Pixel>()
    ensures { (depth : ℕ) → depth ≤ 8 * T.BYTES → 2 ^ depth ≤ 256 ^ T.BYTES }
{}

/// The sum of differences over two rows is the total of the sums over their parts. The sum over two tables is the total of the
/// sums over their rows.
pub fn sums_add_up<T: Pixel>()
    ensures absolute { AddsUp (absolute_differences T.form.value) }
    ensures squared { AddsUp (squared_errors T.form.value) }
{}

/// A halved row has half the length of its two sources. If the first parts of the sources have equal even lengths, the halved
/// row is the halved first parts followed by the halved second parts.
pub fn halves_join<T: Pixel>()
    ensures length { (n : ℕ) (top bottom : List T) → length top ≡ 2 * n → length bottom ≡ 2 * n
        → length (halved T.form top bottom) ≡ n }
    ensures joined { (n : ℕ) (top bottom top1 bottom1 : List T) → length top ≡ 2 * n → length bottom ≡ 2 * n
        → halved T.form (top ++ top1) (bottom ++ bottom1) ≡ halved T.form top bottom ++ halved T.form top1 bottom1 }
{}

/// Two geometries are equal if and only if their sizes, paddings and subsampling ratios are equal.
pub fn geometries_are_equal(g: PlaneGeometry, h: PlaneGeometry) -> bool
    ensures { IsTrue result ↔ (g ≡ h) }
{
    g == h
}

/// A number is divisible by a ratio if and only if some number times the ratio is equal to it. That number is the quotient.
pub fn quotients_are_exact()
    ensures { (a ratio : ℕ) → 0 < ratio → IsQuotient a ratio }
{}

/// If a luma geometry has a chroma geometry, the chroma geometry has the size of the chroma planes, and its buffer is not
/// larger.
pub fn chroma_sizes_agree()
    ensures { (s : ChromaSubsampling) (luma chroma : Geometry)
        → subsampled s luma ≡ Ok (Some chroma) → HasChromaSize s luma chroma }
{}
