//! Laws of rotated, mirrored and transposed tables: how several of these operations combine, and where each pixel comes from.
//! Each law is the contract of a function that does nothing.
ghost use Rattle.std.specs.Prelude.{◌≡◌, ◌-◌, ◌<◌, ℕ, map, reverse};
ghost use Rattle.v_frame.specs.Prelude.{Table, pixel_at, table_of};
ghost use Rattle.v_frame_turn.specs.Turn.{rotated_180, rotated_270, rotated_90, transposed, HasSize};

use v_frame::plane::PlaneRef;

/// A table that is flipped upside down twice, or mirrored twice, is unchanged. Flipping and mirroring commute.
pub fn flips_undo_themselves<T>()
    ensures vertical { (rows : Table T) → reverse (reverse rows) ≡ rows }
    ensures horizontal { (rows : Table T) → map reverse (map reverse rows) ≡ rows }
    ensures either_order { (rows : Table T) → map reverse (reverse rows) ≡ reverse (map reverse rows) }
{}

/// A rotation by 180 degrees equals mirroring and flipping upside down, in either order. Two such rotations leave the table
/// unchanged.
pub fn half_turns_are_two_flips<T>()
    ensures mirrored_first { (rows : Table T) → rotated_180 rows ≡ reverse (map reverse rows) }
    ensures mirrored_last { (rows : Table T) → rotated_180 rows ≡ map reverse (reverse rows) }
    ensures twice { (rows : Table T) → rotated_180 (rotated_180 rows) ≡ rows }
{}

/// Two rotations by 90 degrees are a rotation by 180 degrees, three are a rotation by 270 degrees, and four leave the table
/// unchanged.
pub fn quarter_turns_add_up<T>()
    ensures twice { (rows : Table T) (width height : ℕ) → HasSize rows width height
        → rotated_90 (rotated_90 rows) ≡ rotated_180 rows }
    ensures three_times { (rows : Table T) (width height : ℕ) → HasSize rows width height
        → rotated_90 (rotated_90 (rotated_90 rows)) ≡ rotated_270 rows }
    ensures four_times { (rows : Table T) (width height : ℕ) → HasSize rows width height
        → rotated_90 (rotated_90 (rotated_90 (rotated_90 rows))) ≡ rows }
    ensures back { (rows : Table T) (width height : ℕ) → HasSize rows width height
        → rotated_90 (rotated_270 rows) ≡ rows }
{}

/// Two transpositions leave the table unchanged. A rotation by 90 degrees equals flipping upside down and then transposing, or
/// transposing and then mirroring. A rotation by 270 degrees equals mirroring and then transposing, or transposing and then
/// flipping upside down.
pub fn transpositions_undo_themselves<T>()
    ensures twice { (rows : Table T) (width height : ℕ) → HasSize rows width height
        → transposed (transposed rows) ≡ rows }
    ensures rotated_90 { (rows : Table T) (width height : ℕ) → HasSize rows width height
        → rotated_90 rows ≡ map reverse (transposed rows) }
    ensures rotated_270 { (rows : Table T) (width height : ℕ) → HasSize rows width height
        → rotated_270 rows ≡ transposed (map reverse rows) }
{}

/// The result of each operation has the size of the table, or the size with width and height exchanged.
pub fn turned_tables_have_sizes<T>()
    ensures vertical { (rows : Table T) (width height : ℕ) → HasSize rows width height
        → HasSize (reverse rows) width height }
    ensures horizontal { (rows : Table T) (width height : ℕ) → HasSize rows width height
        → HasSize (map reverse rows) width height }
    ensures rotated_180 { (rows : Table T) (width height : ℕ) → HasSize rows width height
        → HasSize (rotated_180 rows) width height }
    ensures transposed { (rows : Table T) (width height : ℕ) → HasSize rows width height
        → HasSize (transposed rows) height width }
    ensures rotated_90 { (rows : Table T) (width height : ℕ) → HasSize rows width height
        → HasSize (rotated_90 rows) height width }
    ensures rotated_270 { (rows : Table T) (width height : ℕ) → HasSize rows width height
        → HasSize (rotated_270 rows) height width }
{}

/// The pixel at column `x` of row `y` of a transformed table, as a pixel of the original table.
pub fn turned_pixels_come_from<T>()
    ensures transposed { (rows : Table T) (width height : ℕ) → HasSize rows width height
        → (x y : ℕ) → x < height → y < width
        → pixel_at (transposed rows) x y ≡ pixel_at rows y x }
    ensures rotated_90 { (rows : Table T) (width height : ℕ) → HasSize rows width height
        → (x y : ℕ) → x < height → y < width
        → pixel_at (rotated_90 rows) x y ≡ pixel_at rows y (height - 1 - x) }
    ensures rotated_180 { (rows : Table T) (width height : ℕ) → HasSize rows width height
        → (x y : ℕ) → x < width → y < height
        → pixel_at (rotated_180 rows) x y ≡ pixel_at rows (width - 1 - x) (height - 1 - y) }
    ensures rotated_270 { (rows : Table T) (width height : ℕ) → HasSize rows width height
        → (x y : ℕ) → x < height → y < width
        → pixel_at (rotated_270 rows) x y ≡ pixel_at rows (width - 1 - y) x }
{}

/// The visible pixels of a plane are a table with the size of the plane. The other laws require a table with a size.
pub fn shown_tables_have_sizes<T>(plane: &PlaneRef<'_, T>)
    ensures { HasSize (table_of plane.now) plane.now.geometry.width plane.now.geometry.height }
{
    let _sizes = (plane.width(), plane.height());
}
