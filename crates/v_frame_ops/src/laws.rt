//! Laws of tables, pixel by pixel, for the proofs of filters. Each law is the contract of a function that does nothing.
ghost use Rattle.std.specs.Prelude.{◌≡◌, ◌<◌, ℕ, All, length};
ghost use Rattle.v_frame.specs.Prelude.{Raster, Table, pixel_at, rectangle, table_of, whole_rows};
ghost use Rattle.v_frame_ops.specs.Rows.{HoldsPixelsFrom};

use v_frame::laws::tables_are_rectangles;

/// Two tables of the same size are equal if they are equal pixel by pixel. With this law, the result of a filter can be stated
/// as one table.
pub fn tables_agree_by_pixels<T>()
    ensures { (width : ℕ) (table other : Table T) → length table ≡ length other
        → All (λ row. length row ≡ width) table → All (λ row. length row ≡ width) other
        → ((x y : ℕ) → x < width → y < length table → pixel_at table x y ≡ pixel_at other x y)
        → table ≡ other }
{}

/// The pixel at column `i` of row `j` of a rectangle is the pixel of the table at column `x + i` of row `y + j`, where the
/// rectangle begins at column `x` of row `y`.
pub fn rectangles_hold_pixels<T>()
    ensures { (rows : Table T) (x y width height : ℕ) → HoldsPixelsFrom rows x y width height
        (rectangle x y width height rows) }
{}

/// A visible pixel of a plane is a pixel of its whole buffer, with the padding on its left added to its column and the padding
/// above added to its row.
pub fn whole_rows_hold_pixels<T>()
    ensures { (p : Raster T) → let g = p.geometry in
        HoldsPixelsFrom (whole_rows p) g.pad_left g.pad_top g.width g.height (table_of p) }
{
    tables_are_rectangles::<T>();
    rectangles_hold_pixels::<T>();
}
