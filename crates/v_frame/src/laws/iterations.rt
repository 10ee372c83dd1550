//! Laws of iterations that write.
ghost use Rattle.std.specs.Prelude.{◌≡◌, ℕ, All, length};
ghost use Rattle.v_frame_raster.specs.Table.{Table};
ghost use Rattle.v_frame.specs.Walk.{ChangesEachPixel};

/// If all rows of a table have the same width, an iteration from the front that replaces each yielded pixel changes every
/// pixel.
pub fn full_iterations_change_each_pixel<T>()
    ensures { (rows : Table T) (width : ℕ) → All (λ row. length row ≡ width) rows
        → ChangesEachPixel rows }
{}
