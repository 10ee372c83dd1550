//! Counts of the pixels, or the pairs of pixels, that pass a test.
ghost use Rattle.std.specs.Prelude.{◌≡◌, ◌*◌, ◌≤◌, Bool, count_by};
ghost use Rattle.v_frame.specs.Prelude.{row_major, table_of};
ghost use Rattle.v_frame_statistics.specs.Count.{passing_pairs};

use crate::rows;
use v_frame::pixel::Pixel;
use v_frame::plane::PlaneRef;

/// Returns the number of visible pixels for which `test` returns true. `test` must accept every pixel of the type.
///
/// The compiler vectorizes a simple `test`, for example a comparison.
pub fn count_pixels<T: Pixel, F: Fn(T) -> bool>(plane: &PlaneRef<'_, T>, test: F) -> usize
    requires { F.IsAlwaysCallable test }
    ensures value { (t : T → Bool) → ((p : T) (b : Bool) → F.post test p b → b ≡ t p)
        → result ≡ count_by t (row_major (table_of plane.now)) }
    ensures bound { result ≤ plane.now.geometry.height * plane.now.geometry.width }
{
    rows::count_pixels(&plane.as_rows_ref(), test)
}

/// Returns the number of positions at which `test` returns true for the visible pixels of `a` and `b`. Both planes have the
/// same size, and `test` must accept every pair of pixels of the type. For example, it counts the pixels that are not equal, or
/// that differ by more than a threshold.
pub fn count_pairs<T: Pixel, F: Fn(T, T) -> bool>(
    a: &PlaneRef<'_, T>,
    b: &PlaneRef<'_, T>,
    test: F,
) -> usize
    requires callable { F.IsAlwaysCallable test }
    requires wide { a.now.geometry.width ≡ b.now.geometry.width }
    requires high { a.now.geometry.height ≡ b.now.geometry.height }
    ensures value { (t : T → T → Bool) → ((p q : T) (b : Bool) → F.post test p q b → b ≡ t p q)
        → result ≡ passing_pairs t (row_major (table_of a.now)) (row_major (table_of b.now)) }
    ensures bound { result ≤ a.now.geometry.height * a.now.geometry.width }
{
    rows::count_pairs(&a.as_rows_ref(), &b.as_rows_ref(), test)
}
