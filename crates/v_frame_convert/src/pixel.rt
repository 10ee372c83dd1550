//! Bit depths that fit a type of pixels, and sizes of subsampled planes.
ghost use Rattle.std.specs.Prelude.{◌≡◌, ◌^◌, ◌<◌, ◌≤◌, ◌↔◌, IsTrue};
ghost use Rattle.v_frame_convert.specs.Chroma.{IsSubsampledSize};
ghost use Rattle.v_frame_convert.specs.Depth.{DepthFits};

use v_frame::pixel::Pixel;

/// Returns whether pixels of the type `T` can hold values of this bit depth: 8 bits for `u8`, and 8 to 16 bits for `u16`.
pub fn depth_fits<T: Pixel>(depth: u8) -> bool
    ensures { IsTrue result ↔ DepthFits T.BYTES depth }
{
    8 <= depth && usize::from(depth) <= 8 * T::BYTES
}

/// Returns `size / ratio`, rounded up: the number of columns (or rows) of a subsampled plane, if the full plane has `size`
/// columns (or rows).
///
/// `ratio` must not be zero.
pub fn subsampled_size(size: usize, ratio: usize) -> usize
    requires { 0 < ratio }
    ensures { IsSubsampledSize size ratio result }
{
    size.div_ceil(ratio)
}
