//! Laws of semi-planar layouts. Each law is the contract of a function that callers call with their own frames.
ghost use Rattle.std.specs.Prelude.{All, ◌≡◌, ◌/◌, ◌^◌, ◌<◌, length};
ghost use Rattle.v_frame.specs.Prelude.{tables_of};
ghost use Rattle.v_frame_semi_planar.specs.Format.{depth_of, sample_size_of, unused_bits};
ghost use Rattle.v_frame_semi_planar.specs.SemiPlanar.{semi_planar_bytes, semi_planar_pixels, shown_pixels};

use crate::format::SemiPlanarFormat;
use v_frame::frame::Frame;
use v_frame::pixel::Pixel;

/// Decoding the bytes of a frame gives its samples again, if each sample is below 2 to the power of the layout's bit depth. So
/// a frame that is written and read again is unchanged.
pub fn samples_come_back<T: Pixel>(frame: &Frame<T>, format: SemiPlanarFormat)
    ensures { let bytes = semi_planar_bytes T.form format (tables_of frame.now) in
        let pixels = semi_planar_pixels format (tables_of frame.now) in
        T.form.size ≡ sample_size_of format
        → All (λ pixel. T.form.value pixel < 2 ^ depth_of format) pixels
        → shown_pixels T.form (unused_bits format) (length bytes / T.form.size) bytes ≡ pixels }
{}
