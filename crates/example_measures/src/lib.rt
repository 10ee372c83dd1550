//! Questions about two encodes of a video: the quality of each one, and which one is better.
#![tactic(auto)]

ghost use Rattle.std.specs.Prelude.{◌≡◌, ◌↔◌, ◌≤◌, IfSome, IsSome, IsTrue};
ghost use Rattle.std.specs.Bool.{OnFalse};
ghost use Rattle.std.specs.Float.Ieee.{binary64, div, lt};
ghost use Rattle.v_frame.specs.Prelude.{one_byte, table_of, tables_of, two_bytes};
ghost use Rattle.v_frame_measures.specs.Prelude.{double, mean_error, measured, ssim_of, HaveOneSize, HaveWindows};

use v_frame::frame::Frame;
use v_frame::plane::PlaneRef;
use v_frame_measures::{
    Mean, frame_mean_squared_error, frame_ssim, frames_have_one_size, mean_squared_error,
    peak_ratio, ssim,
};

/// Returns the structural similarity (SSIM) of an 8-bit luma plane and its encode. Returns `None` if and only if the sizes
/// differ or a side is below 8 pixels.
pub fn luma_similarity(source: &PlaneRef<'_, u8>, encode: &PlaneRef<'_, u8>) -> Option<f64>
    ensures some { IsSome result ↔ ((source.now.geometry.width ≡ encode.now.geometry.width)
        × (source.now.geometry.height ≡ encode.now.geometry.height)
        × (8 ≤ source.now.geometry.width) × (8 ≤ source.now.geometry.height)) }
    ensures value { IfSome result (λ found.
        found ≡ ssim_of one_byte 255 (table_of source.now) (table_of encode.now)) }
{
    if source.width() != encode.width() || source.height() != encode.height() {
        return None;
    }
    ssim(source, encode, 8)
}

/// Returns whether the first of two encodes of a plane has a smaller squared error than the second.
pub fn first_is_nearer(
    source: &PlaneRef<'_, u8>,
    first: &PlaneRef<'_, u8>,
    second: &PlaneRef<'_, u8>,
) -> bool
    requires first_wide { source.now.geometry.width ≡ first.now.geometry.width }
    requires first_high { source.now.geometry.height ≡ first.now.geometry.height }
    requires second_wide { source.now.geometry.width ≡ second.now.geometry.width }
    requires second_high { source.now.geometry.height ≡ second.now.geometry.height }
    ensures { result ≡ lt (mean_error one_byte.value (table_of source.now) (table_of first.now))
        (mean_error one_byte.value (table_of source.now) (table_of second.now)) }
{
    mean_squared_error(source, first) < mean_squared_error(source, second)
}

/// Returns the peak ratio, whose decibels are the PSNR, of a 10-bit frame and its encode, over all planes. Returns `None` if
/// and only if the sizes of the planes differ.
pub fn ratio_of_frame(source: &Frame<u16>, encode: &Frame<u16>) -> Option<f64>
    ensures some { IsSome result ↔ HaveOneSize (tables_of source.now) (tables_of encode.now) }
    ensures value { IfSome result (λ ratio. ratio ≡ div binary64 (double 1046529)
        (measured (mean_error two_bytes.value) (tables_of source.now) (tables_of encode.now)).all) }
{
    if !frames_have_one_size(source, encode) {
        return None;
    }
    Some(peak_ratio(frame_mean_squared_error(source, encode).all, 10))
}

/// Adds the structural similarity of two frames to `mean`, if the frames have one. Returns whether they have one.
pub fn add_similarity(mean: &mut Mean, source: &Frame<u8>, encode: &Frame<u8>) -> bool
    requires { HaveOneSize (tables_of source.now) (tables_of encode.now) }
    ensures had { IsTrue result ↔ HaveWindows (tables_of source.now) }
    ensures kept { OnFalse result (mean.new ≡ mean.old) }
{
    match frame_ssim(source, encode) {
        Some(found) => {
            mean.add(found.all);
            true
        }
        None => false,
    }
}
