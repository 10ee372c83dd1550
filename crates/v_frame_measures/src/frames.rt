//! Measures of two frames: one for each plane, and one for all planes together.
ghost use Rattle.std.specs.Prelude.{◌≡◌, ◌+◌, ◌*◌, ◌≤◌, ◌<◌, ◌^◌, ◌↔◌, IfSome, IsSome, IsTrue, option_map};
ghost use Rattle.std.specs.Int.NonZero.{non_zero_u8_get};
ghost use Rattle.v_frame.specs.Prelude.{table_of, tables_of};
ghost use Rattle.v_frame_measures.specs.Errors.{mean_error};
ghost use Rattle.v_frame_measures.specs.Frames.{counted, counted_chroma, frame_measure, measured, pixels_counted, share_added, size_of, HasWindows, HaveOneSize, HaveWindows};
ghost use Rattle.v_frame_measures.specs.Ssim.{peak_of, ssim_of};

use crate::casts::nearest_f64;
use crate::errors::mean_squared_error_of_rows;
use crate::similarity::mean_similarity;
use v_frame::frame::Frame;
use v_frame::pixel::Pixel;
use v_frame::plane::Plane;

/// A measure of two frames: its value for each plane, and its mean over all planes.
#[derive(Clone, Copy)]
pub struct FrameMeasure {
    /// The value for the luma plane.
    pub y: f64,
    /// The value for the first chroma plane, or `None` if the frames have none.
    pub u: Option<f64>,
    /// The value for the second chroma plane, or `None` if the frames have none.
    pub v: Option<f64>,
    /// The mean of the values of all planes, weighted by the number of pixels of each plane.
    pub all: f64,
}

/// A measure of two planes, with the number of pixels of one of them.
#[derive(Clone, Copy)]
pub(crate) struct CountedMeasure {
    pixels: u64,
    value: f64,
}

/// Returns whether `a` and `b` have the same planes, each plane with the same width and height in both frames.
pub fn frames_have_one_size<T: Pixel>(a: &Frame<T>, b: &Frame<T>) -> bool
    ensures { IsTrue result ↔ HaveOneSize (tables_of a.now) (tables_of b.now) }
{
    size_of_plane(&a.y_plane) == size_of_plane(&b.y_plane)
        && a.u_plane.as_ref().map(size_of_plane) == b.u_plane.as_ref().map(size_of_plane)
        && a.v_plane.as_ref().map(size_of_plane) == b.v_plane.as_ref().map(size_of_plane)
}

/// Returns the width and the height of a plane in pixels.
fn size_of_plane<T: Pixel>(plane: &Plane<T>) -> (usize, usize)
    ensures { result ≡ size_of (table_of plane.now) }
{
    (plane.width(), plane.height())
}

/// Returns the mean squared error (MSE) of each plane of two frames, and their mean weighted by pixels. Each plane has the same
/// size in both frames, as [`frames_have_one_size`] tests.
pub fn frame_mean_squared_error<T: Pixel>(a: &Frame<T>, b: &Frame<T>) -> FrameMeasure
    requires { HaveOneSize (tables_of a.now) (tables_of b.now) }
    ensures { result ≡ measured (mean_error T.form.value) (tables_of a.now) (tables_of b.now) }
{
    let y = counted_error(&a.y_plane, &b.y_plane);
    let u = counted_error_of_chroma(&a.u_plane, &b.u_plane);
    let v = counted_error_of_chroma(&a.v_plane, &b.v_plane);
    joined(y, u, v)
}

/// Returns the structural similarity (SSIM) of each plane of two frames, and their mean weighted by pixels. It uses the bit
/// depth of `a`. Each plane has the same size in both frames, as [`frames_have_one_size`] tests.
///
/// The weights of the mean are rounded to `f64`, so the mean of two equal frames may differ from 1 in the last digit.
///
/// Returns `None` if and only if a plane of `a` is narrower or lower than 8 pixels, the size of a window.
pub fn frame_ssim<T: Pixel>(a: &Frame<T>, b: &Frame<T>) -> Option<FrameMeasure>
    requires { HaveOneSize (tables_of a.now) (tables_of b.now) }
    ensures some { IsSome result ↔ HaveWindows (tables_of a.now) }
    ensures value { IfSome result (λ measure. measure ≡ measured
        (ssim_of T.form (peak_of (non_zero_u8_get a.now.bit_depth)))
        (tables_of a.now) (tables_of b.now)) }
{
    if !have_windows(a) {
        return None;
    }
    let depth = a.bit_depth.get();
    let y = counted_ssim(&a.y_plane, &b.y_plane, depth);
    let u = counted_ssim_of_chroma(&a.u_plane, &b.u_plane, depth);
    let v = counted_ssim_of_chroma(&a.v_plane, &b.v_plane, depth);
    Some(joined(y, u, v))
}

/// Returns whether each plane of the frame is at least 8 by 8 pixels, the size of a window.
fn have_windows<T: Pixel>(frame: &Frame<T>) -> bool
    ensures { IsTrue result ↔ HaveWindows (tables_of frame.now) }
{
    has_windows(&frame.y_plane)
        && chroma_has_windows(&frame.u_plane)
        && chroma_has_windows(&frame.v_plane)
}

/// Returns whether the plane is at least 8 by 8 pixels, the size of a window.
fn has_windows<T: Pixel>(plane: &Plane<T>) -> bool
    ensures { IsTrue result ↔ HasWindows (table_of plane.now) }
{
    plane.width() >= 8 && plane.height() >= 8
}

/// Returns whether the chroma plane is missing or at least 8 by 8 pixels.
fn chroma_has_windows<T: Pixel>(plane: &Option<Plane<T>>) -> bool
    ensures { IsTrue result ↔ IfSome (option_map table_of plane.now) HasWindows }
{
    match plane {
        Some(plane) => has_windows(plane),
        None => true,
    }
}

/// Returns the mean squared error of two planes of the same size, with their number of pixels.
fn counted_error<T: Pixel>(a: &Plane<T>, b: &Plane<T>) -> CountedMeasure
    requires { size_of (table_of a.now) ≡ size_of (table_of b.now) }
    ensures { result ≡ counted (mean_error T.form.value) (table_of a.now) (table_of b.now) }
{
    let (a, b) = (
        a.as_plane_ref().as_rows_ref(),
        b.as_plane_ref().as_rows_ref(),
    );
    CountedMeasure {
        pixels: (a.width() * a.height()) as u64,
        value: mean_squared_error_of_rows(&a, &b),
    }
}

/// Returns the mean squared error of two chroma planes of the same size, or `None` if they are missing.
fn counted_error_of_chroma<T: Pixel>(
    a: &Option<Plane<T>>,
    b: &Option<Plane<T>>,
) -> Option<CountedMeasure>
    requires { option_map size_of (option_map table_of a.now)
        ≡ option_map size_of (option_map table_of b.now) }
    ensures { result ≡ counted_chroma (mean_error T.form.value) (option_map table_of a.now)
        (option_map table_of b.now) }
{
    match (a, b) {
        (Some(a), Some(b)) => Some(counted_error(a, b)),
        _ => None,
    }
}

/// Returns the structural similarity of two planes of the same size, with their number of pixels.
fn counted_ssim<T: Pixel>(a: &Plane<T>, b: &Plane<T>, bit_depth: u8) -> CountedMeasure
    requires size { size_of (table_of a.now) ≡ size_of (table_of b.now) }
    requires room { HasWindows (table_of a.now) }
    ensures { result ≡ counted (ssim_of T.form (peak_of bit_depth)) (table_of a.now)
        (table_of b.now) }
{
    let (a, b) = (
        a.as_plane_ref().as_rows_ref(),
        b.as_plane_ref().as_rows_ref(),
    );
    CountedMeasure {
        pixels: (a.width() * a.height()) as u64,
        value: mean_similarity(&a, &b, bit_depth),
    }
}

/// Returns the structural similarity of two chroma planes of the same size, or `None` if they are missing.
fn counted_ssim_of_chroma<T: Pixel>(
    a: &Option<Plane<T>>,
    b: &Option<Plane<T>>,
    bit_depth: u8,
) -> Option<CountedMeasure>
    requires size { option_map size_of (option_map table_of a.now)
        ≡ option_map size_of (option_map table_of b.now) }
    requires room { IfSome (option_map table_of a.now) HasWindows }
    ensures { result ≡ counted_chroma (ssim_of T.form (peak_of bit_depth))
        (option_map table_of a.now) (option_map table_of b.now) }
{
    match (a, b) {
        (Some(a), Some(b)) => Some(counted_ssim(a, b, bit_depth)),
        _ => None,
    }
}

/// Returns the measures of the planes with their mean, weighted by pixels.
fn joined(y: CountedMeasure, u: Option<CountedMeasure>, v: Option<CountedMeasure>) -> FrameMeasure
    ensures { result ≡ frame_measure y u v }
{
    let pixels = u128::from(y.pixels) + pixels_of(u) + pixels_of(v);
    let all = nearest_f64(pixels);
    FrameMeasure {
        y: y.value,
        u: value_of(u),
        v: value_of(v),
        all: with_share(with_share(with_share(0.0, Some(y), all), u, all), v, all),
    }
}

/// Returns the number of pixels of a plane, or 0 if it is missing.
fn pixels_of(plane: Option<CountedMeasure>) -> u128
    ensures value { result ≡ pixels_counted plane }
    ensures bound { result < 2 ^ 64 }
{
    match plane {
        Some(plane) => u128::from(plane.pixels),
        None => 0,
    }
}

/// Returns the measure of a plane, or `None` if it is missing.
fn value_of(plane: Option<CountedMeasure>) -> Option<f64>
    ensures { result ≡ option_map (λ plane. plane.value) plane }
{
    match plane {
        Some(plane) => Some(plane.value),
        None => None,
    }
}

/// Adds the share of a plane to `sum`: its measure, multiplied by its pixels divided by `all`. A missing plane adds nothing.
fn with_share(sum: f64, plane: Option<CountedMeasure>, all: f64) -> f64
    ensures { result ≡ share_added all sum plane }
{
    match plane {
        Some(plane) => sum + nearest_f64(u128::from(plane.pixels)) / all * plane.value,
        None => sum,
    }
}
