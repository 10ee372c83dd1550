//! Whole frames converted to another bit depth and chroma format.
ghost use Rattle.std.specs.Prelude.{◌≡◌, ◌≢◌, ◌-◌, ◌^◌, ◌↔◌, IsTrue, option_map};
ghost use Rattle.std.specs.Int.NonZero.{non_zero_u8_get};
ghost use Rattle.v_frame.specs.Prelude.{border_and_geometry, table_of, tables_of, KeepsBorders};
ghost use Rattle.v_frame_convert.specs.Depth.{DepthFits};
ghost use Rattle.v_frame_convert.specs.Frame.{chroma_of, column_scale, converted_tables, line_scale, scales_between, AreChromaSizes, ChromaFits, FramesFit, FramesMatch, HaveChromaSizes, IsChromaSize};
ghost use Rattle.v_frame_convert.specs.declared.scale.Scale.TheVariants.{Quarter};

use crate::depth::convert_depth;
use crate::pixel::depth_fits;
use crate::scale::{Scale, resample, sizes_fit};
use v_frame::chroma::ChromaSubsampling;
use v_frame::frame::Frame;
use v_frame::pixel::Pixel;
use v_frame::plane::Plane;
use v_frame_ops::fill;

/// Converts `source` to the bit depth and the chroma format of `target` and writes it into `target`. The padding stays
/// unchanged.
///
/// The luma plane is converted as by [`convert_depth`], and each chroma plane of `target` as by [`resample`]. If the target
/// format has fewer chroma samples, they are means of blocks, sited at the center of the luma samples that they cover. If it
/// has more, chroma samples are repeated. Chroma planes that `target` does not have are dropped. If `source` has no chroma
/// plane, the plane of `target` is filled with the neutral value `2^(depth - 1)`.
///
/// [`frames_fit`] tests whether the two frames fit: the luma planes must have the same size, and the chroma planes the sizes
/// that their formats require. Two frames that `FrameBuilder` built with the same luma size fit if each format divides that
/// size.
pub fn convert_frame<S: Pixel, T: Pixel>(source: &Frame<S>, target: &mut Frame<T>)
    requires { FramesFit S.BYTES T.BYTES source.now target.old }
    ensures tables { tables_of target.new
        ≡ converted_tables S.form T.form source.now target.old }
    ensures borders { KeepsBorders target.old target.new }
{
    let (from, to) = (source.bit_depth.get(), target.bit_depth.get());
    let (across, down) = scales_of(source.subsampling, target.subsampling);
    convert_depth(
        &source.y_plane.as_plane_ref(),
        &mut target.y_plane,
        from,
        to,
    );
    convert_chroma(&source.u_plane, &mut target.u_plane, across, down, from, to);
    convert_chroma(&source.v_plane, &mut target.v_plane, across, down, from, to);
}

/// Returns whether [`convert_frame`] can convert `source` into `target`: the luma planes have the same size, each bit depth
/// fits its type of pixels, and chroma planes that both frames have are as large as their formats require, rounded up.
///
/// A plane in a chroma field of a monochrome frame must have the size of the luma plane, and fits only a plane of the same
/// size.
pub fn frames_fit<S: Pixel, T: Pixel>(source: &Frame<S>, target: &Frame<T>) -> bool
    ensures { IsTrue result ↔ FramesMatch S.BYTES T.BYTES source.now target.now }
{
    planes_fit(source, target) && have_all_chroma_sizes(source, target)
}

/// Returns whether the sizes of all planes correspond, and each bit depth fits its type of pixels.
fn planes_fit<S: Pixel, T: Pixel>(source: &Frame<S>, target: &Frame<T>) -> bool
    ensures { IsTrue result ↔ FramesFit S.BYTES T.BYTES source.now target.now }
{
    let (across, down) = scales_of(source.subsampling, target.subsampling);
    source.y_plane.width() == target.y_plane.width()
        && source.y_plane.height() == target.y_plane.height()
        && depth_fits::<S>(source.bit_depth.get())
        && depth_fits::<T>(target.bit_depth.get())
        && chroma_fits(&source.u_plane, &target.u_plane, across, down)
        && chroma_fits(&source.v_plane, &target.v_plane, across, down)
}

/// Returns whether the chroma planes that both frames have are as large as their formats require.
fn have_all_chroma_sizes<S: Pixel, T: Pixel>(source: &Frame<S>, target: &Frame<T>) -> bool
    ensures { IsTrue result ↔ HaveChromaSizes source.now target.now }
{
    have_chroma_sizes(source, target, &source.u_plane, &target.u_plane)
        && have_chroma_sizes(source, target, &source.v_plane, &target.v_plane)
}

/// Returns whether the sizes of two chroma planes correspond. This holds if one of the planes is missing.
fn chroma_fits<S, T>(
    source: &Option<Plane<S>>,
    target: &Option<Plane<T>>,
    across: Scale,
    down: Scale,
) -> bool
    ensures { IsTrue result ↔ ChromaFits (across, down) source.now target.now }
{
    match (source, target) {
        (Some(source), Some(target)) => {
            sizes_fit(across, source.width(), target.width())
                && sizes_fit(down, source.height(), target.height())
        }
        _ => true,
    }
}

/// Returns whether two chroma planes are as large as the formats of their frames require. This holds if one of the planes is
/// missing.
fn have_chroma_sizes<S: Pixel, T: Pixel>(
    source: &Frame<S>,
    target: &Frame<T>,
    from: &Option<Plane<S>>,
    to: &Option<Plane<T>>,
) -> bool
    ensures { IsTrue result ↔ AreChromaSizes source.now target.now from.now to.now }
{
    match (from, to) {
        (Some(from), Some(to)) => are_chroma_sizes(source, target, from, to),
        _ => true,
    }
}

/// Returns whether both chroma planes are as large as the formats of their frames require.
fn are_chroma_sizes<S: Pixel, T: Pixel>(
    source: &Frame<S>,
    target: &Frame<T>,
    from: &Plane<S>,
    to: &Plane<T>,
) -> bool
    ensures { IsTrue result ↔ (IsChromaSize source.now.subsampling
        source.now.y_plane.geometry.width source.now.y_plane.geometry.height from.now
        × IsChromaSize target.now.subsampling
        target.now.y_plane.geometry.width target.now.y_plane.geometry.height to.now) }
{
    is_chroma_size(source.subsampling, &source.y_plane, from)
        && is_chroma_size(target.subsampling, &target.y_plane, to)
}

/// Returns whether a chroma plane is as large as its format requires for this luma plane.
fn is_chroma_size<T: Pixel>(format: ChromaSubsampling, luma: &Plane<T>, chroma: &Plane<T>) -> bool
    ensures { IsTrue result ↔ IsChromaSize format luma.now.geometry.width luma.now.geometry.height
        chroma.now }
{
    let (across, down) = scales_of(format, ChromaSubsampling::Yuv444);
    sizes_fit(across, chroma.width(), luma.width())
        && sizes_fit(down, chroma.height(), luma.height())
}

/// Returns the scale of columns and the scale of rows between the chroma planes of two formats.
fn scales_of(source: ChromaSubsampling, target: ChromaSubsampling) -> (Scale, Scale)
    ensures value { result ≡ scales_between source target }
    ensures pairs { result.1 ≢ Quarter }
{
    match (source.subsample_ratio(), target.subsample_ratio()) {
        (Some((from_x, from_y)), Some((to_x, to_y))) => (
            columns_of(from_x.get(), to_x.get()),
            lines_of(from_y.get(), to_y.get()),
        ),
        _ => (Scale::Same, Scale::Same),
    }
}

/// Returns the scale of chroma columns from a format with `from` luma columns for each chroma column to a format with `to`.
fn columns_of(from: u8, to: u8) -> Scale
    ensures { result ≡ column_scale from to }
{
    let (from, to) = (u16::from(from), u16::from(to));
    if from == to {
        Scale::Same
    } else if from == 2 * to {
        Scale::Double
    } else if from == 4 * to {
        Scale::Quadruple
    } else if to == 2 * from {
        Scale::Half
    } else {
        Scale::Quarter
    }
}

/// Returns the scale of chroma rows from a format with `from` luma rows for each chroma row to a format with `to`.
fn lines_of(from: u8, to: u8) -> Scale
    ensures value { result ≡ line_scale from to }
    ensures pairs { result ≢ Quarter }
{
    let (from, to) = (u16::from(from), u16::from(to));
    if from == to {
        Scale::Same
    } else if from == 2 * to {
        Scale::Double
    } else {
        Scale::Half
    }
}

/// Converts a chroma plane to another size and depth and writes it into the chroma plane of the target, if the target has one.
/// If the source has none, the target plane is filled with the neutral value.
fn convert_chroma<S: Pixel, T: Pixel>(
    source: &Option<Plane<S>>,
    target: &mut Option<Plane<T>>,
    across: Scale,
    down: Scale,
    from: u8,
    to: u8,
)
    requires sizes { ChromaFits (across, down) source.now target.old }
    requires pairs { down ≢ Quarter }
    requires from { DepthFits S.BYTES from }
    requires to { DepthFits T.BYTES to }
    ensures table { option_map table_of target.new
        ≡ chroma_of S.form T.form from to (across, down) source.now target.old }
    ensures border { option_map border_and_geometry target.new
        ≡ option_map border_and_geometry target.old }
{
    if let Some(target) = target {
        match source {
            Some(source) => resample(&source.as_plane_ref(), target, across, down, from, to),
            None => fill(target, middle(to)),
        }
    }
}

/// Returns the pixel of the neutral chroma value of a bit depth, `2^(depth - 1)`.
fn middle<T: Pixel>(depth: u8) -> T
    requires { DepthFits T.BYTES depth }
    ensures { result ≡ T.form.pixel_of (2 ^ (depth - 1)) }
{
    T::from_value(1 << (depth - 1))
}
