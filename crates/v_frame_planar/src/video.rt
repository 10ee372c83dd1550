//! Allocates blank frames of any size.
ghost use Rattle.std.specs.Prelude.{◌≡◌, ◌<◌, None, Err, IfOk, IsOkUnless, MatchOption, option_map};
ghost use Rattle.std.specs.Option.{ForSome};
ghost use Rattle.v_frame.specs.Prelude.{filled, Fits, FrameRequest, IsBlank, ratio_of, refusal_of, tables_of};
ghost use Rattle.v_frame_planar.specs.Planar.{sizes_of};
ghost use Rattle.v_frame_planar.specs.Video.{chroma_sizes_of, covering_geometry, plain_tables, ratio_or_one, video_refusal_of, video_request, HasBlankLuma, IsBlankVideo};

use std::alloc::{AllocError, Global};
use v_frame::chroma::ChromaSubsampling;
use v_frame::frame::{Frame, FrameBuilder, FrameError};
use v_frame::pixel::Pixel;
use v_frame::plane::{Plane, PlaneGeometry};

/// Allocates a frame of `width` by `height` luma pixels, with all pixels zero, including the padding.
///
/// The size need not be a multiple of the chroma subsampling ratio: the sizes of the chroma planes are rounded up, as in video
/// files. The luma plane has at least `padding` pixels of padding on each side, rounded up to a multiple of that ratio. If
/// [`FrameBuilder::build`](v_frame::frame::FrameBuilder::build) accepts the size and these paddings, it builds an equal frame.
///
/// # Errors
///
/// The first of these that applies:
///
/// - [`FrameError::UnsupportedBitDepth`] if `bit_depth` is below 8 or above 16.
/// - [`FrameError::DataTypeMismatch`] if `T` is `u8` and `bit_depth` is not 8, or if `T` is `u16` and `bit_depth` is 8.
/// - [`FrameError::UnsupportedResolution`] if the width or the height is zero, or if the luma plane is too large for the
///   address space.
/// - [`FrameError::OutOfMemory`] if a memory allocation fails.
///
/// The first three are detected before any memory is allocated.
pub fn video_frame<T: Pixel>(
    alloc: Global,
    width: usize,
    height: usize,
    subsampling: ChromaSubsampling,
    bit_depth: u8,
    padding: usize,
) -> Result<Frame<T>, FrameError>
    ensures refused { let request = video_request width height subsampling bit_depth padding in
        MatchOption (video_refusal_of T.BYTES request)
        (IsOkUnless result FrameError.OutOfMemory) (λ e. result ≡ Err e) }
    ensures blank { IfOk result
        (IsBlankVideo T.ZERO (video_request width height subsampling bit_depth padding)) }
    ensures tables { IfOk result (λ frame.
        tables_of frame ≡ plain_tables T.ZERO width height subsampling) }
    ensures sizes { let chroma = chroma_sizes_of subsampling width height in
        IfOk result (λ frame. sizes_of (tables_of frame) ≡ ((width, height), (chroma, chroma))) }
    ensures as_built { let request = video_request width height subsampling bit_depth padding in
        refusal_of T.BYTES request ≡ None → IfOk result (IsBlank T.ZERO request) }
{
    match luma_frame(alloc, width, height, subsampling, bit_depth, padding) {
        Ok(luma) => with_chroma(alloc, luma, subsampling),
        Err(error) => Err(error),
    }
}

/// Allocates a blank frame that has only its luma plane.
fn luma_frame<T: Pixel>(
    alloc: Global,
    width: usize,
    height: usize,
    subsampling: ChromaSubsampling,
    bit_depth: u8,
    padding: usize,
) -> Result<Frame<T>, FrameError>
    ensures refused { let request = video_request width height subsampling bit_depth padding in
        MatchOption (video_refusal_of T.BYTES request)
        (IsOkUnless result FrameError.OutOfMemory) (λ e. result ≡ Err e) }
    ensures blank { let request = video_request width height subsampling bit_depth padding in
        IfOk result (HasBlankLuma T.ZERO request) }
{
    let (columns, rows) = subsample_ratio_or_one(subsampling);
    // If the padding overflows, it saturates, and is rejected when the row or the buffer is found to be too large.
    let across = padding.div_ceil(columns).saturating_mul(columns);
    let down = padding.div_ceil(rows).saturating_mul(rows);
    FrameBuilder::new(width, height, ChromaSubsampling::Monochrome, bit_depth)
        .luma_padding_left(across)
        .luma_padding_right(across)
        .luma_padding_top(down)
        .luma_padding_bottom(down)
        .build(alloc)
}

/// Returns the frame with this luma plane, and with blank chroma planes if the format has chroma.
fn with_chroma<T: Pixel>(
    alloc: Global,
    luma: Frame<T>,
    subsampling: ChromaSubsampling,
) -> Result<Frame<T>, FrameError>
    ensures refused { IsOkUnless result FrameError.OutOfMemory }
    ensures blank { (request : FrameRequest) → HasBlankLuma T.ZERO request luma
        → request.subsampling ≡ subsampling → IfOk result (IsBlankVideo T.ZERO request) }
{
    let chroma = chroma_geometry(luma.y_plane.geometry(), subsampling);
    let (u_plane, v_plane) = chroma_planes(alloc, chroma)?;
    Ok(Frame {
        y_plane: luma.y_plane,
        u_plane,
        v_plane,
        subsampling,
        bit_depth: luma.bit_depth,
    })
}

/// Returns the width and the height in pixels of each chroma plane of a frame of `width` by `height` luma pixels, or `None` if
/// the format has no chroma. Both are rounded up, so that chroma covers luma.
pub fn chroma_size(
    subsampling: ChromaSubsampling,
    width: usize,
    height: usize,
) -> Option<(usize, usize)>
    ensures { result ≡ chroma_sizes_of subsampling width height }
{
    let (columns, rows) = subsampling.subsample_ratio()?;
    let (columns, rows) = (usize::from(columns.get()), usize::from(rows.get()));
    Some((width.div_ceil(columns), height.div_ceil(rows)))
}

/// Returns the number of luma columns for each chroma column, and the number of luma rows for each chroma row. Returns `(1, 1)`
/// if the format has no chroma.
pub fn subsample_ratio_or_one(subsampling: ChromaSubsampling) -> (usize, usize)
    ensures value { result ≡ ratio_or_one subsampling }
    ensures positive { (0 < result.0) × (0 < result.1) }
{
    match subsampling.subsample_ratio() {
        Some((columns, rows)) => (usize::from(columns.get()), usize::from(rows.get())),
        None => (1, 1),
    }
}

/// Returns the geometry of the chroma planes for a luma plane, or `None` if the format has no chroma.
fn chroma_geometry(luma: PlaneGeometry, subsampling: ChromaSubsampling) -> Option<PlaneGeometry>
    requires { Fits luma }
    ensures value { result ≡ option_map (covering_geometry luma) (ratio_of subsampling) }
    ensures fits { ForSome result Fits }
{
    let (ratio_x, ratio_y) = subsampling.subsample_ratio()?;
    let (ratio_x, ratio_y) = (ratio_x.get(), ratio_y.get());
    let (x, y) = (usize::from(ratio_x), usize::from(ratio_y));
    PlaneGeometry::new(
        luma.width().div_ceil(x),
        luma.height().div_ceil(y),
        luma.pad_left() / x,
        luma.pad_right() / x,
        luma.pad_top() / y,
        luma.pad_bottom() / y,
        ratio_x,
        ratio_y,
    )
}

/// Allocates two planes of zeros, or none if there is no geometry.
fn chroma_planes<T: Pixel>(
    alloc: Global,
    geometry: Option<PlaneGeometry>,
) -> Result<(Option<Plane<T>>, Option<Plane<T>>), AllocError>
    requires { ForSome geometry Fits }
    ensures { IfOk result (λ planes. (planes.0 ≡ option_map (filled T.ZERO) geometry)
        × (planes.1 ≡ option_map (filled T.ZERO) geometry)) }
{
    let Some(geometry) = geometry else {
        return Ok((None, None));
    };
    let u_plane = Plane::new(alloc, geometry)?;
    let v_plane = Plane::new(alloc, geometry)?;
    Ok((Some(u_plane), Some(v_plane)))
}
