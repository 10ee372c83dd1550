//! The semi-planar layouts, and the frames that fit them.
ghost use Rattle.std.specs.Prelude.{◌≡◌, ◌*◌, ◌<◌, ◌≤◌, ◌↔◌, option_map, IfErr, IsTrue, OnOk, Some};
ghost use Rattle.v_frame.specs.Prelude.{table_of};
ghost use Rattle.v_frame_planar.specs.Planar.{size_of};
ghost use Rattle.v_frame_planar.specs.Video.{chroma_sizes_of};
ghost use Rattle.v_frame_semi_planar.specs.Format.{begins_with_v, depth_of, sample_size_of, subsampling_of, unused_bits, HasLayout, RefusedFor};

use crate::error::SemiPlanarError;
use v_frame::chroma::ChromaSubsampling;
use v_frame::frame::Frame;
use v_frame::pixel::Pixel;
use v_frame::plane::Plane;
use v_frame_planar::subsample_ratio_or_one;

/// A semi-planar layout, named after the pixel format of ffmpeg. The rows of luma come first, followed by rows in which U and V
/// samples are interleaved. The size of the chroma planes is rounded up, so that chroma covers luma.
#[derive(Debug, Clone, Copy, PartialEq, Eq)]
pub enum SemiPlanarFormat {
    /// 8-bit samples, chroma at half the width and half the height, U first.
    Nv12,
    /// 8-bit samples, chroma at half the width and half the height, V first.
    Nv21,
    /// 8-bit samples, chroma at half the width and the full height.
    Nv16,
    /// 8-bit samples, chroma at full size.
    Nv24,
    /// 10-bit samples in the top bits of little-endian 16-bit words, chroma at half the width and half the height.
    P010,
    /// 12-bit samples in the top bits of little-endian 16-bit words, chroma at half the width and half the height.
    P012,
    /// 16-bit little-endian samples, chroma at half the width and half the height.
    P016,
}

impl SemiPlanarFormat {
    /// Returns the chroma subsampling of frames in this layout.
    pub fn subsampling(self) -> ChromaSubsampling
        ensures { result ≡ subsampling_of self }
    {
        match self {
            SemiPlanarFormat::Nv16 => ChromaSubsampling::Yuv422,
            SemiPlanarFormat::Nv24 => ChromaSubsampling::Yuv444,
            _ => ChromaSubsampling::Yuv420,
        }
    }

    /// Returns the number of bits of a sample.
    pub fn bit_depth(self) -> u8
        ensures value { result ≡ depth_of self }
        ensures fits { result ≤ 8 * sample_size_of self }
    {
        match self {
            SemiPlanarFormat::P010 => 10,
            SemiPlanarFormat::P012 => 12,
            SemiPlanarFormat::P016 => 16,
            _ => 8,
        }
    }

    /// Returns the number of bytes of a sample: 1 for 8 bits, and 2 for more.
    pub fn sample_size(self) -> usize
        ensures { result ≡ sample_size_of self }
    {
        match self {
            SemiPlanarFormat::P010 | SemiPlanarFormat::P012 | SemiPlanarFormat::P016 => 2,
            _ => 1,
        }
    }

    /// Returns the number of low bits that a sample leaves unused in its bytes.
    pub fn unused_bits(self) -> u32
        ensures value { result ≡ unused_bits self }
        ensures few { result < 8 }
    {
        match self {
            SemiPlanarFormat::P010 => 6,
            SemiPlanarFormat::P012 => 4,
            _ => 0,
        }
    }

    /// Returns whether V comes before U.
    pub fn begins_with_v(self) -> bool
        ensures { result ≡ begins_with_v self }
    {
        self == SemiPlanarFormat::Nv21
    }

    /// Returns the width and the height, in pixels, of each chroma plane of a frame of `width` by `height` luma pixels. Both
    /// are rounded up.
    pub fn chroma_size(self, width: usize, height: usize) -> (usize, usize)
        ensures { Some result ≡ chroma_sizes_of (subsampling_of self) width height }
    {
        let (columns, rows) = subsample_ratio_or_one(self.subsampling());
        (width.div_ceil(columns), height.div_ceil(rows))
    }
}

/// Tests whether `frame` fits the layout `format`, so that [`write_frame`](crate::write_frame) can write it and
/// [`read_frame`](crate::read_frame) can read into it.
///
/// # Errors
///
/// The first of these that applies:
///
/// - [`SemiPlanarError::BitDepth`] if the bit depths differ, or if the pixel type is not `u8` for 8 bits and `u16` for more.
/// - [`SemiPlanarError::Subsampling`] if the chroma subsamplings differ.
/// - [`SemiPlanarError::ChromaSize`] if a chroma plane is missing or does not have the
///   [`chroma_size`](SemiPlanarFormat::chroma_size) that belongs to the luma plane.
pub fn check_layout<T: Pixel>(
    frame: &Frame<T>,
    format: SemiPlanarFormat,
) -> Result<(), SemiPlanarError>
    ensures ok { OnOk result (HasLayout T.form.size format frame.now) }
    ensures error { IfErr result (RefusedFor T.form.size format frame.now) }
{
    if T::BYTES != format.sample_size() || frame.bit_depth.get() != format.bit_depth() {
        return Err(SemiPlanarError::BitDepth);
    }
    if frame.subsampling != format.subsampling() {
        return Err(SemiPlanarError::Subsampling);
    }
    let size = format.chroma_size(frame.y_plane.width(), frame.y_plane.height());
    if !has_size(&frame.u_plane, size) || !has_size(&frame.v_plane, size) {
        return Err(SemiPlanarError::ChromaSize);
    }
    Ok(())
}

/// Returns whether a plane is present and has this width and height.
fn has_size<T: Pixel>(plane: &Option<Plane<T>>, size: (usize, usize)) -> bool
    ensures { IsTrue result ↔ (option_map size_of (option_map table_of plane.now) ≡ Some size) }
{
    match plane {
        Some(plane) => plane.width() == size.0 && plane.height() == size.1,
        None => false,
    }
}
