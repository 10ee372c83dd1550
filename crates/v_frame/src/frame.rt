//! Frames: the planes of one picture, and the builder that allocates them.
ghost use Rattle.std.specs.Prelude.{◌≡◌, ◌<◌, ◌≤◌, ◌&&◌, Ok, Err, is_ok, None, Some, OnOk, IfOk, IfErr, IfSome, ◌⊎◌, option_map, IsOkUnless, IsTrue, MatchOption, SomeIff, option_copied};
ghost use Rattle.std.specs.Option.{ForSome, option_copied_mut};
ghost use Rattle.std.specs.Borrow.{sem};
ghost use Rattle.std.specs.Int.NonZero.{non_zero_u8_get};
ghost use Rattle.v_frame_raster.specs.Geometry.{Fits};
ghost use Rattle.v_frame_raster.specs.Raster.{filled};
ghost use Rattle.v_frame.specs.Frame.{plane_at};
ghost use Rattle.v_frame.specs.Lends.{LendsPlane};

mod error;

use crate::chroma::ChromaSubsampling;
use crate::pixel::Pixel;
use crate::plane::{Plane, PlaneGeometry};
pub use error::FrameError;
use std::alloc::{AllocError, Global};
use std::marker::Model;
use std::num::NonZeroU8;

/// The planes of one picture: luma, and two chroma planes unless the format is monochrome.
///
/// The fields are public. A plane may be replaced by one of another size, because every call on a plane uses the plane's own
/// geometry. Ports `Frame` of `v_frame` 0.7.0.
#[derive(Debug, PartialEq, Eq, Drop)]
pub struct Frame<T: Pixel> {
    /// The luma plane.
    pub y_plane: Plane<T>,
    /// The first chroma plane, or `None` if the frame has no chroma.
    pub u_plane: Option<Plane<T>>,
    /// The second chroma plane, or `None` if the frame has no chroma.
    pub v_plane: Option<Plane<T>>,
    /// The chroma subsampling format.
    pub subsampling: ChromaSubsampling,
    /// The number of significant bits of a pixel. No call compares pixel values with it.
    pub bit_depth: NonZeroU8,
}

impl<T: Pixel> Frame<T> {
    /// Returns the plane with the given index: 0 is Y, 1 is U and 2 is V. Returns `None` if the frame has no such plane, and
    /// for every other index.
    ///
    /// Ports `Frame::plane` of `v_frame` 0.7.0.
    pub fn plane(&self, index: usize) -> Option<&Plane<T>>
        ensures { option_copied result ≡ plane_at self.now index }
    {
        match index {
            0 => Some(&self.y_plane),
            1 => self.u_plane.as_ref(),
            2 => self.v_plane.as_ref(),
            _ => None,
        }
    }

    /// Returns a copy of the frame in newly allocated buffers, including the borders.
    ///
    /// Ports `Frame::clone` of `v_frame` 0.7.0.
    ///
    /// # Errors
    ///
    /// [`AllocError`] if the memory for a plane cannot be allocated. Planes that were already copied are freed.
    pub fn clone(&self, alloc: Global) -> Result<Self, AllocError>
        ensures { IfOk result (λ copy. copy ≡ self.now) }
    {
        Ok(Frame {
            y_plane: self.y_plane.clone(alloc)?,
            u_plane: clone_chroma(alloc, &self.u_plane)?,
            v_plane: clone_chroma(alloc, &self.v_plane)?,
            subsampling: self.subsampling,
            bit_depth: self.bit_depth,
        })
    }

    /// Returns the plane with the given index for writing: 0 is Y, 1 is U and 2 is V. Returns `None` if the frame has no such
    /// plane, and for every other index.
    ///
    /// Ports `Frame::plane_mut` of `v_frame` 0.7.0.
    pub fn plane_mut(&mut self, index: usize) -> Option<&mut Plane<T>>
        ensures* writes_back { sem 𝓛 (LendsPlane T.row self.entry index result) }
        ensures value { option_copied_mut result ≡ plane_at self.old index }
    {
        match index {
            0 => Some(&mut self.y_plane),
            1 => self.u_plane.as_mut(),
            2 => self.v_plane.as_mut(),
            _ => None,
        }
    }
}

/// A builder of frames: the luma size, the format, the bit depth and the luma padding. The setters can be chained.
///
/// Ports `FrameBuilder` of `v_frame` 0.7.0.
#[derive(Drop)]
pub struct FrameBuilder {
    width: usize,
    height: usize,
    subsampling: ChromaSubsampling,
    bit_depth: u8,
    luma_padding_left: usize,
    luma_padding_right: usize,
    luma_padding_top: usize,
    luma_padding_bottom: usize,
}

impl Model for FrameBuilder {
    ghost use Rattle.v_frame.specs.Build.{FrameRequest};

    ghost Value = { FrameRequest };

    ghost view = { λ a. record {
      width = a.width;
      height = a.height;
      subsampling = a.subsampling;
      bit_depth = a.bit_depth;
      pad_left = a.luma_padding_left;
      pad_right = a.luma_padding_right;
      pad_top = a.luma_padding_top;
      pad_bottom = a.luma_padding_bottom;
    } };
}

impl FrameBuilder {
    ghost use Rattle.v_frame.specs.Build.{FrameRequest, luma_geometry, is_laid_out, refusal_of, chroma_geometry, IsBlank};
    ghost use Rattle.v_frame_raster.specs.Chroma.{subsampled};

    /// Returns a builder for frames of `width` by `height` luma pixels, with the given format and bit depth and without
    /// padding.
    ///
    /// The values are checked by [`build`](Self::build). Ports `FrameBuilder::new` of `v_frame` 0.7.0.
    pub fn new(width: usize, height: usize, subsampling: ChromaSubsampling, bit_depth: u8) -> Self
        ensures size { (result.width ≡ width) × (result.height ≡ height) }
        ensures format { (result.subsampling ≡ subsampling) × (result.bit_depth ≡ bit_depth) }
        ensures unpadded { (result.pad_left ≡ 0) × (result.pad_right ≡ 0)
            × (result.pad_top ≡ 0) × (result.pad_bottom ≡ 0) }
    {
        FrameBuilder {
            width,
            height,
            subsampling,
            bit_depth,
            luma_padding_left: 0,
            luma_padding_right: 0,
            luma_padding_top: 0,
            luma_padding_bottom: 0,
        }
    }

    /// Sets the number of border pixels to the left of each visible luma row. The chroma planes are padded in proportion.
    ///
    /// Ports `FrameBuilder::luma_padding_left` of `v_frame` 0.7.0.
    #[must_use]
    pub fn luma_padding_left(mut self, luma_padding_left: usize) -> Self
        ensures { result ≡ record self { pad_left = luma_padding_left } }
    {
        self.luma_padding_left = luma_padding_left;
        self
    }

    /// Sets the number of border pixels to the right of each visible luma row. The chroma planes are padded in proportion.
    ///
    /// Ports `FrameBuilder::luma_padding_right` of `v_frame` 0.7.0.
    #[must_use]
    pub fn luma_padding_right(mut self, luma_padding_right: usize) -> Self
        ensures { result ≡ record self { pad_right = luma_padding_right } }
    {
        self.luma_padding_right = luma_padding_right;
        self
    }

    /// Sets the number of border rows above the visible luma rows. The chroma planes are padded in proportion.
    ///
    /// Ports `FrameBuilder::luma_padding_top` of `v_frame` 0.7.0.
    #[must_use]
    pub fn luma_padding_top(mut self, luma_padding_top: usize) -> Self
        ensures { result ≡ record self { pad_top = luma_padding_top } }
    {
        self.luma_padding_top = luma_padding_top;
        self
    }

    /// Sets the number of border rows below the visible luma rows. The chroma planes are padded in proportion.
    ///
    /// Ports `FrameBuilder::luma_padding_bottom` of `v_frame` 0.7.0.
    #[must_use]
    pub fn luma_padding_bottom(mut self, luma_padding_bottom: usize) -> Self
        ensures { result ≡ record self { pad_bottom = luma_padding_bottom } }
    {
        self.luma_padding_bottom = luma_padding_bottom;
        self
    }

    /// Allocates the frame. All pixels are zero, including those of the borders.
    ///
    /// Ports `FrameBuilder::build` of `v_frame` 0.7.0.
    ///
    /// # Errors
    ///
    /// The conditions are checked in this order. The first three are checked before any memory is allocated.
    ///
    /// - [`FrameError::UnsupportedBitDepth`] if the bit depth is below 8 or above 16.
    /// - [`FrameError::DataTypeMismatch`] if the pixel type is `u8` and the bit depth is not 8, or if the pixel type is `u16`
    ///   and the bit depth is 8.
    /// - [`FrameError::UnsupportedResolution`] if the width or the height is zero, if a row or a buffer is too large, or if a
    ///   luma size or padding is not divisible by the subsampling ratio of the format.
    /// - [`FrameError::OutOfMemory`] if the memory for a plane cannot be allocated.
    pub fn build<T: Pixel>(self, alloc: Global) -> Result<Frame<T>, FrameError>
        ensures refused { MatchOption (refusal_of T.BYTES self)
            (IsOkUnless result FrameError.OutOfMemory) (λ e. result ≡ Err e) }
        ensures blank { IfOk result (IsBlank T.ZERO self) }
    {
        let (bit_depth, luma, chroma) = self.checked::<T>()?;
        Ok(Frame {
            y_plane: Plane::new(alloc, luma)?,
            u_plane: chroma_plane(alloc, chroma)?,
            v_plane: chroma_plane(alloc, chroma)?,
            subsampling: self.subsampling,
            bit_depth,
        })
    }

    /// Returns the bit depth and the geometries of a frame of `T` pixels, or the first error that applies.
    fn checked<T: Pixel>(
        &self,
    ) -> Result<(NonZeroU8, PlaneGeometry, Option<PlaneGeometry>), FrameError>
        ensures refused { IfErr result (λ e. refusal_of T.BYTES self.now ≡ Some e) }
        ensures accepted { OnOk result (refusal_of T.BYTES self.now ≡ None) }
        ensures parts { IfOk result (λ parts. (non_zero_u8_get parts.0 ≡ self.now.bit_depth)
            × (parts.1 ≡ luma_geometry self.now) × (parts.2 ≡ chroma_geometry self.now)) }
        ensures divides { OnOk result (subsampled self.now.subsampling (luma_geometry self.now)
            ≡ Ok (chroma_geometry self.now)) }
        ensures fit { IfOk result (λ parts. Fits parts.1 × ForSome parts.2 Fits) }
    {
        let bit_depth = checked_depth(self.bit_depth)?;
        let depth = self.bit_depth;
        if (T::BYTES == 1 && depth != 8) || (T::BYTES == 2 && depth == 8) {
            return Err(FrameError::DataTypeMismatch);
        }
        match self.geometries() {
            Some((luma, chroma)) => Ok((bit_depth, luma, chroma)),
            None => Err(FrameError::UnsupportedResolution),
        }
    }

    /// Returns the geometries of the luma plane and of the chroma planes, or `None` if one of them cannot be laid out.
    fn geometries(&self) -> Option<(PlaneGeometry, Option<PlaneGeometry>)>
        ensures laid_out { let luma = luma_geometry self.now in SomeIff result
            (IsTrue (is_laid_out luma && is_ok (subsampled self.now.subsampling luma)))
            (luma, chroma_geometry self.now) }
        ensures fit { IfSome result (λ both. Fits both.0 × ForSome both.1 Fits) }
    {
        let luma = PlaneGeometry::new(
            self.width,
            self.height,
            self.luma_padding_left,
            self.luma_padding_right,
            self.luma_padding_top,
            self.luma_padding_bottom,
            1,
            1,
        )?;
        luma.checked_alloc_size()?;
        let chroma = luma.for_subsampling(self.subsampling).ok()?;
        Some((luma, chroma))
    }
}

/// Returns a chroma plane of zeros, or `None` if `geometry` is `None`.
fn chroma_plane<T: Pixel>(
    alloc: Global,
    geometry: Option<PlaneGeometry>,
) -> Result<Option<Plane<T>>, AllocError>
    requires { ForSome geometry Fits }
    ensures { IfOk result (λ plane. plane ≡ option_map (filled T.ZERO) geometry) }
{
    geometry
        .map(|geometry| Plane::new(alloc, geometry))
        .transpose()
}

/// Returns the bit depth if it is from 8 to 16.
fn checked_depth(found: u8) -> Result<NonZeroU8, FrameError>
    ensures ok { IfOk result (λ depth.
        (8 ≤ found) × (found ≤ 16) × (non_zero_u8_get depth ≡ found)) }
    ensures refused { IfErr result (λ e.
        ((found < 8) ⊎ (16 < found)) × (e ≡ FrameError.UnsupportedBitDepth found)) }
{
    match NonZeroU8::new(found) {
        Some(depth) if 8 <= found && found <= 16 => Ok(depth),
        _ => Err(FrameError::UnsupportedBitDepth { found }),
    }
}

/// Returns a copy of a plane, or `None` if `plane` is `None`.
fn clone_chroma<T: Pixel>(
    alloc: Global,
    plane: &Option<Plane<T>>,
) -> Result<Option<Plane<T>>, AllocError>
    ensures { IfOk result (λ copy. copy ≡ plane.now) }
{
    match plane {
        Some(plane) => Ok(Some(plane.clone(alloc)?)),
        None => Ok(None),
    }
}
