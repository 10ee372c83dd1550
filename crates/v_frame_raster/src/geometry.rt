//! Geometry: the position and size of the visible rectangle of a plane inside its buffer.
ghost use Rattle.std.specs.Prelude.{◌≡◌, ◌+◌, ◌*◌, ◌<◌, ◌≤◌, IfSome, IsTrue, SomeIff};
ghost use Rattle.v_frame_raster.specs.Geometry.{stride_of, alloc_height_of, alloc_size_of, IsGeometry, IsInside, Fits, usize_max, origin_of, region_geometry, whole_geometry, buffer_region, IsInBuffer};

use crate::chroma::ChromaSubsampling;
use std::marker::Model;

/// The error of a geometry whose sizes and paddings are not all divisible by the subsampling ratio of a format.
///
/// Ports `SubsamplingError` of `v_frame` 0.7.0.
#[derive(Debug, Clone, Copy, PartialEq, Eq)]
pub struct SubsamplingError;

/// The layout of a plane: its visible size, the padding on each side, and its subsampling ratios relative to luma.
///
/// Sizes, paddings and the stride are in pixels. Ports `PlaneGeometry` of `v_frame` 0.7.0.
#[derive(Debug, Clone, Copy, PartialEq, Eq)]
pub struct PlaneGeometry {
    width: usize,
    height: usize,
    stride: usize,
    pad_left: usize,
    pad_right: usize,
    pad_top: usize,
    pad_bottom: usize,
    subsampling_x: u8,
    subsampling_y: u8,
}

impl Model for PlaneGeometry {
    ghost use Rattle.std.specs.Prelude.{◌≡◌, ◌+◌};
    ghost use Rattle.std.proofs.Common.{ap, sym};
    ghost use Rattle.v_frame_raster.specs.Geometry.{Geometry, IsGeometry, geometry_of, stride_of};

    ghost Value = { Geometry };

    ghost view = { λ a. geometry_of a.width a.height a.pad_left a.pad_right a.pad_top a.pad_bottom
        a.subsampling_x a.subsampling_y };

    ghost invariant = { λ a. (a.stride ≡ a.width + a.pad_left + a.pad_right)
        × IsGeometry (geometry_of a.width a.height a.pad_left a.pad_right a.pad_top a.pad_bottom
        a.subsampling_x a.subsampling_y) };

    ghost inverse = { λ g. record {
      width = g.width;
      height = g.height;
      stride = stride_of g;
      pad_left = g.pad_left;
      pad_right = g.pad_right;
      pad_top = g.pad_top;
      pad_bottom = g.pad_bottom;
      subsampling_x = g.subsampling_x;
      subsampling_y = g.subsampling_y;
    } };

    ghost inverse_ok = { λ a h. ap (λ s. record a { stride = s }) (sym h.0) };
}

impl PlaneGeometry {
    ghost use Rattle.v_frame_raster.specs.Geometry.{geometry_of};
    ghost use Rattle.v_frame_raster.specs.Chroma.{is_divisible, divided_geometry, subsampled};

    /// Returns the geometry with the given visible size, paddings and subsampling ratios, all in pixels. Returns `None` if the
    /// width, the height or a ratio is zero, or if `width + pad_left + pad_right` is above `usize::MAX`.
    ///
    /// Ports `PlaneGeometry::new` of `v_frame` 0.7.0.
    pub fn new(
        width: usize,
        height: usize,
        pad_left: usize,
        pad_right: usize,
        pad_top: usize,
        pad_bottom: usize,
        subsampling_x: u8,
        subsampling_y: u8,
    ) -> Option<Self>
        ensures { let g = geometry_of width height pad_left pad_right pad_top pad_bottom
            subsampling_x subsampling_y in SomeIff result (IsGeometry g) g }
    {
        if width == 0 || height == 0 || subsampling_x == 0 || subsampling_y == 0 {
            return None;
        }
        let stride = width.checked_add(pad_left)?.checked_add(pad_right)?;
        Some(PlaneGeometry {
            width,
            height,
            stride,
            pad_left,
            pad_right,
            pad_top,
            pad_bottom,
            subsampling_x,
            subsampling_y,
        })
    }

    /// Returns the geometry of a plane without a border. Returns `None` if the width, the height or a ratio is zero.
    ///
    /// Ports `PlaneGeometry::unpadded` of `v_frame` 0.7.0.
    pub fn unpadded(
        width: usize,
        height: usize,
        subsampling_x: u8,
        subsampling_y: u8,
    ) -> Option<Self>
        ensures { let g = geometry_of width height 0 0 0 0 subsampling_x subsampling_y in
            SomeIff result (IsGeometry g) g }
    {
        Self::new(width, height, 0, 0, 0, 0, subsampling_x, subsampling_y)
    }

    /// Returns the visible width in pixels. It is never zero.
    pub fn width(&self) -> usize
        ensures value { result ≡ self.now.width }
        ensures valid { IsGeometry self.now }
    {
        self.width
    }

    /// Returns the visible height in pixels. It is never zero.
    pub fn height(&self) -> usize
        ensures value { result ≡ self.now.height }
        ensures valid { IsGeometry self.now }
    {
        self.height
    }

    /// Returns the number of pixels from the start of one row of the buffer to the start of the next.
    pub fn stride(&self) -> usize
        ensures { result ≡ stride_of self.now }
    {
        self.stride
    }

    /// Returns the number of border pixels to the left of each visible row.
    pub fn pad_left(&self) -> usize
        ensures { result ≡ self.now.pad_left }
    {
        self.pad_left
    }

    /// Returns the number of border pixels to the right of each visible row.
    pub fn pad_right(&self) -> usize
        ensures { result ≡ self.now.pad_right }
    {
        self.pad_right
    }

    /// Returns the number of border rows above the visible rows.
    pub fn pad_top(&self) -> usize
        ensures { result ≡ self.now.pad_top }
    {
        self.pad_top
    }

    /// Returns the number of border rows below the visible rows.
    pub fn pad_bottom(&self) -> usize
        ensures { result ≡ self.now.pad_bottom }
    {
        self.pad_bottom
    }

    /// Returns the horizontal subsampling ratio: the number of luma columns for each column of the plane.
    pub fn subsampling_x(&self) -> u8
        ensures { result ≡ self.now.subsampling_x }
    {
        self.subsampling_x
    }

    /// Returns the vertical subsampling ratio: the number of luma rows for each row of the plane.
    pub fn subsampling_y(&self) -> u8
        ensures { result ≡ self.now.subsampling_y }
    {
        self.subsampling_y
    }

    /// Returns the number of pixels in the buffer, or `None` if it is above 4611686018427387903, the size of the largest
    /// buffer.
    ///
    /// [`data_origin`](Self::data_origin), [`alloc_height`](Self::alloc_height) and [`alloc_size`](Self::alloc_size) require
    /// that it is `Some`. Not part of `v_frame` 0.7.0.
    pub fn checked_alloc_size(&self) -> Option<usize>
        ensures { SomeIff result (Fits self.now) (alloc_size_of self.now) }
    {
        // A saturated sum or product is above the limit too.
        let rows = self
            .height
            .saturating_add(self.pad_top)
            .saturating_add(self.pad_bottom);
        let size = rows.saturating_mul(self.stride);
        (size <= isize::MAX as usize / 2).then_some(size)
    }

    /// Returns the number of rows in the buffer, including the border. [`checked_alloc_size`](Self::checked_alloc_size) must be
    /// `Some`.
    pub fn alloc_height(&self) -> usize
        requires { Fits self.now }
        ensures { result ≡ alloc_height_of self.now }
    {
        self.height + self.pad_top + self.pad_bottom
    }

    /// Returns the number of pixels in the buffer, including the border. [`checked_alloc_size`](Self::checked_alloc_size) must
    /// be `Some`.
    pub fn alloc_size(&self) -> usize
        requires { Fits self.now }
        ensures { result ≡ alloc_size_of self.now }
    {
        self.alloc_height() * self.stride
    }

    /// Returns the index of the pixel (0, 0) in the buffer. [`checked_alloc_size`](Self::checked_alloc_size) must be `Some`.
    pub fn data_origin(&self) -> usize
        requires { Fits self.now }
        ensures value { result ≡ origin_of self.now }
        ensures within { result < alloc_size_of self.now }
    {
        self.stride * self.pad_top + self.pad_left
    }

    /// Returns the geometry of a rectangle of the visible pixels in the same buffer. The rectangle begins at column `x` of row
    /// `y`. Everything around it becomes border, and the subsampling ratios are unchanged.
    ///
    /// Returns `None` if the rectangle is empty or does not lie inside the visible one.
    /// [`checked_alloc_size`](Self::checked_alloc_size) must be `Some`. Not part of `v_frame` 0.7.0.
    pub fn region(&self, x: usize, y: usize, width: usize, height: usize) -> Option<Self>
        requires { Fits self.now }
        ensures value { SomeIff result (IsInside self.now x y width height)
            (region_geometry self.now x y width height) }
        ensures size { IfSome result (λ region. alloc_size_of region ≡ alloc_size_of self.now) }
    {
        // No buffer is so large that a saturated sum could lie inside it.
        let right = x.saturating_add(width);
        let bottom = y.saturating_add(height);
        if width == 0 || height == 0 || right > self.width || bottom > self.height {
            return None;
        }
        Some(self.visible_region(x, y, width, height))
    }

    /// Returns the geometry of a rectangle of the visible pixels in the same buffer, as [`region`](Self::region) does. The
    /// rectangle must not be empty, and must lie inside the visible one.
    ///
    /// [`checked_alloc_size`](Self::checked_alloc_size) must be `Some`. Not part of `v_frame` 0.7.0.
    pub fn visible_region(&self, x: usize, y: usize, width: usize, height: usize) -> Self
        requires fits { Fits self.now }
        requires inside { IsInside self.now x y width height }
        ensures value { result ≡ region_geometry self.now x y width height }
        ensures size { alloc_size_of result ≡ alloc_size_of self.now }
    {
        PlaneGeometry {
            width,
            height,
            stride: self.stride,
            pad_left: self.pad_left + x,
            pad_right: self.width - (x + width) + self.pad_right,
            pad_top: self.pad_top + y,
            pad_bottom: self.height - (y + height) + self.pad_bottom,
            subsampling_x: self.subsampling_x,
            subsampling_y: self.subsampling_y,
        }
    }

    /// Returns the geometry of a rectangle in the same buffer, as [`region`](Self::region) does, but the rectangle may extend
    /// into the border. Column `x` and row `y` are counted from the first visible pixel, so columns to its left and rows above
    /// it are negative.
    ///
    /// Returns `None` if the rectangle is empty or does not lie inside the buffer.
    /// [`checked_alloc_size`](Self::checked_alloc_size) must be `Some`. Not part of `v_frame` 0.7.0.
    pub fn region_with_border(
        &self,
        x: isize,
        y: isize,
        width: usize,
        height: usize,
    ) -> Option<Self>
        requires { Fits self.now }
        ensures value { SomeIff result (IsInBuffer self.now x y width height)
            (buffer_region self.now x y width height) }
        ensures size { IfSome result (λ region. alloc_size_of region ≡ alloc_size_of self.now) }
    {
        let left = self.pad_left.checked_add_signed(x)?;
        let top = self.pad_top.checked_add_signed(y)?;
        self.whole_buffer().region(left, top, width, height)
    }

    /// Returns the geometry of the whole buffer as a picture without a border. The subsampling ratios are unchanged.
    ///
    /// With this geometry, a call that reads or writes the visible rows reads or writes all rows of the buffer, including the
    /// border. [`checked_alloc_size`](Self::checked_alloc_size) must be `Some`, and the result has the same buffer size. Not
    /// part of `v_frame` 0.7.0.
    pub fn whole_buffer(&self) -> Self
        requires { Fits self.now }
        ensures value { result ≡ whole_geometry self.now }
        ensures size { alloc_size_of result ≡ alloc_size_of self.now }
    {
        PlaneGeometry {
            width: self.stride,
            height: self.alloc_height(),
            stride: self.stride,
            pad_left: 0,
            pad_right: 0,
            pad_top: 0,
            pad_bottom: 0,
            subsampling_x: self.subsampling_x,
            subsampling_y: self.subsampling_y,
        }
    }

    /// Returns the geometry of the chroma planes for a luma plane with this geometry.
    ///
    /// Returns `None` for [`ChromaSubsampling::Monochrome`], and this geometry itself for [`ChromaSubsampling::Yuv444`]. For
    /// the other formats, sizes and paddings are divided by the ratios of the format, and the result has these ratios, whatever
    /// `self` has.
    ///
    /// Ports `PlaneGeometry::for_subsampling` of `v_frame` 0.7.0.
    ///
    /// # Errors
    ///
    /// [`SubsamplingError`] if one of the six sizes and paddings is not divisible by the ratio of the format.
    pub fn for_subsampling(
        self,
        subsampling: ChromaSubsampling,
    ) -> Result<Option<Self>, SubsamplingError>
        ensures { result ≡ subsampled subsampling self }
    {
        if subsampling == ChromaSubsampling::Yuv444 {
            return Ok(Some(self));
        }
        let Some((ratio_x, ratio_y)) = subsampling.subsample_ratio() else {
            return Ok(None);
        };
        self.divided(ratio_x.get(), ratio_y.get())
            .map(Some)
            .ok_or(SubsamplingError)
    }

    /// Returns the geometry with its columns divided by `ratio_x` and its rows by `ratio_y`, or `None` if one is not divisible.
    fn divided(self, ratio_x: u8, ratio_y: u8) -> Option<Self>
        requires ratio_x { 0 < ratio_x }
        requires ratio_y { 0 < ratio_y }
        ensures { SomeIff result (IsTrue (is_divisible ratio_x ratio_y self))
            (divided_geometry ratio_x ratio_y self) }
    {
        let x = usize::from(ratio_x);
        let y = usize::from(ratio_y);
        if self.width % x != 0 || self.pad_left % x != 0 || self.pad_right % x != 0 {
            return None;
        }
        if self.height % y != 0 || self.pad_top % y != 0 || self.pad_bottom % y != 0 {
            return None;
        }
        let (width, pad_left, pad_right) = (self.width / x, self.pad_left / x, self.pad_right / x);
        Some(PlaneGeometry {
            width,
            height: self.height / y,
            stride: width + pad_left + pad_right,
            pad_left,
            pad_right,
            pad_top: self.pad_top / y,
            pad_bottom: self.pad_bottom / y,
            subsampling_x: ratio_x,
            subsampling_y: ratio_y,
        })
    }
}
