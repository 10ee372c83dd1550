//! Chroma subsampling: the ratio of luma samples to chroma samples in each direction.

ghost use Rattle.std.specs.Prelude.{◌≡◌, is_some, option_map};
ghost use Rattle.std.specs.Int.NonZero.{non_zero_u8_get};
ghost use Rattle.v_frame_raster.specs.Chroma.{ratio_of, chroma_size_of};

use std::num::NonZeroU8;

/// The chroma subsampling format of a frame: how much smaller the chroma planes are than the luma plane.
///
/// Ports `ChromaSubsampling` of `v_frame` 0.7.0, which has no [`Yuv411`](Self::Yuv411).
#[derive(Debug, Clone, Copy, PartialEq, Eq)]
pub enum ChromaSubsampling {
    /// Chroma has half the width and half the height of luma.
    Yuv420,
    /// Chroma has half the width and the full height of luma.
    Yuv422,
    /// Chroma has the size of luma.
    Yuv444,
    /// The frame has only luma.
    Monochrome,
    /// Chroma has a quarter of the width and the full height of luma, as in DV video. `v_frame` 0.7.0 has no such variant. It
    /// comes last so that the other variants keep their discriminants.
    Yuv411,
}

impl ChromaSubsampling {
    /// Returns whether frames of this format have chroma planes.
    ///
    /// Ports `ChromaSubsampling::has_chroma` of `v_frame` 0.7.0.
    pub fn has_chroma(&self) -> bool
        ensures { result ≡ is_some (ratio_of self.now) }
    {
        *self != ChromaSubsampling::Monochrome
    }

    /// Returns the width and the height of each chroma plane, in pixels, for a luma plane of `luma_width` by `luma_height`
    /// pixels. Returns `None` if the format has no chroma planes, or if the luma size is not divisible by the subsampling
    /// ratio.
    ///
    /// Ports `ChromaSubsampling::chroma_dimensions` of `v_frame` 0.7.0.
    pub fn chroma_dimensions(&self, luma_width: usize, luma_height: usize) -> Option<(usize, usize)>
        ensures { result ≡ chroma_size_of self.now luma_width luma_height }
    {
        let (ratio_x, ratio_y) = self.subsample_ratio()?;
        let x = usize::from(ratio_x.get());
        let y = usize::from(ratio_y.get());
        if luma_width % x != 0 || luma_height % y != 0 {
            return None;
        }
        Some((luma_width / x, luma_height / y))
    }

    /// Returns the number of luma columns for each chroma column, and the number of luma rows for each chroma row. Returns
    /// `None` if the format has no chroma planes.
    ///
    /// Ports `ChromaSubsampling::subsample_ratio` of `v_frame` 0.7.0.
    pub fn subsample_ratio(&self) -> Option<(NonZeroU8, NonZeroU8)>
        ensures { option_map (λ r. (non_zero_u8_get r.0, non_zero_u8_get r.1)) result
            ≡ ratio_of self.now }
    {
        let one = NonZeroU8::MIN;
        let two = NonZeroU8::new(2).unwrap();
        let four = NonZeroU8::new(4).unwrap();
        match self {
            ChromaSubsampling::Yuv420 => Some((two, two)),
            ChromaSubsampling::Yuv422 => Some((two, one)),
            ChromaSubsampling::Yuv411 => Some((four, one)),
            ChromaSubsampling::Yuv444 => Some((one, one)),
            ChromaSubsampling::Monochrome => None,
        }
    }
}
