//! The standards that define Y'CbCr, and the ranges of the samples.

/// A standard that defines Y'CbCr by the weights of red (Kr) and blue (Kb) in luma. The weight of green is `1 - Kr - Kb`.
#[derive(Debug, Clone, Copy, PartialEq, Eq)]
pub enum Standard {
    /// ITU-R BT.601-7, for standard definition: Kr = 0.299 and Kb = 0.114.
    Bt601,
    /// ITU-R BT.709-6, for high definition: Kr = 0.2126 and Kb = 0.0722.
    Bt709,
    /// ITU-R BT.2020-2 with non-constant luminance, for ultra-high definition: Kr = 0.2627 and Kb = 0.0593.
    Bt2020,
}

/// The range of the samples: limited (video) or full.
#[derive(Debug, Clone, Copy, PartialEq, Eq)]
pub enum ColorRange {
    /// Limited range: at 8 bits, luma from 16 to 235 and chroma from 16 to 240. Broadcasts and most video files use it.
    Limited,
    /// Full range: at 8 bits, all samples from 0 to 255. JPEG files use it.
    Full,
}
