//! The reasons why a frame cannot be rotated, mirrored or transposed into another frame.

use thiserror::Error;

/// The reason why a function of [`frames`](crate::frames) rejected its frames. If several reasons hold, the first one in the
/// order of these variants is returned.
#[derive(Debug, PartialEq, Eq, Drop, Error)]
pub enum TurnError {
    /// Rows would become columns, but the chroma is not subsampled by the same ratio in both directions, as in 4:2:2 and 4:1:1.
    /// There is no format for the rotated chroma.
    #[error("chroma that is subsampled more across than down can't be turned by a quarter")]
    UnevenSubsampling,
    /// The two frames have different chroma formats.
    #[error("the frames have different chroma formats")]
    DifferentSubsampling,
    /// The two frames have different bit depths.
    #[error("the frames have different bit depths")]
    DifferentBitDepth,
    /// A plane of the target does not have the required size, or only one of the two frames has this plane. If this holds for
    /// several planes, the error has the smallest index.
    #[error("plane {plane} of the target doesn't have the size of the turned plane")]
    DifferentSize {
        /// The index of the plane: 0 for Y, 1 for U and 2 for V.
        plane: usize,
    },
}
