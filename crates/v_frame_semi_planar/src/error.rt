//! Errors of reading and writing semi-planar frames.

use thiserror::Error;
use v_frame_planar::PlanarError;

/// Why [`read_frame`](crate::read_frame) or [`write_frame`](crate::write_frame) failed. After any error except
/// [`Planar`](Self::Planar), nothing was read or written.
#[derive(Debug, PartialEq, Eq, Drop, Error)]
pub enum SemiPlanarError {
    /// The bit depth or the pixel type of the frame differs from that of the layout.
    #[error("wrong bit depth")]
    BitDepth,
    /// The chroma subsampling of the frame differs from that of the layout.
    #[error("wrong chroma subsampling")]
    Subsampling,
    /// A chroma plane is missing, or does not have the size that covers luma.
    #[error("wrong chroma size")]
    ChromaSize,
    /// The reader, the writer or a memory allocation failed, or the stream ended inside the frame.
    #[error(transparent)]
    Planar(PlanarError),
}

impl From<PlanarError> for SemiPlanarError {
    ghost use Rattle.std.specs.Prelude.{◌≡◌};
    ghost use Rattle.v_frame_semi_planar.specs.declared.error.SemiPlanarError.TheVariants.{Planar};

    ghost from_gives = { λ fault error. error ≡ Planar fault };

    fn from(fault: PlanarError) -> Self {
        SemiPlanarError::Planar(fault)
    }
}
