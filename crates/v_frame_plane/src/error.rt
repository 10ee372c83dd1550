//! The reasons why a copy into a plane fails.

use thiserror::Error;

/// The reason why a copy into a plane failed. After an error, the plane is unchanged.
///
/// Ports `CopyError` of `v_frame` 0.7.0.
#[derive(Debug, PartialEq, Eq, Hash, Drop, Error)]
pub enum CopyError {
    /// The length of the source differs from the length that the plane requires.
    #[error("data length mismatch, expected {expected}, found {found}")]
    DataLength {
        /// The required length: in pixels for `copy_from_slice`, in bytes for the copies from bytes.
        expected: usize,
        /// The length of the source, in the unit of `expected`.
        found: usize,
    },
    /// The stride of the source is too small to hold one row of the plane.
    #[error("provided stride {stride} was less than the visible width {width}")]
    InvalidStride {
        /// The stride of the source, in bytes.
        stride: usize,
        /// The visible width of the plane, in pixels.
        width: usize,
    },
}
