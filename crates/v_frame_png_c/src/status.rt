//! The statuses that exports return.

/// The call succeeded.
pub const OK: u32 = 0;

/// The number of the color or of the compression is not valid.
pub const NUMBER: u32 = 1;

/// The width or the height is 0 or above 2^31 - 1.
pub const SIZE: u32 = 2;

/// The rows do not fit the samples: the stride is less than the number of samples in a row, or the last row ends past the end of
/// the samples.
pub const ROWS: u32 = 3;

/// There is not enough memory.
pub const OUT_OF_MEMORY: u32 = 4;

/// The buffer is shorter than the file.
pub const SHORT_BUFFER: u32 = 5;
