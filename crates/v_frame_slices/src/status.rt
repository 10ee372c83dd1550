//! The statuses that exports return.

/// The call succeeded.
pub const OK: u32 = 0;

/// The first rows do not fit into their buffer: the width or the height is 0, the stride is less than the width, or the last row
/// ends past the end of the buffer.
pub const FIRST: u32 = 1;

/// The second rows do not fit into their buffer.
pub const SECOND: u32 = 2;

/// The sizes of the pictures are not those that the call requires.
pub const SIZES: u32 = 3;

/// There is no format with this number, or the call does not take it.
pub const FORMAT: u32 = 4;

/// A bit depth, a ratio, a weight or the number of a choice is out of range.
pub const NUMBER: u32 = 5;

/// The third rows do not fit into their buffer.
pub const THIRD: u32 = 6;

/// The fourth rows do not fit into their buffer.
pub const FOURTH: u32 = 7;

/// The width or the height of the pictures is less than 8, so no window of 8x8 pixels fits.
pub const WINDOWS: u32 = 8;

/// The fifth rows do not fit into their buffer.
pub const FIFTH: u32 = 9;
