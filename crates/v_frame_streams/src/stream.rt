//! Containers of streams, and the streams that a call works on.

/// The number of bytes that are moved at once if no frame is built. The block is on the stack, which may be small.
pub(crate) const BLOCK: usize = 16384;

/// How a stream stores its frames.
#[derive(Debug, Clone, Copy, PartialEq, Eq)]
pub enum Container {
    /// YUV4MPEG2: a header line, and a line in front of each frame.
    Y4m,
    /// Raw video: only the bytes of the frames.
    Raw,
}

/// Identifies one of the streams that a call works on.
#[derive(Debug, Clone, Copy, PartialEq, Eq)]
pub enum Place {
    /// The first input.
    First,
    /// The second input.
    Second,
    /// The output.
    Output,
}
