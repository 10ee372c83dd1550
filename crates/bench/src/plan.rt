//! The sizes and the number of repetitions of a measurement.

/// The number of warm-up runs of a case, whose times are not reported. In these runs the C library still requests memory from
/// the system.
pub const UNTIMED: usize = 12;

/// The numbers from the arguments.
#[derive(Clone, Copy)]
pub struct Plan {
    /// The width of luma in pixels.
    pub width: u16,
    /// The height of luma in pixels.
    pub height: u16,
    /// The padding of luma on each side in pixels.
    pub padding: u16,
    /// The seed from which pixels and places are computed.
    pub seed: u16,
    /// The number of repetitions of each case.
    pub repetitions: u16,
}
