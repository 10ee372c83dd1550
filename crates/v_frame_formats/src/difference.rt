//! A pixel at which two frames differ.

use crate::component::Component;

/// A pixel whose values in two frames differ.
#[derive(Debug, Clone, Copy, PartialEq, Eq)]
pub struct PixelDifference {
    /// The plane of the pixel.
    pub component: Component,
    /// The column in the plane, counted from 0.
    pub x: usize,
    /// The row in the plane, counted from 0.
    pub y: usize,
    /// The value in the first frame.
    pub first: u16,
    /// The value in the second frame.
    pub second: u16,
}
