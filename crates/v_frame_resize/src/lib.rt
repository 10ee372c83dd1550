//! Pictures resized by the exact mean of the covered area (box filter) or by the nearest pixel (nearest neighbor).
#![tactic(auto)]

mod center;
mod plane;
pub mod rows;
mod span;

pub use plane::{resize_area, resize_nearest};
