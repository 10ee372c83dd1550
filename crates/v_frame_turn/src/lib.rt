//! Pictures rotated by multiples of 90 degrees, flipped upside down, mirrored left to right, and transposed.
#![tactic(auto)]

mod error;
mod flip;
pub mod frames;
pub mod laws;
mod quarter;
pub mod rows;
mod turns;

pub use error::TurnError;
pub use flip::{
    flip_horizontal, flip_horizontal_in_place, flip_vertical, flip_vertical_in_place, rotate_180,
    rotate_180_in_place,
};
pub use quarter::{rotate_90, rotate_270, transpose};
pub use turns::{Turn, turn_plane};
