//! Pictures of frames in PNG files: the colors of a frame, one of its planes, or the difference of two frames.
//!
//! [`write_frame_picture`], [`write_plane_picture`] and [`write_difference_picture`] write to any writer. Their contracts state
//! that the file decodes to the rows of a table; `Rattle.yuv_pictures.specs.Prelude` defines the terms. [`differences`] returns
//! the places and amounts of the differences of two frames. [`has_sample_above`] returns whether a sample is above the greatest
//! value of its bit depth.
#![tactic(auto)]

mod above;
mod colors;
mod difference;
mod error;
mod file;
mod gray;
mod places;

pub use above::{greatest_value, has_sample_above};
pub use colors::{Colors, write_frame_picture};
pub use difference::write_difference_picture;
pub use error::PictureError;
pub use gray::write_plane_picture;
pub use places::{Found, PlaneDifference, differences};
