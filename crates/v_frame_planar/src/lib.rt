//! Raw planar video: reads frames from any reader and writes them to any writer.
//!
//! The planar bytes of a frame are the bytes of the plane Y, followed by those of U and V if the frame has chroma. The bytes of
//! a plane are its visible pixels, row by row from the top, each in little-endian byte order. This is the layout of raw YUV
//! files.
//!
//! Raw video does not state its size, so a frame of the right size must exist before it can be read. [`video_frame`] allocates
//! a frame of any size, including odd sizes, which the frame builder rejects for subsampled formats.
//!
//! Contracts can state the bytes of a reader or a writer only if its type defines them. Among the writers in memory, contracts
//! know the bytes of `Vec<u8>`, of `VecDeque<u8>` and of their wrappers, such as `Box` and `BufWriter`, but not those of
//! `Cursor` and `&mut [u8]`. Among the readers in memory, contracts know the bytes of `&[u8]`, `VecDeque<u8>` and `Cursor`.
//!
//! `Rattle.v_frame_planar.specs.Planar` defines the terms that contracts use.
#![tactic(auto)]

mod counted;
mod error;
pub mod laws;
mod pending;
mod reading;
mod showing;
mod video;
mod writing;

pub use counted::{Counted, WriteFault};
pub use error::PlanarError;
pub use reading::{planar_len, read_frame, read_until_full};
pub use showing::show_planar_bytes;
pub use video::{chroma_size, subsample_ratio_or_one, video_frame};
pub use writing::write_frame;
