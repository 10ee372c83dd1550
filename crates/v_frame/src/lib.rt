//! Video frames of raw YUV pixels. Pixels are `u8` or `u16`, and each plane is a visible rectangle inside a border, in one
//! buffer.
//!
//! This crate is a port of the Rust crate `v_frame` 0.7.0 to Rattle, with contracts.
//!
//! ```text
//!     Frame                      Plane
//!     +---------+                +--------------------+
//!     | y_plane | -------------> |       border       |
//!     | u_plane |                |    +----------+    |
//!     | v_plane |                |    | table of |    |
//!     | format  |                |    | rows     |    |
//!     | depth   |                |    +----------+    |
//!     +---------+                +--------------------+
//! ```
//!
//! - [`frame`]: [`FrameBuilder`](frame::FrameBuilder) builds a [`Frame`](frame::Frame) of one to three planes.
//! - [`plane`]: a [`Plane`](plane::Plane) is read and written by rows, by pixels and by bytes. [`PlaneRef`](plane::PlaneRef)
//!   reads a plane whose buffer is stored elsewhere, and [`RowsRef`](plane::RowsRef) reads rows without a border.
//! - [`pixel`] and [`chroma`]: the pixel types, and how much smaller than luma the chroma planes of a format are.
//! - [`replay`]: lists of calls as values. The contract of [`replay::replay`](replay::replay()) states the results and the
//!   effects of every list of calls by plain tables of rows, for all paddings and all contents of the borders.
//! - [`sequence`]: a [`Sequence`](sequence::Sequence) is a `Vec` inside another value. Contracts see it as a list.
//! - [`laws`]: facts that go beyond a single call. Each is the contract of a function.
//!
//! A contract sees a plane as a geometry and a buffer. The visible pixels of a plane are a table of rows, and all other entries
//! of its buffer are the border. `Rattle.v_frame.specs.Prelude` exports the definitions that clauses use.
#![tactic(auto)]

pub mod frame;
pub mod laws;
pub mod replay;
pub mod sequence;

pub use v_frame_plane::plane;
pub use v_frame_raster::{chroma, pixel};
