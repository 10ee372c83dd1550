//! Planes: a plane is a rectangle of visible pixels inside a border, stored in one buffer.
//!
//! Users import these items from `v_frame`, which re-exports all of them. [`plane`] has the public calls. [`laws`] states facts
//! that go beyond a single call. The other modules are private, and use the buffer of `v_frame_buffer`. `v_frame_raster`
//! defines which table of pixels a plane shows. The modules, from the lowest layer to the highest:
//!
//! | module | what it provides to the layers above |
//! |---|---|
//! | `place` | Computes where a row begins and where a pixel lies in the buffer, for a geometry that fits. |
//! | `error` | The reasons why a copy fails. |
//! | `rows_ref` | Reads rows that lie a stride apart in a slice as a table of pixels. |
//! | `plane_ref` | Reads a geometry and a slice that is the whole buffer as a plane. |
//! | `rows`, `pixels`, `bytes`, `rows_mut`, `pixels_mut` | The five iterators. Each is a list of remaining items: `next` removes the first item, `next_back` removes the last. |
//! | `strided` | Copies pixels and bytes into the rows of a buffer. |
//! | `encoding` | The loop that all copies share: it writes each visible row from the front of the matching piece of the source. The copies themselves are in `plane`. |
#![tactic(auto)]

mod bytes;
mod encoding;
mod error;
pub mod laws;
mod pixels;
mod pixels_mut;
mod place;
pub mod plane;
mod plane_ref;
mod rows;
mod rows_mut;
mod rows_ref;
mod strided;
