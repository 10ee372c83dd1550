//! Pixels, chroma formats, geometries and tables; the definitions of the table that a plane shows; and laws about all of these.
//!
//! Users import these items from `v_frame`, which re-exports the public ones.
#![tactic(auto)]

pub mod chroma;
pub mod geometry;
mod halving;
pub mod laws;
pub mod pixel;
mod row_lanes;
mod row_sums;
