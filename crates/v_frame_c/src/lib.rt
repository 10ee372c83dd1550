//! The calls of the library for C. The contract of each call is proved, down to this boundary.
//!
//! Each export takes slices, which C passes as a pointer and a length, and the layout of the rows in each. It tests its
//! arguments and returns a status. No export has a precondition. The header `c_interface/include/v_frame.h` declares the
//! exports, and says what C promises.
#![tactic(auto)]

mod exports_change;
mod exports_clipped;
mod exports_colors;
mod exports_compare;
mod exports_compose;
mod exports_convert;
mod exports_counts;
mod exports_measures;
mod exports_parts;
mod exports_range;
mod exports_semi_planar;
mod exports_sizes;
mod exports_statistics;
mod exports_top_bits;
mod exports_turn;
mod exports_whole;
mod version;
