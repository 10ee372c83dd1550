//! The functions of the C library, for any type of pixel. The crate `v_frame_c` exports them. Each function takes slices and the
//! layout of the rows in each. It tests its arguments and returns a status of the module `status`. No function has a
//! precondition.
#![tactic(auto)]

pub mod change;
pub mod clipped;
pub mod colors;
pub mod compare;
pub mod compose;
pub mod convert;
pub mod counts;
pub mod formats;
pub mod frame_parts;
pub mod halves;
pub mod layout;
pub mod measures;
pub mod range;
pub mod resize;
pub mod samples;
pub mod semi_planar;
pub mod statistics;
pub mod status;
pub mod top_bits;
pub mod turn;
pub mod whole;
