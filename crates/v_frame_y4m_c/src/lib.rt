//! YUV4MPEG2 streams in the memory of C: where their lines end, the header line in numbers and back, and the number of bytes
//! after the line of a frame.
//!
//! The calls take memory by `malloc` while they run, and are therefore in another library than those of `v_frame_c`. The header
//! `c_interface/include/v_frame_y4m.h` declares the exports.
#![tactic(auto)]

mod exports;
mod extensions;
mod header;
mod lines;
mod numbers;
mod status;
mod version;
