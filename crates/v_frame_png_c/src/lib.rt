//! Pictures in the memory of a C program, written as PNG files to its memory.
//!
//! The functions allocate memory with `malloc` while they run, so they are in a different library than those of `v_frame_c`. The
//! header `c_interface/include/v_frame_png.h` declares the exports.
#![tactic(auto)]

mod exports;
mod files;
mod memory;
mod picture;
mod status;
mod version;
