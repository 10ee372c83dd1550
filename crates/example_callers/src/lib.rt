//! Example callers of `v_frame`: small functions, each with a contract of its result and its effect. Not all contracts are
//! exact.
//!
//! The functions are meant to be copied. They show that the public contracts are sufficient: nothing here depends on private
//! parts of `v_frame`. README and CALLING quote some of them. Not part of `v_frame` 0.7.0.
#![tactic(auto)]

pub mod answers;
pub mod border;
pub mod collages;
pub mod decoded;
pub mod decoded_rows;
pub mod filter;
pub mod filters;
pub mod frames;
pub mod iterators;
pub mod lent;
pub mod lent_for_writing;
pub mod motion;
pub mod pictures;
pub mod planes;
pub mod raw_bytes;
pub mod reads;
pub mod rectangles;
pub mod regions;
pub mod row_pairs;
pub mod single_pixels;
pub mod start;
pub mod streams;
pub mod video;
pub mod y4m;
