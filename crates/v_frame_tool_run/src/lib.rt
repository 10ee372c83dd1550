//! The output of the program `v_frame_tool`: it builds a small frame, fills and reads it by a replay, and writes it as text.
//!
//! This code is in a library because other crates cannot call code of a program. A test can therefore make each of its memory
//! allocations fail.
#![tactic(auto)]

pub mod fault;
pub mod run;
