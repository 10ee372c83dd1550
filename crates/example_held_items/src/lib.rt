//! Callers that keep the items that the writing iterators of `v_frame` lend, with hand-written proofs of the final pixels of
//! the plane.
//!
//! The contracts of `next` and `next_back` of `RowsMut` and `PixelsMut` state the effect of writes to a kept row or pixel. An
//! automatic proof cannot use these clauses, so the proofs here follow each function step by step. The code uses only
//! `v_frame`. The proofs also cite steps and lemmas of the proofs of `v_frame_plane`, and only for this reason does this crate
//! name it. A caller of such a function needs no hand-written proof, as [`held_pixels::mark_ends`] shows. Not part of `v_frame`
//! 0.7.0.
#![tactic(auto)]

pub mod held_pixels;
pub mod held_rows;
