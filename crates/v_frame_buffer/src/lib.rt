//! The buffer of a plane: a list of fixed length that is allocated, read, cloned, compared, and lent for writing in whole, in
//! part or at one entry.
//!
//! Users import from `v_frame` and not from this crate. `v_frame` exposes the buffer of a plane as a slice, and re-exports
//! nothing from here.
//!
//! Only this crate knows how a buffer is stored: in a block of raw memory, which only the five functions of `aligned::block`
//! access through pointers. `proofs/Steps.antt` and `proofs/CallSteps.antt` have the steps of the logic that hand-written
//! proofs cite, also in the crates above.
#![tactic(auto)]

mod aligned;

pub use aligned::AlignedData;
