//! Tests of frames: successful builds, errors and clones.

mod builds;
mod clones;
mod formats;
mod refusals;
