//! Tests by public calls. The expected values were computed by hand.

mod frame;
mod planar;
mod plane;
mod program;
mod replay;
mod support;
