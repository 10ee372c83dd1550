//! Reads, writes, copies, converts and compares video streams, over any reader and any writer.
//!
//! [`Source`] reads a YUV4MPEG2 stream or headerless raw video, and [`Sink`] writes one. [`copy_stream`] copies a stream and
//! can crop, halve and convert its frames. [`compare_streams`] compares two streams frame by frame.
//!
//! The module `Rattle.v_frame_streams.specs.Prelude` re-exports the definitions that contracts cite.
#![tactic(auto)]

mod alike;
mod colors;
mod compare;
mod comparison;
mod converting;
mod copy;
mod crop;
mod edit;
mod editing;
mod error;
mod formats;
mod frames;
mod maker;
mod moving;
mod observer;
mod options;
mod passing;
mod picture;
mod plan;
mod progress;
mod shapes;
mod sink;
mod source;
mod stream;

pub use compare::compare_streams;
pub use comparison::{CompareOptions, Comparison};
pub use copy::copy_stream;
pub use crop::{check_crop, crop_frame};
pub use error::{Problem, StreamError};
pub use formats::check_formats;
pub use observer::{FrameObserver, NoObserver};
pub use options::{CopyOptions, MAX_PIXELS};
pub use passing::skip_frames;
pub use picture::Picture;
pub use progress::{Progress, Silent};
pub use sink::Sink;
pub use source::Source;
pub use stream::{Container, Place};
pub use v_frame_formats::{Component, PixelDifference, PlaneSums, Rectangle};
