//! Messages on samples above the greatest value of their bit depth.

use std::{fmt, io};
use v_frame_streams::Source;
use yuv_files::{shown_name, write_message};
use yuv_pictures::greatest_value;

/// Writes a message if a frame of the stream has samples above the greatest value of its bit depth. The message has the number of
/// the frame.
pub fn write_above<R: io::Read, E: io::Write>(
    messages: &mut E,
    name: &str,
    source: &Source<R>,
    frame: Option<u64>,
) {
    if let Some(frame) = frame {
        let bits = source.header().color.bit_depth();
        let most = greatest_value(bits);
        write_message(
            messages,
            Some(shown_name(name)),
            &SamplesAbove { frame, most, bits },
        );
    }
}

/// A frame with samples above the greatest value of their bit depth.
#[derive(Clone, Copy)]
struct SamplesAbove {
    frame: u64,
    most: u16,
    bits: u8,
}

impl fmt::Display for SamplesAbove {
    fn fmt<W: fmt::Write>(&self, f: &mut fmt::Formatter<W>) -> fmt::Result {
        let SamplesAbove { frame, most, bits } = *self;
        write!(
            f,
            "frame {frame} has samples above {most}, the greatest value of {bits} bits"
        )
    }
}
