//! YUV4MPEG2 streams: raw planar video after a header line that states the size, the frame rate and the color.
//!
//! ```text
//! YUV4MPEG2 W176 H144 F25:1 Ip A1:1 C420jpeg XYSCSS=420JPEG    the header line
//! FRAME                                                        a line before each frame
//! ...                                                          the planar bytes: Y, then U, then V
//! FRAME
//! ...
//! ```
//!
//! To read a stream, call [`read_header`] once, and then [`read_frame`] until it returns `false`. To write a stream, call
//! [`write_header`] once, and then [`write_frame`] for each frame. A [`StreamHeader`] describes the stream, and
//! [`StreamHeader::frame`] allocates a frame to read into.
//!
//! [`read_lax_header`] and [`read_lax_frame_line`] also accept some deviations from the format, and read each such line as the
//! strict line that it means. Lines that are written are always strict.
//!
//! `Rattle.v_frame_y4m.specs.Header` defines the grammar of the header line. `Rattle.v_frame_y4m.specs.Lax` defines the
//! deviations that are accepted. `Rattle.v_frame_y4m.specs.Streams` defines the effect of each call on the stream.
#![tactic(auto)]

mod color;
mod error;
mod frames;
mod header;
pub mod laws;
mod lax;
mod line;
mod lines;
mod numbers;
mod parameters;
mod parsing;
mod streams;
mod text;

pub use color::{ChromaSiting, Color, Depth};
pub use error::{HeaderError, Y4mError};
pub use header::{Interlacing, Ratio, StreamHeader};
pub use lax::{
    is_lax_frame_line, parse_lax_header, read_lax_frame_line, read_lax_header, strict_line,
};
pub use line::{header_line, header_line_with_newline};
pub use parsing::parse_header;
pub use streams::{
    MAX_LINE_BYTES, is_frame_line, read_frame, read_frame_line, read_header, write_frame,
    write_header,
};
pub use text::Text;
