//! Header lines of streams, their pieces, and a frame of the size in a header.

use crate::show::{show, show_built};
use crate::streams;
use std::alloc::AllocError;
use v_frame::sequence::Sequence;
use v_frame_planar::Counted;
use v_frame_y4m::{
    Color, Depth, Interlacing, Ratio, StreamHeader, Text, header_line, header_line_with_newline,
    parse_header, parse_lax_header, read_header, read_lax_header, strict_line, write_header,
};

/// A header line with all parameters, followed by the line of a frame.
static STREAM: [u8; 54] = *b"YUV4MPEG2 W30 H2 F25:1 Ip A4:3 C444p16 XAB XC=D\nFRAME\n";

/// The same header line in a lax form.
static LAX: [u8; 57] = *b"YUV4MPEG2 W30  H2 F25 Ip A4:3   C444p16 XAB XC=D \r\nFRAME\n";

/// Runs the case with this name, in this module or a later one. Returns `None` if an allocation of its preparation fails.
pub fn seen(rt: &HostRuntime, name: &str) -> Option<()> {
    let alloc = rt.alloc();
    // A header without extensions needs no memory.
    let header = header_with(Vec::new(alloc).into());
    match name {
        "header_line" => show_line(rt, header_line(alloc, &header)),
        "header_line_with_newline" => show_line(rt, header_line_with_newline(alloc, &header)),
        "strict_line" => show_line(rt, strict_line(alloc, &LAX[..50])),
        "text_of_bytes" => show(rt, &Text::new(alloc, b"C5")),
        "text_of_a_ratio" => show(rt, &ratio(30000, 1001).text(alloc)),
        "parse_header" => show(rt, &parse_header(alloc, &STREAM[..47])),
        "parse_lax_header" => show(rt, &parse_lax_header(alloc, &LAX[..50])),
        "frame_of_a_header" => show_built(rt, header.frame::<u16>(alloc, 0)),
        _ => seen_of_streams(rt, name)?,
    }
    Some(())
}

/// Runs the cases that read or write a header. If an allocation fails, only the header line has been read, and nothing has been
/// written.
fn seen_of_streams(rt: &HostRuntime, name: &str) -> Option<()> {
    match name {
        "read_header" => show_read(rt, &STREAM),
        // The color of this header is unknown. If the color cannot be copied into the error, the error is `OutOfMemory`.
        "read_header_that_is_refused" => show_read(rt, b"YUV4MPEG2 W30 H2 C5\nFRAME\n"),
        "read_lax_header" => {
            let mut reader = Counted::new(LAX.as_slice());
            let read = read_lax_header(rt.alloc(), &mut reader);
            show(rt, &(read, str::from_utf8(reader.get_ref())));
        }
        "write_header" => write_into_room(rt)?,
        _ => streams::seen(rt, name)?,
    }
    Some(())
}

/// Prints the header that is read, and the bytes that are left.
fn show_read(rt: &HostRuntime, stream: &[u8]) {
    let mut reader = Counted::new(stream);
    let read = read_header(rt.alloc(), &mut reader);
    show(rt, &(read, str::from_utf8(reader.get_ref())));
}

/// Prints a header that is written to a buffer of fixed length.
fn write_into_room(rt: &HostRuntime) -> Option<()> {
    let first = Sequence::from_slice(rt.alloc(), b"AB").ok()?;
    let second = Sequence::from_slice(rt.alloc(), b"C=D").ok()?;
    let header = header_with(Vec::from_array(rt.alloc(), [first, second]).ok()?.into());
    if !header.is_writable() {
        return None;
    }
    let mut room = [0; 60];
    let mut writer = Counted::new(room.as_mut_slice());
    let written = write_header(rt.alloc(), &mut writer, &header);
    let left = writer.get_ref().len();
    drop(writer);
    show(rt, &(written, left, str::from_utf8(&room)));
    Some(())
}

/// Prints a line, or the error.
fn show_line(rt: &HostRuntime, line: Result<Vec<u8>, AllocError>) {
    match line {
        Ok(line) => show(rt, &str::from_utf8(line.as_slice())),
        Err(error) => show(rt, &error),
    }
}

/// Returns the header of the line above, with these extensions.
fn header_with(extensions: Sequence<Sequence<u8>>) -> StreamHeader {
    StreamHeader {
        width: 30,
        height: 2,
        frame_rate: Some(ratio(25, 1)),
        interlacing: Some(Interlacing::Progressive),
        pixel_aspect: Some(ratio(4, 3)),
        color: Color::Yuv444HighDepth(Depth::Sixteen),
        extensions,
    }
}

/// Returns a ratio.
fn ratio(numerator: u64, denominator: u64) -> Ratio {
    Ratio {
        numerator,
        denominator,
    }
}
