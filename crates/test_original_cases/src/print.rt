//! The text of frames.

use crate::printer::Printer;
use crate::spec::Spec;
use std::alloc::Global;
use std::fmt::Display;
use v_frame::chroma::ChromaSubsampling;
use v_frame::frame::{Frame, FrameError};
use v_frame::pixel::Pixel;
use v_frame::plane::PlaneGeometry;

/// The largest number of entries of a buffer that is printed as a list. A longer buffer is printed as runs.
const LONGEST_LIST: usize = 4096;

/// Builds a frame and prints the result. No case expects that memory cannot be allocated.
pub fn print_build<T: Pixel>(alloc: Global, out: &mut Printer, spec: &Spec) {
    let built = spec.build::<T>(alloc);
    match &built {
        Ok(frame) => {
            out.text("Ok\n");
            print_frame(out, frame);
        }
        Err(FrameError::UnsupportedBitDepth { found }) => {
            out.named("Err UnsupportedBitDepth", found);
            out.end_line();
        }
        Err(FrameError::DataTypeMismatch) => out.text("Err DataTypeMismatch\n"),
        Err(FrameError::UnsupportedResolution) => out.text("Err UnsupportedResolution\n"),
        Err(FrameError::OutOfMemory) => out.cut_off(),
    }
    drop(built);
}

/// Prints the format, the bit depth and the planes.
pub fn print_frame<T: Pixel>(out: &mut Printer, frame: &Frame<T>) {
    out.text(match frame.subsampling {
        ChromaSubsampling::Yuv420 => "frame Yuv420",
        ChromaSubsampling::Yuv422 => "frame Yuv422",
        ChromaSubsampling::Yuv411 => "frame Yuv411",
        ChromaSubsampling::Yuv444 => "frame Yuv444",
        ChromaSubsampling::Monochrome => "frame Monochrome",
    });
    out.item(&frame.bit_depth.get());
    out.end_line();
    for index in 0..3 {
        out.named("plane", &index);
        match frame.plane(index) {
            Some(plane) => {
                print_geometry(out, &plane.geometry());
                out.named("buffer", &index);
                print_buffer(out, plane.data());
            }
            None => out.text(" -\n"),
        }
    }
}

/// Prints the geometry of a plane.
fn print_geometry(out: &mut Printer, geometry: &PlaneGeometry) {
    out.item(&geometry.width());
    out.item(&geometry.height());
    out.item(&geometry.stride());
    out.item(&geometry.pad_left());
    out.item(&geometry.pad_right());
    out.item(&geometry.pad_top());
    out.item(&geometry.pad_bottom());
    out.item(&geometry.subsampling_x());
    out.item(&geometry.subsampling_y());
    out.end_line();
}

/// Prints the whole buffer of a plane.
fn print_buffer<T: PartialEq + Display>(out: &mut Printer, entries: &[T]) {
    if entries.len() > LONGEST_LIST {
        print_runs(out, entries);
    } else {
        out.text(" list");
        out.list(entries);
    }
    out.end_line();
}

/// Prints a buffer as runs of equal adjacent entries. Each run is as long as possible.
fn print_runs<T: PartialEq + Display>(out: &mut Printer, entries: &[T]) {
    out.named(" runs", &entries.len());
    let mut runs = 0usize;
    for place in 0..entries.len() {
        if ends_run(entries, place) {
            runs = runs.saturating_add(1);
        }
    }
    out.item(&runs);
    let mut length = 0usize;
    for (place, entry) in entries.iter().enumerate() {
        length = length.saturating_add(1);
        if ends_run(entries, place) {
            out.item(&length);
            out.item(entry);
            length = 0;
        }
    }
}

/// Returns whether the entry at an index differs from the next one or is the last.
fn ends_run<T: PartialEq>(entries: &[T], place: usize) -> bool {
    entries.get(place) != entries.get(place.saturating_add(1))
}
