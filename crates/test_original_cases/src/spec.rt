//! Requests for frames.

use crate::fault::{CaseFault, LineFault};
use crate::input::Input;
use crate::lists::Entry;
use std::alloc::Global;
use v_frame::chroma::ChromaSubsampling;
use v_frame::frame::{Frame, FrameBuilder, FrameError};
use v_frame::pixel::Pixel;

/// The pixel type, the bit depth, the luma size, the format and the luma paddings.
#[derive(Clone, Copy)]
pub struct Spec {
    /// The size of a pixel in bytes: 1 for `u8`, 2 for `u16`.
    pub bytes: usize,
    /// The bit depth.
    pub depth: u8,
    /// The visible width and height of luma.
    pub size: [usize; 2],
    /// The format.
    pub format: ChromaSubsampling,
    /// The numbers of border columns of luma on the left and on the right, and of border rows at the top and at the bottom.
    pub paddings: [usize; 4],
}

/// The pixel types by name, with the size of a pixel in bytes.
const TYPES: [(&str, usize); 2] = [("u8", 1), ("u16", 2)];

/// The formats by name.
const FORMATS: [(&str, ChromaSubsampling); 5] = [
    ("Yuv420", ChromaSubsampling::Yuv420),
    ("Yuv422", ChromaSubsampling::Yuv422),
    ("Yuv411", ChromaSubsampling::Yuv411),
    ("Yuv444", ChromaSubsampling::Yuv444),
    ("Monochrome", ChromaSubsampling::Monochrome),
];

impl Spec {
    /// The value of a line with a fault.
    const NONE: Spec = Spec {
        bytes: 1,
        depth: 0,
        size: [0, 0],
        format: ChromaSubsampling::Monochrome,
        paddings: [0, 0, 0, 0],
    };

    /// Reads the rest of a line.
    pub fn read(input: &mut Input<'_>) -> Self {
        let Some(bytes) = input.choice(&TYPES) else {
            input.keep(LineFault::UnknownPixelType);
            return Spec::NONE;
        };
        let depth = input.pixel();
        let size = input.sizes();
        let Some(format) = input.choice(&FORMATS) else {
            input.keep(LineFault::UnknownFormat);
            return Spec::NONE;
        };
        let paddings = input.sizes();
        input.end();
        Spec {
            bytes,
            depth,
            size,
            format,
            paddings,
        }
    }

    /// Builds the frame.
    pub fn build<T: Pixel>(&self, alloc: Global) -> Result<Frame<T>, FrameError> {
        let [width, height] = self.size;
        let [left, right, top, bottom] = self.paddings;
        FrameBuilder::new(width, height, self.format, self.depth)
            .luma_padding_left(left)
            .luma_padding_right(right)
            .luma_padding_top(top)
            .luma_padding_bottom(bottom)
            .build(alloc)
    }

    /// Builds the frame of a line, unless there was a fault. A failed build is a fault as well.
    pub fn frame<T: Pixel>(&self, input: &mut Input<'_>) -> Option<Frame<T>> {
        if input.is_faulty() {
            return None;
        }
        match self.build(input.alloc) {
            Ok(frame) => return Some(frame),
            Err(FrameError::OutOfMemory) => input.give_up(CaseFault::OutOfMemory),
            Err(error) => input.keep(LineFault::NotBuilt(error)),
        }
        None
    }
}

/// The line of a build.
impl Entry for Spec {
    fn read(input: &mut Input<'_>) -> Self {
        input.next_line();
        input.keyword("build", LineFault::NotABuild);
        Spec::read(input)
    }
}
