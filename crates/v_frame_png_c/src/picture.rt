//! A picture as C describes it. All bit patterns are valid values of the struct.
ghost use Rattle.std.specs.Prelude.{◌≡◌, ◌<◌, ◌≤◌, ◌^◌, IsTrue, SomeIff, length};
ghost use Rattle.v_frame.specs.Prelude.{strided_rows};
ghost use Rattle.v_frame_png_c.specs.Picture.{compression_by, entries_by, fits, fits_in, header_by, is_known, is_size, rows_of, samples_of_bytes, samples_of_words};

use v_frame::plane::RowsRef;
use v_frame_png::{ColorSpace, Compression, Header, Samples};

/// The least width and height that are too large for PNG.
const LIMIT: usize = 0x8000_0000;

/// A picture: its width and height in pixels, the number of samples from the beginning of one row to the beginning of the next,
/// and the numbers of its color and its compression.
#[repr(C)]
pub struct Picture {
    pub width: usize,
    pub height: usize,
    pub stride: usize,
    pub color: u32,
    pub compression: u32,
}

impl Picture {
    /// Returns whether the numbers of the color and the compression are valid.
    pub fn is_known(&self) -> bool
        ensures { result ≡ is_known self.now }
    {
        self.color < 2 && self.compression < 2
    }

    /// Returns whether a PNG file can have this width and height.
    pub fn is_size(&self) -> bool
        ensures { result ≡ is_size self.now }
    {
        self.width != 0 && self.width < LIMIT && self.height != 0 && self.height < LIMIT
    }

    /// Returns the header of a file with these samples.
    pub fn header(&self, samples: Samples) -> Header
        requires { IsTrue (is_size self.now) }
        ensures { result ≡ header_by samples self.now }
    {
        Header {
            width: self.width as u32,
            height: self.height as u32,
            samples,
            color_space: ColorSpace::Unnamed,
        }
    }

    /// Returns the kind of samples for a picture with samples of one byte.
    pub fn samples_of_bytes(&self) -> Samples
        ensures { result ≡ samples_of_bytes self.now.color }
    {
        if self.color == 0 {
            Samples::Gray8
        } else {
            Samples::Rgb8
        }
    }

    /// Returns the kind of samples for a picture with samples of two bytes.
    pub fn samples_of_words(&self) -> Samples
        ensures { result ≡ samples_of_words self.now.color }
    {
        if self.color == 0 {
            Samples::Gray16
        } else {
            Samples::Rgb16
        }
    }

    /// Returns the method of compression.
    pub fn compression(&self) -> Compression
        ensures { result ≡ compression_by self.now.compression }
    {
        if self.compression == 0 {
            Compression::Stored
        } else {
            Compression::Fixed
        }
    }

    /// Returns the rows of `samples`, or `None` if they do not fit.
    pub fn rows<'a, T>(&self, samples: &'a [T]) -> Option<RowsRef<'a, T>>
        requires { self.now.width < 2 ^ 31 }
        ensures { SomeIff result (IsTrue (fits self.now (length samples.now))) (rows_of self.now samples.now) }
    {
        rows_in(
            samples,
            self.width * self.entries(),
            self.height,
            self.stride,
        )
    }

    /// Returns the number of samples in a pixel.
    fn entries(&self) -> usize
        ensures value { result ≡ entries_by self.now.color }
        ensures few { result ≤ 3 }
    {
        if self.color == 0 { 1 } else { 3 }
    }
}

/// Returns the rows of `samples`, or `None` if they do not fit.
fn rows_in<T>(samples: &[T], width: usize, height: usize, stride: usize) -> Option<RowsRef<'_, T>>
    ensures { SomeIff result (IsTrue (fits_in width height stride (length samples.now)))
        (strided_rows width height stride samples.now) }
{
    RowsRef::new(samples, width, height, stride)
}
