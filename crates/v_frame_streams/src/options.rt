//! The options of a copy.

use crate::colors::is_same_format;
use crate::stream::Container;
use v_frame_formats::{Rectangle, VideoFormat};
use v_frame_semi_planar::SemiPlanarFormat;
use v_frame_y4m::{Color, Ratio, StreamHeader};

/// The default limit of luma pixels in a picture, which is the number of pixels of 7680x4320.
pub const MAX_PIXELS: usize = 33_177_600;

/// Selects the frames that a copy reads, and how it edits them.
#[derive(Debug, Clone, Copy, PartialEq, Eq)]
pub struct CopyOptions {
    /// The number of frames to skip at the beginning of the stream.
    pub skip: u64,
    /// The largest number of frames to write after that. `None` copies up to the end of the stream.
    pub count: Option<u64>,
    /// The rectangle of each picture to keep, in luma pixels. `None` keeps the whole picture.
    pub crop: Option<Rectangle>,
    /// Whether to halve the width and the height of the rectangle that is kept, rounded up.
    pub half: bool,
    /// The chroma subsampling, the bit depth and the layout of the output. `None` keeps those of the source, but a YUV4MPEG2
    /// stream always gets planar frames.
    pub format: Option<VideoFormat>,
    /// The frame rate to write in the header. `None` keeps the rate of the source.
    pub frame_rate: Option<Ratio>,
    /// The pixel aspect ratio to write in the header. `None` keeps the ratio of the source.
    pub pixel_aspect: Option<Ratio>,
    /// The largest number of luma pixels that a picture held in memory may have.
    pub max_pixels: usize,
}

impl CopyOptions {
    ghost use Rattle.std.specs.Prelude.{◌≡◌, false, None};
    ghost use Rattle.v_frame_streams.specs.Conversions.{color_in, layout_in, layout_to};
    ghost use Rattle.v_frame_streams.specs.Copies.{is_plain};

    /// Returns the options that copy all frames unchanged, with [`MAX_PIXELS`] as the limit of luma pixels.
    pub fn new() -> Self
        ensures { result ≡ record {
          skip = 0;
          count = None;
          crop = None;
          half = false;
          format = None;
          frame_rate = None;
          pixel_aspect = None;
          max_pixels = MAX_PIXELS;
        } }
    {
        CopyOptions {
            skip: 0,
            count: None,
            crop: None,
            half: false,
            format: None,
            frame_rate: None,
            pixel_aspect: None,
            max_pixels: MAX_PIXELS,
        }
    }

    /// Returns whether a copy writes each frame unchanged. `header` and `layout` describe the source, and `to` is the container
    /// of the output. A layout of `None` is planar.
    pub fn is_plain(
        &self,
        to: Container,
        header: &StreamHeader,
        layout: Option<SemiPlanarFormat>,
    ) -> bool
        ensures { result ≡ is_plain to self.now header.now layout }
    {
        self.crop.is_none()
            && !self.half
            && self.layout_to(to, layout) == layout
            && is_same_format(header.color, self.color(header.color))
    }

    /// Returns the semi-planar layout that [`format`](Self::format) requests, or `None` if it requests a planar format or is
    /// absent.
    pub fn layout(&self) -> Option<SemiPlanarFormat>
        ensures { result ≡ layout_in self.now.format }
    {
        match self.format {
            Some(VideoFormat::SemiPlanar(layout)) => Some(layout),
            _ => None,
        }
    }

    /// Returns the semi-planar layout of the output, or `None` if the output is planar. `there` is the layout of the source,
    /// and `to` the container of the output. Without a [`format`](Self::format), a YUV4MPEG2 stream gets planar frames and raw
    /// video keeps the layout of the source.
    pub fn layout_to(
        &self,
        to: Container,
        there: Option<SemiPlanarFormat>,
    ) -> Option<SemiPlanarFormat>
        ensures { result ≡ layout_to to self.now.format there }
    {
        match (self.format, to) {
            (None, Container::Y4m) => None,
            (None, Container::Raw) => there,
            (Some(_), _) => self.layout(),
        }
    }

    /// Returns the color that the header of the output states. `there` is the color of the source. It is returned unchanged,
    /// with its chroma siting, if chroma subsampling and bit depth stay the same.
    pub fn color(&self, there: Color) -> Color
        ensures { result ≡ color_in self.now.format there }
    {
        match self.format {
            None => there,
            Some(VideoFormat::Planar(color)) if is_same_format(there, color) => there,
            Some(format) => format.color(),
        }
    }
}
