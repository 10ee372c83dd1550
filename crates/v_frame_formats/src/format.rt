//! The formats of raw video and their names.
ghost use Rattle.std.specs.Prelude.{◌≡◌, ◌↔◌, ◌⊎◌, IfNone, IfSome, IsTrue};
ghost use Rattle.v_frame_y4m.specs.Color.{depth_of, subsampling_of};
ghost use Rattle.v_frame_formats.specs.Formats.{color_of_layout, common_color, common_name as name_in_common, ffmpeg_color, ffmpeg_layout, ffmpeg_name as name_in_ffmpeg, format_color, format_depth, format_subsampling, full_range_format, layout_text, short_name as name_in_short, IsFormat, IsNameOf, IsSameName};
ghost use Rattle.v_frame_formats.specs.declared.format.VideoFormat.{VideoFormat as TheFormat};

use v_frame::chroma::ChromaSubsampling;
use v_frame_semi_planar::SemiPlanarFormat;
use v_frame_y4m::{Color, Depth};

/// A format of raw video: the chroma subsampling, the bit depth and the order of the samples in memory.
#[derive(Debug, Clone, Copy, PartialEq, Eq)]
pub enum VideoFormat {
    /// The planes follow each other. The color is never [`Color::Unstated`].
    Planar(Color),
    /// Luma comes first, then the samples of both chroma planes, interleaved.
    SemiPlanar(SemiPlanarFormat),
}

/// All formats that have names.
const FORMATS: [VideoFormat; 35] = [
    VideoFormat::Planar(Color::Yuv420),
    VideoFormat::Planar(Color::Yuv420Jpeg),
    VideoFormat::Planar(Color::Yuv420Mpeg2),
    VideoFormat::Planar(Color::Yuv420Paldv),
    VideoFormat::Planar(Color::Yuv411),
    VideoFormat::Planar(Color::Yuv422),
    VideoFormat::Planar(Color::Yuv444),
    VideoFormat::Planar(Color::Mono),
    VideoFormat::Planar(Color::Yuv420HighDepth(Depth::Nine)),
    VideoFormat::Planar(Color::Yuv420HighDepth(Depth::Ten)),
    VideoFormat::Planar(Color::Yuv420HighDepth(Depth::Twelve)),
    VideoFormat::Planar(Color::Yuv420HighDepth(Depth::Fourteen)),
    VideoFormat::Planar(Color::Yuv420HighDepth(Depth::Sixteen)),
    VideoFormat::Planar(Color::Yuv422HighDepth(Depth::Nine)),
    VideoFormat::Planar(Color::Yuv422HighDepth(Depth::Ten)),
    VideoFormat::Planar(Color::Yuv422HighDepth(Depth::Twelve)),
    VideoFormat::Planar(Color::Yuv422HighDepth(Depth::Fourteen)),
    VideoFormat::Planar(Color::Yuv422HighDepth(Depth::Sixteen)),
    VideoFormat::Planar(Color::Yuv444HighDepth(Depth::Nine)),
    VideoFormat::Planar(Color::Yuv444HighDepth(Depth::Ten)),
    VideoFormat::Planar(Color::Yuv444HighDepth(Depth::Twelve)),
    VideoFormat::Planar(Color::Yuv444HighDepth(Depth::Fourteen)),
    VideoFormat::Planar(Color::Yuv444HighDepth(Depth::Sixteen)),
    VideoFormat::Planar(Color::MonoHighDepth(Depth::Nine)),
    VideoFormat::Planar(Color::MonoHighDepth(Depth::Ten)),
    VideoFormat::Planar(Color::MonoHighDepth(Depth::Twelve)),
    VideoFormat::Planar(Color::MonoHighDepth(Depth::Fourteen)),
    VideoFormat::Planar(Color::MonoHighDepth(Depth::Sixteen)),
    VideoFormat::SemiPlanar(SemiPlanarFormat::Nv12),
    VideoFormat::SemiPlanar(SemiPlanarFormat::Nv21),
    VideoFormat::SemiPlanar(SemiPlanarFormat::Nv16),
    VideoFormat::SemiPlanar(SemiPlanarFormat::Nv24),
    VideoFormat::SemiPlanar(SemiPlanarFormat::P010),
    VideoFormat::SemiPlanar(SemiPlanarFormat::P012),
    VideoFormat::SemiPlanar(SemiPlanarFormat::P016),
];

impl VideoFormat {
    /// Returns the chroma subsampling.
    pub fn subsampling(self) -> ChromaSubsampling
        ensures { result ≡ format_subsampling self }
    {
        match self {
            VideoFormat::Planar(color) => color.subsampling(),
            VideoFormat::SemiPlanar(layout) => layout.subsampling(),
        }
    }

    /// Returns the number of bits of a sample.
    pub fn bit_depth(self) -> u8
        ensures { result ≡ format_depth self }
    {
        match self {
            VideoFormat::Planar(color) => color.bit_depth(),
            VideoFormat::SemiPlanar(layout) => layout.bit_depth(),
        }
    }

    /// Returns the color that the header of a YUV4MPEG2 stream states for frames of this format.
    pub fn color(self) -> Color
        ensures value { result ≡ format_color self }
        ensures subsampling { subsampling_of result ≡ format_subsampling self }
        ensures depth { depth_of result ≡ format_depth self }
    {
        match self {
            VideoFormat::Planar(color) => color,
            VideoFormat::SemiPlanar(layout) => layout_color(layout),
        }
    }

    /// Returns the short name: for planar formats the one that YUV4MPEG2 uses, as `420p10`; for others a name as `nv12` or
    /// `p010`.
    pub fn short_name(self) -> &'static str
        ensures { result.now ≡ name_in_short self }
    {
        match self {
            VideoFormat::Planar(color) => color.text(),
            VideoFormat::SemiPlanar(layout) => layout_name(layout),
        }
    }

    /// Returns the name of ffmpeg's pixel format, as `yuv420p10le`, or the short name if no pixel format of ffmpeg has exactly
    /// this meaning.
    pub fn ffmpeg_name(self) -> &'static str
        ensures { result.now ≡ name_in_ffmpeg self }
    {
        match self {
            VideoFormat::Planar(color) => color_name_in_ffmpeg(color),
            VideoFormat::SemiPlanar(layout) => layout_name_in_ffmpeg(layout),
        }
    }

    /// Returns the name that people usually type, in lower case: `i420`, `i422`, `i444`, `gray8`, or the name of ffmpeg without
    /// its `le`. For other formats, returns the short name.
    pub fn common_name(self) -> &'static str
        ensures { result.now ≡ name_in_common self }
    {
        match self {
            VideoFormat::Planar(color) => common_color_name(color),
            VideoFormat::SemiPlanar(layout) => layout_name(layout),
        }
    }

    /// Returns the format that has this name: the short one, the one of ffmpeg or the common one, in upper or lower case. Returns
    /// `None` if no format has it.
    pub fn named(name: &str) -> Option<Self>
        ensures some { IfSome result (λ format. IsFormat format name.now) }
        ensures none { IfNone result ((format : TheFormat) → ¬ (IsFormat format name.now)) }
    {
        for format in FORMATS {
            if format.is_called(name) {
                return Some(format);
            }
        }
        None
    }

    /// Returns the format whose samples have full range if they have this name: one of ffmpeg's `yuvj420p`, `yuvj422p` and
    /// `yuvj444p`, in upper or lower case. Returns `None` for other names.
    pub fn full_range_named(name: &str) -> Option<Self>
        ensures { result ≡ full_range_format name.now }
    {
        if name.eq_ignore_ascii_case("yuvj420p") {
            return Some(VideoFormat::Planar(Color::Yuv420Jpeg));
        }
        if name.eq_ignore_ascii_case("yuvj422p") {
            return Some(VideoFormat::Planar(Color::Yuv422));
        }
        if name.eq_ignore_ascii_case("yuvj444p") {
            return Some(VideoFormat::Planar(Color::Yuv444));
        }
        None
    }

    /// Returns whether this is one of the three names of the format.
    fn is_called(self, name: &str) -> bool
        ensures { IsTrue result ↔ IsNameOf self name.now }
    {
        is_same_name(name, self.short_name())
            || is_same_name(name, self.ffmpeg_name())
            || is_same_name(name, self.common_name())
    }
}

/// Returns whether two names are equal, except for the case of letters.
fn is_same_name(name: &str, other: &str) -> bool
    ensures { IsTrue result ↔ IsSameName name.now other.now }
{
    name.eq_ignore_ascii_case(other)
}

/// Returns the color that has the chroma subsampling and the bit depth of a layout.
fn layout_color(layout: SemiPlanarFormat) -> Color
    ensures { result ≡ color_of_layout layout }
{
    match layout {
        SemiPlanarFormat::Nv12 | SemiPlanarFormat::Nv21 => Color::Yuv420,
        SemiPlanarFormat::Nv16 => Color::Yuv422,
        SemiPlanarFormat::Nv24 => Color::Yuv444,
        SemiPlanarFormat::P010 => Color::Yuv420HighDepth(Depth::Ten),
        SemiPlanarFormat::P012 => Color::Yuv420HighDepth(Depth::Twelve),
        SemiPlanarFormat::P016 => Color::Yuv420HighDepth(Depth::Sixteen),
    }
}

/// Returns the short name of a layout.
fn layout_name(layout: SemiPlanarFormat) -> &'static str
    ensures { result.now ≡ layout_text layout }
{
    match layout {
        SemiPlanarFormat::Nv12 => "nv12",
        SemiPlanarFormat::Nv21 => "nv21",
        SemiPlanarFormat::Nv16 => "nv16",
        SemiPlanarFormat::Nv24 => "nv24",
        SemiPlanarFormat::P010 => "p010",
        SemiPlanarFormat::P012 => "p012",
        SemiPlanarFormat::P016 => "p016",
    }
}

/// Returns the name that ffmpeg has for a layout.
fn layout_name_in_ffmpeg(layout: SemiPlanarFormat) -> &'static str
    ensures { result.now ≡ ffmpeg_layout layout }
{
    match layout {
        SemiPlanarFormat::P010 => "p010le",
        SemiPlanarFormat::P012 => "p012le",
        SemiPlanarFormat::P016 => "p016le",
        _ => layout_name(layout),
    }
}

/// Returns ffmpeg's name for planes of a color, or the short name if ffmpeg has none.
fn color_name_in_ffmpeg(color: Color) -> &'static str
    ensures { result.now ≡ ffmpeg_color color }
{
    match color {
        Color::Yuv420Jpeg => "yuv420p",
        Color::Yuv411 => "yuv411p",
        Color::Yuv422 => "yuv422p",
        Color::Yuv444 => "yuv444p",
        Color::Mono => "gray",
        Color::Yuv420HighDepth(depth) => match depth {
            Depth::Nine => "yuv420p9le",
            Depth::Ten => "yuv420p10le",
            Depth::Twelve => "yuv420p12le",
            Depth::Fourteen => "yuv420p14le",
            Depth::Sixteen => "yuv420p16le",
        },
        Color::Yuv422HighDepth(depth) => match depth {
            Depth::Nine => "yuv422p9le",
            Depth::Ten => "yuv422p10le",
            Depth::Twelve => "yuv422p12le",
            Depth::Fourteen => "yuv422p14le",
            Depth::Sixteen => "yuv422p16le",
        },
        Color::Yuv444HighDepth(depth) => match depth {
            Depth::Nine => "yuv444p9le",
            Depth::Ten => "yuv444p10le",
            Depth::Twelve => "yuv444p12le",
            Depth::Fourteen => "yuv444p14le",
            Depth::Sixteen => "yuv444p16le",
        },
        Color::MonoHighDepth(depth) => match depth {
            Depth::Nine => "gray9le",
            Depth::Ten => "gray10le",
            Depth::Twelve => "gray12le",
            Depth::Fourteen => "gray14le",
            Depth::Sixteen => "gray16le",
        },
        Color::Unstated | Color::Yuv420 | Color::Yuv420Mpeg2 | Color::Yuv420Paldv => color.text(),
    }
}

/// Returns the name that people usually type for planes of a color, in lower case.
fn common_color_name(color: Color) -> &'static str
    ensures { result.now ≡ common_color color }
{
    match color {
        Color::Yuv420Jpeg => "i420",
        Color::Yuv422 => "i422",
        Color::Yuv444 => "i444",
        Color::Mono => "gray8",
        Color::Yuv420HighDepth(depth) => match depth {
            Depth::Nine => "yuv420p9",
            Depth::Ten => "yuv420p10",
            Depth::Twelve => "yuv420p12",
            Depth::Fourteen => "yuv420p14",
            Depth::Sixteen => "yuv420p16",
        },
        Color::Yuv422HighDepth(depth) => match depth {
            Depth::Nine => "yuv422p9",
            Depth::Ten => "yuv422p10",
            Depth::Twelve => "yuv422p12",
            Depth::Fourteen => "yuv422p14",
            Depth::Sixteen => "yuv422p16",
        },
        Color::Yuv444HighDepth(depth) => match depth {
            Depth::Nine => "yuv444p9",
            Depth::Ten => "yuv444p10",
            Depth::Twelve => "yuv444p12",
            Depth::Fourteen => "yuv444p14",
            Depth::Sixteen => "yuv444p16",
        },
        Color::MonoHighDepth(depth) => match depth {
            Depth::Nine => "gray9",
            Depth::Ten => "gray10",
            Depth::Twelve => "gray12",
            Depth::Fourteen => "gray14",
            Depth::Sixteen => "gray16",
        },
        Color::Unstated | Color::Yuv420 | Color::Yuv420Mpeg2 | Color::Yuv420Paldv | Color::Yuv411 =>
            color.text(),
    }
}
