//! The colors of a stream: chroma format, bit depth and chroma siting.
ghost use Rattle.std.specs.Prelude.{◌≡◌, ◌≢◌, ◌↔◌, IfNone, IfSome, IsTrue};
ghost use Rattle.v_frame_y4m.specs.Color.{bits_of, color_text, color_with, depth_of, depth_of_bits, eight_bit_color, high_depth_color, siting_of, stated, subsampling_of};
ghost use Rattle.v_frame_y4m.specs.declared.color.Color.{Color as TheColor};

use v_frame::chroma::ChromaSubsampling;

/// A bit depth above 8.
#[derive(Debug, Clone, Copy, PartialEq, Eq)]
pub enum Depth {
    /// 9 bits.
    Nine,
    /// 10 bits.
    Ten,
    /// 12 bits.
    Twelve,
    /// 14 bits.
    Fourteen,
    /// 16 bits.
    Sixteen,
}

impl Depth {
    /// Returns the number of bits.
    pub fn bits(self) -> u8
        ensures { result ≡ bits_of self }
    {
        match self {
            Depth::Nine => 9,
            Depth::Ten => 10,
            Depth::Twelve => 12,
            Depth::Fourteen => 14,
            Depth::Sixteen => 16,
        }
    }

    /// Returns the depth of this number of bits, or `None` if it is not one of these depths.
    pub fn from_bits(bits: u8) -> Option<Self>
        ensures { result ≡ depth_of_bits bits }
    {
        match bits {
            9 => Some(Depth::Nine),
            10 => Some(Depth::Ten),
            12 => Some(Depth::Twelve),
            14 => Some(Depth::Fourteen),
            16 => Some(Depth::Sixteen),
            _ => None,
        }
    }
}

/// The position of the chroma samples of 8-bit 4:2:0, relative to the luma samples.
#[derive(Debug, Clone, Copy, PartialEq, Eq)]
pub enum ChromaSiting {
    /// In the center of four luma samples, as in JPEG and MPEG-1.
    Center,
    /// Aligned with the left column of the four luma samples, halfway between their rows, as in MPEG-2.
    Left,
    /// As in PAL DV: on luma samples, with Cb and Cr on alternate rows.
    Alternating,
}

/// The color of a stream, which is its parameter `C`: chroma format, bit depth and chroma siting.
#[derive(Debug, Clone, Copy, PartialEq, Eq)]
pub enum Color {
    /// The header has no parameter `C`, which means 4:2:0 as in JPEG.
    Unstated,
    /// `420`: 4:2:0 as in JPEG.
    Yuv420,
    /// `420jpeg`: 4:2:0 as in JPEG.
    Yuv420Jpeg,
    /// `420mpeg2`: 4:2:0 as in MPEG-2.
    Yuv420Mpeg2,
    /// `420paldv`: 4:2:0 as in PAL DV.
    Yuv420Paldv,
    /// `411`: 4:1:1.
    Yuv411,
    /// `422`: 4:2:2.
    Yuv422,
    /// `444`: 4:4:4.
    Yuv444,
    /// `mono`: monochrome.
    Mono,
    /// `420p` and a depth: 4:2:0 with more than 8 bits.
    Yuv420HighDepth(Depth),
    /// `422p` and a depth: 4:2:2 with more than 8 bits.
    Yuv422HighDepth(Depth),
    /// `444p` and a depth: 4:4:4 with more than 8 bits.
    Yuv444HighDepth(Depth),
    /// `mono` and a depth: monochrome with more than 8 bits.
    MonoHighDepth(Depth),
}

/// The colors that a parameter `C` can state.
const STATED: [Color; 28] = [
    Color::Yuv420,
    Color::Yuv420Jpeg,
    Color::Yuv420Mpeg2,
    Color::Yuv420Paldv,
    Color::Yuv411,
    Color::Yuv422,
    Color::Yuv444,
    Color::Mono,
    Color::Yuv420HighDepth(Depth::Nine),
    Color::Yuv420HighDepth(Depth::Ten),
    Color::Yuv420HighDepth(Depth::Twelve),
    Color::Yuv420HighDepth(Depth::Fourteen),
    Color::Yuv420HighDepth(Depth::Sixteen),
    Color::Yuv422HighDepth(Depth::Nine),
    Color::Yuv422HighDepth(Depth::Ten),
    Color::Yuv422HighDepth(Depth::Twelve),
    Color::Yuv422HighDepth(Depth::Fourteen),
    Color::Yuv422HighDepth(Depth::Sixteen),
    Color::Yuv444HighDepth(Depth::Nine),
    Color::Yuv444HighDepth(Depth::Ten),
    Color::Yuv444HighDepth(Depth::Twelve),
    Color::Yuv444HighDepth(Depth::Fourteen),
    Color::Yuv444HighDepth(Depth::Sixteen),
    Color::MonoHighDepth(Depth::Nine),
    Color::MonoHighDepth(Depth::Ten),
    Color::MonoHighDepth(Depth::Twelve),
    Color::MonoHighDepth(Depth::Fourteen),
    Color::MonoHighDepth(Depth::Sixteen),
];

impl Color {
    /// Returns the color with this chroma subsampling, this number of bits and this chroma siting, or `None` if there is none.
    ///
    /// Only 8-bit 4:2:0 has a siting, and it always has one. Three colors have centered chroma. Of these, the call returns
    /// [`Yuv420Jpeg`](Self::Yuv420Jpeg), which is the one that ffmpeg writes.
    pub fn new(
        subsampling: ChromaSubsampling,
        bit_depth: u8,
        siting: Option<ChromaSiting>,
    ) -> Option<Self>
        ensures value { result ≡ color_with subsampling bit_depth siting }
        ensures found { IfSome result (λ c. (subsampling_of c ≡ subsampling)
            × ((depth_of c ≡ bit_depth) × (siting_of c ≡ siting))) }
        ensures none { IfNone result ((c : TheColor) → subsampling_of c ≡ subsampling
            → depth_of c ≡ bit_depth → siting_of c ≢ siting) }
    {
        if bit_depth == 8 {
            Color::of_eight_bits(subsampling, siting)
        } else {
            Color::of_high_depth(subsampling, Depth::from_bits(bit_depth), siting)
        }
    }

    /// Returns the 8-bit color with this subsampling and this siting.
    fn of_eight_bits(subsampling: ChromaSubsampling, siting: Option<ChromaSiting>) -> Option<Self>
        ensures { result ≡ eight_bit_color subsampling siting }
    {
        match (subsampling, siting) {
            (ChromaSubsampling::Yuv420, Some(ChromaSiting::Center)) => Some(Color::Yuv420Jpeg),
            (ChromaSubsampling::Yuv420, Some(ChromaSiting::Left)) => Some(Color::Yuv420Mpeg2),
            (ChromaSubsampling::Yuv420, Some(ChromaSiting::Alternating)) => Some(
                Color::Yuv420Paldv,
            ),
            (ChromaSubsampling::Yuv422, None) => Some(Color::Yuv422),
            (ChromaSubsampling::Yuv411, None) => Some(Color::Yuv411),
            (ChromaSubsampling::Yuv444, None) => Some(Color::Yuv444),
            (ChromaSubsampling::Monochrome, None) => Some(Color::Mono),
            _ => None,
        }
    }

    /// Returns the color above 8 bits with this subsampling, this depth and this siting.
    fn of_high_depth(
        subsampling: ChromaSubsampling,
        depth: Option<Depth>,
        siting: Option<ChromaSiting>,
    ) -> Option<Self>
        ensures { result ≡ high_depth_color subsampling depth siting }
    {
        let depth = depth?;
        if siting.is_some() {
            return None;
        }
        match subsampling {
            ChromaSubsampling::Yuv420 => Some(Color::Yuv420HighDepth(depth)),
            ChromaSubsampling::Yuv422 => Some(Color::Yuv422HighDepth(depth)),
            ChromaSubsampling::Yuv411 => None,
            ChromaSubsampling::Yuv444 => Some(Color::Yuv444HighDepth(depth)),
            ChromaSubsampling::Monochrome => Some(Color::MonoHighDepth(depth)),
        }
    }

    /// Parses the text after the letter `C`.
    pub(crate) fn parse(text: &[u8]) -> Option<Self>
        ensures unknown { IfNone result ((c : TheColor) → stated c ≡ Some c → text.now ≢ color_text c) }
        ensures known { IfSome result (λ c. text.now ≡ color_text c) }
        ensures said { IfSome result (λ c. stated c ≡ Some c) }
    {
        for color in STATED {
            if color.is_spelled(text) {
                return Some(color);
            }
        }
        None
    }

    /// Returns whether `text` is the text of this color.
    fn is_spelled(self, text: &[u8]) -> bool
        ensures { IsTrue result ↔ (text.now ≡ color_text self) }
    {
        text == self.text().as_bytes()
    }

    /// Returns the chroma subsampling of the frames.
    pub fn subsampling(self) -> ChromaSubsampling
        ensures { result ≡ subsampling_of self }
    {
        match self {
            Color::Unstated
            | Color::Yuv420
            | Color::Yuv420Jpeg
            | Color::Yuv420Mpeg2
            | Color::Yuv420Paldv
            | Color::Yuv420HighDepth(_) => ChromaSubsampling::Yuv420,
            Color::Yuv411 => ChromaSubsampling::Yuv411,
            Color::Yuv422 | Color::Yuv422HighDepth(_) => ChromaSubsampling::Yuv422,
            Color::Yuv444 | Color::Yuv444HighDepth(_) => ChromaSubsampling::Yuv444,
            Color::Mono | Color::MonoHighDepth(_) => ChromaSubsampling::Monochrome,
        }
    }

    /// Returns the number of bits of a sample, from 8 to 16. Frames of 8 bits have pixels of type `u8`, deeper frames `u16`.
    pub fn bit_depth(self) -> u8
        ensures { result ≡ depth_of self }
    {
        match self {
            Color::Yuv420HighDepth(depth)
            | Color::Yuv422HighDepth(depth)
            | Color::Yuv444HighDepth(depth)
            | Color::MonoHighDepth(depth) => depth.bits(),
            _ => 8,
        }
    }

    /// Returns the chroma siting. `None` for every color except 8-bit 4:2:0.
    pub fn siting(self) -> Option<ChromaSiting>
        ensures { result ≡ siting_of self }
    {
        match self {
            Color::Unstated | Color::Yuv420 | Color::Yuv420Jpeg => Some(ChromaSiting::Center),
            Color::Yuv420Mpeg2 => Some(ChromaSiting::Left),
            Color::Yuv420Paldv => Some(ChromaSiting::Alternating),
            _ => None,
        }
    }

    /// Returns the text after the letter `C`. It is empty for [`Unstated`](Self::Unstated).
    pub fn text(self) -> &'static str
        ensures { result.now ≡ color_text self }
    {
        match self {
            Color::Unstated => "",
            Color::Yuv420 => "420",
            Color::Yuv420Jpeg => "420jpeg",
            Color::Yuv420Mpeg2 => "420mpeg2",
            Color::Yuv420Paldv => "420paldv",
            Color::Yuv411 => "411",
            Color::Yuv422 => "422",
            Color::Yuv444 => "444",
            Color::Mono => "mono",
            Color::Yuv420HighDepth(depth) => match depth {
                Depth::Nine => "420p9",
                Depth::Ten => "420p10",
                Depth::Twelve => "420p12",
                Depth::Fourteen => "420p14",
                Depth::Sixteen => "420p16",
            },
            Color::Yuv422HighDepth(depth) => match depth {
                Depth::Nine => "422p9",
                Depth::Ten => "422p10",
                Depth::Twelve => "422p12",
                Depth::Fourteen => "422p14",
                Depth::Sixteen => "422p16",
            },
            Color::Yuv444HighDepth(depth) => match depth {
                Depth::Nine => "444p9",
                Depth::Ten => "444p10",
                Depth::Twelve => "444p12",
                Depth::Fourteen => "444p14",
                Depth::Sixteen => "444p16",
            },
            Color::MonoHighDepth(depth) => match depth {
                Depth::Nine => "mono9",
                Depth::Ten => "mono10",
                Depth::Twelve => "mono12",
                Depth::Fourteen => "mono14",
                Depth::Sixteen => "mono16",
            },
        }
    }
}
