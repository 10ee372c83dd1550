//! The numbers of chroma formats in C, which both C libraries share.
ghost use Rattle.std.specs.Prelude.{◌≡◌, ◌≢◌, MatchOption};
ghost use Rattle.v_frame.specs.Prelude.{ChromaSubsampling as TheFormat};
ghost use Rattle.v_frame_slices.specs.Formats.{format_number, numbered_format};

use v_frame::chroma::ChromaSubsampling;

/// Returns the number of a format.
pub fn number_of_format(format: ChromaSubsampling) -> u32
    ensures { result ≡ format_number format }
{
    match format {
        ChromaSubsampling::Monochrome => 0,
        ChromaSubsampling::Yuv420 => 1,
        ChromaSubsampling::Yuv422 => 2,
        ChromaSubsampling::Yuv444 => 3,
        ChromaSubsampling::Yuv411 => 4,
    }
}

/// Returns the format with a number, or `None` if there is none.
pub fn format_of_number(number: u32) -> Option<ChromaSubsampling>
    ensures value { result ≡ numbered_format number }
    ensures inverse { MatchOption result ((f : TheFormat) → format_number f ≢ number)
        (λ f. format_number f ≡ number) }
{
    match number {
        0 => Some(ChromaSubsampling::Monochrome),
        1 => Some(ChromaSubsampling::Yuv420),
        2 => Some(ChromaSubsampling::Yuv422),
        3 => Some(ChromaSubsampling::Yuv444),
        4 => Some(ChromaSubsampling::Yuv411),
        _ => None,
    }
}
