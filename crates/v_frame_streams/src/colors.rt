//! Comparisons of colors: equal formats and equal spellings.
ghost use Rattle.std.specs.Prelude.{◌≡◌, ◌↔◌, IsTrue};
ghost use Rattle.v_frame_streams.specs.Conversions.{format_in, is_same_color as have_one_spelling, is_same_format as have_one_format};
ghost use Rattle.v_frame_streams.specs.Layouts.{HoldsColor};

use v_frame_semi_planar::SemiPlanarFormat;
use v_frame_y4m::Color;

/// Returns whether frames of color `from` can be used unchanged as frames of color `to`, because chroma subsampling and bit
/// depth are equal.
pub(crate) fn is_same_format(from: Color, to: Color) -> bool
    ensures { result ≡ have_one_format (format_in from) (format_in to) }
{
    from.subsampling() == to.subsampling() && from.bit_depth() == to.bit_depth()
}

/// Returns whether two colors are spelled alike in a header line.
pub(crate) fn is_same_color(one: Color, other: Color) -> bool
    ensures { result ≡ have_one_spelling one other }
{
    one.text() == other.text()
}

/// Returns whether frames of this color can be stored in the semi-planar layout. Always true if `layout` is `None`.
pub(crate) fn holds_color(layout: Option<SemiPlanarFormat>, color: Color) -> bool
    ensures { IsTrue result ↔ HoldsColor layout color }
{
    match layout {
        Some(layout) => {
            color.subsampling() == layout.subsampling() && color.bit_depth() == layout.bit_depth()
        }
        None => true,
    }
}
