//! Tests whether a frame has the sizes and the format of a stream.
ghost use Rattle.std.specs.Prelude.{◌≡◌, ◌↔◌, IsTrue, option_map};
ghost use Rattle.v_frame.specs.Prelude.{table_of, tables_of};
ghost use Rattle.v_frame_planar.specs.Planar.{size_of, sizes_of};
ghost use Rattle.v_frame_streams.specs.Conversions.{format_in, format_of};
ghost use Rattle.v_frame_y4m.specs.Color.{depth_of};
ghost use Rattle.v_frame_y4m.specs.Frames.{pixel_bytes};
ghost use Rattle.v_frame_streams.specs.Pictures.{sizes_in};

use v_frame::frame::Frame;
use v_frame::pixel::Pixel;
use v_frame::plane::Plane;
use v_frame_planar::chroma_size;
use v_frame_y4m::{Color, StreamHeader};

/// Returns whether a frame has the chroma subsampling and the bit depth of a color, and whether its pixel type has the right
/// size for that depth.
pub(crate) fn has_format<T: Pixel>(frame: &Frame<T>, color: Color) -> bool
    ensures { IsTrue result ↔ (format_of frame.now ≡ format_in color)
        × (T.form.size ≡ pixel_bytes (depth_of color)) }
{
    let depth = color.bit_depth();
    let pixel = if depth == 8 { 1 } else { 2 };
    frame.subsampling == color.subsampling() && frame.bit_depth.get() == depth && T::BYTES == pixel
}

/// Returns whether the planes of a frame have the sizes that a header states.
pub(crate) fn has_sizes<T: Pixel>(frame: &Frame<T>, header: &StreamHeader) -> bool
    ensures { IsTrue result ↔ (sizes_of (tables_of frame.now) ≡ sizes_in header.now) }
{
    let chroma = chroma_size(header.color.subsampling(), header.width, header.height);
    has_size(&frame.y_plane, (header.width, header.height))
        && has_chroma_size(&frame.u_plane, chroma)
        && has_chroma_size(&frame.v_plane, chroma)
}

/// Returns whether a chroma plane has this size. If `size` is `None`, the plane must be absent.
fn has_chroma_size<T: Pixel>(plane: &Option<Plane<T>>, size: Option<(usize, usize)>) -> bool
    ensures { IsTrue result ↔ (option_map size_of (option_map table_of plane.now) ≡ size) }
{
    match (plane, size) {
        (Some(plane), Some(size)) => has_size(plane, size),
        (None, None) => true,
        _ => false,
    }
}

/// Returns whether a plane has this width and height in pixels.
fn has_size<T: Pixel>(plane: &Plane<T>, size: (usize, usize)) -> bool
    ensures { IsTrue result ↔ (size_of (table_of plane.now) ≡ size) }
{
    plane.width() == size.0 && plane.height() == size.1
}
