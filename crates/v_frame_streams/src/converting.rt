//! Converts frames to another chroma format and bit depth.
ghost use Rattle.std.specs.Prelude.{◌≡◌, option_map};
ghost use Rattle.v_frame.specs.Prelude.{table_of, tables_of};
ghost use Rattle.v_frame_planar.specs.Planar.{size_of, sizes_of};
ghost use Rattle.v_frame_streams.specs.Conversions.{format_of, in_format, size_laid_out, sizes_laid_out, FormatsFit};

use v_frame::frame::Frame;
use v_frame::pixel::Pixel;
use v_frame::plane::Plane;
use v_frame_convert::convert_frame;

/// Converts the picture of `source` to the chroma subsampling and bit depth of `target` and stores it there. The padding of
/// `target` is unchanged.
pub(crate) fn convert_to_format<S: Pixel, T: Pixel>(source: &Frame<S>, target: &mut Frame<T>)
    requires { FormatsFit S.BYTES T.BYTES (format_of source.now) (format_of target.old)
        (sizes_of (tables_of source.now)) (sizes_of (tables_of target.old)) }
    ensures shown { tables_of target.new ≡ in_format S.form T.form (format_of source.now)
        (format_of target.old) (sizes_of (tables_of target.old)) (tables_of source.now) }
    ensures format { format_of target.new ≡ format_of target.old }
    ensures sizes { sizes_of (tables_of target.new) ≡ sizes_of (tables_of target.old) }
{
    sizes_are_laid_out(source);
    sizes_are_laid_out(target);
    convert_frame(source, target);
    sizes_are_laid_out(target);
}

/// The tables of a frame have the sizes in the geometries of its planes.
pub(crate) fn sizes_are_laid_out<T: Pixel>(frame: &Frame<T>)
    ensures { sizes_of (tables_of frame.now) ≡ sizes_laid_out frame.now }
{
    size_is_laid_out(&frame.y_plane);
    chroma_size_is_laid_out(&frame.u_plane);
    chroma_size_is_laid_out(&frame.v_plane);
}

/// The table of a chroma plane, if there is one, has the size in the geometry of the plane.
fn chroma_size_is_laid_out<T: Pixel>(plane: &Option<Plane<T>>)
    ensures { option_map size_of (option_map table_of plane.now) ≡ option_map size_laid_out plane.now }
{
    if let Some(plane) = plane {
        size_is_laid_out(plane);
    }
}

/// The table of a plane has the size in its geometry.
fn size_is_laid_out<T: Pixel>(plane: &Plane<T>)
    ensures { size_of (table_of plane.now) ≡ size_laid_out plane.now }
{
    // The contracts of these two calls are the whole proof.
    let _size = (plane.width(), plane.height());
}
