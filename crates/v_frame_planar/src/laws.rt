//! Laws of planar bytes. Each law is the contract of a function that callers call with their own frames.
ghost use Rattle.std.specs.Prelude.{◌≡◌, length};
ghost use Rattle.v_frame.specs.Prelude.{tables_of};
ghost use Rattle.v_frame_planar.specs.Planar.{byte_count, planar_bytes, sizes_of};

use crate::reading::chroma_len;
use v_frame::frame::Frame;
use v_frame::pixel::Pixel;

/// Two frames whose planes have the same sizes have the same number of planar bytes. So the bytes that were written of one
/// frame fill the other exactly.
pub fn same_sizes_same_byte_count<T: Pixel>(first: &Frame<T>, second: &Frame<T>)
    ensures { sizes_of (tables_of first.now) ≡ sizes_of (tables_of second.now)
        → length (planar_bytes T.form (tables_of first.now))
        ≡ length (planar_bytes T.form (tables_of second.now)) }
{
    measure(first);
    measure(second);
}

/// The number of planar bytes of a frame follows from the sizes of its planes.
fn measure<T: Pixel>(frame: &Frame<T>)
    ensures { length (planar_bytes T.form (tables_of frame.now))
        ≡ byte_count T.form.size (sizes_of (tables_of frame.now)) }
{
    // The numbers are not used: the contracts of these calls are the whole proof.
    let _y = frame.y_plane.byte_len();
    let _u = chroma_len(&frame.u_plane);
    let _v = chroma_len(&frame.v_plane);
}
