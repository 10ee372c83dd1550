//! Stores planar bytes in frames.
ghost use Rattle.std.specs.Prelude.{◌≡◌, ◌-◌, ◌++◌, ◌≤◌, drop, length, option_map, Some};
ghost use Rattle.v_frame.specs.Prelude.{byte_list, border_and_geometry, KeepsBorders, table_of, tables_of};
ghost use Rattle.v_frame_planar.specs.Planar.{bytes_of_plane, plane_byte_count, planar_bytes, size_of, sizes_of};
ghost use Rattle.v_frame_planar.specs.Shown.{table_in, tables_in, FillsFrame};

use v_frame::frame::Frame;
use v_frame::pixel::Pixel;
use v_frame::plane::Plane;

/// Stores the planar bytes of a frame in `frame`: those of Y, then of U, then of V, row by row from the top. A pixel of type
/// `u8` has one byte, and a pixel of type `u16` has two, in little-endian order.
///
/// The length of `bytes` must be [`planar_len`](crate::planar_len) of the frame. The padding of `frame` is unchanged.
pub fn show_planar_bytes<T: Pixel>(frame: &mut Frame<T>, bytes: &[u8])
    requires { FillsFrame T.form frame.old bytes.now }
    ensures bytes { planar_bytes T.form (tables_of frame.new) ≡ bytes.now }
    ensures shown { tables_of frame.new
        ≡ tables_in T.form (sizes_of (tables_of frame.old)) bytes.now }
    ensures borders { KeepsBorders frame.old frame.new }
    ensures sizes { sizes_of (tables_of frame.new) ≡ sizes_of (tables_of frame.old) }
{
    let behind_y = show_plane(&mut frame.y_plane, bytes);
    let behind_u = show_chroma(&mut frame.u_plane, behind_y);
    show_chroma(&mut frame.v_plane, behind_u);
}

/// Stores the first bytes in a plane, if it is present, and returns the bytes after them.
fn show_chroma<'a, T: Pixel>(plane: &mut Option<Plane<T>>, bytes: &'a [u8]) -> &'a [u8]
    requires { plane_byte_count T.form.size (option_map size_of (option_map table_of plane.old))
        ≤ length bytes.now }
    ensures bytes { bytes.now ≡ bytes_of_plane T.form (option_map table_of plane.new) ++ result.now }
    ensures shown { option_map table_of plane.new
        ≡ option_map (table_in T.form bytes.now) (option_map size_of (option_map table_of plane.old)) }
    ensures rest { result.now ≡ drop (plane_byte_count T.form.size
        (option_map size_of (option_map table_of plane.old))) bytes.now }
    ensures left { length result.now ≡ length bytes.now - plane_byte_count T.form.size
        (option_map size_of (option_map table_of plane.old)) }
    ensures border { option_map border_and_geometry plane.new ≡ option_map border_and_geometry plane.old }
    ensures size { option_map size_of (option_map table_of plane.new)
        ≡ option_map size_of (option_map table_of plane.old) }
{
    match plane {
        Some(plane) => show_plane(plane, bytes),
        None => bytes,
    }
}

/// Stores the first bytes in a plane, and returns the bytes after them.
fn show_plane<'a, T: Pixel>(plane: &mut Plane<T>, bytes: &'a [u8]) -> &'a [u8]
    requires { plane_byte_count T.form.size (Some (size_of (table_of plane.old))) ≤ length bytes.now }
    ensures bytes { bytes.now ≡ byte_list T.form (table_of plane.new) ++ result.now }
    ensures shown { table_of plane.new ≡ table_in T.form bytes.now (size_of (table_of plane.old)) }
    ensures rest { result.now
        ≡ drop (plane_byte_count T.form.size (Some (size_of (table_of plane.old)))) bytes.now }
    ensures left { length result.now ≡ length bytes.now
        - plane_byte_count T.form.size (Some (size_of (table_of plane.old))) }
    ensures border { border_and_geometry plane.new ≡ border_and_geometry plane.old }
    ensures size { size_of (table_of plane.new) ≡ size_of (table_of plane.old) }
{
    let (shown, rest) = bytes.split_at(plane.byte_len());
    if plane.copy_from_u8_slice(shown).is_err() {
        unreachable!()
    }
    rest
}
