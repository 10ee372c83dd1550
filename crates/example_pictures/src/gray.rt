//! The luma of a frame as a gray PNG picture.
ghost use Rattle.std.specs.Prelude.{IfOk};
ghost use Rattle.v_frame.specs.Prelude.{tables_of};
ghost use Rattle.v_frame_png.specs.Prelude.{HasFile};

use std::alloc::Global;
use std::io;
use v_frame::frame::Frame;
use v_frame_png::{Header, PngError, write_png};

/// Writes the luma of an 8-bit frame as a gray PNG picture, and returns the writer. The header has the size of the luma plane
/// and [`Samples::Gray8`].
///
/// [`Samples::Gray8`]: v_frame_png::Samples::Gray8
pub fn write_luma<W: io::Write + Drop>(
    alloc: Global,
    out: W,
    header: Header,
    frame: &Frame<u8>,
) -> Result<W, PngError>
    ensures file { IfOk result (λ new. HasFile W.contents (W.contents out) new header
        (tables_of frame.now).y) }
{
    let luma = frame.y_plane.as_plane_ref().as_rows_ref();
    write_png(alloc, out, header, &luma)
}
