//! Streams of frames whose luma pixels are halved while they are copied.
ghost use Rattle.std.specs.Prelude.{◌≡◌, ◌/◌};
ghost use Rattle.v_frame.specs.Prelude.{KeepsBorders, table_of, tables_of, with_table};
ghost use Rattle.v_frame_ops.specs.Prelude.{mapped};

use crate::error::HalveError;
use std::alloc::Global;
use std::io;
use v_frame::frame::Frame;
use v_frame_ops::map_pixels;
use v_frame_planar::{Counted, read_frame, write_frame};

/// Reads the frames of a stream to its end, and writes each frame with its luma pixels halved.
pub fn halve_stream<R: io::Read + Drop, W: io::Write>(
    alloc: Global,
    input: R,
    output: &mut Counted<W>,
    frame: &mut Frame<u8>,
) -> Result<(), HalveError>
    ensures { KeepsBorders frame.old frame.new }
{
    let mut reader = Counted::new(input);
    for _ in 0..u64::MAX {
        if !read_frame(alloc, &mut reader, frame)? {
            break;
        }
        halve_luma(frame);
        write_frame(output, frame)?;
    }
    Ok(())
}

/// Halves the value of each luma pixel, rounded down. Chroma and all borders are unchanged.
pub fn halve_luma(frame: &mut Frame<u8>)
    ensures tables { tables_of frame.new ≡ with_table (tables_of frame.old) 0
        (mapped (mapped (λ pixel. pixel / 2)) (table_of frame.old.y_plane)) }
    ensures borders { KeepsBorders frame.old frame.new }
{
    map_pixels(&mut frame.y_plane, |pixel| pixel / 2);
}
