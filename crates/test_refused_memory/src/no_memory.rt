//! Calls that allocate no memory, so their results are the same whichever allocation fails.

use crate::replays::show_replay;
use crate::show::show;
use std::alloc::{AllocError, Global};
use std::io::Cursor;
use v_frame::chroma::ChromaSubsampling::{Monochrome, Yuv420};
use v_frame::frame::FrameBuilder;
use v_frame::pixel::Pixel;
use v_frame::plane::{PlaneGeometry, PlaneRef};
use v_frame_buffer::AlignedData;
use v_frame_planar::{Counted, write_frame};

/// Replays nothing on a blank frame and writes it, makes buffers without entries, makes builds that are rejected before they
/// allocate, and reads an array.
pub fn calls_that_take_no_memory(rt: &HostRuntime) -> Option<()> {
    let builder = FrameBuilder::new(3, 2, Monochrome, 8);
    let mut frame = builder.build::<u8>(rt.alloc()).ok()?;
    show_replay(rt, &mut frame, &[]);
    let mut writer = Counted::new(Cursor::new([9; 8]));
    let written = write_frame(&mut writer, &frame);
    show(
        rt,
        &(written, *writer.get_ref().get_ref(), frame.y_plane.data()),
    );
    show(rt, &lengths_of_empty_buffers(rt.alloc()));
    show_refused::<u8>(rt, sized(1920, 7));
    show_refused::<u8>(rt, sized(1920, 10));
    show_refused::<u16>(rt, sized(1920, 8));
    show_refused::<u16>(rt, sized(0, 17));
    show_refused::<u8>(rt, sized(0, 8));
    show_refused::<u8>(rt, sized(1920, 8).luma_padding_bottom(1));
    show_array(rt)
}

/// Returns the lengths of buffers without entries: zeros, their clone, and the values of options.
fn lengths_of_empty_buffers(alloc: Global) -> Result<[usize; 3], AllocError> {
    let zeros = AlignedData::new(alloc, 0_u16, 0)?;
    let copy = zeros.clone(alloc)?;
    let options = AlignedData::<Option<u16>>::without_values(alloc, 0)?;
    match options.into_values(alloc) {
        Ok(values) => Ok([
            zeros.as_slice().len(),
            copy.as_slice().len(),
            values.as_slice().len(),
        ]),
        Err(_) => Err(AllocError),
    }
}

/// Returns the builder of a frame with this width and this bit depth.
fn sized(width: usize, depth: u8) -> FrameBuilder {
    FrameBuilder::new(width, 1080, Yuv420, depth)
}

/// Prints why a frame is not built.
fn show_refused<T: Pixel>(rt: &HostRuntime, builder: FrameBuilder) {
    show(rt, &builder.build::<T>(rt.alloc()).err());
}

/// Two by two pixels with one border column on the left.
static ENTRIES: [u16; 6] = [900, 0x0102, 0x0304, 901, 0x0506, 0x0708];

/// Prints the pixels of a plane over an array.
fn show_array(rt: &HostRuntime) -> Option<()> {
    let geometry = PlaneGeometry::new(2, 2, 1, 0, 0, 0, 1, 1)?;
    let plane = PlaneRef::new(geometry, &ENTRIES)?;
    show(rt, &(plane.geometry(), plane.width(), plane.height()));
    show(
        rt,
        &(
            plane.pixel(1, 1),
            plane.pixel(2, 1),
            plane.row(0),
            plane.row(2),
        ),
    );
    show(rt, &plane.duplicate().data());
    for row in plane.rows() {
        show(rt, &row);
    }
    for pixel in plane.pixels() {
        show(rt, &pixel);
    }
    for byte in plane.byte_data() {
        show(rt, &byte);
    }
    show(rt, &(plane.rows().next_back(), plane.pixels().next_back()));
    Some(())
}
