//! A filter that changes luma and chroma at any bit depth: the negative of a picture.
ghost use Rattle.std.specs.Prelude.{◌≡◌, ◌-◌, ◌^◌, option_map};
ghost use Rattle.v_frame.specs.Prelude.{border_and_geometry, table_of, tables_of, KeepsBorder, KeepsBorders};
ghost use Rattle.example_recipes.specs.Negative.{negative_table, negative_tables};

use std::alloc::Global;
use std::io;
use v_frame::frame::Frame;
use v_frame::pixel::Pixel;
use v_frame::plane::Plane;
use v_frame_ops::map_pixels;
use v_frame_streams::{MAX_PIXELS, Picture, Sink, Source, StreamError};

/// Replaces each luma and chroma sample of a frame by `peak` minus the sample, or by 0 if the sample is larger than `peak`.
pub fn negate<T: Pixel>(frame: &mut Frame<T>, peak: T)
    ensures tables { tables_of frame.new ≡ negative_tables T.form peak (tables_of frame.old) }
    ensures borders { KeepsBorders frame.old frame.new }
{
    negate_plane(&mut frame.y_plane, peak);
    negate_chroma(&mut frame.u_plane, peak);
    negate_chroma(&mut frame.v_plane, peak);
}

/// Replaces each sample of a plane by `peak` minus the sample, or by 0 if the sample is larger than `peak`.
fn negate_plane<T: Pixel>(plane: &mut Plane<T>, peak: T)
    ensures table { table_of plane.new ≡ negative_table T.form peak (table_of plane.old) }
    ensures border { KeepsBorder plane.old plane.new }
{
    map_pixels(plane, |pixel: T| {
        T::from_value(peak.into_u16().saturating_sub(pixel.into_u16()))
    });
}

/// Replaces each sample of a chroma plane by its negative, if there is a plane.
fn negate_chroma<T: Pixel>(plane: &mut Option<Plane<T>>, peak: T)
    ensures table { option_map table_of plane.new
        ≡ option_map (negative_table T.form peak) (option_map table_of plane.old) }
    ensures border { option_map border_and_geometry plane.new
        ≡ option_map border_and_geometry plane.old }
{
    if let Some(plane) = plane {
        negate_plane(plane, peak);
    }
}

/// Writes the negative of each remaining frame of a stream. The header must have been written before.
pub fn negate_frames<T: Pixel, R: io::Read, W: io::Write>(
    alloc: Global,
    source: &mut Source<R>,
    sink: &mut Sink<W>,
    peak: T,
) -> Result<(), StreamError> {
    let mut picture = Picture::<T>::new(alloc, source, MAX_PIXELS)?;
    for _ in 0..u64::MAX {
        if !picture.is_made_for(source) || !picture.read(source)? {
            break;
        }
        negate(&mut picture.frame, peak);
        sink.write_frame(&picture.frame)?;
    }
    Ok(())
}
