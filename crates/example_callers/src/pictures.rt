//! A picture that is changed by one replayed iteration over its pixels.
ghost use Rattle.std.specs.Prelude.{◌≡◌, ◌+◌, min, map, IfOk, OnOk, OnErr};
ghost use Rattle.v_frame.specs.Prelude.{table_of, row_major, tables_of, with_table, KeepsBorders, front_draw};

use std::alloc::{AllocError, Global};
use v_frame::frame::Frame;
use v_frame::laws::full_iterations_change_each_pixel;
use v_frame::plane::Plane;
use v_frame::replay::{PixelDraw, Side, VisibleCall, replay};

/// Increases each luma pixel by `by`, but to at most the largest value. The border and the chroma planes are unchanged. If
/// memory cannot be allocated, all visible pixels are unchanged.
pub fn brighten(alloc: Global, frame: &mut Frame<u8>, by: u8) -> Result<(), AllocError>
    ensures tables { OnOk result (tables_of frame.new ≡ with_table (tables_of frame.old) 0
        (map (map (λ pixel. min (pixel + by) 255)) (table_of frame.old.y_plane))) }
    ensures refused { OnErr result (tables_of frame.new ≡ tables_of frame.old) }
    ensures border { KeepsBorders frame.old frame.new }
{
    full_iterations_change_each_pixel::<u8>();
    // The law is about rows of equal width. A width that was read is the width of all rows.
    let _width = frame.y_plane.width();
    let draws = brighter_pixels(alloc, &frame.y_plane, by)?;
    let calls = [VisibleCall::PixelsMut {
        plane: 0,
        draws: draws.into(),
    }];
    match replay(alloc, frame, &calls) {
        Ok(_) => Ok(()),
        Err(_) => Err(AllocError),
    }
}

/// Returns one call of `next` for each pixel, with the pixel increased by `by`.
fn brighter_pixels(
    alloc: Global,
    plane: &Plane<u8>,
    by: u8,
) -> Result<Vec<PixelDraw<u8>>, AllocError>
    ensures { IfOk result (λ draws. draws.items
        ≡ map (λ pixel. front_draw (min (pixel + by) 255)) (row_major (table_of plane.now))) }
{
    plane
        .pixels()
        .map(|pixel| PixelDraw {
            side: Side::Front,
            value: Some(pixel.saturating_add(by)),
        })
        .collect(alloc)
}
