//! A replay list of six calls. Three of them write.

use std::alloc::Global;
use v_frame::replay::Side::{Back, Front};
use v_frame::replay::{PixelDraw, RowDraw, Side, VisibleCall};
use v_frame::sequence::Sequence;

/// Returns the calls, or `None` if a memory allocation fails.
pub fn calls(alloc: Global) -> Option<[VisibleCall<u16>; 6]> {
    Some([
        VisibleCall::RowsMut {
            plane: 0,
            draws: row_draws(alloc)?,
        },
        VisibleCall::PixelsMut {
            plane: 2,
            draws: pixel_draws(alloc)?,
        },
        VisibleCall::ByteData {
            plane: 0,
            draws: Sequence::from_slice(alloc, &[Back, Back, Front]).ok()?,
        },
        VisibleCall::PixelMut {
            plane: 0,
            x: 3,
            y: 0,
            value: 99,
        },
        VisibleCall::CopyFromU8SliceWithStride {
            plane: 2,
            source: Sequence::from_slice(alloc, &[1, 2, 3, 4, 5, 6, 7, 8, 9, 10]).ok()?,
            stride: 5,
        },
        VisibleCall::Pixels {
            plane: 2,
            draws: Sequence::from_slice(alloc, &[Back]).ok()?,
        },
    ])
}

/// Changes one pixel of the last row and none of the first. The third call finds no row left.
fn row_draws(alloc: Global) -> Option<Sequence<RowDraw<u16>>> {
    let draws = [
        row_draw(alloc, Back, &[None, Some(50)])?,
        row_draw(alloc, Front, &[])?,
        row_draw(alloc, Front, &[Some(9)])?,
    ];
    Some(Vec::from_array(alloc, draws).ok()?.into())
}

/// Returns a row draw that writes these pixels.
fn row_draw(alloc: Global, side: Side, writes: &[Option<u16>]) -> Option<RowDraw<u16>> {
    let writes = Sequence::from_slice(alloc, writes).ok()?;
    Some(RowDraw { side, writes })
}

/// Replaces the first and the last pixel, and leaves the second one unchanged.
fn pixel_draws(alloc: Global) -> Option<Sequence<PixelDraw<u16>>> {
    let draws = [
        pixel_draw(Front, Some(7)),
        pixel_draw(Back, Some(8)),
        pixel_draw(Front, None),
    ];
    Some(Vec::from_array(alloc, draws).ok()?.into())
}

/// Returns a pixel draw that writes this value.
fn pixel_draw(side: Side, value: Option<u16>) -> PixelDraw<u16> {
    PixelDraw { side, value }
}
