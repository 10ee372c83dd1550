//! The layout of the planes of a frame in one buffer, one after the other.
ghost use Rattle.std.specs.Prelude.{◌≡◌, ◌≢◌, ◌+◌, ◌<◌, ◌≤◌, IsTrue, SomeIff};
ghost use Rattle.v_frame.specs.Prelude.{usize_max};
ghost use Rattle.v_frame_slices.specs.FrameParts.{all_parts, chroma_in, evenly_bordered, frame_parts, frame_status, luma_in, luma_parts, no_part, size_of};
ghost use Rattle.v_frame_slices.specs.Layout.{is_bordered};

use crate::formats::format_of_number;
use crate::layout::Bordered;
use crate::status::{FIRST, FORMAT, OK};

/// A frame: its size in luma pixels, the padding of luma on all four sides, and the number of its format.
#[repr(C)]
pub struct FrameRequest {
    pub width: usize,
    pub height: usize,
    pub padding: usize,
    pub format: u32,
}

/// A plane in a buffer: the index at which it begins, the number of its entries, and its layout.
#[derive(Drop)]
#[repr(C)]
pub struct PlanePart {
    pub offset: usize,
    pub count: usize,
    pub layout: Bordered,
}

/// The planes of a frame, and the total number of their entries.
#[derive(Drop)]
#[repr(C)]
pub struct FrameParts {
    pub y: PlanePart,
    pub u: PlanePart,
    pub v: PlanePart,
    pub count: usize,
}

/// Lays out the planes of a frame of this size and format one after the other, without gaps.
pub fn lay_out(request: &FrameRequest, parts: &mut FrameParts) -> u32
    ensures status { result ≡ frame_status request.now }
    ensures parts { result ≡ 0 → parts.new ≡ frame_parts request.now }
    ensures luma { result ≡ 0 → IsTrue (is_bordered parts.new.y.layout parts.new.y.count) }
    ensures chroma { result ≡ 0 → 0 < parts.new.u.count
        → IsTrue (is_bordered parts.new.u.layout parts.new.u.count) }
    ensures apart { result ≡ 0 → (parts.new.y.offset + parts.new.y.count ≤ parts.new.count)
        × (0 < parts.new.u.count → (parts.new.y.offset + parts.new.y.count ≤ parts.new.u.offset)
        × (parts.new.u.offset + parts.new.u.count ≤ parts.new.v.offset)
        × (parts.new.v.offset + parts.new.v.count ≤ parts.new.count)) }
    ensures refused { result ≢ 0 → parts.new ≡ parts.old }
{
    let Some(format) = format_of_number(request.format) else {
        return FORMAT;
    };
    let laid_out = match format.subsample_ratio() {
        Some((x, y)) => of_all(request, usize::from(x.get()), usize::from(y.get())),
        None => of_luma(request),
    };
    let Some(found) = laid_out else {
        return FIRST;
    };
    *parts = found;
    OK
}

/// Lays out a frame without chroma.
fn of_luma(request: &FrameRequest) -> Option<FrameParts>
    ensures { let luma = luma_in request.now (1, 1) in
        SomeIff result (IsTrue (is_bordered luma usize_max)) (luma_parts luma) }
{
    let (luma, count) = luma_of(request, 1, 1)?;
    Some(FrameParts {
        y: PlanePart {
            offset: 0,
            count,
            layout: luma,
        },
        u: none(),
        v: none(),
        count,
    })
}

/// Lays out luma and chroma. Luma has `columns` columns and `rows` rows for one column and one row of chroma.
fn of_all(request: &FrameRequest, columns: usize, rows: usize) -> Option<FrameParts>
    requires columns { 0 < columns }
    requires rows { 0 < rows }
    ensures { let luma = luma_in request.now (columns, rows) in
        let chroma = chroma_in request.now (columns, rows) in
        SomeIff result (IsTrue (is_bordered luma usize_max) × IsTrue (is_bordered chroma usize_max))
        (all_parts luma chroma) }
{
    let (luma, luma_count) = luma_of(request, columns, rows)?;
    let (u, chroma_count) = chroma_of(request, columns, rows)?;
    let (v, _) = chroma_of(request, columns, rows)?;
    let end_of_u = luma_count + chroma_count;
    Some(FrameParts {
        y: PlanePart {
            offset: 0,
            count: luma_count,
            layout: luma,
        },
        u: PlanePart {
            offset: luma_count,
            count: chroma_count,
            layout: u,
        },
        v: PlanePart {
            offset: end_of_u,
            count: chroma_count,
            layout: v,
        },
        count: end_of_u + chroma_count,
    })
}

/// Returns the layout of luma, and the number of its entries.
fn luma_of(request: &FrameRequest, columns: usize, rows: usize) -> Option<(Bordered, usize)>
    requires columns { 0 < columns }
    requires rows { 0 < rows }
    ensures { let luma = luma_in request.now (columns, rows) in
        SomeIff result (IsTrue (is_bordered luma usize_max)) (luma, size_of luma) }
{
    let across = request.padding.div_ceil(columns).checked_mul(columns)?;
    let down = request.padding.div_ceil(rows).checked_mul(rows)?;
    sized(request.width, request.height, across, down)
}

/// Returns the layout of chroma, and the number of its entries.
fn chroma_of(request: &FrameRequest, columns: usize, rows: usize) -> Option<(Bordered, usize)>
    requires columns { 0 < columns }
    requires rows { 0 < rows }
    ensures { let chroma = chroma_in request.now (columns, rows) in
        SomeIff result (IsTrue (is_bordered chroma usize_max)) (chroma, size_of chroma) }
{
    sized(
        request.width.div_ceil(columns),
        request.height.div_ceil(rows),
        request.padding.div_ceil(columns),
        request.padding.div_ceil(rows),
    )
}

/// Returns a layout with one padding on the left and the right and one above and below, and the number of its entries.
fn sized(width: usize, height: usize, across: usize, down: usize) -> Option<(Bordered, usize)>
    ensures { let layout = evenly_bordered width height across down in
        SomeIff result (IsTrue (is_bordered layout usize_max)) (layout, size_of layout) }
{
    let layout = Bordered {
        width,
        height,
        pad_left: across,
        pad_right: across,
        pad_top: down,
        pad_bottom: down,
    };
    let (_, count) = layout.of(usize::MAX)?;
    Some((layout, count))
}

/// Returns a plane whose numbers are all 0.
fn none() -> PlanePart
    ensures { result ≡ no_part }
{
    PlanePart {
        offset: 0,
        count: 0,
        layout: Bordered {
            width: 0,
            height: 0,
            pad_left: 0,
            pad_right: 0,
            pad_top: 0,
            pad_bottom: 0,
        },
    }
}
