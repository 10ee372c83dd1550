//! Crops frames and optionally halves their size, rounded up.
ghost use Rattle.std.specs.Prelude.{◌≡◌, ◌+◌, ◌/◌, ◌<◌, ◌≤◌, option_map};
ghost use Rattle.v_frame.specs.Prelude.{KeepsBorder, KeepsBorders, rectangle, table_of, tables_of, border_and_geometry};
ghost use Rattle.v_frame_planar.specs.Planar.{size_of, sizes_of};
ghost use Rattle.v_frame_planar.specs.Video.{ratio_or_one};
ghost use Rattle.v_frame_streams.specs.Edits.{beside, edited, edited_table, halved_table, ChromaFits, EditFits, PlaneFits};

use v_frame::chroma::ChromaSubsampling;
use v_frame::frame::Frame;
use v_frame::pixel::Pixel;
use v_frame::plane::{Plane, PlaneRef};
use v_frame_convert::downscale_to_edge;
use v_frame_formats::Rectangle;
use v_frame_ops::copy_region;
use v_frame_ops::laws::tables_agree_by_pixels;
use v_frame_planar::subsample_ratio_or_one;

/// The edit of each frame: a crop, followed by halving if `half` is set.
#[derive(Clone, Copy)]
pub(crate) struct Edit {
    /// The rectangle of the luma plane that is kept, in luma pixels.
    pub(crate) luma: Rectangle,
    /// The rectangle of each chroma plane that is kept, in chroma pixels.
    pub(crate) chroma: Rectangle,
    /// Whether the result has half the width and half the height of the rectangle, rounded up.
    pub(crate) half: bool,
}

impl Edit {
    /// Returns the edit that keeps the rectangle `luma`, in luma pixels, of frames with this subsampling, together with its
    /// chroma.
    pub(crate) fn new(luma: Rectangle, subsampling: ChromaSubsampling, half: bool) -> Self
        ensures { result ≡ record {
          luma = luma;
          chroma = beside (ratio_or_one subsampling) luma;
          half = half;
        } }
    {
        Edit {
            luma,
            chroma: chroma_beside(&luma, subsampling),
            half,
        }
    }
}

/// Returns the chroma pixels that belong to a rectangle of luma, including those of which only a part belongs to it.
pub(crate) fn chroma_beside(luma: &Rectangle, subsampling: ChromaSubsampling) -> Rectangle
    ensures { result ≡ beside (ratio_or_one subsampling) luma.now }
{
    let (columns, rows) = subsample_ratio_or_one(subsampling);
    Rectangle {
        x: luma.x / columns,
        y: luma.y / rows,
        width: luma.width.div_ceil(columns),
        height: luma.height.div_ceil(rows),
    }
}

/// Applies `edit` to the picture of `source` and stores the result in `target`. The padding of `target` is unchanged.
pub(crate) fn edit_frame<T: Pixel>(edit: &Edit, source: &Frame<T>, target: &mut Frame<T>)
    requires { EditFits edit.now (sizes_of (tables_of source.now))
        (sizes_of (tables_of target.old)) }
    ensures shown { tables_of target.new ≡ edited T.form edit.now (tables_of source.now) }
    ensures borders { KeepsBorders target.old target.new }
    ensures sizes { sizes_of (tables_of target.new) ≡ sizes_of (tables_of target.old) }
{
    edit_plane(edit.half, &edit.luma, &source.y_plane, &mut target.y_plane);
    edit_chroma(
        edit.half,
        &edit.chroma,
        &source.u_plane,
        &mut target.u_plane,
    );
    edit_chroma(
        edit.half,
        &edit.chroma,
        &source.v_plane,
        &mut target.v_plane,
    );
}

/// Applies the edit to chroma planes, if they are present.
fn edit_chroma<T: Pixel>(
    half: bool,
    part: &Rectangle,
    source: &Option<Plane<T>>,
    target: &mut Option<Plane<T>>,
)
    requires { ChromaFits half part.now (option_map size_of (option_map table_of source.now))
        (option_map size_of (option_map table_of target.old)) }
    ensures shown { option_map table_of target.new
        ≡ option_map (edited_table T.form half part.now) (option_map table_of source.now) }
    ensures border { option_map border_and_geometry target.new ≡ option_map border_and_geometry target.old }
    ensures size { option_map size_of (option_map table_of target.new)
        ≡ option_map size_of (option_map table_of target.old) }
{
    if let (Some(source), Some(target)) = (source, target) {
        edit_plane(half, part, source, target);
    }
}

/// Applies the edit to one plane.
fn edit_plane<T: Pixel>(half: bool, part: &Rectangle, source: &Plane<T>, target: &mut Plane<T>)
    requires { PlaneFits half part.now (size_of (table_of source.now))
        (size_of (table_of target.old)) }
    ensures shown { table_of target.new
        ≡ edited_table T.form half part.now (table_of source.now) }
    ensures border { border_and_geometry target.new ≡ border_and_geometry target.old }
    ensures size { size_of (table_of target.new) ≡ size_of (table_of target.old) }
{
    let _sizes = (
        source.width(),
        source.height(),
        target.width(),
        target.height(),
    );
    let taken = part_of(source, part);
    if half {
        halve_plane(&taken, target);
    } else {
        copy_plane(&taken, target);
    }
    let _sizes = (target.width(), target.height());
}

/// Returns a view of the rectangle `part` of `plane`. The rectangle is not empty and lies inside the plane.
pub(crate) fn part_of<'a, T: Pixel>(plane: &'a Plane<T>, part: &Rectangle) -> PlaneRef<'a, T>
    requires wide { 0 < part.now.width }
    requires high { 0 < part.now.height }
    requires across { part.now.x + part.now.width ≤ plane.now.geometry.width }
    requires down { part.now.y + part.now.height ≤ plane.now.geometry.height }
    ensures table { table_of result ≡ rectangle part.now.x part.now.y part.now.width
        part.now.height (table_of plane.now) }
    ensures width { result.geometry.width ≡ part.now.width }
    ensures height { result.geometry.height ≡ part.now.height }
{
    plane
        .as_plane_ref()
        .visible_region(part.x, part.y, part.width, part.height)
}

/// Copies the pixels of one plane to another of the same size.
pub(crate) fn copy_plane<T: Pixel>(source: &PlaneRef<'_, T>, target: &mut Plane<T>)
    requires wide { source.now.geometry.width ≡ target.old.geometry.width }
    requires high { source.now.geometry.height ≡ target.old.geometry.height }
    ensures shown { table_of target.new ≡ table_of source.now }
    ensures border { KeepsBorder target.old target.new }
{
    tables_agree_by_pixels::<T>();
    copy_region(source, target, 0, 0);
    let _sizes = (
        source.width(),
        source.height(),
        target.width(),
        target.height(),
    );
}

/// Halves the width and the height of one plane, rounded up, and stores the result in another.
fn halve_plane<T: Pixel>(source: &PlaneRef<'_, T>, target: &mut Plane<T>)
    requires wide { target.old.geometry.width ≡ (source.now.geometry.width + 1) / 2 }
    requires high { target.old.geometry.height ≡ (source.now.geometry.height + 1) / 2 }
    ensures shown { table_of target.new ≡ halved_table T.form source.now.geometry.width
        source.now.geometry.height (table_of source.now) }
    ensures border { KeepsBorder target.old target.new }
{
    downscale_to_edge(source, target);
}
