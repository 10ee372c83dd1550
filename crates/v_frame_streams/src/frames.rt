//! Compares two frames of the same size: squared errors and the first pixel that differs.
ghost use Rattle.std.specs.Prelude.{◌≡◌, ◌<◌, ◌↔◌, IfSome, IsNone, Some, option_map};
ghost use Rattle.v_frame.specs.Prelude.{height_of, pixel_at, table_of, tables_of, width_of};
ghost use Rattle.v_frame_planar.specs.Planar.{size_of, sizes_of};
ghost use Rattle.v_frame_streams.specs.Frames.{chroma_errors, plane_errors, DiffersFirst, ChromaDiffersFirst, FramesDifferFirst};

use v_frame::frame::Frame;
use v_frame::pixel::Pixel;
use v_frame::plane::{Plane, RowsRef};
use v_frame_formats::{Component, PixelDifference, PlaneSums};
use v_frame_ops::rows::{first_difference, sum_of_squared_errors};

/// Returns the sum of the squared differences of the pixels of two frames, one sum for each plane. The sums are exact, since
/// they cannot overflow.
pub(crate) fn squared_errors_of_frames<T: Pixel>(first: &Frame<T>, second: &Frame<T>) -> PlaneSums
    requires { sizes_of (tables_of first.now) ≡ sizes_of (tables_of second.now) }
    ensures y { result.y ≡ plane_errors T.form.value (tables_of first.now).y
        (tables_of second.now).y }
    ensures u { result.u ≡ chroma_errors T.form.value (tables_of first.now).u
        (tables_of second.now).u }
    ensures v { result.v ≡ chroma_errors T.form.value (tables_of first.now).v
        (tables_of second.now).v }
{
    PlaneSums {
        y: errors_of_planes(&first.y_plane, &second.y_plane),
        u: errors_of_chroma(&first.u_plane, &second.u_plane),
        v: errors_of_chroma(&first.v_plane, &second.v_plane),
    }
}

/// Returns the first pixel that differs between two frames. The planes are searched in the order Y, U, V, and each plane row by
/// row from the top. Returns `None` exactly if the frames show the same picture.
pub(crate) fn first_difference_of_frames<T: Pixel>(
    first: &Frame<T>,
    second: &Frame<T>,
) -> Option<PixelDifference>
    requires { sizes_of (tables_of first.now) ≡ sizes_of (tables_of second.now) }
    ensures none { IsNone result ↔ (tables_of first.now ≡ tables_of second.now) }
    ensures first { IfSome result (FramesDifferFirst T.form.value (tables_of first.now)
        (tables_of second.now)) }
{
    let luma = difference_of_planes(Component::Y, &first.y_plane, &second.y_plane);
    if luma.is_some() {
        return luma;
    }
    let chroma = difference_of_chroma(Component::U, &first.u_plane, &second.u_plane);
    if chroma.is_some() {
        return chroma;
    }
    difference_of_chroma(Component::V, &first.v_plane, &second.v_plane)
}

/// Returns the sum of the squared differences of the pixels of two planes that have the same size.
fn errors_of_planes<T: Pixel>(first: &Plane<T>, second: &Plane<T>) -> u128
    requires { size_of (table_of first.now) ≡ size_of (table_of second.now) }
    ensures { result ≡ plane_errors T.form.value (table_of first.now) (table_of second.now) }
{
    sum_of_squared_errors(
        &first.as_plane_ref().as_rows_ref(),
        &second.as_plane_ref().as_rows_ref(),
    )
}

/// Returns the sum of the squared differences of the pixels of two chroma planes, or `None` if the planes are absent.
fn errors_of_chroma<T: Pixel>(first: &Option<Plane<T>>, second: &Option<Plane<T>>) -> Option<u128>
    requires { option_map size_of (option_map table_of first.now)
        ≡ option_map size_of (option_map table_of second.now) }
    ensures { result ≡ chroma_errors T.form.value (option_map table_of first.now)
        (option_map table_of second.now) }
{
    match (first, second) {
        (Some(first), Some(second)) => Some(errors_of_planes(first, second)),
        _ => None,
    }
}

/// Returns the first pixel that differs between two planes of the same size.
fn difference_of_planes<T: Pixel>(
    component: Component,
    first: &Plane<T>,
    second: &Plane<T>,
) -> Option<PixelDifference>
    requires { size_of (table_of first.now) ≡ size_of (table_of second.now) }
    ensures none { IsNone result ↔ (table_of first.now ≡ table_of second.now) }
    ensures component { IfSome result (λ found. found.component ≡ component) }
    ensures first { IfSome result (DiffersFirst T.form.value (table_of first.now)
        (table_of second.now)) }
{
    let first = first.as_plane_ref().as_rows_ref();
    let second = second.as_plane_ref().as_rows_ref();
    let (x, y) = first_difference(&first, &second)?;
    Some(PixelDifference {
        component,
        x,
        y,
        first: value_at(&first, x, y),
        second: value_at(&second, x, y),
    })
}

/// Returns the first pixel that differs between two chroma planes, or `None` if the planes are absent.
fn difference_of_chroma<T: Pixel>(
    component: Component,
    first: &Option<Plane<T>>,
    second: &Option<Plane<T>>,
) -> Option<PixelDifference>
    requires { option_map size_of (option_map table_of first.now)
        ≡ option_map size_of (option_map table_of second.now) }
    ensures none { IsNone result
        ↔ (option_map table_of first.now ≡ option_map table_of second.now) }
    ensures component { IfSome result (λ found. found.component ≡ component) }
    ensures first { IfSome result (ChromaDiffersFirst T.form.value
        (option_map table_of first.now) (option_map table_of second.now)) }
{
    match (first, second) {
        (Some(first), Some(second)) => difference_of_planes(component, first, second),
        _ => None,
    }
}

/// Returns the value of the pixel in column `x` and row `y`.
fn value_at<T: Pixel>(rows: &RowsRef<'_, T>, x: usize, y: usize) -> u16
    requires wide { x < width_of rows.now }
    requires high { y < height_of rows.now }
    ensures { option_map T.form.value (pixel_at rows.now x y) ≡ Some result }
{
    rows.visible_row(y)[x].into_u16()
}
