//! Tests whether two frames show the same picture, given the sums of their squared errors.
ghost use Rattle.std.specs.Prelude.{◌≡◌, ◌↔◌, IfSome, IsNone, IsTrue, option_map};
ghost use Rattle.v_frame.specs.Prelude.{table_of, tables_of};
ghost use Rattle.v_frame_planar.specs.Planar.{size_of, sizes_of};
ghost use Rattle.v_frame_streams.specs.Frames.{chroma_errors, plane_errors, FramesDifferFirst};

use crate::frames::first_difference_of_frames;
use v_frame::frame::Frame;
use v_frame::pixel::Pixel;
use v_frame::plane::Plane;
use v_frame_formats::{PixelDifference, PlaneSums};

/// Returns the first pixel that differs between two frames, as [`first_difference_of_frames`] does. The caller passes the sums
/// of squared errors of the two frames as `errors`. If all sums are 0, the function returns `None` without searching.
pub(crate) fn difference_by_errors<T: Pixel>(
    first: &Frame<T>,
    second: &Frame<T>,
    errors: &PlaneSums,
) -> Option<PixelDifference>
    requires sizes { sizes_of (tables_of first.now) ≡ sizes_of (tables_of second.now) }
    requires y { errors.now.y ≡ plane_errors T.form.value (tables_of first.now).y
        (tables_of second.now).y }
    requires u { errors.now.u ≡ chroma_errors T.form.value (tables_of first.now).u
        (tables_of second.now).u }
    requires v { errors.now.v ≡ chroma_errors T.form.value (tables_of first.now).v
        (tables_of second.now).v }
    ensures none { IsNone result ↔ (tables_of first.now ≡ tables_of second.now) }
    ensures first { IfSome result (FramesDifferFirst T.form.value (tables_of first.now)
        (tables_of second.now)) }
{
    if are_alike(first, second, errors) {
        return None;
    }
    first_difference_of_frames(first, second)
}

/// Returns whether two frames of one size show the same picture. `errors` are the sums of their squared errors.
fn are_alike<T: Pixel>(first: &Frame<T>, second: &Frame<T>, errors: &PlaneSums) -> bool
    requires sizes { sizes_of (tables_of first.now) ≡ sizes_of (tables_of second.now) }
    requires y { errors.now.y ≡ plane_errors T.form.value (tables_of first.now).y
        (tables_of second.now).y }
    requires u { errors.now.u ≡ chroma_errors T.form.value (tables_of first.now).u
        (tables_of second.now).u }
    requires v { errors.now.v ≡ chroma_errors T.form.value (tables_of first.now).v
        (tables_of second.now).v }
    ensures { IsTrue result ↔ (tables_of first.now ≡ tables_of second.now) }
{
    are_planes_alike(&first.y_plane, &second.y_plane, errors.y)
        && is_chroma_alike(&first.u_plane, &second.u_plane, errors.u)
        && is_chroma_alike(&first.v_plane, &second.v_plane, errors.v)
}

/// Returns whether two chroma planes are equal. Both are present or both absent, and `errors` is the sum of their squared
/// errors.
fn is_chroma_alike<T: Pixel>(
    first: &Option<Plane<T>>,
    second: &Option<Plane<T>>,
    errors: Option<u128>,
) -> bool
    requires sizes { option_map size_of (option_map table_of first.now)
        ≡ option_map size_of (option_map table_of second.now) }
    requires errors { errors ≡ chroma_errors T.form.value (option_map table_of first.now)
        (option_map table_of second.now) }
    ensures { IsTrue result ↔ (option_map table_of first.now ≡ option_map table_of second.now) }
{
    match (first, second, errors) {
        (Some(first), Some(second), Some(errors)) => are_planes_alike(first, second, errors),
        _ => true,
    }
}

/// Returns whether two planes of one size are equal. `errors` is the sum of their squared errors.
fn are_planes_alike<T: Pixel>(first: &Plane<T>, second: &Plane<T>, errors: u128) -> bool
    requires sizes { size_of (table_of first.now) ≡ size_of (table_of second.now) }
    requires errors { errors ≡ plane_errors T.form.value (table_of first.now) (table_of second.now) }
    ensures { IsTrue result ↔ (table_of first.now ≡ table_of second.now) }
{
    // Reading the width states that every row of the table is as long as the plane is wide.
    let _sizes = (
        first.width(),
        first.height(),
        second.width(),
        second.height(),
    );
    errors == 0
}
