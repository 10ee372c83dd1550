//! The differences of two frames in numbers.
ghost use Rattle.std.specs.Prelude.{◌≡◌, None, Option, IfSome, MatchOption, option_map};
ghost use Rattle.v_frame.specs.Prelude.{table_of, tables_of};
ghost use Rattle.v_frame_measures.specs.Frames.{size_of};
ghost use Rattle.v_frame_measures.specs.Prelude.{HaveOneSize};
ghost use Rattle.yuv_pictures.specs.Differences.{AreDifferences, IsChromaDifference, IsPlaneDifference};

use v_frame::frame::Frame;
use v_frame::pixel::Pixel;
use v_frame::plane::Plane;
use v_frame_measures::{GreatestDifference, count_above, greatest_difference};
use v_frame_ops::first_difference;

/// The differences of two planes of the same size.
#[derive(Debug, Clone, Copy, PartialEq, Eq)]
pub struct PlaneDifference {
    /// The number of samples that differ.
    pub count: usize,
    /// The column and the row of the first sample that differs, in the order of rows from the top.
    pub first: Option<(usize, usize)>,
    /// The greatest difference and its place: the first one in the order of rows from the top if several are equal. It is 0 if no
    /// sample differs.
    pub greatest: GreatestDifference,
}

/// The differences of two frames, plane by plane.
#[derive(Debug, Clone, Copy, PartialEq, Eq)]
pub struct Found {
    /// The differences in luma.
    pub y: PlaneDifference,
    /// The differences in the first chroma plane, if the frames have it.
    pub u: Option<PlaneDifference>,
    /// The differences in the second chroma plane, if the frames have it.
    pub v: Option<PlaneDifference>,
}

/// Returns the differences of two frames. Their planes must have the same sizes, which `frames_have_one_size` of
/// `v_frame_measures` tests.
pub fn differences<T: Pixel>(first: &Frame<T>, second: &Frame<T>) -> Found
    requires { HaveOneSize (tables_of first.now) (tables_of second.now) }
    ensures { AreDifferences T.form (tables_of first.now) (tables_of second.now) result }
{
    Found {
        y: of_planes(&first.y_plane, &second.y_plane),
        u: of_chroma(&first.u_plane, &second.u_plane),
        v: of_chroma(&first.v_plane, &second.v_plane),
    }
}

/// Returns the differences of two planes of the same size.
fn of_planes<T: Pixel>(first: &Plane<T>, second: &Plane<T>) -> PlaneDifference
    requires { size_of (table_of first.now) ≡ size_of (table_of second.now) }
    ensures { IsPlaneDifference T.form (table_of first.now) (table_of second.now) result }
{
    let (first, second) = (first.as_plane_ref(), second.as_plane_ref());
    // The planes whose sizes are read are valid.
    let _sizes = (
        first.width(),
        first.height(),
        second.width(),
        second.height(),
    );
    PlaneDifference {
        count: count_above(&first, &second, 0),
        first: first_difference(&first, &second),
        greatest: greatest_difference(&first, &second),
    }
}

/// Returns the differences of two chroma planes, if the frames have them.
fn of_chroma<T: Pixel>(
    first: &Option<Plane<T>>,
    second: &Option<Plane<T>>,
) -> Option<PlaneDifference>
    requires { option_map size_of (option_map table_of first.now)
        ≡ option_map size_of (option_map table_of second.now) }
    ensures { IsChromaDifference T.form (option_map table_of first.now)
        (option_map table_of second.now) result }
{
    match (first, second) {
        (Some(first), Some(second)) => Some(of_planes(first, second)),
        _ => None,
    }
}
