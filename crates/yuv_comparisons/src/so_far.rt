//! The results for the frames that were compared so far. They are reported if a stream breaks off.
ghost use Rattle.std.specs.Prelude.{◌≡◌, IfSome, Some};
ghost use Rattle.yuv_comparisons.specs.SoFar.{sums_so_far};

use v_frame::frame::Frame;
use v_frame::pixel::Pixel;
use v_frame::plane::Plane;
use v_frame_formats::{Component, PixelDifference};
use v_frame_measures::frames_have_one_size;
use v_frame_streams::{Comparison, PlaneSums};
use yuv_pictures::{PlaneDifference, differences, has_sample_above};

/// The results for the frames that were compared so far.
#[derive(Clone, Copy)]
pub(crate) struct SoFar {
    /// The sums of squared errors, or `None` before the first frame.
    pub(crate) errors: Option<PlaneSums>,
    /// The number of frames before the first one that differs, and the first sample in it that differs.
    pub(crate) difference: Option<(u64, PixelDifference)>,
}

impl SoFar {
    /// Returns the results for no frames.
    pub(crate) fn new() -> Self {
        SoFar {
            errors: None,
            difference: None,
        }
    }

    /// Adds two frames with these errors, which follow `before` other pairs.
    pub(crate) fn add<T: Pixel>(
        &mut self,
        before: u64,
        first: &Frame<T>,
        second: &Frame<T>,
        errors: &PlaneSums,
    )
        ensures errors { self.new.errors ≡ Some (sums_so_far self.old.errors errors.now) }
        ensures earlier { IfSome self.old.difference (λ found. self.new.difference ≡ Some found) }
    {
        self.errors = match &self.errors {
            Some(sums) => Some(sums.plus(errors)),
            None => Some(*errors),
        };
        if self.difference.is_none() && errors.total() > 0 {
            self.difference = match first_difference_of(first, second) {
                Some(found) => Some((before, found)),
                None => None,
            };
        }
    }

    /// Returns the results for `frames` frames. `no_errors` has the sums that are used if there are no frames.
    pub(crate) fn comparison(&self, frames: u64, no_errors: PlaneSums) -> Comparison {
        Comparison {
            frames,
            errors: self.errors.unwrap_or(no_errors),
            difference: self.difference,
            longer: None,
        }
    }
}

/// Returns the first sample in which two frames differ, or `None` if they are equal.
fn first_difference_of<T: Pixel>(first: &Frame<T>, second: &Frame<T>) -> Option<PixelDifference> {
    if !frames_have_one_size(first, second) {
        return None;
    }
    let found = differences(first, second);
    let luma = sample_at(Component::Y, &first.y_plane, &second.y_plane, &found.y);
    if luma.is_some() {
        return luma;
    }
    let chroma = chroma_sample(Component::U, &first.u_plane, &second.u_plane, &found.u);
    if chroma.is_some() {
        return chroma;
    }
    chroma_sample(Component::V, &first.v_plane, &second.v_plane, &found.v)
}

/// Returns the first sample in which two chroma planes differ, or `None` if they are equal.
fn chroma_sample<T: Pixel>(
    component: Component,
    first: &Option<Plane<T>>,
    second: &Option<Plane<T>>,
    found: &Option<PlaneDifference>,
) -> Option<PixelDifference> {
    match (first, second, found) {
        (Some(first), Some(second), Some(found)) => sample_at(component, first, second, found),
        _ => None,
    }
}

/// Returns the first sample in which two planes differ, or `None` if they are equal.
fn sample_at<T: Pixel>(
    component: Component,
    first: &Plane<T>,
    second: &Plane<T>,
    found: &PlaneDifference,
) -> Option<PixelDifference> {
    let (x, y) = found.first?;
    let (one, other) = (first.pixel(x, y)?, second.pixel(x, y)?);
    Some(PixelDifference {
        component,
        x,
        y,
        first: one.into_u16(),
        second: other.into_u16(),
    })
}

/// The numbers of the first frames of two streams that have samples above the greatest value of their bit depth.
#[derive(Clone, Copy)]
pub(crate) struct Above {
    pub(crate) first: Option<u64>,
    pub(crate) second: Option<u64>,
}

impl Above {
    /// Returns the value before any frame was tested.
    pub(crate) fn new() -> Self {
        Above {
            first: None,
            second: None,
        }
    }

    /// Tests two frames, which have the numbers `one` and `other`.
    pub(crate) fn note<T: Pixel>(
        &mut self,
        (one, first): (u64, &Frame<T>),
        (other, second): (u64, &Frame<T>),
    ) {
        self.first = noted(self.first, one, first);
        self.second = noted(self.second, other, second);
    }
}

/// Returns the number of the first frame that has a sample above the greatest value of its bit depth: `known` if it is not
/// `None`, and otherwise `number` if this frame has such samples. Samples of 8 bits are never above it.
pub(crate) fn noted<T: Pixel>(known: Option<u64>, number: u64, frame: &Frame<T>) -> Option<u64>
    ensures { IfSome known (λ found. result ≡ Some found) }
{
    if known.is_some() {
        return known;
    }
    if frame.bit_depth.get() > 8 && has_sample_above(frame) {
        return Some(number);
    }
    None
}
