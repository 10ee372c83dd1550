//! The result of a comparison of two streams.
ghost use Rattle.std.specs.Prelude.{◌≡◌, ◌+◌, ◌↔◌, IfSome, IsNone, IsTrue, None, Some, min, option_map};
ghost use Rattle.v_frame.specs.Prelude.{table_of, tables_of};
ghost use Rattle.v_frame_planar.specs.Planar.{sizes_of};
ghost use Rattle.v_frame_streams.specs.Frames.{chroma_errors, plane_errors, FramesDifferFirst};
ghost use Rattle.v_frame_streams.specs.Streams.{longer_of as longer, most_frames};
ghost use Rattle.v_frame_formats.specs.Sums.{added};
ghost use Rattle.v_frame_streams.specs.Sums.{no_errors};

use crate::alike::difference_by_errors;
use crate::stream::Place;
use v_frame::frame::Frame;
use v_frame::pixel::Pixel;
use v_frame::plane::Plane;
use v_frame_formats::{PixelDifference, PlaneSums};

/// Selects the frames that a comparison reads.
#[derive(Debug, Clone, Copy, PartialEq, Eq)]
pub struct CompareOptions {
    /// The number of frames of the first stream to skip before the comparison.
    pub skip_first: u64,
    /// The number of frames of the second stream to skip before the comparison.
    pub skip_second: u64,
    /// The largest number of frame pairs to compare. `None` compares up to the end of the shorter stream.
    pub count: Option<u64>,
    /// The largest number of luma pixels that a frame may have. A stream of larger frames is rejected, before memory for a
    /// frame is allocated.
    pub max_pixels: usize,
}

/// How much two streams differ.
#[derive(Debug, Clone, Copy, PartialEq, Eq)]
pub struct Comparison {
    /// The number of frame pairs that were compared.
    pub frames: u64,
    /// The sums of the squared differences of all compared pixels, one sum for each plane. A sum saturates at `u128::MAX`.
    pub errors: PlaneSums,
    /// The first pixel that differs, and the number of compared pairs before its own. `None` if all compared frames are equal.
    pub difference: Option<(u64, PixelDifference)>,
    /// The stream that has more frames, if the comparison reached the end of the other one.
    pub longer: Option<Place>,
}

impl Comparison {
    /// Returns the comparison of no frames at all. `frame` determines which planes have a sum.
    pub(crate) fn new<T: Pixel>(frame: &Frame<T>) -> Self
        ensures { result ≡ record {
          frames = 0;
          errors = no_errors (sizes_of (tables_of frame.now));
          difference = None;
          longer = None;
        } }
    {
        Comparison {
            frames: 0,
            errors: PlaneSums {
                y: 0,
                u: no_error(&frame.u_plane),
                v: no_error(&frame.v_plane),
            },
            difference: None,
            longer: None,
        }
    }

    /// Returns whether the compared frames are equal and neither stream was found to be longer than the other.
    pub fn shows_the_same(&self) -> bool
        ensures { IsTrue result ↔ (IsNone self.now.difference × IsNone self.now.longer) }
    {
        self.difference.is_none() && self.longer.is_none()
    }

    /// Returns this comparison, extended by one more pair of frames. `errors` are the sums of the squared errors of that pair.
    pub(crate) fn with_frames<T: Pixel>(
        &self,
        first: &Frame<T>,
        second: &Frame<T>,
        errors: &PlaneSums,
    ) -> Self
        requires sizes { sizes_of (tables_of first.now) ≡ sizes_of (tables_of second.now) }
        requires y { errors.now.y ≡ plane_errors T.form.value (tables_of first.now).y
            (tables_of second.now).y }
        requires u { errors.now.u ≡ chroma_errors T.form.value (tables_of first.now).u
            (tables_of second.now).u }
        requires v { errors.now.v ≡ chroma_errors T.form.value (tables_of first.now).v
            (tables_of second.now).v }
        ensures frames { result.frames ≡ min (self.now.frames + 1) most_frames }
        ensures errors { result.errors ≡ added self.now.errors errors.now }
        ensures earlier { IfSome self.now.difference (λ found. result.difference ≡ Some found) }
        ensures same { IsNone result.difference ↔ (IsNone self.now.difference
            × (tables_of first.now ≡ tables_of second.now)) }
        ensures first { IfSome result.difference (λ found. IsNone self.now.difference
            → (found.0 ≡ self.now.frames)
            × FramesDifferFirst T.form.value (tables_of first.now) (tables_of second.now) found.1) }
        ensures longer { result.longer ≡ None }
    {
        let difference = match self.difference {
            Some(found) => Some(found),
            None => match difference_by_errors(first, second, errors) {
                Some(found) => Some((self.frames, found)),
                None => None,
            },
        };
        Comparison {
            frames: self.frames.saturating_add(1),
            errors: self.errors.plus(errors),
            difference,
            longer: None,
        }
    }
}

/// Returns the sum 0 for a chroma plane, or `None` if the plane is absent.
fn no_error<T: Pixel>(plane: &Option<Plane<T>>) -> Option<u128>
    ensures { result ≡ option_map (λ _. 0) (option_map table_of plane.now) }
{
    match plane {
        Some(_) => Some(0),
        None => None,
    }
}

/// Returns the stream that still had a frame, if the other one had none. `first` and `second` say whether each stream had one.
pub(crate) fn longer_of(first: bool, second: bool) -> Option<Place>
    ensures { result ≡ longer first second }
{
    match (first, second) {
        (true, false) => Some(Place::First),
        (false, true) => Some(Place::Second),
        _ => None,
    }
}
