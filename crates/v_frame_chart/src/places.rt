//! Places in the picture, and their texts.
ghost use Rattle.std.specs.Prelude.{◌≡◌, Some};
ghost use Rattle.v_frame_chart.specs.Places.{tenths_of, tenths_text};

use std::fmt;
use std::num::saturating_f64_to_u64;

/// A place in the picture, in tenths of a pixel from its left or upper side.
#[derive(Clone, Copy)]
pub(crate) struct Place {
    tenths: u64,
}

impl Place {
    /// Returns the nearest place.
    #[tactic(auto, using(crate::proofs::Floats::ten), unfolding(crate::specs::Places::tenths_of))]
    pub(crate) fn nearest(pixels: f64) -> Self
        ensures { result.tenths ≡ tenths_of pixels }
    {
        Place {
            tenths: saturating_f64_to_u64((pixels * 10.0).round()),
        }
    }
}

impl fmt::Display for Place {
    ghost output = { λ place. Some (tenths_text place.tenths) };

    fn fmt<W: fmt::Write>(&self, f: &mut fmt::Formatter<W>) -> fmt::Result {
        let (whole, tenth) = (self.tenths / 10, self.tenths % 10);
        write!(f, "{whole}.{tenth}")
    }
}
