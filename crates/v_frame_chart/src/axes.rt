//! The places of values and frames in the picture.
ghost use Rattle.std.specs.Prelude.{◌≡◌};
ghost use Rattle.v_frame_chart.specs.Marks.{place_of};

/// The values at both ends of an axis, and the places of both ends in the picture, in pixels.
#[derive(Clone, Copy)]
pub(crate) struct Axis {
    pub low: f64,
    pub high: f64,
    pub start: f64,
    pub end: f64,
}

impl Axis {
    /// Returns the place of a value.
    pub(crate) fn place(&self, value: f64) -> f64
        ensures { result ≡ place_of self.now value }
    {
        self.start + (value - self.low) / (self.high - self.low) * (self.end - self.start)
    }
}
