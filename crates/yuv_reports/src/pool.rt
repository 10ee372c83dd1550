//! A measure over many frames: its mean, its least value, and its harmonic mean.
ghost use Rattle.std.specs.Prelude.{◌≡◌, ◌+◌, ◌-◌, ◌^◌, ◌<◌, ◌↔◌, min, IsSome};

use std::num::nearest_u64_to_f64;

/// The values of a measure over the frames so far, as far as a summary needs them.
#[derive(Clone, Copy)]
pub struct Pool {
    frames: u64,
    sum: f64,
    sum_of_reciprocals: f64,
    least: f64,
    frame_of_least: u64,
}

impl Pool {
    /// Returns the pool of no frames.
    pub fn new() -> Self
        ensures { result.frames ≡ 0 }
    {
        Pool {
            frames: 0,
            sum: 0.0,
            sum_of_reciprocals: 0.0,
            least: f64::INFINITY,
            frame_of_least: 0,
        }
    }

    /// Adds the value of the frame with this number. Of equal least values the first one keeps its number.
    pub fn add(&mut self, frame: u64, value: f64)
        ensures { self.new.frames ≡ min (self.old.frames + 1) (2 ^ 64 - 1) }
    {
        self.sum += value;
        self.sum_of_reciprocals += 1.0 / value.max(0.0);
        if self.frames == 0 || value < self.least {
            self.least = value;
            self.frame_of_least = frame;
        }
        self.frames = self.frames.saturating_add(1);
    }

    /// Returns the arithmetic mean, or `None` if there was no frame.
    pub fn mean(&self) -> Option<f64>
        ensures { IsSome result ↔ (0 < self.now.frames) }
    {
        (self.frames > 0).then_some(self.sum / nearest_u64_to_f64(self.frames))
    }

    /// Returns the least value and the number of its frame, or `None` if there was no frame.
    pub fn least(&self) -> Option<(f64, u64)>
        ensures { IsSome result ↔ (0 < self.now.frames) }
    {
        (self.frames > 0).then_some((self.least, self.frame_of_least))
    }

    /// Returns the harmonic mean: the number of frames divided by the sum of the reciprocals, or 0 if a value is not above 0. Returns
    /// `None` if there was no frame.
    pub fn harmonic_mean(&self) -> Option<f64>
        ensures { IsSome result ↔ (0 < self.now.frames) }
    {
        (self.frames > 0).then_some(nearest_u64_to_f64(self.frames) / self.sum_of_reciprocals)
    }
}
