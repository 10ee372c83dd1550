//! Means of measures over the frames of a stream.
ghost use Rattle.std.specs.Prelude.{◌≡◌, ◌+◌, ◌-◌, ◌^◌, ◌↔◌, ◌≢◌, IfSome, IsSome, min, pos};
ghost use Rattle.std.specs.Float.{float_zero};
ghost use Rattle.std.specs.Float.Ieee.{add, binary64, div, of_int};

use crate::errors::psnr;
use std::num::nearest_u64_to_f64;

/// A running mean: the sum of the numbers that were added, in order, and their count.
#[derive(Clone, Copy)]
pub struct Mean {
    /// The sum of the numbers.
    pub sum: f64,
    /// The count of the numbers. It saturates at `u64::MAX`.
    pub count: u64,
}

impl Mean {
    /// Returns a mean without numbers.
    pub fn new() -> Self
        ensures { result ≡ record { sum = float_zero; count = 0 } }
    {
        Mean { sum: 0.0, count: 0 }
    }

    /// Adds `number` to the sum and 1 to the count.
    pub fn add(&mut self, number: f64)
        ensures { self.new ≡ record {
          sum = add binary64 self.old.sum number;
          count = min (self.old.count + 1) (2 ^ 64 - 1);
        } }
    {
        self.sum += number;
        self.count = self.count.saturating_add(1);
    }

    /// Returns the sum divided by the count. Returns `None` if and only if no number was added.
    pub fn value(&self) -> Option<f64>
        ensures some { IsSome result ↔ (self.now.count ≢ 0) }
        ensures value { IfSome result (λ mean.
            mean ≡ div binary64 self.now.sum (of_int binary64 (pos self.now.count))) }
    {
        if self.count == 0 {
            return None;
        }
        Some(self.sum / nearest_u64_to_f64(self.count))
    }
}

/// The quality of a stream as two means over its frames: the mean of the mean squared errors, and the mean of the PSNR values.
/// In general, the PSNR of the mean error is not the mean of the PSNR values.
///
/// The mean of the PSNR values is infinite as soon as one frame has no error. The summary of FFmpeg's filter `psnr` prints the
/// PSNR of the mean error.
#[derive(Clone, Copy)]
pub struct StreamQuality {
    /// The mean of the mean squared errors.
    pub errors: Mean,
    /// The mean of the PSNR values in decibels.
    pub ratios: Mean,
}

impl StreamQuality {
    /// Returns a quality without frames.
    pub fn new() -> Self
        ensures errors { result.errors ≡ record { sum = float_zero; count = 0 } }
        ensures ratios { result.ratios ≡ record { sum = float_zero; count = 0 } }
    {
        StreamQuality {
            errors: Mean::new(),
            ratios: Mean::new(),
        }
    }

    /// Adds a frame, or one of its planes: its `mean_squared_error`, and the PSNR of this error at `bit_depth`.
    pub fn add(&mut self, mean_squared_error: f64, bit_depth: u8)
        ensures errors { self.new.errors.sum ≡ add binary64 self.old.errors.sum mean_squared_error }
        ensures error_count { self.new.errors.count ≡ min (self.old.errors.count + 1) (2 ^ 64 - 1) }
        ensures ratio_count { self.new.ratios.count ≡ min (self.old.ratios.count + 1) (2 ^ 64 - 1) }
    {
        self.errors.add(mean_squared_error);
        self.ratios.add(psnr(mean_squared_error, bit_depth));
    }

    /// Returns the mean of the mean squared errors. Returns `None` if and only if no frame was added.
    pub fn mean_of_errors(&self) -> Option<f64>
        ensures some { IsSome result ↔ (self.now.errors.count ≢ 0) }
        ensures value { IfSome result (λ mean. mean ≡ div binary64 self.now.errors.sum
            (of_int binary64 (pos self.now.errors.count))) }
    {
        self.errors.value()
    }

    /// Returns the mean of the PSNR values in decibels. Returns `None` if and only if no frame was added.
    pub fn mean_of_psnr(&self) -> Option<f64>
        ensures some { IsSome result ↔ (self.now.ratios.count ≢ 0) }
        ensures value { IfSome result (λ mean. mean ≡ div binary64 self.now.ratios.sum
            (of_int binary64 (pos self.now.ratios.count))) }
    {
        self.ratios.value()
    }
}
