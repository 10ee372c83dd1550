//! The measures of a report, calculated from sums of squared errors and from structural similarities.
ghost use Rattle.std.specs.Prelude.{◌≡◌};
ghost use Rattle.yuv_comparisons.specs.Reports.{sums_asked};

use std::num::nearest_u64_to_f64;
use v_frame_measures::{FrameMeasure, Mean, psnr};
use v_frame_streams::PlaneSums;
use yuv_reports::FrameMeasures;

/// The parameters that are needed to calculate measures from errors.
#[derive(Clone, Copy)]
pub(crate) struct Scale {
    /// The number of samples in each plane of a frame.
    pub(crate) pixels: PlaneSums,
    /// The bit depth of the samples.
    pub(crate) bit_depth: u8,
    /// Whether sums of squared errors are reported.
    pub(crate) exact: bool,
}

impl Scale {
    /// Returns the measures of `frames` frames with these sums of squared errors.
    pub(crate) fn measures(
        &self,
        errors: &PlaneSums,
        frames: u64,
        ssim: Option<FrameMeasure>,
    ) -> FrameMeasures
        ensures ssim { result.ssim ≡ ssim }
        ensures sums { result.sums ≡ sums_asked self.now.exact errors.now }
    {
        let mse = mean_errors(errors, &self.pixels.times(frames));
        FrameMeasures {
            psnr: ratios(&mse, self.bit_depth),
            mse,
            ssim,
            sums: self.exact.then_some(*errors),
        }
    }
}

/// Returns the mean squared errors of all samples together, and of each plane that the frames have. `pixels` has the number of
/// samples.
fn mean_errors(errors: &PlaneSums, pixels: &PlaneSums) -> FrameMeasure {
    FrameMeasure {
        all: mean_squared_error(errors.total(), pixels.total()),
        y: mean_squared_error(errors.y, pixels.y),
        u: chroma_error(errors.u, pixels.u),
        v: chroma_error(errors.v, pixels.v),
    }
}

/// Returns the mean squared error of a chroma plane, or `None` if the frames do not have it.
fn chroma_error(errors: Option<u128>, pixels: Option<u128>) -> Option<f64> {
    match (errors, pixels) {
        (Some(errors), Some(pixels)) => Some(mean_squared_error(errors, pixels)),
        _ => None,
    }
}

/// Returns the mean squared error: the sum of squared errors divided by the number of samples, or 0 if there are no samples.
///
/// If one of these numbers is 2^53 or greater, it is rounded to 53 bits before the division.
fn mean_squared_error(sum: u128, pixels: u128) -> f64 {
    if sum == 0 {
        return 0.0;
    }
    nearest(sum) / nearest(pixels)
}

/// Returns the number, rounded to 53 bits.
fn nearest(number: u128) -> f64 {
    let high = nearest_u64_to_f64((number >> 64) as u64);
    let low = nearest_u64_to_f64((number % (1 << 64)) as u64);
    high * 18446744073709551616.0 + low
}

/// Returns the peak signal-to-noise ratios for mean squared errors, in decibels.
fn ratios(mse: &FrameMeasure, bit_depth: u8) -> FrameMeasure {
    FrameMeasure {
        all: psnr(mse.all, bit_depth),
        y: psnr(mse.y, bit_depth),
        u: chroma_ratio(mse.u, bit_depth),
        v: chroma_ratio(mse.v, bit_depth),
    }
}

/// Returns the peak signal-to-noise ratio of a chroma plane, or `None` if the frames do not have it.
fn chroma_ratio(mse: Option<f64>, bit_depth: u8) -> Option<f64> {
    match mse {
        Some(mse) => Some(psnr(mse, bit_depth)),
        None => None,
    }
}

/// The means of a measure over frames.
#[derive(Clone, Copy)]
pub(crate) struct Means {
    all: Mean,
    y: Mean,
    u: Mean,
    v: Mean,
}

impl Means {
    /// Returns the means of no frames.
    pub(crate) fn new() -> Self {
        let none = Mean::new();
        Means {
            all: none,
            y: none,
            u: none,
            v: none,
        }
    }

    /// Adds the measure of a frame.
    pub(crate) fn add(&mut self, measure: &FrameMeasure) {
        self.all.add(measure.all);
        self.y.add(measure.y);
        if let Some(u) = measure.u {
            self.u.add(u);
        }
        if let Some(v) = measure.v {
            self.v.add(v);
        }
    }

    /// Returns the means, or `None` if there were no frames.
    pub(crate) fn values(&self) -> Option<FrameMeasure> {
        match (self.all.value(), self.y.value()) {
            (Some(all), Some(y)) => Some(FrameMeasure {
                all,
                y,
                u: self.u.value(),
                v: self.v.value(),
            }),
            _ => None,
        }
    }
}
