//! The similarity of two windows, computed from the sums over them.
ghost use Rattle.std.specs.Prelude.{◌≡◌, ◌*◌, ◌<◌, ◌≤◌, ◌^◌};
ghost use Rattle.v_frame_measures.specs.PixelSums.{AreSumsOver};
ghost use Rattle.v_frame_measures.specs.Ssim.{constants_of, peak_of, similarity_of};

use crate::casts::{nearest_f32, nearest_f32_to_difference};
use crate::similarity::sums::PixelSums;

/// The constants that keep the divisors of SSIM away from zero.
#[derive(Clone, Copy)]
pub struct SsimConstants {
    /// The constant for the means: `(0.01 * peak)^2`, scaled by the 64 pixels of a window and rounded to an integer.
    pub means: u64,
    /// The constant for the variances and the covariance: `(0.03 * peak)^2`, scaled by `64 * 63` and rounded to an integer.
    pub variances: u64,
}

impl SsimConstants {
    /// Returns the constants for samples of `bit_depth` bits. A `bit_depth` above 16 counts as 16.
    pub(crate) fn of_depth(bit_depth: u8) -> Self
        ensures value { result ≡ constants_of (peak_of bit_depth) }
        ensures means { result.means < 2 ^ 40 }
        ensures variances { result.variances < 2 ^ 40 }
    {
        let peak: u64 = (1 << bit_depth.min(16)) - 1;
        SsimConstants {
            means: (64 * (peak * peak) + 5000) / 10000,
            variances: (36288 * (peak * peak) + 5000) / 10000,
        }
    }
}

/// Returns the similarity of two windows of 8 by 8 pixels from the sums over them.
#[inline(always)]
pub(crate) fn similarity(constants: &SsimConstants, sums: &PixelSums) -> f32
    requires sums { AreSumsOver 64 sums.now }
    requires means { constants.now.means < 2 ^ 40 }
    requires variances { constants.now.variances < 2 ^ 40 }
    ensures { result ≡ similarity_of constants.now sums.now }
{
    let product = sums.first * sums.second;
    let squares = sums.first * sums.first + sums.second * sums.second;
    let means = nearest_f32(2 * product + constants.means);
    let covariance = nearest_f32_to_difference(
        128 * sums.products + constants.variances,
        2 * product,
    );
    let mean_squares = nearest_f32(squares + constants.means);
    let variances = nearest_f32_to_difference(64 * sums.squares + constants.variances, squares);
    means * covariance / (mean_squares * variances)
}
