//! The source pixels that contain the centers of the target pixels, one after the other.
ghost use Rattle.std.specs.Prelude.{◌≡◌, ◌+◌, ◌*◌, ◌/◌, ◌^◌, ◌<◌, ◌≤◌, ℕ};
ghost use Rattle.v_frame_resize.specs.Centers.{IsCenter, CanAdvance};

/// The source pixel that contains the center of a target pixel.
///
/// Positions are counted in units of which a source pixel has `pixel` and a target pixel has `2 * source`. The center of target
/// pixel `x` is at `(2 * x + 1) * source`. With these units, stepping from one center to the next requires no division.
#[derive(Clone, Copy)]
pub struct Center {
    /// The index of the source pixel.
    pub index: usize,
    /// The number of units from the left edge of the source pixel to the center.
    pub rest: usize,
    /// The number of units of a source pixel.
    pub pixel: usize,
    /// The number of whole source pixels from one center to the next. `step_rest` is the number of units that are left over.
    pub step: usize,
    pub step_rest: usize,
}

/// Returns the center of the first target pixel.
pub fn first_center(source: usize, target: usize) -> Center
    requires some { 0 < target }
    requires countable { target < 2 ^ 62 }
    requires source_countable { source < 2 ^ 62 }
    ensures { IsCenter source target 0 result }
{
    let pixel = 2 * target;
    Center {
        index: source / pixel,
        rest: source % pixel,
        pixel,
        step: 2 * source / pixel,
        step_rest: 2 * source % pixel,
    }
}

/// Returns the center of the next target pixel.
#[inline(always)]
pub fn next_center(center: Center) -> Center
    requires { CanAdvance center }
    ensures { (source target x : ℕ) → IsCenter source target x center → IsCenter source target (x + 1) result }
{
    let index = center.index + center.step;
    let rest = center.rest + center.step_rest;
    if rest >= center.pixel {
        return Center {
            index: index + 1,
            rest: rest - center.pixel,
            ..center
        };
    }
    Center {
        index,
        rest,
        ..center
    }
}

/// The number of parts of a source pixel in which short rows count positions, 2^40.
pub const PARTS: usize = 1099511627776;

/// Returns half the distance between two centers in parts of a source pixel, rounded down, plus 1.
pub fn half_step(source: usize, target: usize) -> usize
    requires some { 0 < target }
    requires wide { target ≤ 65536 }
    requires source_wide { source ≤ 65536 }
    ensures { result ≡ source * 1099511627776 / (2 * target) + 1 }
{
    source * PARTS / (2 * target) + 1
}
