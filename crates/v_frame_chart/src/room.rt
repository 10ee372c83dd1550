//! An axis of numbers that contains each finite value.
ghost use Rattle.std.specs.Prelude.{◌≡◌, false, if◌then◌else◌, true};
ghost use Rattle.std.specs.List.{fold};
ghost use Rattle.std.specs.Float.{float_is_finite};
ghost use Rattle.std.specs.Float.Ieee.{inf};
ghost use Rattle.v_frame_chart.specs.Columns.{finite, greater, lesser};
ghost use Rattle.v_frame_chart.specs.Room.{is_between as the_between, least_of, most_of, HasRoom};
ghost use Rattle.v_frame_chart.specs.Scales.{value_at};

use crate::columns::{greater_of, infinity, lesser_of};
use crate::drawing::Series;
use crate::fitting::scale_between;
use crate::scale::{Digit, Power, Scale};

/// Returns a scale that contains all finite values. It is from 0 to 1 if there are none, and endless if floats cannot represent a scale
/// of these values.
pub(crate) fn scale_of(series: &[Series<'_>]) -> Scale
    ensures { HasRoom result series.now }
{
    let (low, high) = extent(series);
    let scale = if high < low {
        scale_between(0.0, 1.0)
    } else {
        scale_between(low, high)
    };
    if is_between(&scale, low, high) {
        scale
    } else {
        endless()
    }
}

/// Returns the least and the greatest finite value of all series.
fn extent(series: &[Series<'_>]) -> (f64, f64)
    ensures least { result.0 ≡ least_of series.now }
    ensures most { result.1 ≡ most_of series.now }
{
    let (mut low, mut high) = (infinity(), minus_infinity());
    for one in series {
        (low, high) = extended(low, high, one.values);
    }
    (low, high)
}

/// Returns the least of `low` and the finite values, and the greatest of `high` and the finite values.
fn extended(low: f64, high: f64, values: &[f64]) -> (f64, f64)
    ensures least { result.0 ≡ fold lesser low (finite values.now) }
    ensures most { result.1 ≡ fold greater high (finite values.now) }
{
    let (mut least, mut most) = (low, high);
    for value in values {
        (least, most) = widened(least, most, *value);
    }
    (least, most)
}

/// Returns `least` and `most`, extended to `value` if it is finite. Most values are between them already.
fn widened(least: f64, most: f64, value: f64) -> (f64, f64)
    ensures least { result.0 ≡ (if float_is_finite value then lesser least value else least) }
    ensures most { result.1 ≡ (if float_is_finite value then greater most value else most) }
{
    if value < least || most < value {
        (
            lesser_if_finite(least, value),
            greater_if_finite(most, value),
        )
    } else {
        (least, most)
    }
}

/// Returns the lesser of two numbers, or the first if the second is not finite.
#[tactic(auto, using(crate::proofs::Extents::not_above))]
fn lesser_if_finite(least: f64, value: f64) -> f64
    ensures { result ≡ (if float_is_finite value then lesser least value else least) }
{
    lesser_of(least, if value.is_finite() { value } else { infinity() })
}

/// Returns the greater of two numbers, or the first if the second is not finite.
#[tactic(auto, using(crate::proofs::Extents::not_below))]
fn greater_if_finite(most: f64, value: f64) -> f64
    ensures { result ≡ (if float_is_finite value then greater most value else most) }
{
    greater_of(
        most,
        if value.is_finite() {
            value
        } else {
            minus_infinity()
        },
    )
}

/// Returns minus infinity.
#[tactic(auto, using(crate::proofs::Floats::below_all))]
fn minus_infinity() -> f64
    ensures { result ≡ inf true }
{
    f64::NEG_INFINITY
}

/// Returns whether the second end of a scale is greater than the first, and two numbers lie between its ends.
#[tactic(auto, unfolding(crate::specs::Room::is_between))]
fn is_between(scale: &Scale, low: f64, high: f64) -> bool
    ensures { result ≡ the_between scale.now low high }
{
    let (bottom, top) = (scale.value(0), scale.value(scale.count));
    bottom < top && bottom <= low && high <= top
}

/// Returns the scale from minus infinity to infinity.
fn endless() -> Scale
    ensures low { value_at result 0 ≡ inf true }
    ensures high { value_at result result.count ≡ inf false }
{
    Scale {
        low: -1,
        digit: Digit::One,
        count: 2,
        power: Power::Times(309),
    }
}
