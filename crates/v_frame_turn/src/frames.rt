//! Frames rotated, mirrored or transposed, plane by plane. The padding stays unchanged.
//!
//! A rotation by 90 or 270 degrees and a transposition exchange the two subsampling ratios of chroma. They are possible for
//! 4:2:0, 4:4:4 and monochrome frames. For 4:2:2 and 4:1:1 frames, [`turn_frame`] returns [`TurnError::UnevenSubsampling`].
ghost use Rattle.std.specs.Prelude.{◌≡◌, ◌↔◌, false, option_map, true, Err, IfErr, IsTrue, OnOk};
ghost use Rattle.v_frame.specs.Prelude.{border_and_geometry, table_of, tables_of, KeepsBorders};
ghost use Rattle.v_frame_turn.specs.Frames.{exchanges, is_turnable, turned, turned_tables};
ghost use Rattle.v_frame_turn.specs.Frames.{BothFit, IsReason, IsTurned, PlaneFits, TurnFits};

mod in_place;

use crate::error::TurnError;
use crate::turns::{Turn, turn_plane};
pub use in_place::{flip_horizontal_in_place, flip_vertical_in_place, rotate_180_in_place};
use v_frame::chroma::ChromaSubsampling;
use v_frame::frame::Frame;
use v_frame::pixel::Pixel;
use v_frame::plane::Plane;

/// Returns `Ok` if [`turn_frame`] can write `source`, transformed by `turn`, into `target`.
///
/// # Errors
///
/// Returns the first of these errors that applies:
///
/// - [`TurnError::UnevenSubsampling`] if `turn` exchanges rows and columns, and the two subsampling ratios of `source` differ;
/// - [`TurnError::DifferentSubsampling`] if the frames have different chroma formats;
/// - [`TurnError::DifferentBitDepth`] if the frames have different bit depths;
/// - [`TurnError::DifferentSize`] with the first plane that only one of the frames has, or whose size in `target` is wrong. The
///   required size is the size of the plane in `source`, with width and height exchanged if `turn` exchanges rows and columns.
pub fn check_turn<T: Pixel>(
    source: &Frame<T>,
    target: &Frame<T>,
    turn: Turn,
) -> Result<(), TurnError>
    ensures accepted { OnOk result (TurnFits turn source.now target.now) }
    ensures refused { IfErr result (IsReason turn source.now target.now) }
    ensures uneven { is_turnable turn source.now.subsampling ≡ false
        → result ≡ Err TurnError.UnevenSubsampling }
{
    if !can_turn(turn, source.subsampling) {
        return Err(TurnError::UnevenSubsampling);
    }
    if target.subsampling != source.subsampling {
        return Err(TurnError::DifferentSubsampling);
    }
    if target.bit_depth != source.bit_depth {
        return Err(TurnError::DifferentBitDepth);
    }
    let exchanged = turn.exchanges_sizes();
    if !plane_fits(exchanged, &source.y_plane, &target.y_plane) {
        return Err(TurnError::DifferentSize { plane: 0 });
    }
    if !both_fit(exchanged, &source.u_plane, &target.u_plane) {
        return Err(TurnError::DifferentSize { plane: 1 });
    }
    if !both_fit(exchanged, &source.v_plane, &target.v_plane) {
        return Err(TurnError::DifferentSize { plane: 2 });
    }
    Ok(())
}

/// Writes `source`, transformed by `turn`, into `target`. The padding of `target` stays unchanged, and after an error all of
/// `target` is unchanged.
///
/// # Errors
///
/// Returns the errors of [`check_turn`].
pub fn turn_frame<T: Pixel>(
    source: &Frame<T>,
    target: &mut Frame<T>,
    turn: Turn,
) -> Result<(), TurnError>
    ensures { IsTurned turn source.now target.old target.new result }
{
    check_turn(source, target, turn)?;
    turn_planes(source, target, turn);
    Ok(())
}

/// Transforms each plane.
fn turn_planes<T: Pixel>(source: &Frame<T>, target: &mut Frame<T>, turn: Turn)
    requires { TurnFits turn source.now target.old }
    ensures shown { tables_of target.new ≡ turned_tables (turned turn) (tables_of source.now) }
    ensures borders { KeepsBorders target.old target.new }
{
    turn_plane(&source.y_plane.as_plane_ref(), &mut target.y_plane, turn);
    turn_chroma(&source.u_plane, &mut target.u_plane, turn);
    turn_chroma(&source.v_plane, &mut target.v_plane, turn);
}

/// Transforms a chroma plane, if the frames have it.
fn turn_chroma<T: Pixel>(source: &Option<Plane<T>>, target: &mut Option<Plane<T>>, turn: Turn)
    requires { BothFit (exchanges turn) source.now target.old }
    ensures shown { option_map table_of target.new
        ≡ option_map (turned turn) (option_map table_of source.now) }
    ensures border { option_map border_and_geometry target.new
        ≡ option_map border_and_geometry target.old }
{
    if let (Some(source), Some(target)) = (source, target) {
        turn_plane(&source.as_plane_ref(), target, turn);
    }
}

/// Returns whether a format exists for the transformed chroma: if `turn` exchanges rows and columns, the two subsampling ratios
/// must be equal.
fn can_turn(turn: Turn, subsampling: ChromaSubsampling) -> bool
    ensures { result ≡ is_turnable turn subsampling }
{
    match subsampling {
        ChromaSubsampling::Yuv422 | ChromaSubsampling::Yuv411 => !turn.exchanges_sizes(),
        _ => true,
    }
}

/// Returns whether `target` has the size of `source`, with width and height exchanged if `exchanged` is true.
fn plane_fits<T: Pixel>(exchanged: bool, source: &Plane<T>, target: &Plane<T>) -> bool
    ensures { IsTrue result ↔ PlaneFits exchanged source.now target.now }
{
    if exchanged {
        source.height() == target.width() && source.width() == target.height()
    } else {
        source.width() == target.width() && source.height() == target.height()
    }
}

/// Returns whether `target` has the required size, or both planes are missing.
fn both_fit<T: Pixel>(exchanged: bool, source: &Option<Plane<T>>, target: &Option<Plane<T>>) -> bool
    ensures { IsTrue result ↔ BothFit exchanged source.now target.now }
{
    match (source, target) {
        (Some(source), Some(target)) => plane_fits(exchanged, source, target),
        (None, None) => true,
        _ => false,
    }
}
