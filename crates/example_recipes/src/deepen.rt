//! Frames of 8 bits, rotated clockwise by 90 degrees and converted to 10 bits.
ghost use Rattle.std.specs.Prelude.{◌≡◌, ◌↔◌, false, option_map, IfErr, IsTrue, OnErr, OnOk};
ghost use Rattle.v_frame.specs.Prelude.{border_and_geometry, table_of, tables_of, KeepsBorder, KeepsBorders};
ghost use Rattle.v_frame_turn.specs.Frames.{BothFit};
ghost use Rattle.v_frame_turn.specs.Prelude.{turned_tables, PlaneFits};
ghost use Rattle.example_recipes.specs.Deepen.{deepened, turned_and_deepened, HaveOneSize, IsRefusal};

use thiserror::Error;
use v_frame::frame::Frame;
use v_frame::plane::{Plane, PlaneRef};
use v_frame_convert::map_into;
use v_frame_turn::frames::turn_frame;
use v_frame_turn::{Turn, TurnError};

/// The reason why a frame was not rotated and converted.
#[derive(Debug, Drop, Error)]
pub enum DeepenError {
    /// The frame cannot be rotated by 90 degrees, or does not fit into the intermediate frame.
    #[error(transparent)]
    Turn(TurnError),
    /// The planes of the 10-bit frame have the wrong sizes.
    #[error("the planes of the deeper frame have other sizes")]
    DifferentSize,
}

/// Rotates a frame of 8 bits clockwise by 90 degrees and converts it to 10 bits. `between` receives the rotated frame in 8
/// bits.
///
/// # Errors
///
/// - [`DeepenError::Turn`] if the frame cannot be rotated into `between`.
/// - [`DeepenError::DifferentSize`] if the planes of `target` do not have the sizes of the rotated planes.
///
/// After an error, `target` is unchanged.
pub fn turn_and_deepen(
    source: &Frame<u8>,
    between: &mut Frame<u8>,
    target: &mut Frame<u16>,
) -> Result<(), DeepenError>
    ensures shown { OnOk result (tables_of target.new ≡ turned_and_deepened (tables_of source.now)) }
    ensures refused { IfErr result (IsRefusal source.now between.old between.new target.old) }
    ensures unchanged { OnErr result (target.new ≡ target.old) }
    ensures borders { KeepsBorders target.old target.new }
{
    turn_frame(source, between, Turn::Rotate90).map_err(DeepenError::Turn)?;
    if !have_one_size(between, target) {
        return Err(DeepenError::DifferentSize);
    }
    deepen_frame(between, target);
    Ok(())
}

/// Converts a frame of 8 bits to 10 bits.
fn deepen_frame(source: &Frame<u8>, target: &mut Frame<u16>)
    requires { HaveOneSize source.now target.old }
    ensures tables { tables_of target.new ≡ turned_tables deepened (tables_of source.now) }
    ensures borders { KeepsBorders target.old target.new }
{
    deepen_plane(&source.y_plane.as_plane_ref(), &mut target.y_plane);
    deepen_chroma(&source.u_plane, &mut target.u_plane);
    deepen_chroma(&source.v_plane, &mut target.v_plane);
}

/// Converts a chroma plane of 8 bits to 10 bits, if there is one.
fn deepen_chroma(source: &Option<Plane<u8>>, target: &mut Option<Plane<u16>>)
    requires { BothFit false source.now target.old }
    ensures table { option_map table_of target.new ≡ option_map deepened (option_map table_of source.now) }
    ensures border { option_map border_and_geometry target.new
        ≡ option_map border_and_geometry target.old }
{
    if let (Some(source), Some(target)) = (source, target) {
        deepen_plane(&source.as_plane_ref(), target);
    }
}

/// Converts a plane of 8 bits to 10 bits: each value is multiplied by 4.
fn deepen_plane(source: &PlaneRef<'_, u8>, target: &mut Plane<u16>)
    requires { PlaneFits false source.now target.old }
    ensures table { table_of target.new ≡ deepened (table_of source.now) }
    ensures border { KeepsBorder target.old target.new }
{
    map_into(source, target, |value: u8| u16::from(value) * 4);
}

/// Returns whether the two frames have the same planes with the same sizes.
fn have_one_size(source: &Frame<u8>, target: &Frame<u16>) -> bool
    ensures { IsTrue result ↔ HaveOneSize source.now target.now }
{
    planes_have_one_size(&source.y_plane, &target.y_plane)
        && chroma_has_one_size(&source.u_plane, &target.u_plane)
        && chroma_has_one_size(&source.v_plane, &target.v_plane)
}

/// Returns whether two chroma planes have the same size, or are both absent.
fn chroma_has_one_size(source: &Option<Plane<u8>>, target: &Option<Plane<u16>>) -> bool
    ensures { IsTrue result ↔ BothFit false source.now target.now }
{
    match (source, target) {
        (Some(source), Some(target)) => planes_have_one_size(source, target),
        (None, None) => true,
        _ => false,
    }
}

/// Returns whether two planes have the same size.
fn planes_have_one_size(source: &Plane<u8>, target: &Plane<u16>) -> bool
    ensures { IsTrue result ↔ PlaneFits false source.now target.now }
{
    source.width() == target.width() && source.height() == target.height()
}
