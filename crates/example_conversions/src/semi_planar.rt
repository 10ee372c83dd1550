//! Semi-planar pictures.
ghost use Rattle.std.specs.Prelude.{◌≡◌, ◌*◌, ◌/◌, ◌%◌, ◌^◌, ◌<◌, ◌≤◌, ◌-◌, ℕ, IfOk, IfSome, Some};
ghost use Rattle.v_frame.specs.Prelude.{one_byte, table_of, tables_of, KeepsBorder};
ghost use Rattle.v_frame_ops.specs.Prelude.{combined, mapped};
ghost use Rattle.v_frame_semi_planar.specs.Prelude.{interleaved, semi_planar_bytes};

use std::alloc::Global;
use v_frame::frame::Frame;
use v_frame::plane::{Plane, PlaneRef};
use v_frame_planar::Counted;
use v_frame_semi_planar::{
    SemiPlanarError, SemiPlanarFormat, interleave, to_top_bits, write_frame,
};

/// Returns the bytes of an 8-bit 4:2:0 frame as NV12.
pub fn nv12_bytes(alloc: Global, frame: &Frame<u8>) -> Result<Vec<u8>, SemiPlanarError>
    ensures { IfOk result (λ bytes. bytes.items
        ≡ semi_planar_bytes one_byte SemiPlanarFormat.Nv12 (tables_of frame.now)) }
{
    let mut writer = Counted::new(Vec::new(alloc));
    write_frame(&mut writer, frame, SemiPlanarFormat::Nv12)?;
    Ok(writer.into_inner())
}

/// Interleaves the chroma of NV21 in one plane, with V first.
pub fn chroma_of_nv21(u: &PlaneRef<'_, u8>, v: &PlaneRef<'_, u8>, target: &mut Plane<u8>)
    requires wide { target.old.geometry.width ≡ 2 * v.now.geometry.width }
    requires high { target.old.geometry.height ≡ v.now.geometry.height }
    requires u_wide { u.now.geometry.width ≡ v.now.geometry.width }
    requires u_high { u.now.geometry.height ≡ v.now.geometry.height }
    ensures table { table_of target.new ≡ combined interleaved (table_of v.now) (table_of u.now) }
    ensures border { KeepsBorder target.old target.new }
{
    interleave(v, u, target);
}

/// Converts the 10-bit samples of a plane to samples of P010.
pub fn words_of_p010(plane: &mut Plane<u16>)
    ensures table { table_of plane.new
        ≡ mapped (mapped (λ p. p * 64 % 65536)) (table_of plane.old) }
    ensures border { KeepsBorder plane.old plane.new }
{
    to_top_bits(plane, 10);
}
