//! The benchmark cases, and the work of each one.

use crate::blocks::{Measure, compare_blocks};
use crate::desk::Desk;
use crate::error::BenchError;
use crate::{pixel_loops, reads, whole, writes};
use v_frame::chroma::ChromaSubsampling;
use v_frame::pixel::Pixel;

/// A benchmark case.
#[derive(Clone, Copy)]
pub enum Case {
    BuildMono,
    Build420,
    ClonePlane,
    CloneFrame,
    CompareEqual,
    SumByRow,
    SumByRows,
    SumByPixel,
    SumByPixels,
    SumByPixelsBack,
    SumByUnwrap,
    PixelScattered,
    CountDiffering,
    SumByByteData,
    AbsoluteDifferences,
    SquaredErrors,
    AbsoluteOfBlocks(usize),
    SquaredOfBlocks(usize),
    FillByRowMut,
    FillByRowsMut,
    FillByPixelMut,
    FillByUnwrap,
    RampByPixelMut,
    RampByUnwrap,
    ChangeByUnwrap,
    MeanByUnwrap,
    FillByPixelsMut,
    PixelMutScattered,
    Fill,
    Pad,
    Downscale,
    CopyFromSlice,
    CopyFromBytes,
    CopyFromStrided,
    CopyToBytes,
}

/// The names of the cases, in the order in which they are measured.
pub const CASES: [(&str, Case); 41] = [
    ("build_mono", Case::BuildMono),
    ("build_420", Case::Build420),
    ("clone_plane", Case::ClonePlane),
    ("clone_frame_420", Case::CloneFrame),
    ("compare_planes_equal", Case::CompareEqual),
    ("sum_by_row", Case::SumByRow),
    ("sum_by_rows", Case::SumByRows),
    ("sum_by_pixel", Case::SumByPixel),
    ("sum_by_pixels", Case::SumByPixels),
    ("sum_by_pixels_back", Case::SumByPixelsBack),
    ("sum_by_unwrap", Case::SumByUnwrap),
    ("pixel_scattered", Case::PixelScattered),
    ("count_differing_by_pixels", Case::CountDiffering),
    ("sum_by_byte_data", Case::SumByByteData),
    ("sum_of_absolute_differences", Case::AbsoluteDifferences),
    ("sum_of_squared_errors", Case::SquaredErrors),
    ("absolute_of_blocks_8", Case::AbsoluteOfBlocks(8)),
    ("absolute_of_blocks_16", Case::AbsoluteOfBlocks(16)),
    ("absolute_of_blocks_32", Case::AbsoluteOfBlocks(32)),
    ("absolute_of_blocks_64", Case::AbsoluteOfBlocks(64)),
    ("squared_of_blocks_8", Case::SquaredOfBlocks(8)),
    ("squared_of_blocks_16", Case::SquaredOfBlocks(16)),
    ("squared_of_blocks_32", Case::SquaredOfBlocks(32)),
    ("squared_of_blocks_64", Case::SquaredOfBlocks(64)),
    ("fill_by_row_mut", Case::FillByRowMut),
    ("fill_by_rows_mut", Case::FillByRowsMut),
    ("fill_by_pixel_mut", Case::FillByPixelMut),
    ("fill_by_unwrap", Case::FillByUnwrap),
    ("ramp_by_pixel_mut", Case::RampByPixelMut),
    ("ramp_by_unwrap", Case::RampByUnwrap),
    ("change_by_unwrap", Case::ChangeByUnwrap),
    ("mean_by_unwrap", Case::MeanByUnwrap),
    ("fill_by_pixels_mut", Case::FillByPixelsMut),
    ("pixel_mut_scattered", Case::PixelMutScattered),
    ("fill", Case::Fill),
    ("pad", Case::Pad),
    ("downscale", Case::Downscale),
    ("copy_from_slice", Case::CopyFromSlice),
    ("copy_from_u8_slice", Case::CopyFromBytes),
    ("copy_from_u8_slice_with_stride", Case::CopyFromStrided),
    ("copy_byte_data", Case::CopyToBytes),
];

/// Does the work of a case once, and returns a number that depends on it.
pub fn work<T: Pixel>(case: Case, desk: &mut Desk<T>) -> Result<u64, BenchError> {
    match case {
        Case::BuildMono => whole::build_one(desk, ChromaSubsampling::Monochrome),
        Case::Build420 => whole::build_one(desk, ChromaSubsampling::Yuv420),
        Case::ClonePlane => whole::clone_plane(desk),
        Case::CloneFrame => whole::clone_frame(desk),
        Case::FillByRowMut
        | Case::FillByRowsMut
        | Case::FillByPixelMut
        | Case::FillByUnwrap
        | Case::RampByPixelMut
        | Case::RampByUnwrap
        | Case::ChangeByUnwrap
        | Case::MeanByUnwrap
        | Case::FillByPixelsMut
        | Case::PixelMutScattered
        | Case::Fill
        | Case::Pad
        | Case::Downscale
        | Case::CopyFromSlice
        | Case::CopyFromBytes
        | Case::CopyFromStrided
        | Case::CopyToBytes => written(case, desk),
        _ => Ok(read(case, desk)),
    }
}

/// Does the work of a case that reads.
fn read<T: Pixel>(case: Case, desk: &Desk<T>) -> u64 {
    let (luma, other) = (&desk.frame.y_plane, &desk.other.y_plane);
    match case {
        Case::CompareEqual => u64::from(reads::are_equal(luma, &desk.twin.y_plane)),
        Case::SumByRow => reads::sum_by_row(luma),
        Case::SumByRows => reads::sum_by_rows(luma),
        Case::SumByPixel => reads::sum_by_pixel(luma),
        Case::SumByPixels => reads::sum_by_pixels(luma),
        Case::SumByPixelsBack => reads::sum_by_pixels_back(luma),
        Case::SumByUnwrap => pixel_loops::sum_by_unwrap(luma),
        Case::PixelScattered => reads::sum_of_places(luma, desk.places.as_slice()),
        Case::CountDiffering => reads::count_differing(luma, other),
        Case::SumByByteData => reads::sum_by_byte_data(luma),
        Case::AbsoluteDifferences => reads::absolute_differences(luma, other),
        Case::SquaredErrors => reads::squared_errors(luma, other),
        Case::AbsoluteOfBlocks(size) => compare_blocks(luma, other, size, Measure::Absolute),
        Case::SquaredOfBlocks(size) => compare_blocks(luma, other, size, Measure::Squared),
        _ => 0,
    }
}

/// Does the work of a case that writes.
fn written<T: Pixel>(case: Case, desk: &mut Desk<T>) -> Result<u64, BenchError> {
    let (luma, value) = (&mut desk.frame.y_plane, desk.value);
    match case {
        Case::FillByRowMut => writes::fill_by_row_mut(luma, value),
        Case::FillByRowsMut => writes::fill_by_rows_mut(luma, value),
        Case::FillByPixelMut => writes::fill_by_pixel_mut(luma, value),
        Case::FillByUnwrap => pixel_loops::fill_by_unwrap(luma, value),
        Case::RampByPixelMut => pixel_loops::ramp_by_pixel_mut(luma),
        Case::RampByUnwrap => pixel_loops::ramp_by_unwrap(luma),
        Case::ChangeByUnwrap => pixel_loops::change_by_unwrap(luma),
        Case::MeanByUnwrap => pixel_loops::mean_by_unwrap(&desk.other.y_plane, luma),
        Case::FillByPixelsMut => writes::fill_by_pixels_mut(luma, value),
        Case::PixelMutScattered => writes::fill_places(luma, desk.places.as_slice(), value),
        Case::Fill => writes::fill_plane(luma, value),
        Case::Pad => writes::pad_plane(luma),
        Case::Downscale => writes::halve(&desk.other.y_plane, &mut desk.frame),
        Case::CopyFromSlice => writes::copy_pixels(luma, desk.source.as_slice())?,
        Case::CopyFromBytes => writes::copy_packed(luma, desk.bytes.packed.as_slice())?,
        Case::CopyFromStrided => {
            writes::copy_strided(luma, desk.bytes.strided.as_slice(), desk.bytes.stride)?
        }
        Case::CopyToBytes => {
            writes::copy_to_bytes(&desk.frame.y_plane, desk.bytes.target.as_mut_slice())
        }
        _ => (),
    }
    Ok(0)
}
