//! Frames with interleaved chroma: conversion from three planes, and back, for any type of pixel.
ghost use Rattle.std.specs.Prelude.{◌≡◌, IsTrue};
ghost use Rattle.v_frame_slices.specs.SemiPlanar.{columns_by, have_layout, is_semi_planar, rows_by};
ghost use Rattle.v_frame_slices.specs.ChromaByTurns.{ArePlanesOf, IsSemiPlanarOf};

use crate::layout::Rows;
use crate::status::{FIFTH, FIRST, FORMAT, FOURTH, OK, SECOND, SIZES, THIRD};
use v_frame::pixel::Pixel;
use v_frame::plane::copy_rows;
use v_frame_semi_planar::rows as semi_planar;

/// Writes a frame of the three planes Y, U and V as luma and interleaved chroma. The first rows are luma, and the second rows are
/// chroma.
pub fn to_semi_planar<T: Pixel>(
    y_rows: &Rows,
    y: &mut [T],
    uv_rows: &Rows,
    uv: &mut [T],
    source_rows: &Rows,
    source: &[T],
    u_rows: &Rows,
    u: &[T],
    v_rows: &Rows,
    v: &[T],
    format: u32,
) -> u32
    ensures made { IsSemiPlanarOf format y_rows.now uv_rows.now source_rows.now u_rows.now v_rows.now
        y.old y.new uv.old uv.new source.now u.now v.now result }
{
    if !is_semi_planar(format) {
        return FORMAT;
    }
    if !y_rows.fit(y.len()) {
        return FIRST;
    }
    if !uv_rows.fit(uv.len()) {
        return SECOND;
    }
    let Some(source) = source_rows.of(source) else {
        return THIRD;
    };
    let Some(u) = u_rows.of(u) else {
        return FOURTH;
    };
    let Some(v) = v_rows.of(v) else {
        return FIFTH;
    };
    if !have_layout(y_rows, source_rows, uv_rows, u_rows, v_rows, format) {
        return SIZES;
    }
    copy_rows(&source, y, y_rows.width, y_rows.height, y_rows.stride);
    semi_planar::interleave(&u, &v, uv, uv_rows.width, uv_rows.height, uv_rows.stride);
    OK
}

/// Writes a frame with luma and interleaved chroma as three planes.
pub fn from_semi_planar<T: Pixel>(
    y_rows: &Rows,
    y: &mut [T],
    u_rows: &Rows,
    u: &mut [T],
    v_rows: &Rows,
    v: &mut [T],
    source_rows: &Rows,
    source: &[T],
    uv_rows: &Rows,
    uv: &[T],
    format: u32,
) -> u32
    ensures made { ArePlanesOf format y_rows.now uv_rows.now source_rows.now u_rows.now v_rows.now
        y.old y.new u.old u.new v.old v.new source.now uv.now result }
{
    if !is_semi_planar(format) {
        return FORMAT;
    }
    if !y_rows.fit(y.len()) {
        return FIRST;
    }
    if !u_rows.fit(u.len()) {
        return SECOND;
    }
    if !v_rows.fit(v.len()) {
        return THIRD;
    }
    let Some(source) = source_rows.of(source) else {
        return FOURTH;
    };
    let Some(uv) = uv_rows.of(uv) else {
        return FIFTH;
    };
    if !have_layout(y_rows, source_rows, uv_rows, u_rows, v_rows, format) {
        return SIZES;
    }
    copy_rows(&source, y, y_rows.width, y_rows.height, y_rows.stride);
    let (width, height) = (u_rows.width, u_rows.height);
    semi_planar::deinterleave(&uv, width, height, u, u_rows.stride, v, v_rows.stride);
    OK
}

/// Returns whether the format with this number can have interleaved chroma: whether it is 4:2:0, 4:2:2 or 4:4:4.
pub fn is_semi_planar(format: u32) -> bool
    ensures { result ≡ is_semi_planar format }
{
    1 <= format && format <= 3
}

/// Returns whether the planes have the sizes of a frame in the format with this number.
pub fn have_layout(y: &Rows, other_y: &Rows, uv: &Rows, u: &Rows, v: &Rows, format: u32) -> bool
    requires known { IsTrue (is_semi_planar format) }
    ensures { result ≡ have_layout format y.now other_y.now uv.now u.now v.now }
{
    let (columns, rows) = ratios(format);
    y.same_size(other_y)
        && y.is_subsampled_by(u, columns, rows)
        && u.same_size(v)
        && u.has_half_the_width_of(uv)
}

/// Returns the numbers of columns and rows of luma for one column and one row of chroma.
fn ratios(format: u32) -> (usize, usize)
    ensures { result ≡ (columns_by format, rows_by format) }
{
    match format {
        1 => (2, 2),
        3 => (1, 1),
        _ => (2, 1),
    }
}
