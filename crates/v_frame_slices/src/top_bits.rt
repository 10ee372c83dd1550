//! Frames with interleaved chroma and with samples in the top bits of words, as in P010: conversion from three planes, and back.
ghost use Rattle.std.specs.Prelude.{◌≡◌, ◌*◌, ◌<◌, ◌≤◌, length};
ghost use Rattle.v_frame.specs.Prelude.{height_of, strided_rows, width_of, KeepsRest, RowsFit};
ghost use Rattle.v_frame_slices.specs.TopBits.{in_top_bits, of_top_bits, AreInTopBits, AreOfTopBits};
ghost use Rattle.v_frame_ops.specs.Prelude.{combined};
ghost use Rattle.v_frame_semi_planar.specs.Interleaved.{interleaved};

use crate::convert::is_depth;
use crate::layout::Rows;
use crate::status::{FIFTH, FIRST, FORMAT, FOURTH, NUMBER, OK, SECOND, SIZES, THIRD};
use crate::whole::{have_layout, is_semi_planar};
use v_frame::plane::RowsRef;
use v_frame_convert::rows::map_into;
use v_frame_semi_planar::rows as semi_planar;

/// Writes a frame of three planes as luma and interleaved chroma, with the samples in the top bits of words. The first rows are
/// luma, and the second rows are chroma. `depth` is the bit depth of the samples.
pub fn to_top_bits(
    y_rows: &Rows,
    y: &mut [u16],
    uv_rows: &Rows,
    uv: &mut [u16],
    source_rows: &Rows,
    source: &[u16],
    u_rows: &Rows,
    u: &[u16],
    v_rows: &Rows,
    v: &[u16],
    format: u32,
    depth: u32,
) -> u32
    ensures made { AreInTopBits depth format y_rows.now uv_rows.now source_rows.now u_rows.now v_rows.now
        y.old y.new uv.old uv.new source.now u.now v.now result }
{
    if !is_depth::<u16>(depth) {
        return NUMBER;
    }
    if !is_semi_planar(format) {
        return FORMAT;
    }
    if !y_rows.fit(y.len()) {
        return FIRST;
    }
    if !uv_rows.fit(uv.len()) {
        return SECOND;
    }
    let Some(source) = source_rows.of(source) else {
        return THIRD;
    };
    let Some(u) = u_rows.of(u) else {
        return FOURTH;
    };
    let Some(v) = v_rows.of(v) else {
        return FIFTH;
    };
    if !have_layout(y_rows, source_rows, uv_rows, u_rows, v_rows, format) {
        return SIZES;
    }
    let (wide, bits) = (uv_rows.width, depth as u8);
    raise(&source, y, y_rows.width, y_rows.height, y_rows.stride, bits);
    raise_by_turns(&u, &v, uv, wide, uv_rows.height, uv_rows.stride, bits);
    OK
}

/// Writes a frame with luma and interleaved chroma, whose samples are in the top bits of words, as three planes.
pub fn from_top_bits(
    y_rows: &Rows,
    y: &mut [u16],
    u_rows: &Rows,
    u: &mut [u16],
    v_rows: &Rows,
    v: &mut [u16],
    source_rows: &Rows,
    source: &[u16],
    uv_rows: &Rows,
    uv: &[u16],
    format: u32,
    depth: u32,
) -> u32
    ensures made { AreOfTopBits depth format y_rows.now uv_rows.now source_rows.now u_rows.now v_rows.now
        y.old y.new u.old u.new v.old v.new source.now uv.now result }
{
    if !is_depth::<u16>(depth) {
        return NUMBER;
    }
    if !is_semi_planar(format) {
        return FORMAT;
    }
    if !y_rows.fit(y.len()) {
        return FIRST;
    }
    if !u_rows.fit(u.len()) {
        return SECOND;
    }
    if !v_rows.fit(v.len()) {
        return THIRD;
    }
    let Some(source) = source_rows.of(source) else {
        return FOURTH;
    };
    let Some(uv) = uv_rows.of(uv) else {
        return FIFTH;
    };
    if !have_layout(y_rows, source_rows, uv_rows, u_rows, v_rows, format) {
        return SIZES;
    }
    let (size, bits) = ((u_rows.width, u_rows.height), depth as u8);
    lower(&source, y, y_rows.width, y_rows.height, y_rows.stride, bits);
    lower_apart(&uv, size, u, u_rows.stride, v, v_rows.stride, bits);
    OK
}

/// Writes samples in the top bits of words.
fn raise(
    source: &RowsRef<'_, u16>,
    buffer: &mut [u16],
    width: usize,
    height: usize,
    stride: usize,
    depth: u8,
)
    requires fit { RowsFit width height stride (length buffer.old) }
    requires wide { width_of source.now ≡ width }
    requires high { height_of source.now ≡ height }
    requires some { 0 < depth }
    requires at_most { depth ≤ 16 }
    ensures table { strided_rows width height stride buffer.new ≡ in_top_bits depth source.now }
    ensures rest { KeepsRest width height stride buffer.old buffer.new }
{
    let unused = 16 - u32::from(depth);
    map_into(source, buffer, width, height, stride, |p: u16| p << unused);
}

/// Reads samples from the top bits of words.
fn lower(
    source: &RowsRef<'_, u16>,
    buffer: &mut [u16],
    width: usize,
    height: usize,
    stride: usize,
    depth: u8,
)
    requires fit { RowsFit width height stride (length buffer.old) }
    requires wide { width_of source.now ≡ width }
    requires high { height_of source.now ≡ height }
    requires some { 0 < depth }
    requires at_most { depth ≤ 16 }
    ensures table { strided_rows width height stride buffer.new ≡ of_top_bits depth source.now }
    ensures rest { KeepsRest width height stride buffer.old buffer.new }
{
    let unused = 16 - u32::from(depth);
    map_into(source, buffer, width, height, stride, |p: u16| p >> unused);
}

/// Interleaves the samples of two pictures in the top bits of words.
fn raise_by_turns(
    first: &RowsRef<'_, u16>,
    second: &RowsRef<'_, u16>,
    buffer: &mut [u16],
    width: usize,
    height: usize,
    stride: usize,
    depth: u8,
)
    requires fit { RowsFit width height stride (length buffer.old) }
    requires wide { width ≡ 2 * width_of first.now }
    requires high { height ≡ height_of first.now }
    requires second_wide { width_of second.now ≡ width_of first.now }
    requires second_high { height_of second.now ≡ height_of first.now }
    requires some { 0 < depth }
    requires at_most { depth ≤ 16 }
    ensures table { strided_rows width height stride buffer.new
        ≡ in_top_bits depth (combined interleaved first.now second.now) }
    ensures rest { KeepsRest width height stride buffer.old buffer.new }
{
    semi_planar::interleave(first, second, buffer, width, height, stride);
    semi_planar::to_top_bits(buffer, width, height, stride, depth);
}

/// Separates interleaved samples in the top bits of words into the rows of two buffers of the same size.
fn lower_apart(
    source: &RowsRef<'_, u16>,
    size: (usize, usize),
    first: &mut [u16],
    first_stride: usize,
    second: &mut [u16],
    second_stride: usize,
    depth: u8,
)
    requires wide { width_of source.now ≡ 2 * size.0 }
    requires high { height_of source.now ≡ size.1 }
    requires first_fit { RowsFit size.0 size.1 first_stride (length first.old) }
    requires second_fit { RowsFit size.0 size.1 second_stride (length second.old) }
    requires some { 0 < depth }
    requires at_most { depth ≤ 16 }
    ensures table { combined interleaved (strided_rows size.0 size.1 first_stride first.new)
        (strided_rows size.0 size.1 second_stride second.new) ≡ of_top_bits depth source.now }
    ensures first_rest { KeepsRest size.0 size.1 first_stride first.old first.new }
    ensures second_rest { KeepsRest size.0 size.1 second_stride second.old second.new }
{
    let (width, height) = size;
    semi_planar::deinterleave(
        source,
        width,
        height,
        first,
        first_stride,
        second,
        second_stride,
    );
    semi_planar::from_top_bits(first, width, height, first_stride, depth);
    semi_planar::from_top_bits(second, width, height, second_stride, depth);
}
