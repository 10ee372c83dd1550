//! The functions of the library for C.
ghost use Rattle.std.specs.Prelude.{length, map};
ghost use Rattle.v_frame_png.specs.Prelude.{big_endian};
ghost use Rattle.v_frame_png_c.specs.Picture.{header_by, rows_of, samples_of_bytes, samples_of_words, status_of};
ghost use Rattle.v_frame_png_c.specs.Written.{IsWritten};

use crate::files::{file_of_bytes, file_of_words, put_in_front};
use crate::picture::Picture;
use crate::status::{NUMBER, OUT_OF_MEMORY, ROWS, SIZE};
use std::alloc::Global;

/// Writes a picture of 8-bit samples as a PNG file to the front of a buffer. `needed` becomes the number of its bytes. If the
/// buffer is shorter, nothing is written to it.
#[tactic(auto, using(crate::proofs::Written::refused_for, crate::proofs::Written::without_memory))]
#[unsafe(no_mangle)]
pub extern "C" fn v_frame_png_write_u8(
    alloc: Global,
    picture: &Picture,
    samples: &[u8],
    buffer: &mut [u8],
    needed: &mut usize,
) -> u32
    ensures made { IsWritten (header_by (samples_of_bytes picture.now.color) picture.now)
        (rows_of picture.now samples.now) (status_of picture.now (length samples.now))
        buffer.old buffer.new needed.old needed.new result }
{
    if !picture.is_known() {
        return NUMBER;
    }
    if !picture.is_size() {
        return SIZE;
    }
    let Some(rows) = picture.rows(samples) else {
        return ROWS;
    };
    let header = picture.header(picture.samples_of_bytes());
    let Ok(file) = file_of_bytes(alloc, header, picture.compression(), &rows) else {
        return OUT_OF_MEMORY;
    };
    put_in_front(file.as_slice(), buffer, needed)
}

/// Writes a picture of 16-bit samples as a PNG file to the front of a buffer. `needed` becomes the number of its bytes. If the
/// buffer is shorter, nothing is written to it.
#[tactic(auto, using(crate::proofs::Written::refused_for, crate::proofs::Written::without_memory))]
#[unsafe(no_mangle)]
pub extern "C" fn v_frame_png_write_u16(
    alloc: Global,
    picture: &Picture,
    samples: &[u16],
    buffer: &mut [u8],
    needed: &mut usize,
) -> u32
    ensures made { IsWritten (header_by (samples_of_words picture.now.color) picture.now)
        (map big_endian (rows_of picture.now samples.now)) (status_of picture.now (length samples.now))
        buffer.old buffer.new needed.old needed.new result }
{
    if !picture.is_known() {
        return NUMBER;
    }
    if !picture.is_size() {
        return SIZE;
    }
    let Some(rows) = picture.rows(samples) else {
        return ROWS;
    };
    let header = picture.header(picture.samples_of_words());
    let Ok(file) = file_of_words(alloc, header, picture.compression(), &rows) else {
        return OUT_OF_MEMORY;
    };
    put_in_front(file.as_slice(), buffer, needed)
}
