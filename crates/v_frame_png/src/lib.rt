//! Writes pictures as PNG files, row by row, to any writer.
//!
//! [`PngWriter`] writes grayscale or RGB with 8 or 16 bits per sample, one row at a time or all rows of a plane. [`write_png`]
//! writes a whole picture. [`Compression`] selects whether the image data is stored or compressed.
//!
//! The output follows the PNG specification (third edition), the zlib format (RFC 1950) and the deflate format (RFC 1951). The
//! contracts state that a reader which follows these formats finds exactly the header and the rows that were given.
//! `Rattle.v_frame_png.specs.Decoding` defines that reader, which accepts stored blocks, blocks with the fixed Huffman codes,
//! and all five filters.
//!
//! [`crc32`] is the CRC-32 of zlib, gzip and PNG.
//!
//! `Rattle.v_frame_png.specs.Prelude` re-exports the definitions that contracts cite.
#![tactic(auto)]

mod adler;
mod bits;
mod chunks;
mod compression;
mod deflate;
mod error;
mod filters;
mod header;
mod lines;
mod parts;
mod planes;
mod repeats;
mod sample;
mod symbols;
mod writer;

pub use compression::Compression;
pub use error::PngError;
pub use header::{ColorSpace, Header, Samples};
pub use planes::{write_png, write_png_with};
pub use sample::encode_samples;
pub use v_frame_bytes::{Crc32Digest, crc32};
pub use writer::PngWriter;
