//! Utilities for binary files: writing all bytes of a slice, and the CRC-32 that zlib, gzip and PNG use.
//!
//! [`send`] writes all bytes of a slice. [`crc32`] computes the CRC-32 of one slice, and [`Crc32Digest`] of data that arrives
//! in parts. [`CrcTables`] are computed once for many checksums.
//!
//! `Rattle.v_frame_bytes.specs.Crc` and `Rattle.v_frame_bytes.specs.Sending` define the terms that contracts use.
#![tactic(auto)]

mod crc;
mod crc_tables;
mod sending;

pub use crc::{Crc32Digest, crc32};
pub use crc_tables::CrcTables;
pub use sending::{SendError, send};
