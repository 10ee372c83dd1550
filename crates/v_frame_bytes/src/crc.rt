//! The CRC-32 checksum.
ghost use Rattle.std.specs.Prelude.{◌≡◌, ◌++◌, [], List, ℕ, bit_xor, fold};
ghost use Rattle.v_frame_bytes.specs.Crc.{crc32, crc_rest, crc_step, ones};

use crate::crc_tables::CrcTables;
use std::marker::Model;

/// Returns the CRC-32 of `bytes`. It is the checksum with the polynomial 0xEDB88320 (bits reversed) that PNG chunks, zlib's
/// `crc32` and gzip use.
///
/// For data that arrives in parts, use [`Crc32Digest`].
pub fn crc32(bytes: &[u8]) -> u32
    ensures { result ≡ crc32 bytes.now }
{
    CrcTables::new().of(bytes)
}

/// Computes the CRC-32 of data that arrives in parts. The result is the [`crc32`] of all parts together.
///
/// In contracts, a digest is the remainder of the division of all bytes so far, `crc_rest bytes`.
#[derive(Drop)]
pub struct Crc32Digest {
    tables: CrcTables,
    rest: u32,
}

impl Model for Crc32Digest {
    ghost use Rattle.std.specs.Prelude.{ℕ};

    ghost Value = { ℕ };

    ghost view = { λ digest. digest.rest };
}

impl Crc32Digest {
    /// Begins a digest of no bytes.
    pub fn new() -> Self
        ensures { result ≡ crc_rest [] }
    {
        Crc32Digest {
            tables: CrcTables::new(),
            rest: u32::MAX,
        }
    }

    /// Appends `bytes` to the data.
    pub fn update(&mut self, bytes: &[u8])
        ensures fold { self.new ≡ fold crc_step self.old bytes.now }
        ensures bytes { (before : List ℕ) → self.old ≡ crc_rest before
            → self.new ≡ crc_rest (before ++ bytes.now) }
    {
        self.rest = self.tables.divide(self.rest, bytes);
    }

    /// Returns the CRC-32 of all bytes so far.
    #[tactic(auto, unfolding(crate::specs::Crc::crc32))]
    pub fn value(&self) -> u32
        ensures turned { result ≡ bit_xor self.now ones }
        ensures bytes { (before : List ℕ) → self.now ≡ crc_rest before → result ≡ crc32 before }
    {
        self.rest ^ u32::MAX
    }
}
