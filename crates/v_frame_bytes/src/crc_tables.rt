//! The tables of the CRC-32, which allow dividing sixteen bytes at a time.
ghost use Rattle.std.specs.Prelude.{◌≡◌, ℕ, ◌+◌, ◌*◌, ◌/◌, ◌%◌, ◌^◌, ◌<◌, ◌≤◌, length, slice_index, fold};
ghost use Rattle.v_frame_bytes.specs.Crc.{crc32, crc_step, divided, divided_once};

/// The polynomial of the CRC without its highest power. The coefficient of the lowest power is the highest bit.
const POLYNOMIAL: u32 = 0xEDB8_8320;

/// The number of bytes that are divided at once.
const PLACES: usize = 16;

/// The number of table entries: one for each byte value at each place.
const ENTRIES: usize = 4096;

/// The tables for computing CRC-32 checksums. They take 16 KiB of memory, and some time to compute, so compute them once and
/// use them for many checksums.
#[derive(Drop)]
pub struct CrcTables {
    // Entry `256 * place + byte` is the remainder of a byte after `8 * (place + 1)` steps of the division.
    entries: [u32; ENTRIES],
    ghost divided_bytes: { (k : ℕ) → k < 4096
        → slice_index entries k ≡ divided (8 * (k / 256 + 1)) (k % 256) },
}

/// Returns the remainder after one step of the division.
fn step(rest: u32) -> u32
    ensures { result ≡ divided_once rest }
{
    if rest % 2 == 1 {
        (rest / 2) ^ POLYNOMIAL
    } else {
        rest / 2
    }
}

/// Returns the remainder after eight steps of the division.
fn eight_steps(rest: u32) -> u32
    ensures { result ≡ divided 8 rest }
{
    let mut left = rest;
    for _ in 0..8u32 {
        left = step(left);
    }
    left
}

impl CrcTables {
    /// Computes the tables.
    pub fn new() -> Self {
        let mut entries = [0; ENTRIES];
        for k in 0..256 {
            entries[k] = eight_steps(k as u32);
        }
        for k in 256..ENTRIES {
            let before = entries[k - 256];
            entries[k] = (before / 256) ^ entries[before as usize % 256];
        }
        CrcTables { entries }
    }

    /// Returns the remainder of a byte that is followed by `place` other bytes.
    fn entry(&self, place: usize, byte: u8) -> u32
        requires { place < 16 }
        ensures { result ≡ divided (8 * (place + 1)) byte }
    {
        self.entries[256 * place + byte as usize]
    }

    /// Divides one byte. `rest` is the remainder so far.
    fn divide_byte(&self, rest: u32, byte: u8) -> u32
        ensures { result ≡ crc_step rest byte }
    {
        (rest / 256) ^ self.entry(0, (rest % 256) as u8 ^ byte)
    }

    /// Divides eight bytes, followed by `after` zero bytes. The remainder `rest` of the earlier bytes is added to the first
    /// four.
    fn divide_eight(&self, rest: u32, bytes: &[u8], after: usize) -> u32
        requires size { length bytes.now ≡ 8 }
        requires near { after ≤ 8 }
        ensures { result ≡ divided (8 * after) (fold crc_step rest bytes.now) }
    {
        let [a, b, c, d] = rest.to_le_bytes();
        // The part that does not depend on earlier bytes comes first, which leaves few steps that have to wait for them.
        let others = self.entry(after + 3, bytes[4])
            ^ self.entry(after + 2, bytes[5])
            ^ self.entry(after + 1, bytes[6])
            ^ self.entry(after, bytes[7]);
        let met = self.entry(after + 7, a ^ bytes[0])
            ^ self.entry(after + 6, b ^ bytes[1])
            ^ self.entry(after + 5, c ^ bytes[2])
            ^ self.entry(after + 4, d ^ bytes[3]);
        met ^ others
    }

    /// Divides sixteen bytes, as two halves that do not depend on each other.
    fn divide_sixteen(&self, rest: u32, bytes: &[u8]) -> u32
        requires { length bytes.now ≡ 16 }
        ensures { result ≡ fold crc_step rest bytes.now }
    {
        let (first, second) = bytes.split_at(8);
        let others = self.divide_eight(0, second, 0);
        self.divide_eight(rest, first, 8) ^ others
    }

    /// Divides all of `bytes`.
    pub(crate) fn divide(&self, rest: u32, bytes: &[u8]) -> u32
        ensures { result ≡ fold crc_step rest bytes.now }
    {
        let mut left = rest;
        let mut ahead = bytes;
        while ahead.len() >= PLACES {
            let (first, others) = ahead.split_at(PLACES);
            left = self.divide_sixteen(left, first);
            ahead = others;
        }
        for byte in ahead {
            left = self.divide_byte(left, *byte);
        }
        left
    }

    /// Returns the CRC-32 of `bytes`, as [`crc32`](crate::crc32) does.
    #[tactic(auto, unfolding(crate::specs::Crc::crc32))]
    pub fn of(&self, bytes: &[u8]) -> u32
        ensures { result ≡ crc32 bytes.now }
    {
        self.divide(u32::MAX, bytes) ^ u32::MAX
    }
}
