//! The Adler-32 checksum of zlib.
ghost use Rattle.std.specs.Prelude.{◌≡◌, ◌<◌, ◌≤◌, length};
ghost use Rattle.v_frame_png.specs.Adler.{adler_word, reduced, sums_from};

/// The largest prime below 65,536.
const MODULUS: u32 = 65521;

/// The largest number of bytes after which the sums must be reduced to stay below 2^32.
const REACH: usize = 5552;

/// The two sums of Adler-32, each below the modulus.
#[derive(Drop)]
pub(crate) struct Adler32 {
    first: u32,
    second: u32,
    ghost below: { (first < 65521) × (second < 65521) },
}

impl Adler32 {
    /// Returns the sums of no bytes.
    pub(crate) fn new() -> Self
        ensures first { result.first ≡ 1 }
        ensures second { result.second ≡ 0 }
    {
        Adler32 {
            first: 1,
            second: 0,
        }
    }

    /// Adds `bytes` to the sums.
    pub(crate) fn add(&mut self, bytes: &[u8])
        ensures { (self.new.first, self.new.second)
            ≡ reduced (sums_from (self.old.first, self.old.second) bytes.now) }
    {
        let mut ahead = bytes;
        while ahead.len() > REACH {
            let (first, others) = ahead.split_at(REACH);
            self.add_few(first);
            ahead = others;
        }
        self.add_few(ahead);
    }

    /// Adds at most [`REACH`] bytes, and reduces the sums once.
    fn add_few(&mut self, bytes: &[u8])
        requires { length bytes.now ≤ 5552 }
        ensures { (self.new.first, self.new.second)
            ≡ reduced (sums_from (self.old.first, self.old.second) bytes.now) }
    {
        let (mut first, mut second) = (self.first, self.second);
        for byte in bytes {
            first += u32::from(*byte);
            second += first;
        }
        self.first = first % MODULUS;
        self.second = second % MODULUS;
    }

    /// Returns the checksum.
    pub(crate) fn value(&self) -> u32
        ensures { result ≡ adler_word (self.now.first, self.now.second) }
    {
        self.second * 65536 + self.first
    }
}
