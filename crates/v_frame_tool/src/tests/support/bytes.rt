//! Bytes that grow by equal steps, and the two-byte pixels that they encode.

use crate::tests::support::checks::Test;

/// Returns a run of `count` bytes for each of `firsts`. Each run begins with this byte, and each further byte is larger by
/// `step`.
pub fn stepped(rt: &impl Test, firsts: &[u8], step: u8, count: usize) -> Vec<u8> {
    let mut bytes = Vec::new(rt.alloc());
    for first in firsts {
        let mut byte = *first;
        for _ in 0..count {
            bytes.push(byte).expect(rt, "memory");
            byte = byte.wrapping_add(step);
        }
    }
    bytes
}

/// Returns a run of `count` two-byte pixels for each of `firsts`, made from bytes as in `stepped`, in little-endian order.
pub fn stepped_words(rt: &impl Test, firsts: &[u8], step: u8, count: usize) -> Vec<u16> {
    let mut words = Vec::new(rt.alloc());
    for first in firsts {
        let mut low = *first;
        for _ in 0..count {
            let high = low.wrapping_add(step);
            let word = u16::from_le_bytes([low, high]);
            words.push(word).expect(rt, "memory");
            low = high.wrapping_add(step);
        }
    }
    words
}
