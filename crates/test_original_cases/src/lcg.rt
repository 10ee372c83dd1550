//! Pseudorandom pixels that are determined by a seed.
ghost use Rattle.std.specs.Prelude.{◌≡◌, ◌+◌, ◌*◌, ◌/◌, ◌%◌, ◌^◌, ◌<◌};

use crate::value::Value;

/// A linear congruential generator modulo 2^31.
#[derive(Drop)]
pub struct Lcg {
    state: u64,
    ghost reduced: { state < 2 ^ 31 },
}

impl Lcg {
    /// Returns a generator with this seed.
    pub fn new(seed: u64) -> Self
        ensures { result.state ≡ seed % 2 ^ 31 }
    {
        Lcg {
            state: seed % 0x8000_0000,
        }
    }

    /// Returns the next pixel of this type.
    pub fn pixel<T: Value>(&mut self) -> T {
        T::of_step(self.step())
    }

    /// Advances the state, and returns its upper 16 bits.
    fn step(&mut self) -> u16
        ensures state { self.new.state ≡ (1103515245 * self.old.state + 12345) % 2 ^ 31 }
        ensures value { result ≡ self.new.state / 2 ^ 15 }
    {
        self.state = (1_103_515_245 * self.state + 12345) % 0x8000_0000;
        (self.state / 0x8000) as u16
    }
}
