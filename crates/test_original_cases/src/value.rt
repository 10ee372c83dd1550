//! Values that are read as pixels.

use v_frame::pixel::Pixel;

/// A pixel that can be read. Readers need no other calls, and [`Pixel`] has a dozen bounds.
pub trait Value: Copy {
    /// Returns the pixel with the value 0.
    fn zero() -> Self;

    /// Returns the pixel with this value, or `None` if the value does not fit into the type.
    fn of_number(number: u64) -> Option<Self>;

    /// Returns the pixel for a step of the pseudorandom sequence. A one-byte pixel is the lower half of `step`.
    fn of_step(step: u16) -> Self;
}

impl<T: Pixel> Value for T {
    fn zero() -> Self {
        T::ZERO
    }

    fn of_number(number: u64) -> Option<Self> {
        if number < 0x1_0000 {
            T::try_from_u16(number as u16)
        } else {
            None
        }
    }

    fn of_step(step: u16) -> Self {
        if T::BYTES == 1 {
            T::from_u8((step % 256) as u8)
        } else {
            T::try_from_u16(step).unwrap_or(T::ZERO)
        }
    }
}
