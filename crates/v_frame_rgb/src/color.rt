//! Colors with 8 bits for each channel, and the byte orders in which pictures store them.
ghost use Rattle.std.specs.Prelude.{◌≡◌, ℕ, ◌<◌, List, [], ◌∷◌, length, slice_index, refl};
ghost use Rattle.std.proofs.Common.{lit<};

/// A color with 8 bits each for red, green and blue.
#[derive(Debug, Clone, Copy, PartialEq, Eq)]
pub struct Color {
    pub red: u8,
    pub green: u8,
    pub blue: u8,
}

mod sealed {
    /// Types outside this crate cannot implement [`ColorOrder`](super::ColorOrder).
    pub trait Sealed {}

    impl Sealed for super::Rgb {}

    impl Sealed for super::Bgr {}

    impl Sealed for super::Rgba {}

    impl Sealed for super::Bgra {}
}

/// The order in which the bytes of a pixel store its color.
pub trait ColorOrder: sealed::Sealed {
    ghost use Rattle.v_frame_rgb.specs.declared.color.Color.{Color};

    ghost BYTES: { ℕ };

    // The bytes of a color, and the color that some bytes store.
    ghost bytes_of: { Color → List ℕ };

    ghost color_at: { List ℕ → Color };

    /// The number of bytes of one pixel: 3 for [`Rgb`] and [`Bgr`], 4 for [`Rgba`] and [`Bgra`].
    const BYTES: usize;

    /// Writes `color` to the bytes of a pixel. `pixel` must have [`BYTES`](Self::BYTES) bytes. With another length the function
    /// may panic or write only some of the bytes.
    fn write(pixel: &mut [u8], color: Color)
        requires { length pixel.old ≡ BYTES }
        ensures { pixel.new ≡ bytes_of color };

    /// Returns the color of a pixel. `pixel` must have [`BYTES`](Self::BYTES) bytes. With another length the function may panic
    /// or read only some of the bytes.
    fn read(pixel: &[u8]) -> Color
        requires { length pixel.now ≡ BYTES }
        ensures { result ≡ color_at pixel.now };

    ghost some_bytes: { 0 < BYTES };

    // A color is stored in this number of bytes.
    ghost length_of_bytes: { (color : Color) → length (bytes_of color) ≡ BYTES };

    // Reading the bytes of a color returns the color.
    ghost color_of_bytes: { (color : Color) → color_at (bytes_of color) ≡ color };
}

/// Three bytes: red, green, blue.
pub struct Rgb;

/// Three bytes: blue, green, red.
pub struct Bgr;

/// Four bytes: red, green, blue, alpha. The alpha byte is written as 255 (opaque) and ignored when read.
pub struct Rgba;

/// Four bytes: blue, green, red, alpha. The alpha byte is written as 255 (opaque) and ignored when read.
pub struct Bgra;

impl ColorOrder for Rgb {
    ghost BYTES = { 3 };

    ghost bytes_of = { λ color. color.red ∷ color.green ∷ color.blue ∷ [] };

    ghost color_at = { λ pixel. record {
      red = slice_index pixel 0;
      green = slice_index pixel 1;
      blue = slice_index pixel 2;
    } };

    const BYTES: usize = 3;

    ghost some_bytes = { lit< tt };

    ghost length_of_bytes = { λ color. refl };

    ghost color_of_bytes = { λ color. refl };

    fn write(pixel: &mut [u8], color: Color) {
        pixel[0] = color.red;
        pixel[1] = color.green;
        pixel[2] = color.blue;
    }

    fn read(pixel: &[u8]) -> Color {
        Color {
            red: pixel[0],
            green: pixel[1],
            blue: pixel[2],
        }
    }
}

impl ColorOrder for Bgr {
    ghost BYTES = { 3 };

    ghost bytes_of = { λ color. color.blue ∷ color.green ∷ color.red ∷ [] };

    ghost color_at = { λ pixel. record {
      red = slice_index pixel 2;
      green = slice_index pixel 1;
      blue = slice_index pixel 0;
    } };

    const BYTES: usize = 3;

    ghost some_bytes = { lit< tt };

    ghost length_of_bytes = { λ color. refl };

    ghost color_of_bytes = { λ color. refl };

    fn write(pixel: &mut [u8], color: Color) {
        pixel[0] = color.blue;
        pixel[1] = color.green;
        pixel[2] = color.red;
    }

    fn read(pixel: &[u8]) -> Color {
        Color {
            red: pixel[2],
            green: pixel[1],
            blue: pixel[0],
        }
    }
}

impl ColorOrder for Rgba {
    ghost BYTES = { 4 };

    ghost bytes_of = { λ color. color.red ∷ color.green ∷ color.blue ∷ 255 ∷ [] };

    ghost color_at = { λ pixel. record {
      red = slice_index pixel 0;
      green = slice_index pixel 1;
      blue = slice_index pixel 2;
    } };

    const BYTES: usize = 4;

    ghost some_bytes = { lit< tt };

    ghost length_of_bytes = { λ color. refl };

    ghost color_of_bytes = { λ color. refl };

    fn write(pixel: &mut [u8], color: Color) {
        pixel[0] = color.red;
        pixel[1] = color.green;
        pixel[2] = color.blue;
        pixel[3] = 255;
    }

    fn read(pixel: &[u8]) -> Color {
        Color {
            red: pixel[0],
            green: pixel[1],
            blue: pixel[2],
        }
    }
}

impl ColorOrder for Bgra {
    ghost BYTES = { 4 };

    ghost bytes_of = { λ color. color.blue ∷ color.green ∷ color.red ∷ 255 ∷ [] };

    ghost color_at = { λ pixel. record {
      red = slice_index pixel 2;
      green = slice_index pixel 1;
      blue = slice_index pixel 0;
    } };

    const BYTES: usize = 4;

    ghost some_bytes = { lit< tt };

    ghost length_of_bytes = { λ color. refl };

    ghost color_of_bytes = { λ color. refl };

    fn write(pixel: &mut [u8], color: Color) {
        pixel[0] = color.blue;
        pixel[1] = color.green;
        pixel[2] = color.red;
        pixel[3] = 255;
    }

    fn read(pixel: &[u8]) -> Color {
        Color {
            red: pixel[2],
            green: pixel[1],
            blue: pixel[0],
        }
    }
}
