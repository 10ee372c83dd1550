//! Samples of colors, means over frames, a bit depth, and the CRC-32 of data in parts.

use crate::text::push_plane;
use v_frame::plane::{Plane, RowsRef};
use v_frame_bytes::Crc32Digest;
use v_frame_measures::StreamQuality;
use v_frame_rgb::{ColorRange, Luma, Rgb, RgbMatrix, Standard, YuvMatrix, rgb_to_channel};
use v_frame_y4m::Depth;

/// Appends the results of calls that need no frame.
pub fn push_numbers(text: &mut String) -> Option<()> {
    let mut quality = StreamQuality::new();
    quality.add(4.0, 8);
    quality.add(16.0, 8);
    let (errors, ratios) = (quality.mean_of_errors()?, quality.mean_of_psnr()?);
    writeln!(text, "means {errors} {ratios:.6}").ok()?;
    let bits = Depth::from_bits(10)?.bits();
    writeln!(text, "depth {bits}").ok()?;
    let mut digest = Crc32Digest::new();
    digest.update(b"1234");
    digest.update(b"56789");
    let crc = digest.value();
    writeln!(text, "crc {crc:08x}").ok()
}

/// Appends the luma of eight colors that fill a plane: black, red, green and blue, followed by their complements.
pub fn push_samples(text: &mut String, plane: &mut Plane<u8>) -> Option<()> {
    let colors = [
        0, 0, 0, 255, 0, 0, 0, 255, 0, 0, 0, 255, 255, 255, 255, 0, 255, 255, 255, 0, 255, 255,
        255, 0,
    ];
    let colors = RowsRef::new(&colors, 12, 2, 12)?;
    if plane.width() != 4 || plane.height() != 2 {
        return None;
    }
    let matrix = YuvMatrix::new(Standard::Bt601, ColorRange::Full);
    rgb_to_channel::<Rgb, Luma>(&colors, plane, matrix);
    push_plane(text, "luma of colors", &plane.as_plane_ref())?;
    let color = RgbMatrix::new(Standard::Bt601, ColorRange::Full).color(76, 85, 255);
    let (red, green, blue) = (color.red, color.green, color.blue);
    writeln!(text, "red again {red} {green} {blue}").ok()
}
