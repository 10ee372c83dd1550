//! Lines of text.

use v_frame::pixel::Pixel;
use v_frame::plane::PlaneRef;

/// Appends a line with a name and the visible pixels of a plane.
pub fn push_plane<T: Pixel>(text: &mut String, name: &str, plane: &PlaneRef<'_, T>) -> Option<()> {
    text.push_str(name).ok()?;
    for pixel in plane.pixels() {
        let value = pixel.into_u16();
        write!(text, " {value}").ok()?;
    }
    text.push('\n').ok()
}
