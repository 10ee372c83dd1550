//! A part of a picture.
ghost use Rattle.std.specs.Prelude.{◌+◌, ◌≤◌, ◌↔◌, IsTrue};

/// A rectangle of pixels.
#[derive(Debug, Clone, Copy, PartialEq, Eq)]
pub struct Rectangle {
    /// The first column, counted from 0.
    pub x: usize,
    /// The first row, counted from 0.
    pub y: usize,
    /// The number of columns.
    pub width: usize,
    /// The number of rows.
    pub height: usize,
}

impl Rectangle {
    /// Returns whether the rectangle lies in a picture of this width and height, in pixels.
    pub fn lies_in(&self, width: usize, height: usize) -> bool
        ensures { IsTrue result ↔ ((self.now.x + self.now.width ≤ width)
            × (self.now.y + self.now.height ≤ height)) }
    {
        lies_within(self.x, self.width, width) && lies_within(self.y, self.height, height)
    }
}

/// Returns whether a range of columns or rows, given by its first one and its length, lies within a size.
fn lies_within(first: usize, count: usize, size: usize) -> bool
    ensures { IsTrue result ↔ (first + count ≤ size) }
{
    first <= size && count <= size - first
}
