//! The structs that C and the exports exchange in addition to slices. All bit patterns are valid values of these structs.
ghost use Rattle.std.specs.Prelude.{◌≡◌, ◌*◌, ◌<◌, ◌↔◌, nat_eq, IsTrue, IfSome, SomeIff, length};
ghost use Rattle.v_frame.specs.Prelude.{alloc_size_of, height_of, width_of, RowsFit};
ghost use Rattle.v_frame_slices.specs.Layout.{fits, geometry_in, is_bordered, number_of, picture};
ghost use Rattle.v_frame_slices.specs.Numbers.{subsampled_size, turned_size};
ghost use Rattle.v_frame_turn.specs.Prelude.{exchanges, SizeFits};
ghost use Rattle.v_frame_slices.specs.Status.{encoded_size, same_size, times_size};

use v_frame::plane::{PlaneGeometry, RowsRef, rows_fit};
use v_frame_convert::subsampled_size;
use v_frame_turn::Turn;

/// Rows in a buffer. Row `y` has the `width` entries from index `stride * y` on. All three numbers are counted in entries.
#[repr(C)]
pub struct Rows {
    pub width: usize,
    pub height: usize,
    pub stride: usize,
}

/// A picture with a border, at the beginning of a buffer. The stride is `pad_left + width + pad_right`.
#[derive(Drop)]
#[repr(C)]
pub struct Bordered {
    pub width: usize,
    pub height: usize,
    pub pad_left: usize,
    pub pad_right: usize,
    pub pad_top: usize,
    pub pad_bottom: usize,
}

/// A number of 128 bits.
#[derive(Drop)]
#[repr(C)]
pub struct Sum {
    pub low: u64,
    pub high: u64,
}

/// A column and a row if `found` is 1. If it is 0, both are 0.
#[derive(Drop)]
#[repr(C)]
pub struct Place {
    pub x: usize,
    pub y: usize,
    pub found: u32,
}

impl Rows {
    /// Returns whether the rows are not empty, do not overlap, and end within the given number of entries.
    pub fn fit(&self, entries: usize) -> bool
        ensures value { result ≡ fits self.now entries }
        ensures meaning { IsTrue result ↔ RowsFit self.now.width self.now.height self.now.stride entries }
    {
        rows_fit(self.width, self.height, self.stride, entries)
    }

    /// Returns the rows of a buffer, or `None` if they do not fit into it.
    pub fn of<'a, T>(&self, buffer: &'a [T]) -> Option<RowsRef<'a, T>>
        ensures rows { SomeIff result (IsTrue (fits self.now (length buffer.now)))
            (picture self.now buffer.now) }
        ensures width { IfSome result (λ rows. width_of rows ≡ self.now.width) }
        ensures height { IfSome result (λ rows. height_of rows ≡ self.now.height) }
    {
        RowsRef::new(buffer, self.width, self.height, self.stride)
    }

    /// Returns whether two pictures have the same size.
    pub fn same_size(&self, other: &Rows) -> bool
        ensures { result ≡ same_size self.now other.now }
    {
        self.width == other.width && self.height == other.height
    }

    /// Returns whether `other` has exactly twice as many columns and twice as many rows.
    pub fn is_half_of(&self, other: &Rows) -> bool
        ensures { result ≡ times_size 2 self.now other.now }
    {
        is_twice(other.width, self.width) && is_twice(other.height, self.height)
    }

    /// Returns whether `other` has the same height and twice the width.
    pub fn has_half_the_width_of(&self, other: &Rows) -> bool
        ensures { result ≡ encoded_size 2 self.now other.now }
    {
        is_twice(other.width, self.width) && other.height == self.height
    }
}

impl Rows {
    /// Returns whether these rows have the size of `other` after it is mirrored or rotated as `turn` specifies.
    pub fn has_turned_size_of(&self, other: &Rows, turn: Turn) -> bool
        ensures value { result ≡ turned_size turn self.now other.now }
        ensures meaning { IsTrue result → SizeFits (exchanges turn) other.now.width other.now.height
            self.now.width self.now.height }
    {
        if turn.exchanges_sizes() {
            return self.width == other.height && self.height == other.width;
        }
        self.same_size(other)
    }

    /// Returns whether the width of another picture is the width of these rows divided by `ratio_x`, rounded up, and its height
    /// their height divided by `ratio_y`, rounded up.
    pub fn is_subsampled_by(&self, other: &Rows, ratio_x: usize, ratio_y: usize) -> bool
        requires columns { 0 < ratio_x }
        requires rows { 0 < ratio_y }
        ensures { result ≡ subsampled_size ratio_x ratio_y self.now other.now }
    {
        other.width == subsampled_size(self.width, ratio_x)
            && other.height == subsampled_size(self.height, ratio_y)
    }
}

/// Returns whether `number` is twice `half`.
fn is_twice(number: usize, half: usize) -> bool
    ensures { result ≡ nat_eq number (2 * half) }
{
    number % 2 == 0 && number / 2 == half
}

impl Bordered {
    /// Returns the geometry of the picture and the number of its entries, or `None` if the buffer has fewer entries.
    pub fn of(&self, entries: usize) -> Option<(PlaneGeometry, usize)>
        ensures { let geometry = geometry_in self.now in
            SomeIff result (IsTrue (is_bordered self.now entries))
            (geometry, alloc_size_of geometry) }
    {
        let geometry = PlaneGeometry::new(
            self.width,
            self.height,
            self.pad_left,
            self.pad_right,
            self.pad_top,
            self.pad_bottom,
            1,
            1,
        )?;
        let size = geometry.checked_alloc_size()?;
        if size > entries {
            return None;
        }
        Some((geometry, size))
    }
}

impl Sum {
    /// Returns the low half and the high half of a number.
    pub fn of(number: u128) -> Sum
        ensures { number_of result ≡ number }
    {
        let word = 1 << 64;
        Sum {
            low: (number % word) as u64,
            high: (number / word) as u64,
        }
    }
}
