//! Pictures resized to any size, for any type of pixel.
ghost use Rattle.std.specs.Prelude.{◌≡◌};
ghost use Rattle.v_frame_slices.specs.Made.{IsResizedByArea, IsResizedByNearest};
ghost use Rattle.v_frame_slices.specs.Sizes.{have_areas, is_counted};

use crate::layout::Rows;
use crate::status::{FIRST, OK, SECOND, SIZES};
use v_frame::pixel::Pixel;
use v_frame_resize::rows as sizes;

/// Resizes the picture of the source rows with a box filter: each pixel is the mean of the area that it covers.
pub fn by_area<T: Pixel>(rows: &Rows, buffer: &mut [T], source_rows: &Rows, source: &[T]) -> u32
    ensures made { IsResizedByArea rows.now source_rows.now source.now buffer.old buffer.new result T.form }
{
    if !rows.fit(buffer.len()) {
        return FIRST;
    }
    let Some(source) = source_rows.of(source) else {
        return SECOND;
    };
    if !rows.have_areas_of(source_rows) {
        return SIZES;
    }
    sizes::resize_area(&source, buffer, rows.width, rows.height, rows.stride);
    OK
}

/// Resizes the picture of the source rows by nearest neighbor: each pixel is the pixel of the source that contains its center.
pub fn by_nearest<T: Pixel>(rows: &Rows, buffer: &mut [T], source_rows: &Rows, source: &[T]) -> u32
    ensures made { IsResizedByNearest rows.now source_rows.now source.now buffer.old buffer.new result }
{
    if !rows.fit(buffer.len()) {
        return FIRST;
    }
    let Some(source) = source_rows.of(source) else {
        return SECOND;
    };
    if !rows.are_counted() || !source_rows.are_counted() {
        return SIZES;
    }
    sizes::resize_nearest(&source, buffer, rows.width, rows.height, rows.stride);
    OK
}

impl Rows {
    /// Returns whether a picture of another size can be resized to these rows by a box filter.
    pub fn have_areas_of(&self, source: &Rows) -> bool
        ensures { result ≡ have_areas self.now source.now }
    {
        sizes::can_resize(source.width, source.height, self.width, self.height)
    }

    /// Returns whether the units of a row and of a column can be counted in 64 bits.
    pub fn are_counted(&self) -> bool
        ensures { result ≡ is_counted self.now }
    {
        self.width < 1 << 62 && self.height < 1 << 62
    }
}
