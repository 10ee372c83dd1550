//! The numbers of geometries as plain values.

use v_frame::plane::PlaneGeometry;

/// Returns the size, the stride, the paddings left, right, top and bottom, and the subsampling ratios.
pub fn numbers_of(geometry: &PlaneGeometry) -> [usize; 9] {
    [
        geometry.width(),
        geometry.height(),
        geometry.stride(),
        geometry.pad_left(),
        geometry.pad_right(),
        geometry.pad_top(),
        geometry.pad_bottom(),
        usize::from(geometry.subsampling_x()),
        usize::from(geometry.subsampling_y()),
    ]
}
