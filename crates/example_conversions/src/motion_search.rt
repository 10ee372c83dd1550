//! Motion search: the position in another picture that matches a block best.
ghost use Rattle.std.specs.Prelude.{◌≡◌, ◌+◌, ◌<◌, ◌≤◌};
ghost use Rattle.v_frame.specs.Prelude.{table_of};
ghost use Rattle.example_conversions.specs.MotionSearch.{IsFirstLeast, cost_at};

use v_frame::pixel::Pixel;
use v_frame::plane::PlaneRef;
use v_frame_ops::sum_of_absolute_differences;

/// The positions that a search tries: a rectangle of columns and rows.
#[derive(Clone, Copy, Debug, PartialEq, Eq)]
pub struct SearchArea {
    /// The first column.
    pub x: usize,
    /// The first row.
    pub y: usize,
    /// The number of columns.
    pub columns: usize,
    /// The number of rows.
    pub rows: usize,
}

/// The position at which a block matches best, and its cost.
#[derive(Clone, Copy, Debug, PartialEq, Eq)]
pub struct BlockMatch {
    /// The column of the first pixel of the match.
    pub x: usize,
    /// The row of the first pixel of the match.
    pub y: usize,
    /// The sum of absolute differences between the block and the pixels at this position.
    pub cost: u128,
}

/// Returns the position in `area` at which `block` matches `plane` best, which means with the smallest sum of absolute
/// differences. If several positions have the same sum, the first one is returned, with positions ordered from left to right
/// within a row and from top to bottom.
///
/// The area is not empty, and at each of its positions the block lies inside the plane.
pub fn find_block<T: Pixel>(
    plane: &PlaneRef<'_, T>,
    block: &PlaneRef<'_, T>,
    area: SearchArea,
) -> BlockMatch
    requires columns { 0 < area.columns }
    requires rows { 0 < area.rows }
    requires across { area.x + area.columns + block.now.geometry.width
        ≤ plane.now.geometry.width + 1 }
    requires down { area.y + area.rows + block.now.geometry.height
        ≤ plane.now.geometry.height + 1 }
    ensures { IsFirstLeast (cost_at T.form.value (table_of plane.now) (table_of block.now)) area
        result }
{
    // Reading the sizes shows that they fit their type, and so do the positions inside them.
    let _sizes = (plane.width(), plane.height());
    let mut best = best_of_row(plane, block, area, area.y);
    for y in area.y + 1..area.y + area.rows {
        let found = best_of_row(plane, block, area, y);
        if found.cost < best.cost {
            best = found;
        }
    }
    best
}

/// Returns the first position with the smallest sum in row `y` of the area.
fn best_of_row<T: Pixel>(
    plane: &PlaneRef<'_, T>,
    block: &PlaneRef<'_, T>,
    area: SearchArea,
    y: usize,
) -> BlockMatch
    requires columns { 0 < area.columns }
    requires across { area.x + area.columns + block.now.geometry.width
        ≤ plane.now.geometry.width + 1 }
    requires down { y + block.now.geometry.height ≤ plane.now.geometry.height }
    ensures { IsFirstLeast (cost_at T.form.value (table_of plane.now) (table_of block.now))
        (record area { y = y; rows = 1 }) result }
{
    let _sizes = (plane.width(), block.width());
    let mut best = match_at(plane, block, area.x, y);
    for x in area.x + 1..area.x + area.columns {
        let found = match_at(plane, block, x, y);
        if found.cost < best.cost {
            best = found;
        }
    }
    best
}

/// Returns the match at one position, with its cost.
#[tactic(auto, unfolding(crate::specs::MotionSearch::cost_at))]
fn match_at<T: Pixel>(
    plane: &PlaneRef<'_, T>,
    block: &PlaneRef<'_, T>,
    x: usize,
    y: usize,
) -> BlockMatch
    requires across { x + block.now.geometry.width ≤ plane.now.geometry.width }
    requires down { y + block.now.geometry.height ≤ plane.now.geometry.height }
    ensures x { result.x ≡ x }
    ensures y { result.y ≡ y }
    ensures cost { result.cost
        ≡ cost_at T.form.value (table_of plane.now) (table_of block.now) x y }
{
    let region = plane.visible_region(x, y, block.width(), block.height());
    let cost = sum_of_absolute_differences(&region, block);
    BlockMatch { x, y, cost }
}
