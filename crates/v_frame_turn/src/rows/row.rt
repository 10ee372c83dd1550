//! One row mirrored, or swapped with another row.
//!
//! The loops that run from both ends are never inlined, because the compiler does not vectorize them inside a loop over rows.
ghost use Rattle.std.specs.Prelude.{◌≡◌, ◌<◌, length, reverse};
ghost use Rattle.v_frame_turn.specs.Turning.{index_from, list_from};

/// Returns `index`, or `count - 1 - index` if `from_end` is true.
#[inline(always)]
pub(super) fn counted(from_end: bool, count: usize, index: usize) -> usize
    requires { index < count }
    ensures value { result ≡ index_from from_end count index }
    ensures within { result < count }
{
    if from_end { count - 1 - index } else { index }
}

/// Copies `source` to `target`, mirrored if `mirrored` is true.
#[inline(always)]
pub(super) fn write_row<T: Copy>(target: &mut [T], source: &[T], mirrored: bool)
    requires { length source.now ≡ length target.old }
    ensures { target.new ≡ list_from mirrored source.now }
{
    if mirrored {
        write_reversed(target, source);
    } else {
        target.copy_from_slice(source);
    }
}

/// Swaps two rows, and mirrors both if `mirrored` is true.
#[inline(always)]
pub(super) fn exchange_rows<T: Copy>(a: &mut [T], b: &mut [T], mirrored: bool)
    requires { length b.old ≡ length a.old }
    ensures first { a.new ≡ list_from mirrored b.old }
    ensures second { b.new ≡ list_from mirrored a.old }
{
    if mirrored {
        exchange_reversed(a, b);
    } else {
        exchange(a, b);
    }
}

/// Mirrors a row in place if `mirrored` is true.
#[inline(always)]
pub(super) fn turn_row<T: Copy>(row: &mut [T], mirrored: bool)
    ensures { row.new ≡ list_from mirrored row.old }
{
    if mirrored {
        row.reverse();
    }
}

/// Copies `source` to `target`, mirrored.
#[inline(never)]
#[tactic(auto, using(v_frame_raster::proofs::tables::ListItems::is_reverse))]
fn write_reversed<T: Copy>(target: &mut [T], source: &[T])
    requires { length source.now ≡ length target.old }
    ensures { target.new ≡ reverse source.now }
{
    let width = target.len();
    for x in 0..width {
        target[x] = source[width - 1 - x];
    }
}

/// Swaps two rows.
#[tactic(auto, using(v_frame_raster::proofs::tables::Lists::same_by_slice_get))]
fn exchange<T: Copy>(a: &mut [T], b: &mut [T])
    requires { length b.old ≡ length a.old }
    ensures first { a.new ≡ b.old }
    ensures second { b.new ≡ a.old }
{
    for x in 0..a.len() {
        let kept = a[x];
        a[x] = b[x];
        b[x] = kept;
    }
}

/// Swaps two rows and mirrors both.
#[inline(never)]
#[tactic(auto, using(v_frame_raster::proofs::tables::ListItems::is_reverse))]
fn exchange_reversed<T: Copy>(a: &mut [T], b: &mut [T])
    requires { length b.old ≡ length a.old }
    ensures first { a.new ≡ reverse b.old }
    ensures second { b.new ≡ reverse a.old }
{
    let width = a.len();
    for x in 0..width {
        let kept = a[x];
        a[x] = b[width - 1 - x];
        b[width - 1 - x] = kept;
    }
}
