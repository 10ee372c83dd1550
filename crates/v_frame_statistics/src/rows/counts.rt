//! Counts of the pixels, or the pairs of pixels, that pass a test.
ghost use Rattle.std.specs.Prelude.{◌≡◌, ◌*◌, ◌<◌, ◌≤◌, Bool, count_by, length};
ghost use Rattle.v_frame.specs.Prelude.{height_of, row_major, width_of};
ghost use Rattle.v_frame_statistics.specs.Count.{passing_pairs};

use v_frame::pixel::Pixel;
use v_frame::plane::RowsRef;

/// Returns the number of pixels for which `test` returns true. `test` must accept every pixel of the type.
pub fn count_pixels<T: Pixel, F: Fn(T) -> bool>(rows: &RowsRef<'_, T>, test: F) -> usize
    requires { F.IsAlwaysCallable test }
    ensures value { (t : T → Bool) → ((p : T) (b : Bool) → F.post test p b → b ≡ t p)
        → result ≡ count_by t (row_major rows.now) }
    ensures bound { result ≤ height_of rows.now * width_of rows.now }
{
    let mut count = 0;
    for y in 0..rows.height() {
        count += count_in_row(rows.visible_row(y), &test);
    }
    count
}

/// Returns the number of positions at which `test` returns true for the pixels of `a` and `b`. Both pictures have the same
/// size, and `test` must accept every pair of pixels of the type.
pub fn count_pairs<T: Pixel, F: Fn(T, T) -> bool>(
    a: &RowsRef<'_, T>,
    b: &RowsRef<'_, T>,
    test: F,
) -> usize
    requires callable { F.IsAlwaysCallable test }
    requires wide { width_of a.now ≡ width_of b.now }
    requires high { height_of a.now ≡ height_of b.now }
    ensures value { (t : T → T → Bool) → ((p q : T) (b : Bool) → F.post test p q b → b ≡ t p q)
        → result ≡ passing_pairs t (row_major a.now) (row_major b.now) }
    ensures bound { result ≤ height_of a.now * width_of a.now }
{
    prove!(a.height() == b.height());
    let mut count = 0;
    for y in 0..a.height() {
        count += count_in_two_rows(a.visible_row(y), b.visible_row(y), &test);
    }
    count
}

/// Returns the number of pixels of a row that pass.
fn count_in_row<T: Copy, F: Fn(T) -> bool>(row: &[T], test: &F) -> usize
    requires { F.IsAlwaysCallable test.now }
    ensures value { (t : T → Bool) → ((p : T) (b : Bool) → F.post test.now p b → b ≡ t p)
        → result ≡ count_by t row.now }
    ensures bound { result ≤ length row.now }
{
    let mut count = 0;
    let blocks = row.len() / 128;
    for block in 0..blocks {
        let start = 128 * block;
        count += usize::from(count_in_block(&row[start..start + 128], test));
    }
    count + usize::from(count_in_block(&row[128 * blocks..], test))
}

/// Returns the number of pixels of a block that pass. The block is so short that the count fits a byte, so a vector register
/// holds as many counters as possible.
fn count_in_block<T: Copy, F: Fn(T) -> bool>(block: &[T], test: &F) -> u8
    requires callable { F.IsAlwaysCallable test.now }
    requires short { length block.now ≤ 128 }
    ensures value { (t : T → Bool) → ((p : T) (b : Bool) → F.post test.now p b → b ≡ t p)
        → result ≡ count_by t block.now }
    ensures bound { result ≤ length block.now }
{
    let mut count = 0;
    for i in 0..block.len() {
        count += u8::from(test(block[i]));
    }
    count
}

/// Returns the number of indexes at which the pixels of two rows pass.
fn count_in_two_rows<T: Copy, F: Fn(T, T) -> bool>(row: &[T], other: &[T], test: &F) -> usize
    requires callable { F.IsAlwaysCallable test.now }
    requires same { length other.now ≡ length row.now }
    ensures value { (t : T → T → Bool) → ((p q : T) (b : Bool) → F.post test.now p q b → b ≡ t p q)
        → result ≡ passing_pairs t row.now other.now }
    ensures bound { result ≤ length row.now }
{
    let mut count = 0;
    let blocks = row.len() / 128;
    for block in 0..blocks {
        let start = 128 * block;
        let (part, other_part) = (&row[start..start + 128], &other[start..start + 128]);
        count += usize::from(count_in_two_blocks(part, other_part, test));
    }
    let start = 128 * blocks;
    count + usize::from(count_in_two_blocks(&row[start..], &other[start..], test))
}

/// Returns the number of indexes at which the pixels of two short blocks pass.
fn count_in_two_blocks<T: Copy, F: Fn(T, T) -> bool>(block: &[T], other: &[T], test: &F) -> u8
    requires callable { F.IsAlwaysCallable test.now }
    requires same { length other.now ≡ length block.now }
    requires short { length block.now ≤ 128 }
    ensures value { (t : T → T → Bool) → ((p q : T) (b : Bool) → F.post test.now p q b → b ≡ t p q)
        → result ≡ passing_pairs t block.now other.now }
    ensures bound { result ≤ length block.now }
{
    let mut count = 0;
    for i in 0..block.len() {
        count += u8::from(test(block[i], other[i]));
    }
    count
}
