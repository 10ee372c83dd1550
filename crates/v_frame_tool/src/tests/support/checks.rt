//! The environment of a test, and the checks that fail it.
ghost use Rattle.std.specs.Prelude.{◌≡◌, true};

use std::fmt::Debug;
use std::process::Abort;
use v_frame::pixel::Pixel;
use v_frame::plane::Plane;

/// The environment of a test: memory, and a way to abort.
pub trait Test: Abort + AllocGlobal {}

impl<R: Abort + AllocGlobal> Test for R {}

/// Fails the test unless `holds` is true.
///
/// The expansion of `assert!` is proved at each call, and this takes longer than proving most of the checks themselves.
pub fn must(rt: &impl Test, holds: bool)
    ensures { holds ≡ true }
{
    assert!(rt; holds);
}

/// Fails the test unless `found` is equal to `wanted`.
pub fn same<T: PartialEq + Debug + Drop>(rt: &impl Test, found: T, wanted: T) {
    assert!(rt; found == wanted, "found {found:?}, not {wanted:?}");
}

/// Fails the test unless `found` is equal to `wanted`, and reports the number of the case.
pub fn same_at<T: PartialEq + Debug + Drop>(rt: &impl Test, found: T, wanted: T, case: usize) {
    assert!(rt;
        found == wanted,
        "case {case}: found {found:?}, not {wanted:?}"
    );
}

/// Fails the test unless a plane has this buffer.
pub fn must_have<T: Pixel>(rt: &impl Test, plane: &Plane<T>, buffer: &[T]) {
    same(rt, plane.data(), buffer);
}
