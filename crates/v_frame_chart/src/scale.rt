//! The axis of numbers, described by whole numbers.
ghost use Rattle.std.specs.Prelude.{◌≤◌, ◌≤ℤ◌, ◌^◌, negsuc, pos};

/// The leading digit of a step.
#[derive(Clone, Copy)]
pub(crate) enum Digit {
    One,
    Two,
    Five,
}

/// A power of ten, or its reciprocal.
#[derive(Clone, Copy)]
pub(crate) enum Power {
    Times(u32),
    Over(u32),
}

/// The marks of an axis: `count` steps of `digit` times `power`, from `low` times `power` on.
#[derive(Clone, Copy)]
pub(crate) struct Scale {
    pub low: i64,
    pub digit: Digit,
    pub count: u32,
    pub power: Power,
    ghost least: { negsuc (2 ^ 60) ≤ℤ low },
    ghost most: { low ≤ℤ pos (2 ^ 60) },
    ghost few: { count ≤ 100 },
}
