//! Calls of `next` and `next_back` as values: the side, the values to write into the item, and the result of the call.

use crate::sequence::Sequence;

/// The side of an iterator from which an item is taken. Not part of `v_frame` 0.7.0.
#[derive(Debug, Clone, Copy, PartialEq, Eq)]
pub enum Side {
    /// The item is taken by `next`.
    Front,
    /// The item is taken by `next_back`.
    Back,
}

/// A call of `next` or `next_back` that lends a row for writing, and the pixels to write into it. Not part of `v_frame` 0.7.0.
#[derive(Debug, PartialEq, Eq, Drop)]
pub struct RowDraw<T> {
    /// The side from which the row is taken.
    pub side: Side,
    /// The new pixels of the row, from the left. A pixel is unchanged if its entry is `None`, or if the list ends before it.
    /// Entries past the width are ignored.
    pub writes: Sequence<Option<T>>,
}

/// A call of `next` or `next_back` that lends a pixel for writing, and the value to write. Not part of `v_frame` 0.7.0.
#[derive(Debug, PartialEq, Eq, Drop)]
pub struct PixelDraw<T> {
    /// The side from which the pixel is taken.
    pub side: Side,
    /// The new pixel. If it is `None`, the pixel is unchanged.
    pub value: Option<T>,
}

/// The result of one call of `next` or `next_back`. Not part of `v_frame` 0.7.0.
#[derive(Debug, PartialEq, Eq, Drop)]
pub struct Drawn<I> {
    /// The item, or `None` past the end of the iterator.
    pub item: Option<I>,
    /// The number of items that remain after the call.
    pub left: usize,
}

/// A call of `next` or `next_back` in a list of calls. It may write any values.
pub(crate) trait Draw {
    ghost use Rattle.std.specs.Prelude.{◌≡◌};
    ghost use Rattle.v_frame.specs.declared.replay.draw.Side.{Side};

    ghost side_of: { Self → Side };

    /// Returns the side from which the call takes an item.
    fn side(&self) -> Side
        ensures { result ≡ side_of self.now };
}

impl Draw for Side {
    ghost side_of = { λ side. side };

    fn side(&self) -> Side {
        *self
    }
}

impl<T> Draw for RowDraw<T> {
    ghost side_of = { λ draw. draw.side };

    fn side(&self) -> Side {
        self.side
    }
}

impl<T> Draw for PixelDraw<T> {
    ghost side_of = { λ draw. draw.side };

    fn side(&self) -> Side {
        self.side
    }
}
