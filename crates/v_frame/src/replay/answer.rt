//! The results of the calls on visible pixels.

use super::draw::Drawn;
use crate::plane::CopyError;
use crate::sequence::Sequence;

/// The result of one [`VisibleCall`](super::VisibleCall). Not part of `v_frame` 0.7.0.
#[derive(Debug, PartialEq, Eq, Drop)]
pub enum Answer<T> {
    /// The frame has no plane with this index.
    NoPlane,
    /// The pixel lies outside the visible rectangle.
    OutsideRectangle,
    /// A width or a height, in pixels.
    Number(usize),
    /// The row, or `None` if its number is not less than the visible height.
    RowShown(Option<Sequence<T>>),
    /// The pixel.
    PixelShown(T),
    /// The result of the copy.
    Copied(Result<(), CopyError>),
    /// The rows that an iterator yielded.
    RowsWalked {
        /// The number of rows that the iterator began with.
        total: usize,
        /// The result of each `next` or `next_back`, in order.
        drawn: Sequence<Drawn<Sequence<T>>>,
    },
    /// The pixels that an iterator yielded.
    PixelsWalked {
        /// The number of pixels that the iterator began with.
        total: usize,
        /// The result of each `next` or `next_back`, in order.
        drawn: Sequence<Drawn<T>>,
    },
    /// The bytes that an iterator yielded.
    BytesWalked {
        /// The number of bytes that the iterator began with.
        total: usize,
        /// The result of each `next` or `next_back`, in order.
        drawn: Sequence<Drawn<u8>>,
    },
}

/// The error of a replay that stopped because memory could not be allocated. Not part of `v_frame` 0.7.0.
#[derive(Debug, PartialEq, Eq, Drop)]
pub struct ReplayStopped<T> {
    /// The results of the calls that were executed. They are the first calls of the list.
    pub done: Sequence<Answer<T>>,
}
