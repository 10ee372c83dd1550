//! The calls that take items from the iterators of a plane, from each side of a list in turn.
ghost use Rattle.std.specs.Prelude.{◌≡◌, List, length, map, IfOk};
ghost use Rattle.v_frame.specs.Walk.{item_from, remaining_after, draws_answer};

use super::draw::{Draw, Drawn, Side};
use crate::pixel::Pixel;
use crate::plane::{ByteData, Pixels, Rows};
use crate::sequence::Sequence;
use std::alloc::{AllocError, Global};

/// A double-ended iterator over a plane. A result holds its items, so items that the iterator only lends are copied.
pub(crate) trait Walk {
    ghost use Rattle.std.specs.Prelude.{◌≡◌, List, length, IfOk};
    ghost use Rattle.v_frame.specs.Walk.{item_from, remaining_after};

    /// The form in which a result holds an item.
    type Item;

    // The remaining items.
    ghost items: { Self → List Self.Item };

    /// Returns the next item from `side`, in the form in which a result holds it.
    fn draw(&mut self, alloc: Global, side: Side) -> Result<Option<Self::Item>, AllocError>
        ensures item { IfOk result (λ item. item ≡ item_from side (items self.old)) }
        ensures remaining { items self.new ≡ remaining_after side (items self.old) };

    /// Returns the number of remaining items.
    fn remaining(&self) -> usize
        ensures { result ≡ length (items self.now) };
}

impl<'a, T: Copy> Walk for Rows<'a, T> {
    type Item = Sequence<T>;

    ghost items = { λ rows. rows };

    fn draw(&mut self, alloc: Global, side: Side) -> Result<Option<Sequence<T>>, AllocError> {
        let row = match side {
            Side::Front => self.next(),
            Side::Back => self.next_back(),
        };
        Sequence::from_option(alloc, row)
    }

    fn remaining(&self) -> usize {
        self.len()
    }
}

impl<'a, T: Copy> Walk for Pixels<'a, T> {
    type Item = T;

    ghost items = { λ pixels. pixels };

    fn draw(&mut self, _alloc: Global, side: Side) -> Result<Option<T>, AllocError> {
        Ok(match side {
            Side::Front => self.next(),
            Side::Back => self.next_back(),
        })
    }

    fn remaining(&self) -> usize {
        self.len()
    }
}

impl<'a, T: Pixel> Walk for ByteData<'a, T> {
    type Item = u8;

    ghost items = { λ bytes. bytes };

    fn draw(&mut self, _alloc: Global, side: Side) -> Result<Option<u8>, AllocError> {
        Ok(match side {
            Side::Front => self.next(),
            Side::Back => self.next_back(),
        })
    }

    fn remaining(&self) -> usize {
        self.len()
    }
}

/// Returns the number of items that an iterator begins with, and the results of taking items from the sides of `draws` in turn.
pub(crate) fn walked<W: Walk, D: Draw>(
    alloc: Global,
    walk: &mut W,
    draws: &[D],
) -> Result<(usize, Sequence<Drawn<W::Item>>), AllocError>
where
    W::Item: Drop,
    ensures { let items = W.items walk.old in IfOk result (λ walked. (walked.0 ≡ length items)
        × (walked.1 ≡ draws_answer items (map D.side_of draws.now))) }
{
    let total = walk.remaining();
    let drawn = draw_items(alloc, walk, draws)?;
    Ok((total, drawn.into()))
}

/// Takes items from an iterator, from the sides of `draws` in turn.
pub(crate) fn draw_items<W: Walk, D: Draw>(
    alloc: Global,
    walk: &mut W,
    draws: &[D],
) -> Result<Vec<Drawn<W::Item>>, AllocError>
where
    W::Item: Drop,
    ensures { IfOk result (λ drawn.
        drawn.items ≡ draws_answer (W.items walk.old) (map D.side_of draws.now)) }
{
    let mut drawn = Vec::with_capacity(alloc, draws.len())?;
    for draw in draws {
        let item = walk.draw(alloc, draw.side())?;
        drawn
            .push(Drawn {
                item,
                left: walk.remaining(),
            })
            .unwrap();
    }
    Ok(drawn)
}
