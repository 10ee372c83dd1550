//! A list inside another value, for example inside a call, its result or a stream header.
ghost use Rattle.std.specs.Prelude.{◌≡◌, ◌^◌, ◌<◌, ◌↔◌, List, [], length, IsTrue, IfOk, option_copied};
ghost use Rattle.std.specs.Cmp.Lexicographic.{pointwise, lists_per, lists_equiv};
ghost use Rattle.std.specs.Iterator.Runs.{EveryRun, ItemsMapTo};
ghost use Rattle.std.specs.Slice.Iter.{iter_rest, iter_steps};
ghost use Rattle.std.specs.Iterator.Adapters.{IterYieldsInOrder, IterYieldsInReverse};

use std::alloc::{AllocError, Global};
use std::convert::AsSlice;
use std::marker::Model;
use std::ops::DerefSlice;
use std::{fmt, slice};

/// A list inside a [`VisibleCall`](crate::replay::VisibleCall), an [`Answer`](crate::replay::Answer) or another value.
///
/// A `Sequence` is a `Vec` that contracts see as a list. It can be read as a slice. The conversions from and to a `Vec`
/// allocate no memory. Not part of `v_frame` 0.7.0.
#[derive(Drop)]
pub struct Sequence<T> {
    items: Vec<T>,
}

impl<T> Model for Sequence<T> {
    ghost use Rattle.std.specs.Prelude.{List};

    ghost Value = { List T };

    ghost view = { λ a. a.items.items };
}

impl<T> Sequence<T> {
    /// Returns a sequence with copies of `items`.
    ///
    /// # Errors
    ///
    /// [`AllocError`] if the memory for the copies cannot be allocated.
    pub fn from_slice(alloc: Global, items: &[T]) -> Result<Self, AllocError>
    where
        T: Copy,
        ensures { IfOk result (λ sequence. sequence ≡ items.now) }
    {
        Ok(Vec::from_slice(alloc, items)?.into())
    }

    /// Returns a sequence with copies of `items`, or `None` if `items` is `None`.
    pub(crate) fn from_option(
        alloc: Global,
        items: Option<&[T]>,
    ) -> Result<Option<Self>, AllocError>
    where
        T: Copy,
        ensures { IfOk result (λ sequence. sequence ≡ option_copied items.entry) }
    {
        match items {
            Some(items) => Ok(Some(Sequence::from_slice(alloc, items)?)),
            None => Ok(None),
        }
    }

    /// Returns the number of items.
    pub fn len(&self) -> usize
        ensures { result ≡ length self.now }
    {
        self.items.len()
    }

    /// Returns whether the sequence has no items.
    pub fn is_empty(&self) -> bool
        ensures { IsTrue result ↔ (self.now ≡ []) }
    {
        self.items.is_empty()
    }

    /// Returns an iterator over the items.
    pub fn iter(&self) -> slice::Iter<'_, T>
        ensures items { iter_rest result ≡ self.now }
        ensures bound { length (iter_rest result) < 2 ^ 64 }
        ensures runs { IterYieldsInOrder T }
        ensures runs_back { IterYieldsInReverse T }
    {
        self.items.iter()
    }

    /// Returns the items as a slice.
    pub fn as_slice(&self) -> &[T]
        ensures { result.now ≡ self.now }
    {
        self.items.as_slice()
    }

    /// Returns the `Vec` that the sequence was made from.
    pub fn into_vec(self) -> Vec<T>
        ensures { result.items ≡ self }
    {
        self.items
    }
}

impl<T> From<Vec<T>> for Sequence<T> {
    ghost from_gives = { λ items sequence. sequence ≡ items.items };

    fn from(items: Vec<T>) -> Self {
        Sequence { items }
    }
}

impl<T> DerefSlice for Sequence<T> {
    type Elem = T;

    ghost deref_gives = { λ sequence items. items ≡ sequence };

    fn deref(&self) -> &[T] {
        Sequence::as_slice(self)
    }
}

impl<T> AsSlice<T> for Sequence<T> {
    ghost items = { λ sequence. sequence };

    fn as_slice(&self) -> &[T] {
        Sequence::as_slice(self)
    }
}

impl<'a, T> IntoIterator for &'a Sequence<T> {
    type Item = &'a T;

    type IntoIter = slice::Iter<'a, T>;

    ghost into_iter_gives = { λ sequence items. (iter_rest items ≡ sequence.now)
        × (length (iter_rest items) < 2 ^ 64)
        × EveryRun (iter_steps {A = T}) (λ p. ItemsMapTo p (λ x. x.now) (iter_rest p.from)) };

    fn into_iter(self) -> slice::Iter<'a, T> {
        self.iter()
    }
}

impl<T: PartialEq> PartialEq for Sequence<T> {
    ghost eq = { pointwise T.eq };

    ghost laws = { lists_per T.PartialEq.laws };

    fn eq(&self, other: &Self) -> bool {
        self.items == other.items
    }
}

impl<T: Eq> Eq for Sequence<T> {
    ghost laws = { lists_equiv T.Eq.laws };
}

impl<T: fmt::Debug> fmt::Debug for Sequence<T> {
    fn fmt<W: fmt::Write>(&self, f: &mut fmt::Formatter<W>) -> fmt::Result {
        self.items.fmt(f)
    }
}
