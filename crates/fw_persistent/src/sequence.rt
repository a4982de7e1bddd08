//! A list that is added to at its end, and never changed.
ghost use Rattle.std.specs.Prelude.{◌≡◌, ◌<◌, ◌∷◌, ◌++◌, [], length, map, set, IfOk, Some, slice_get};

use crate::items::Row;
use crate::share::Share;
use std::alloc::{AllocError, Global};
use std::marker::Model;

/// A list of items, oldest first. It is never changed: a push makes another, which shares the older items.
pub struct Sequence<T> {
    len: usize,
    row: Row<T>,
}

impl<T: Drop> Drop for Sequence<T> {
    fn drop(self) {
        let Self { len: _, row: _ } = self;
    }
}

impl<T> Model for Sequence<T> {
    ghost use Rattle.std.specs.Prelude.{List};

    ghost Value = { List T };

    ghost use Rattle.fw_persistent.specs.SequenceView.{sequence_items, KeepsSequence};

    ghost view = { sequence_items };

    ghost invariant = { KeepsSequence };
}

impl<T> Sequence<T> {
    /// The sequence of no item. It takes no memory.
    pub fn new() -> Sequence<T>
        ensures { result ≡ [] }
    {
        Sequence {
            len: 0,
            row: Row::Empty,
        }
    }

    /// The number of items.
    pub fn len(&self) -> usize
        ensures { result ≡ length self.now }
    {
        self.len
    }

    /// The item at a place, the oldest of all at 0. The time grows with the logarithm of the number of items.
    pub fn get(&self, place: usize) -> &T
        requires { place < length self.now }
        ensures { slice_get self.now place ≡ Some result.now }
    {
        self.row.item(self.len, place)
    }

    /// References to the items, the oldest first.
    pub fn references(&self, alloc: Global) -> Result<Vec<&T>, AllocError>
        ensures { IfOk result (λ references. map (λ r. r.now) references.items ≡ self.now) }
    {
        let mut references = Vec::with_capacity(alloc, self.len())?;
        for place in 0..self.len() {
            references.push(self.get(place))?;
        }
        Ok(references)
    }
}

impl<T: Drop> Sequence<T> {
    /// The sequence with one more item at its end. It takes two blocks of memory at most, however long the sequence is.
    /// The error comes where memory ran out, where what is shared has as many owners as can be counted, and where there
    /// are `usize::MAX` items. Then the item is dropped. The old sequence stays as it was in any case.
    pub fn push(&self, alloc: Global, item: T) -> Result<Sequence<T>, AllocError>
        ensures { IfOk result (λ sequence. sequence ≡ self.now ++ item ∷ []) }
    {
        let Some(len) = self.len.checked_add(1) else {
            return Err(AllocError);
        };
        Ok(Sequence {
            len,
            row: self.row.with(alloc, item)?,
        })
    }

    /// The same sequence, which shares all items. It takes no memory.
    /// The error comes only where a tree of items has as many owners as can be counted.
    pub fn copy(&self) -> Result<Sequence<T>, AllocError>
        ensures { IfOk result (λ sequence. sequence ≡ self.now) }
    {
        Ok(Sequence {
            len: self.len,
            row: self.row.copy()?,
        })
    }
}

impl<T: Share> Sequence<T> {
    /// The sequence with another item at a place. It shares all trees of items but those on the way to the place, and its
    /// own items on that way by [`Share`]. The time, and the number of blocks of memory, grow with the logarithm of the
    /// number of items. The error comes where memory ran out, and where what is shared has as many owners as can be
    /// counted. Then the item is dropped. The old sequence stays as it was in any case.
    pub fn set(&self, alloc: Global, place: usize, item: T) -> Result<Sequence<T>, AllocError>
        requires { place < length self.now }
        ensures { IfOk result (λ sequence. sequence ≡ set self.now place item) }
    {
        Ok(Sequence {
            len: self.len,
            row: self.row.set(alloc, self.len, place, item)?,
        })
    }
}
