//! Lists that are packed into one buffer.
ghost use Rattle.std.specs.Prelude.{◌≡◌, ◌<◌, ◌≤◌, ◌++◌, [], ◌∷◌, Some, length, position, slice_get, IfOk};
ghost use Rattle.std.specs.Cmp.Lexicographic.{pointwise};
ghost use Rattle.fw_row_table.specs.Packed.{start_of};

use std::alloc::{AllocError, Global};
use std::marker::Model;

/// Lists one behind the other in one buffer, and where each ends: a list takes 4 bytes beside its values.
///
/// A contract sees the list of these lists.
#[derive(Debug)]
pub struct Packed<T> {
    values: Vec<T>,
    ends: Vec<u32>,
}

impl<T: Drop> Drop for Packed<T> {
    fn drop(self) {
        let Self { values: _, ends: _ } = self;
    }
}

impl<T> Model for Packed<T> {
    ghost use Rattle.std.specs.Prelude.{List, length};
    ghost use Rattle.fw_row_table.specs.Packed.{pieces, AreEnds};

    ghost Value = { List (List T) };

    ghost view = { λ p. pieces 0 p.values.items p.ends.items };

    ghost invariant = { λ p. AreEnds 0 (length p.values.items) p.ends.items };
}

impl<T> Packed<T> {
    /// No list. It takes no memory.
    #[tactic(auto, unfolding(crate::specs::Packed::pieces, crate::specs::Packed::AreEnds))]
    pub fn new(alloc: Global) -> Packed<T>
        ensures { result ≡ [] }
    {
        Packed {
            values: Vec::new(alloc),
            ends: Vec::new(alloc),
        }
    }

    /// How many lists there are.
    pub fn len(&self) -> usize
        ensures { result ≡ length self.now }
    {
        self.ends.len()
    }

    /// The list at a place.
    pub fn list(&self, place: usize) -> &[T]
        requires { place < length self.now }
        ensures { slice_get self.now place ≡ Some result.now }
    {
        let ends = self.ends.as_slice();
        let values = self.values.as_slice();
        let start = start_of(ends, place);
        let end = ends[place] as usize;
        &values[start..end]
    }
}

impl<T: Copy> Packed<T> {
    /// The same lists again.
    pub fn copy(&self, alloc: Global) -> Result<Packed<T>, AllocError>
        ensures { IfOk result (λ copy. copy ≡ self.now) }
    {
        let values = Vec::from_slice(alloc, self.values.as_slice())?;
        let ends = Vec::from_slice(alloc, self.ends.as_slice())?;
        Ok(Packed { values, ends })
    }

    /// The lists and one more. The error comes where memory is refused, and where the values are more than a `u32`
    /// counts.
    pub fn with(self, list: &[T]) -> Result<Packed<T>, AllocError>
        ensures { IfOk result (λ more. more ≡ self ++ list.now ∷ []) }
    {
        let Self {
            mut values,
            mut ends,
        } = self;
        values.extend_from_slice(list)?;
        let Ok(end) = u32::try_from(values.len()) else {
            return Err(AllocError);
        };
        ends.push(end)?;
        Ok(Packed { values, ends })
    }

    /// Gives back the memory that no list needs.
    pub fn shrink(&mut self)
        ensures { self.new ≡ self.old }
    {
        self.values.shrink_to_fit();
        self.ends.shrink_to_fit();
    }
}

impl<T: Copy + Eq> Packed<T> {
    /// The place of the first list that has these values. Each list is looked at in turn, its length before its values.
    pub fn position(&self, list: &[T]) -> Option<usize>
        ensures { result ≡ position (pointwise T.eq list.now) self.now }
    {
        for place in 0..self.len() {
            if list == self.list(place) {
                return Some(place);
            }
        }
        None
    }
}

/// Where the list at a place begins.
#[tactic(auto, unfolding(crate::specs::Packed::start_of))]
fn start_of(ends: &[u32], place: usize) -> usize
    requires { place ≤ length ends.now }
    ensures { result ≡ start_of 0 ends.now place }
{
    match place.checked_sub(1) {
        Some(before) => ends[before] as usize,
        None => 0,
    }
}
