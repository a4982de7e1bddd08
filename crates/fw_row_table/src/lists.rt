//! Lists of places that are numbered.
ghost use Rattle.std.specs.Prelude.{◌≡◌, ◌^◌, ◌<◌, ◌≤◌, ◌+◌, ◌++◌, [], Some, length, map, slice_get, vec_items, IfNone, IfOk, IfSome, OnOk};

use crate::hashed::Hashed;
use crate::packed::Packed;
use indexmap::IndexSet;
use std::alloc::{AllocError, Global};
use std::marker::Model;

/// Lists of places, each once, numbered from 0 in the order in which they were first seen. The number of a list is its code.
///
/// While lists come, they are kept in a hash table. [`Lists::shrink`] packs them into one buffer: a list then takes
/// 4 bytes beside its places, and looking one up takes a pass over all of them.
///
/// A contract sees the list of these lists in this order.
pub struct Lists {
    /// The first of the lists, packed.
    packed: Packed<u32>,
    /// The lists behind them, each with its hash.
    lists: IndexSet<Hashed<Vec<u32>>>,
}

impl Drop for Lists {
    fn drop(self) {
        let Self {
            packed: _,
            lists: _,
        } = self;
    }
}

impl Model for Lists {
    ghost use Rattle.std.specs.Prelude.{ℕ, ◌+◌, ◌++◌, ◌≤◌, ◌^◌, List, length, map, vec_items};

    ghost Value = { List (List ℕ) };

    ghost view = { λ l. l.packed ++ map vec_items l.lists.keys };

    ghost invariant = { λ l. length l.packed + length l.lists.keys ≤ 2 ^ 30 };
}

impl Lists {
    ghost use Rattle.fw_row_table.specs.Names.{place_of, with_text};

    /// No list yet. It takes no memory.
    pub fn new(alloc: Global) -> Lists
        ensures { result ≡ [] }
    {
        Lists {
            packed: Packed::new(alloc),
            lists: IndexSet::new(alloc),
        }
    }

    /// How many lists there are.
    pub fn len(&self) -> usize
        ensures count { result ≡ length self.now }
        ensures few { result ≤ 2 ^ 30 }
    {
        self.packed.len() + self.lists.len()
    }

    /// The code of a list. A list that is new is copied, and goes last.
    pub fn code(&mut self, list: &[u32]) -> Result<u32, AllocError>
        requires { length self.old < 2 ^ 30 }
        ensures lists { OnOk result (self.new ≡ with_text self.old list.now) }
        ensures place { IfOk result (λ code. code ≡ place_of self.new list.now) }
        ensures few { length self.new ≤ length self.old + 1 }
    {
        let hashed = Hashed::new(list);
        match self.known(&hashed) {
            Some(code) => Ok(code),
            None => {
                let place = self.len();
                let kept = Vec::from_slice(*self.lists.allocator(), list)?;
                self.lists.insert(hashed.with(kept))?;
                Ok(place as u32)
            }
        }
    }

    // The code of a list that is there.
    fn known(&self, list: &Hashed<&[u32]>) -> Option<u32>
        ensures place { IfSome result (λ code. code ≡ place_of self.now list.now.now) }
        ensures within { IfSome result (λ code. code < length self.now) }
        ensures new { IfNone result (place_of self.now list.now.now ≡ length self.now) }
    {
        if let Some(place) = self.packed.position(list.value()) {
            return Some(place as u32);
        }
        match self.lists.get_index_of(list) {
            Some(place) => Some((self.packed.len() + place) as u32),
            None => None,
        }
    }

    /// Packs the lists, and gives back the memory that none needs. They stay in the hash table where memory is refused
    /// for that, or where they have 2^32 places or more together.
    pub fn shrink(&mut self)
        ensures { self.new ≡ self.old }
    {
        if self.lists.is_empty() {
            return;
        }
        let alloc = *self.lists.allocator();
        match pack(alloc, &self.packed, self.lists.as_slice()) {
            Ok(packed) => {
                self.packed = packed;
                self.lists = IndexSet::new(alloc);
            }
            Err(_) => self.lists.shrink_to_fit(),
        }
    }

    /// The list of a code.
    pub fn list(&self, code: u32) -> &[u32]
        requires { code < length self.now }
        ensures { slice_get self.now code ≡ Some result.now }
    {
        let place = code as usize;
        let count = self.packed.len();
        if place < count {
            self.packed.list(place)
        } else {
            self.lists.as_slice()[place - count].value().as_slice()
        }
    }
}

// Packed lists and further ones, packed.
fn pack(
    alloc: Global,
    packed: &Packed<u32>,
    lists: &[Hashed<Vec<u32>>],
) -> Result<Packed<u32>, AllocError>
    ensures { IfOk result (λ all. all ≡ packed.now ++ map vec_items lists.now) }
{
    let mut all = packed.copy(alloc)?;
    for list in lists {
        all = all.with(list.value().as_slice())?;
    }
    all.shrink();
    Ok(all)
}
