//! The lists of places of rows.
ghost use Rattle.std.specs.Prelude.{◌≡◌, ◌<◌, ◌≤◌, ◌+◌, ◌^◌, ◌++◌, [], ◌∷◌, Some, length, slice_get, slice_index_or, IfOk, OnOk};
ghost use Rattle.fw_row_table.specs.Names.{place_of, with_text};
ghost use Rattle.fw_row_table.specs.Texts.{with_texts};
ghost use Rattle.fw_columns.specs.Parts.{AreNumbered, lists_there};

use fw_row_table::Lists;
use std::alloc::{AllocError, Global};
use std::marker::Model;

/// The tags of rows, each list of them once: the place of each key in the names, and behind it that of its value.
///
/// A contract sees the list of places of each row.
#[derive(Drop)]
pub struct RowLists {
    pub(crate) lists: Lists,
    pub(crate) places: Vec<u32>,
}

impl Model for RowLists {
    ghost use Rattle.std.specs.Prelude.{ℕ, ◌≤◌, List, length};
    ghost use Rattle.fw_columns.specs.Parts.{AreNumbered, lists_there};

    ghost Value = { List (List ℕ) };

    ghost view = { λ r. lists_there r.lists r.places.items };

    ghost invariant = { λ r. (length r.lists ≤ length r.places.items) × AreNumbered r.lists r.places.items (lists_there r.lists r.places.items) };
}

impl RowLists {
    /// The lists of no rows. They take no memory.
    pub fn new(alloc: Global) -> RowLists
        ensures { result ≡ [] }
    {
        RowLists {
            lists: Lists::new(alloc),
            places: Vec::new(alloc),
        }
    }

    /// Adds the list of one more row, and returns its code. It is copied where no row has it yet. Where memory is refused, no lists are left.
    pub fn push(&mut self, list: &[u32]) -> Result<u32, AllocError>
        requires { length self.old < 2 ^ 30 }
        ensures rows { OnOk result (self.new ≡ self.old ++ list.now ∷ []) }
        ensures code { IfOk result (λ code. slice_get (with_texts [] self.new) code
            ≡ Some list.now) }
    {
        match add_list(&mut self.lists, &mut self.places, list) {
            Ok(code) => Ok(code),
            Err(refused) => {
                self.lists = Lists::new(*self.places.allocator());
                self.places.clear();
                Err(refused)
            }
        }
    }

    /// Adds the list of one more row, which an earlier row has too: the one with this code. Where memory is refused, the lists stay as they are.
    pub fn push_again(&mut self, code: u32) -> Result<(), AllocError>
        requires { code < length (with_texts [] self.old) }
        ensures { OnOk result (self.new ≡ self.old
            ++ slice_index_or (with_texts [] self.old) code [] ∷ []) }
    {
        self.places.push(code)?;
        Ok(())
    }

    /// The lists, each once, and for each row the place of its list.
    pub fn split(self) -> (Lists, Vec<u32>)
        ensures few { length result.0 ≤ length result.1.items }
        ensures numbered { AreNumbered result.0 result.1.items self }
        ensures shown { lists_there result.0 result.1.items ≡ self }
    {
        (self.lists, self.places)
    }
}

/// Adds the place of a list, which is copied where it is new, and returns it.
fn add_list(lists: &mut Lists, places: &mut Vec<u32>, list: &[u32]) -> Result<u32, AllocError>
    requires { length lists.old < 2 ^ 30 }
    ensures lists { OnOk result (lists.new ≡ with_text lists.old list.now) }
    ensures places { OnOk result (places.new.items
        ≡ places.old.items ++ place_of lists.new list.now ∷ []) }
    ensures few { OnOk result (length lists.new ≤ length lists.old + 1) }
    ensures place { IfOk result (λ place. place ≡ place_of lists.new list.now) }
{
    let place = lists.code(list)?;
    places.push(place)?;
    Ok(place)
}
