//! The columns of rows.
ghost use Rattle.std.specs.Prelude.{◌≡◌, List, []};
ghost use Rattle.fw_charge.specs.Charge.{Charge};
ghost use Rattle.fw_row_table.specs.Table.{AreColumns, rows_of};

use crate::lists::Lists;
use crate::names::Names;
use std::alloc::Global;

/// The columns of rows, one value a row in each: 65 bytes a row, beside the texts and the lists of tags, each of which
/// is kept once, in hash tables while rows come, and packed by [`Table::shrink`]. A text that may be null is its code:
/// 0 where it is null, else 1 more than its place in the names.
pub struct Table {
    /// The texts of the rows, each once.
    pub names: Names,
    /// The lists of tags of the rows, each once: the place of each key in the names, and behind it that of its value.
    pub lists: Lists,
    /// The billed costs, in nanos.
    pub billed: Vec<i64>,
    /// The effective costs, in nanos.
    pub effective: Vec<i64>,
    /// The codes of the categories.
    pub categories: Vec<u8>,
    /// The codes of the classes.
    pub classes: Vec<u8>,
    /// The first seconds of the periods, counted from 1970.
    pub starts: Vec<i64>,
    /// The seconds after the periods, counted from 1970.
    pub ends: Vec<u64>,
    /// The ids of the commitment discounts, null where there is none.
    pub discounts: Vec<u32>,
    /// The codes of the kinds of the commitment discounts, 0 where there is none.
    pub kinds: Vec<u8>,
    /// The codes of the statuses of the commitment discounts, 0 where it is null or there is none.
    pub statuses: Vec<u8>,
    /// The consumed quantities in nanos, 0 where it is null.
    pub quantities: Vec<i64>,
    /// Whether the consumed quantities are there.
    pub has_quantity: Vec<bool>,
    /// The units.
    pub units: Vec<u32>,
    /// The SKUs.
    pub skus: Vec<u32>,
    /// The sub-accounts.
    pub sub_accounts: Vec<u32>,
    /// The tags: the place of the row's list among the lists.
    pub tags: Vec<u32>,
}

impl Drop for Table {
    fn drop(self) {
        let Self {
            names: _,
            lists: _,
            billed: _,
            effective: _,
            categories: _,
            classes: _,
            starts: _,
            ends: _,
            discounts: _,
            kinds: _,
            statuses: _,
            quantities: _,
            has_quantity: _,
            units: _,
            skus: _,
            sub_accounts: _,
            tags: _,
        } = self;
    }
}

impl Table {
    /// The columns of no rows. They take no memory.
    pub fn empty(alloc: Global) -> Table
        ensures columns { AreColumns result [] }
        ensures none { rows_of result ≡ [] }
    {
        Table {
            names: Names::new(alloc),
            lists: Lists::new(alloc),
            billed: Vec::new(alloc),
            effective: Vec::new(alloc),
            categories: Vec::new(alloc),
            classes: Vec::new(alloc),
            starts: Vec::new(alloc),
            ends: Vec::new(alloc),
            discounts: Vec::new(alloc),
            kinds: Vec::new(alloc),
            statuses: Vec::new(alloc),
            quantities: Vec::new(alloc),
            has_quantity: Vec::new(alloc),
            units: Vec::new(alloc),
            skus: Vec::new(alloc),
            sub_accounts: Vec::new(alloc),
            tags: Vec::new(alloc),
        }
    }

    /// Gives back the memory that no value needs, and packs the texts and the lists of tags: from then on each takes 4
    /// bytes beside its own, and looking one up takes a pass over all of them. The columns stay as they are. Where
    /// memory is refused for the packing, texts and lists stay in hash tables.
    pub fn shrink(&mut self)
        ensures { (rows : List Charge) → AreColumns self.old rows → AreColumns self.new rows }
    {
        self.billed.shrink_to_fit();
        self.effective.shrink_to_fit();
        self.categories.shrink_to_fit();
        self.classes.shrink_to_fit();
        self.starts.shrink_to_fit();
        self.ends.shrink_to_fit();
        self.discounts.shrink_to_fit();
        self.kinds.shrink_to_fit();
        self.statuses.shrink_to_fit();
        self.quantities.shrink_to_fit();
        self.has_quantity.shrink_to_fit();
        self.units.shrink_to_fit();
        self.skus.shrink_to_fit();
        self.sub_accounts.shrink_to_fit();
        self.tags.shrink_to_fit();
        self.names.shrink();
        self.lists.shrink();
    }
}
