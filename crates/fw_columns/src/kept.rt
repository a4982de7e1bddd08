//! The columns as they are kept, for those who copy them.
ghost use Rattle.std.specs.Prelude.{◌≡◌, ◌<◌, ◌≤◌, ◌^◌, ◌/◌, Some, length, map, is_some, slice_get, All};
ghost use Rattle.fw_charge.specs.Tags.{longest_tag_text, most_tags};
ghost use Rattle.fw_row_table.specs.Codes.{text_code};
ghost use Rattle.fw_row_table.specs.Lists.{lists_of, tag_lists};
ghost use Rattle.fw_row_table.specs.Table.{id_kept, kind_kept, quantity_kept, status_kept};
ghost use Rattle.fw_row_table.specs.Texts.{names_of};

use crate::columns::Columns;

impl Columns {
    /// How many texts the rows have, each counted once. Each has at most 1,024 bytes.
    pub fn name_count(&self) -> usize
        ensures count { result ≡ length (names_of self.now) }
        ensures few { result ≤ 2 ^ 30 }
        ensures sized { All (λ text. length text ≤ longest_tag_text) (names_of self.now) }
    {
        self.table().names.len()
    }

    /// The second after each row's period, counted from 1970.
    pub fn ends(&self) -> &[u64]
        ensures { result.now ≡ map (λ c. c.end) self.now }
    {
        self.table().ends.as_slice()
    }

    /// CommitmentDiscountId of each row: 0 where it is null, else 1 more than its place in the names.
    pub fn discounts(&self) -> &[u32]
        ensures { result.now ≡ map (λ c. id_kept (names_of self.now) c.discount) self.now }
    {
        self.table().discounts.as_slice()
    }

    /// The code of the kind of each row's discount, as `DiscountKind::code` returns it, 0 where there is no discount.
    pub fn kinds(&self) -> &[u8]
        ensures { result.now ≡ map (λ c. kind_kept c.discount) self.now }
    {
        self.table().kinds.as_slice()
    }

    /// The code of the status of each row's discount, as `DiscountStatus::code` returns it, 0 where it is null or there is no discount.
    pub fn statuses(&self) -> &[u8]
        ensures { result.now ≡ map (λ c. status_kept c.discount) self.now }
    {
        self.table().statuses.as_slice()
    }

    /// ConsumedQuantity of each row, in nanos of its unit, 0 where it is null.
    pub fn quantities(&self) -> &[i64]
        ensures { result.now ≡ map (λ c. quantity_kept c.quantity) self.now }
    {
        self.table().quantities.as_slice()
    }

    /// Whether each row has a ConsumedQuantity.
    pub fn has_quantity(&self) -> &[bool]
        ensures { result.now ≡ map (λ c. is_some c.quantity) self.now }
    {
        self.table().has_quantity.as_slice()
    }

    /// ConsumedUnit of each row: 0 where it is null, else 1 more than its place in the names.
    pub fn units(&self) -> &[u32]
        ensures { result.now ≡ map (λ c. text_code (names_of self.now) c.unit) self.now }
    {
        self.table().units.as_slice()
    }

    /// SkuId of each row: 0 where it is null, else 1 more than its place in the names.
    pub fn skus(&self) -> &[u32]
        ensures { result.now ≡ map (λ c. text_code (names_of self.now) c.sku) self.now }
    {
        self.table().skus.as_slice()
    }

    /// SubAccountId of each row: 0 where it is null, else 1 more than its place in the names.
    pub fn sub_accounts(&self) -> &[u32]
        ensures { result.now ≡ map (λ c. text_code (names_of self.now) c.sub_account) self.now }
    {
        self.table().sub_accounts.as_slice()
    }

    /// The tags of the row at a place, counted from 0: the place of each key in the names, and behind it that of its value.
    pub fn tag_places(&self, place: usize) -> &[u32]
        requires { place < length self.now }
        ensures places { slice_get (lists_of (names_of self.now) self.now) place ≡ Some result.now }
        ensures within { All (λ one. one < length (names_of self.now)) result.now }
        ensures few { length result.now / 2 ≤ most_tags }
    {
        let kept = self.table();
        kept.lists.list(kept.tags[place])
    }

    /// The code of the tags of the row at a place, counted from 0: the number of their list among the lists that the tags of the rows are kept as, each once
    /// and in the order in which it is first seen. Rows with one code have the same tags.
    pub fn tag_list_code(&self, place: usize) -> u32
        requires { place < length self.now }
        ensures { slice_get (tag_lists self.now) result
            ≡ slice_get (lists_of (names_of self.now) self.now) place }
    {
        self.table().tags[place]
    }
}
