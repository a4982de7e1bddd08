//! How many bytes lent rows have where they are written, and that each has a spelling.
ghost use Rattle.std.specs.Prelude.{◌≡◌, ◌≤◌, ◌*◌, length, All};
ghost use Rattle.std.specs.List.{flat_map};
ghost use Rattle.fw_charge.specs.Charge.{IsCharge};
ghost use Rattle.fw_charge.specs.Tags.{IsTagSized, longest_tag_text, most_tags};
ghost use Rattle.fw_charge.specs.Spelling.{consumed, discount, row, tag, FitsDiscount, FitsTag, FitsTagText, IsRow};
ghost use Rattle.fw_bytes.specs.Spelling.{text, FitsOptional};
ghost use Rattle.fw_row_table.specs.Lending.{tag_lent, tags_lent, IsTextTag};

use crate::lending::{LentRow, LentTag, LentTags};
use fw_bytes::text_len;
use fw_charge::{
    nanos_has_spelling, optional_nanos_has_spelling, optional_text_has_spelling, optional_text_len,
    short_text_has_spelling,
};

/// How many bytes a key or a text of a tag has.
fn tag_text_len(words: &str) -> usize
    requires { length words.now ≤ longest_tag_text }
    ensures value { result ≡ length (text words.now) }
    ensures few { result ≤ 1028 }
    ensures valid { FitsTagText words.now }
{
    text_len(words)
}

/// How many bytes a tag has.
fn tag_len(one: LentTag<'_>) -> usize
    requires { IsTagSized (tag_lent one) }
    ensures value { result ≡ length (tag (tag_lent one.entry)) }
    ensures few { result ≤ 2056 }
    ensures valid { FitsTag (tag_lent one.entry) }
{
    tag_text_len(one.key) + tag_text_len(one.value)
}

/// How many bytes tags have, without their number.
pub(crate) fn tags_len(all: LentTags<'_>) -> usize
    requires few { length (tags_lent all) ≤ most_tags }
    requires sized { All IsTagSized (tags_lent all) }
    ensures value { result ≡ length (flat_map tag (tags_lent all.entry)) }
    ensures few { result ≤ 2056 * length (tags_lent all.entry) }
    ensures valid { All FitsTag (tags_lent all.entry) }
{
    match all.split_first() {
        Some((first, rest)) => tag_len(first) + tags_len(rest),
        None => 0,
    }
}

/// How many bytes a discount has: its id, its kind and its status.
#[tactic(auto, unfolding(fw_charge::specs::Spelling::discount))]
fn discount_len(one: &LentRow<'_>) -> usize
    ensures value { result ≡ length (discount one.now.discount) }
    ensures few { result ≤ 263 }
    ensures valid { FitsOptional FitsDiscount one.now.discount }
{
    match one.discount() {
        None => 3,
        Some(discount) => {
            short_text_has_spelling(discount.id);
            3 + text_len(discount.id)
        }
    }
}

/// How many bytes quantity, unit, SKU and sub-account have.
#[tactic(auto, unfolding(fw_charge::specs::Spelling::consumed))]
fn consumed_len(one: &LentRow<'_>) -> usize
    ensures value { result ≡ length (consumed one.now) }
    ensures few { result ≤ 792 }
{
    // Proves that the texts are short.
    let _start = one.start();
    let quantity = match one.quantity() {
        None => 1,
        Some(_) => 9,
    };
    let unit = optional_text_len(one.unit());
    let sku = optional_text_len(one.sku());
    let sub_account = optional_text_len(one.sub_account());
    quantity + unit + sku + sub_account
}

impl<'a> LentRow<'a> {
    /// How many bytes the row has where it is written: fewer than 2^20. Each row has a spelling. It takes no memory.
    #[tactic(auto, unfolding(fw_charge::specs::Spelling::row, fw_charge::specs::Spelling::amounts, fw_charge::specs::Spelling::period))]
    pub fn encoded_len(&self) -> usize
        ensures value { result ≡ length (row self.now) }
        ensures few { result ≤ 527429 }
        ensures valid { IsRow self.now }
    {
        // Proves that the row keeps its rules.
        let _start = self.start();
        nanos_has_spelling(self.billed());
        nanos_has_spelling(self.effective());
        optional_nanos_has_spelling(self.quantity());
        optional_text_has_spelling(self.unit());
        optional_text_has_spelling(self.sku());
        optional_text_has_spelling(self.sub_account());
        38 + discount_len(self) + consumed_len(self) + tags_len(self.tags())
    }

    /// Proves that the row has a spelling, where its tags are text. It looks at no tag and takes no memory.
    pub fn has_spelling(&self)
        requires { All IsTextTag self.now.tags }
        ensures { IsRow self.now }
    {
        // Proves that the row keeps its rules.
        let _start = self.start();
        nanos_has_spelling(self.billed());
        nanos_has_spelling(self.effective());
        optional_nanos_has_spelling(self.quantity());
        // Proves that the discount has a spelling.
        let _discount = discount_len(self);
        optional_text_has_spelling(self.unit());
        optional_text_has_spelling(self.sku());
        optional_text_has_spelling(self.sub_account());
    }
}
