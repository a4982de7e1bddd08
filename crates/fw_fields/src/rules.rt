//! Rules over several fields.
ghost use Rattle.std.specs.Prelude.{◌≡◌, map, option_copied, IsTrue};
ghost use Rattle.fw_bytes.specs.Order.{rise_from};
ghost use Rattle.fw_charge.specs.Spelling.{FitsTags, keys_rise};
ghost use Rattle.fw_fields.specs.Row.{discount_agrees};

use fw_charge::{Category, DiscountKind, DiscountStatus, Tag, Tags};

/// Whether the parts of a discount agree in a row of the category: a null id has neither kind nor status; an id has a kind, and in a usage row a
/// status. Takes no memory.
pub fn discount_agrees(
    category: Category,
    id: Option<&str>,
    kind: Option<DiscountKind>,
    status: Option<DiscountStatus>,
) -> bool
    ensures { result ≡ discount_agrees category (option_copied id.entry, (kind, status)) }
{
    match (id, kind, status) {
        (None, None, None) => true,
        (None, _, _) => false,
        (Some(_), None, _) => false,
        (Some(_), Some(_), Some(_)) => true,
        (Some(_), Some(_), None) => category != Category::Usage,
    }
}

/// Whether each key is above the one before it, the first above `last`.
fn rises_from(last: &str, tags: &[Tag]) -> bool
    ensures { result ≡ rise_from last.now (map (λ t. t.key) tags.now) }
{
    let mut last = last;
    for tag in tags {
        if last >= tag.key() {
            return false;
        }
        last = tag.key();
    }
    true
}

/// Whether the keys of tags rise strictly in the order of their bytes. Takes no memory.
pub fn keys_rise(tags: &[Tag]) -> bool
    ensures { result ≡ keys_rise tags.now }
{
    match tags {
        [] => true,
        [first, rest @ ..] => rises_from(first.key(), rest),
    }
}

/// Tags that were read, as [`Tags`]: their keys rise.
pub fn tags_in_order(items: Vec<Tag>) -> Tags
    requires within { FitsTags items.items }
    requires rising { IsTrue (keys_rise items.items) }
    ensures { result ≡ items.items }
{
    Tags::of_fields(items)
}
