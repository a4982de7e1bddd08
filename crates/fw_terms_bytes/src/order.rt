//! The order of lists whose items have a name each.
ghost use Rattle.std.specs.Prelude.{◌≡◌, ℕ, List, map, string_bytes};
ghost use Rattle.fw_bytes.specs.Order.{rise, rise_from};

use fw_terms::{Rate, Target};

/// What has a name, by which lists of it are ordered.
pub(crate) trait HasName {
    ghost name_of: { Self → List ℕ };

    /// The name.
    fn name(&self) -> &str
        ensures { result.now ≡ name_of self.now };
}

impl HasName for String {
    ghost name_of = { string_bytes };

    fn name(&self) -> &str {
        self.as_str()
    }
}

impl HasName for Rate {
    ghost name_of = { λ r. r.sku };

    fn name(&self) -> &str {
        self.sku()
    }
}

impl HasName for Target {
    ghost name_of = { λ t. t.group };

    fn name(&self) -> &str {
        self.group()
    }
}

/// Whether each name is above the one before it in the order of their bytes, the first above `last`.
fn names_rise_from<T: HasName>(last: &str, items: &[T]) -> bool
    ensures { result ≡ rise_from last.now (map T.name_of items.now) }
{
    let mut last = last;
    for item in items {
        if last >= item.name() {
            return false;
        }
        last = item.name();
    }
    true
}

/// Whether each name is above the one before it in the order of their bytes.
pub(crate) fn names_rise<T: HasName>(items: &[T]) -> bool
    ensures { result ≡ rise (map T.name_of items.now) }
{
    match items {
        [] => true,
        [first, rest @ ..] => names_rise_from(first.name(), rest),
    }
}
