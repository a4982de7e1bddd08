//! Which dialect an export may have.
ghost use Rattle.std.specs.Prelude.{◌≡◌, if◌then◌else◌, Some, None};
ghost use Rattle.fw_dialect.specs.Fields.{gcp_role, looks_like};
ghost use Rattle.fw_dialect.specs.declared.dialect.Dialect.TheVariants.{Gcp};

use crate::dialect::Dialect;
use crate::role::{Role, gcp_role};

// Whether a value of a column looks like one of the dialect of Google.
fn looks_like(role: Role, value: &str) -> bool
    ensures { result ≡ looks_like role value.now }
{
    match role {
        Role::Time => value.as_bytes().ends_with(" UTC".as_bytes()),
        Role::Tags => value.as_bytes().starts_with("[".as_bytes()),
        Role::Other => false,
    }
}

/// The dialect that may read a value of a column, which is a fault without one: a time that ends in ` UTC`, or tags that begin with `[`. The value may
/// be the front of a longer one.
pub fn proposed(column: &str, value: &str) -> Option<Dialect>
    ensures { result ≡ (if looks_like (gcp_role column.now) value.now then Some Gcp else None) }
{
    if looks_like(gcp_role(column.as_bytes()), value) {
        Some(Dialect::Gcp)
    } else {
        None
    }
}
