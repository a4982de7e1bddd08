//! What a column has.
ghost use Rattle.std.specs.Prelude.{◌≡◌};
ghost use Rattle.fw_dialect.specs.Fields.{gcp_role, role_of};

use crate::dialect::Dialect;

/// What a column has.
#[derive(Clone, Copy, Debug, Drop, PartialEq, Eq)]
pub(crate) enum Role {
    /// Times.
    Time,
    /// Tags.
    Tags,
    /// Something that has no form of its own in the dialect.
    Other,
}

impl Role {
    /// What the column of a name has.
    pub(crate) fn of(dialect: Dialect, name: &[u8]) -> Role
        ensures { result ≡ role_of dialect name.now }
    {
        match dialect {
            Dialect::Gcp => gcp_role(name),
        }
    }
}

/// What the column of a name has in the dialect of Google.
#[tactic(auto, unfolding(crate::specs::Fields::gcp_role))]
pub(crate) fn gcp_role(name: &[u8]) -> Role
    ensures { result ≡ gcp_role name.now }
{
    if name == "ChargePeriodStart".as_bytes() || name == "ChargePeriodEnd".as_bytes() {
        Role::Time
    } else if name == "Tags".as_bytes() {
        Role::Tags
    } else {
        Role::Other
    }
}
