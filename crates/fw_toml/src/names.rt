//! The names in a table.
ghost use Rattle.std.specs.Prelude.{◌↔◌, IsTrue, Contains, map};
ghost use Rattle.fw_toml.specs.Tree.{HasOnly, stated};

use toml::Table;

/// Whether a name is one of these.
fn is_among(name: &str, names: &[&str]) -> bool
    ensures { IsTrue result ↔ Contains (map (λ n. n.now) names.now) name.now }
{
    for known in names {
        if *known == name {
            return true;
        }
    }
    false
}

/// Whether each name in a table is one of these.
pub fn has_only(table: &Table, names: &[&str]) -> bool
    ensures { IsTrue result ↔ HasOnly (map (λ n. n.now) names.now) (stated table.now) }
{
    for name in table.keys() {
        if !is_among(name.as_str(), names) {
            return false;
        }
    }
    true
}
