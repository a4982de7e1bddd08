//! The table of a text.
ghost use Rattle.std.specs.Prelude.{◌≡◌, MatchResult};
ghost use Rattle.toml.specs.Data.{Members};
ghost use Rattle.fw_toml.specs.Tree.{IsTable, stated};

use std::alloc::Global;
use toml::Table;

/// Why a text has no table.
#[derive(Clone, Copy, Debug, Drop, PartialEq, Eq)]
pub enum TableFault {
    /// The text is not UTF-8, or no TOML document.
    Syntax,
    /// Memory ran out.
    NoMemory,
}

/// The table of a TOML text. A table holds its members in byte order of their names.
///
/// `Syntax` comes exactly where the text is not UTF-8 or no TOML document; `NoMemory` where memory runs out.
pub fn table_of(alloc: Global, text: &[u8]) -> Result<Table, TableFault>
    ensures { MatchResult result (λ table. IsTable text.now (stated table))
        (λ fault. fault ≡ TableFault.Syntax → (ms : Members) → ¬ IsTable text.now ms) }
{
    let Ok(text) = str::from_utf8(text) else {
        return Err(TableFault::Syntax);
    };
    match toml::table_from_str(alloc, text) {
        Ok(table) => Ok(table),
        Err(fault) => {
            if fault.is_memory() {
                Err(TableFault::NoMemory)
            } else {
                Err(TableFault::Syntax)
            }
        }
    }
}
