//! Whether rows fit into a warehouse.
ghost use Rattle.std.specs.Prelude.{◌≤◌, ◌+◌, ◌*◌, ◌-◌, ◌↔◌, ℕ, IsTrue};
ghost use Rattle.fw_snapshot.specs.Judging.{most_rows};

/// The most rows that are ever posted to a warehouse.
const MOST_ROWS: u64 = 4_194_304;

/// The fewest bytes of a record that is a row, with the one that ends it: two costs of a digit each, the three letters of a currency, `Tax`, two times of 12
/// bytes each, as `20240101T00Z`, and five commas.
pub const FEWEST_ROW_BYTES: u64 = 38;

/// Whether the rows of files of so many bytes surely fit behind those that were posted: each row has [`FEWEST_ROW_BYTES`] at least. Where they may
/// not, the records are to be counted.
pub fn surely_fits(posted: u64, bytes: u64) -> bool
    ensures { IsTrue result → (rows : ℕ) → rows * 38 ≤ bytes → posted + rows ≤ most_rows }
{
    let most = bytes / FEWEST_ROW_BYTES;
    posted <= MOST_ROWS && most <= MOST_ROWS - posted
}

/// Whether the rows of files fit behind those that were posted, `sent` of which are rows of these files.
pub fn fits(posted: u64, sent: u64, rows: u64) -> bool
    ensures { IsTrue result ↔ (posted + (rows - sent) ≤ most_rows) }
{
    let new = rows.saturating_sub(sent);
    posted <= MOST_ROWS && new <= MOST_ROWS - posted
}
