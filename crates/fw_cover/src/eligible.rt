//! Which rows commitments may cover.
ghost use Rattle.std.specs.Prelude.{◌≡◌};
ghost use Rattle.fw_cover.specs.Eligible.{is_eligible, is_open_use, is_measured, is_one_hour, is_positive};

use fw_charge::{Category, SECONDS_PER_HOUR};
use fw_money::Nanos;
use fw_row_table::LentRow;

#[tactic(auto, unfolding(crate::specs::Eligible::is_eligible))]
/// Whether commitments may cover a row: it is a use, belongs to no commitment yet, is no correction, has a period of exactly one clock
/// hour, a quantity above 0 and a SKU, and none of its costs is below 0.
pub fn is_eligible(row: &LentRow<'_>) -> bool
    ensures { result ≡ is_eligible row.now }
{
    is_open_use(row) && is_measured(row)
}

/// Whether a row is a use of exactly one clock hour that belongs to no commitment yet and is no correction.
fn is_open_use(row: &LentRow<'_>) -> bool
    ensures { result ≡ is_open_use row.now }
{
    row.category() == Category::Usage
        && row.discount().is_none()
        && !row.is_correction()
        && is_one_hour(row)
}

/// Whether a row has a quantity above 0 and a SKU, and no cost below 0.
fn is_measured(row: &LentRow<'_>) -> bool
    ensures { result ≡ is_measured row.now }
{
    is_positive(row.quantity())
        && row.billed().count() >= 0
        && row.effective().count() >= 0
        && row.sku().is_some()
}

/// Whether a row's period is exactly one clock hour.
fn is_one_hour(row: &LentRow<'_>) -> bool
    ensures { result ≡ is_one_hour row.now.start row.now.end }
{
    let start = row.start();
    start % SECONDS_PER_HOUR == 0 && row.end() == start + SECONDS_PER_HOUR
}

fn is_positive(quantity: Option<Nanos>) -> bool
    ensures { result ≡ is_positive quantity }
{
    match quantity {
        Some(quantity) => quantity.count() > 0,
        None => false,
    }
}
