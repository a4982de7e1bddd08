//! What parts of a row cost at the row's own prices.
ghost use Rattle.std.specs.Prelude.{◌≡◌, ◌≤◌, ◌^◌, pos};
ghost use Rattle.fw_cover.specs.Hour.{quantity_of};
ghost use Rattle.fw_finops.specs.Prices.{cost_of_left, taken_cost};

use fw_amortise::quantity_of;
use fw_cover::in_proportion;
use fw_money::Nanos;
use fw_row_table::LentRow;

// The part of a cost of a row that falls to so much of its quantity, rounded down; nothing of a row without a quantity.
#[tactic(auto, unfolding(crate::specs::Prices::cost_of_left))]
fn cost_of_left(row: &LentRow<'_>, cost: Nanos, left: u64) -> u64
    requires { left ≤ quantity_of row.now }
    ensures value { result ≡ cost_of_left cost row.now left }
    ensures bound { result ≤ 10 ^ 17 }
{
    let quantity = quantity_of(row);
    if quantity == 0 {
        return 0;
    }
    in_proportion(cost.count().unsigned_abs(), quantity, left)
}

/// What was taken of a row costs what was left of it before, less what is left of it after.
#[tactic(auto, unfolding(crate::specs::Prices::taken_cost))]
pub(crate) fn taken_cost(row: &LentRow<'_>, cost: Nanos, before: u64, after: u64) -> Nanos
    requires before { before ≤ quantity_of row.now }
    requires after { after ≤ before }
    ensures { result ≡ pos (taken_cost cost row.now before after) }
{
    let whole = cost_of_left(row, cost, before);
    let rest = cost_of_left(row, cost, after);
    Nanos::of_fields(whole.saturating_sub(rest) as i64)
}
