//! What columns hold in place of discounts and quantities.
ghost use Rattle.std.specs.Prelude.{Option, ◌≡◌, ◌≤◌, nat_abs};
ghost use Rattle.fw_money.specs.Amount.{most_nanos};
ghost use Rattle.fw_charge.specs.Codes.{status_code};
ghost use Rattle.fw_charge.specs.declared.discount.DiscountKind.{DiscountKind};
ghost use Rattle.fw_charge.specs.declared.discount.DiscountStatus.{DiscountStatus};
ghost use Rattle.fw_row_table.specs.Lending.{discount_with};
ghost use Rattle.fw_row_table.specs.Table.{kind_kept, status_kept, quantity_kept};

use fw_charge::{DiscountKind, DiscountStatus};
use fw_money::Nanos;

/// The code of a discount's kind, 0 where there is no discount.
#[tactic(auto, unfolding(fw_row_table::specs::Table::kind_kept))]
pub fn kind_kept(discount: Option<&str>, kind: DiscountKind) -> u8
    ensures { (status : Option DiscountStatus)
        → result ≡ kind_kept (discount_with discount.entry kind status) }
{
    match discount {
        Some(_) => kind.code(),
        None => 0,
    }
}

/// The code of a discount's status, 0 where it is null or there is no discount.
#[tactic(auto, unfolding(fw_row_table::specs::Table::status_kept))]
pub fn status_kept(discount: Option<&str>, status: Option<DiscountStatus>) -> u8
    ensures { (kind : DiscountKind) → result
        ≡ status_kept (discount_with discount.entry kind status) }
{
    match discount {
        Some(_) => status_code(status),
        None => 0,
    }
}

/// The code of a status, 0 where it is null.
#[tactic(auto, unfolding(fw_charge::specs::Codes::status_code))]
fn status_code(status: Option<DiscountStatus>) -> u8
    ensures { result ≡ status_code status }
{
    match status {
        Some(status) => status.code(),
        None => 0,
    }
}

/// The count of a quantity, 0 where it is null.
#[tactic(auto, unfolding(fw_row_table::specs::Table::quantity_kept))]
pub fn quantity_kept(quantity: Option<Nanos>) -> i64
    ensures value { result ≡ quantity_kept quantity }
    ensures in_range { nat_abs result ≤ most_nanos }
{
    match quantity {
        Some(quantity) => quantity.count(),
        None => 0,
    }
}
