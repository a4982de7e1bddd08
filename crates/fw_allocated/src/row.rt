//! The row that a line is exported as.
ghost use Rattle.std.specs.Prelude.{◌≡◌, option_copied};
ghost use Rattle.fw_allocated.specs.Exported.{exported};

use fw_amortise::{Line, LineDiscount};
use fw_charge::{Category, SECONDS_PER_HOUR};
use fw_money::Nanos;
use fw_row_table::{LentRow, LentTags};
use std::marker::Model;

/// The fields of an exported row. An `Option` is `None` where the column is null.
#[derive(Clone, Copy, Debug, Drop)]
pub(crate) struct ExportedFields<'a> {
    /// BilledCost, in nanos.
    pub(crate) billed: Nanos,
    /// EffectiveCost, in nanos.
    pub(crate) effective: Nanos,
    /// ChargeCategory.
    pub(crate) category: Category,
    /// ChargeClass: whether the row corrects a charge of an earlier billing period.
    pub(crate) is_correction: bool,
    /// ChargePeriodStart: the first second of the charge period, counted from 1970.
    pub(crate) start: u64,
    /// ChargePeriodEnd: the second after the charge period, counted from 1970.
    pub(crate) end: u64,
    /// The commitment discount that the row belongs to.
    pub(crate) discount: Option<LineDiscount<'a>>,
    /// ConsumedQuantity, in nanos of its unit.
    pub(crate) quantity: Option<Nanos>,
    /// ConsumedUnit.
    pub(crate) unit: Option<&'a str>,
    /// SkuId.
    pub(crate) sku: Option<&'a str>,
    /// SubAccountId.
    pub(crate) sub_account: Option<&'a str>,
    /// Tags.
    pub(crate) tags: LentTags<'a>,
}

/// The row that a line is exported as. Its texts and tags are lent by the line.
#[derive(Debug, Drop)]
pub(crate) struct ExportedRow<'a> {
    fields: ExportedFields<'a>,
}

impl<'a> Model for ExportedRow<'a> {
    ghost use Rattle.fw_charge.specs.Charge.{Charge};

    ghost Value = { Charge };

    ghost use Rattle.fw_allocated.specs.RowView.{charge_of};

    ghost view = { λ row. charge_of row.fields };
}

impl<'a> ExportedRow<'a> {
    ghost use Rattle.fw_allocated.specs.RowView.{charge_of};

    /// The fields of the row.
    pub(crate) fn fields(&self) -> &ExportedFields<'a>
        ensures { charge_of result.now ≡ self.now }
    {
        &self.fields
    }
}

/// The row that a line is exported as, where it is of this row, or of none.
pub(crate) fn exported<'a>(row: Option<&LentRow<'a>>, line: &Line<'a>) -> ExportedRow<'a>
    ensures { result ≡ exported (option_copied row.entry) line.now }
{
    match row {
        Some(row) => exported_part(row, line),
        None => exported_hour(line),
    }
}

// The row that a line of a row is exported as.
#[tactic(auto, unfolding(crate::specs::Exported::exported))]
fn exported_part<'a>(row: &LentRow<'a>, line: &Line<'a>) -> ExportedRow<'a>
    ensures { result ≡ exported (Some row.now) line.now }
{
    ExportedRow {
        fields: ExportedFields {
            billed: line.billed(),
            effective: line.effective(),
            category: line.category(),
            is_correction: row.is_correction(),
            start: row.start(),
            end: row.end(),
            discount: line.commitment(),
            quantity: line.quantity(),
            unit: row.unit(),
            sku: line.sku(),
            sub_account: line.sub_account(),
            tags: line.tags(),
        },
    }
}

// The row that a line of no row is exported as.
#[tactic(auto, unfolding(crate::specs::Exported::exported))]
fn exported_hour<'a>(line: &Line<'a>) -> ExportedRow<'a>
    ensures { result ≡ exported None line.now }
{
    let hour = u64::from(line.hour());
    ExportedRow {
        fields: ExportedFields {
            billed: line.billed(),
            effective: line.effective(),
            category: line.category(),
            is_correction: false,
            start: hour * SECONDS_PER_HOUR,
            end: (hour + 1) * SECONDS_PER_HOUR,
            discount: line.commitment(),
            quantity: line.quantity(),
            unit: None,
            sku: line.sku(),
            sub_account: line.sub_account(),
            tags: line.tags(),
        },
    }
}
