//! What a record says of its row, but its tags.
ghost use Rattle.std.specs.Prelude.{◌≡◌, option_copied};
ghost use Rattle.fw_row_table.specs.Lending.{discount_with};
ghost use Rattle.fw_rows.specs.Judged.{Judged};
ghost use Rattle.fw_rows.specs.Parts.{texts_of, discount_text};
ghost use Rattle.fw_rows.specs.Rules.{not_null};
ghost use Rattle.fw_column_rows.specs.Views.{view_rules, ViewStands};

use fw_charge::{Currency, DiscountKind, DiscountStatus};
use fw_columns::RowView;
use fw_rows::{Cells, Column, NamedDiscount, PeriodReaders, RecordFault};

/// The values of the row that a record stands for, with its texts where they stand in the record, or the first rule that is broken, but those of tags and
/// of lengths.
pub(crate) fn view_of<'a>(
    cells: &Cells<'a>,
    currency: Currency,
    periods: &mut PeriodReaders,
) -> Result<RowView<'a>, RecordFault>
    ensures { let at = texts_of cells.now
        in Judged (view_rules currency at) (ViewStands at) result }
{
    let charged = cells.charged(currency, periods)?;
    let discount = cells.discount()?;
    let quantity = cells.quantity()?;
    let (discount, kind, status) = discount_parts(discount);
    Ok(RowView {
        billed: charged.costs.billed,
        effective: charged.costs.effective,
        category: charged.words.category,
        is_correction: charged.words.is_correction,
        start: charged.period.start,
        end: charged.period.end,
        discount,
        kind,
        status,
        quantity,
        unit: text_or_null(cells.text(Column::ConsumedUnit)),
        sku: text_or_null(cells.text(Column::SkuId)),
        sub_account: text_or_null(cells.text(Column::SubAccountId)),
    })
}

/// The id, the kind and the status of a discount. Where there is none, any kind will do.
fn discount_parts(
    named: Option<NamedDiscount<'_>>,
) -> (Option<&str>, DiscountKind, Option<DiscountStatus>)
    ensures { discount_with result.0 result.1 result.2 ≡ discount_text named.entry }
{
    match named {
        Some(named) => (Some(named.id), named.kind, named.status),
        None => (None, DiscountKind::Usage, None),
    }
}

/// A text that is null where it is empty.
#[tactic(auto, unfolding(fw_rows::specs::Rules::not_null))]
fn text_or_null(text: &str) -> Option<&str>
    ensures { option_copied result ≡ not_null text.now }
{
    if text.is_empty() {
        return None;
    }
    Some(text)
}
