//! The codes of rows under a source.
ghost use Rattle.std.specs.Prelude.{◌≡◌, IfOk};
ghost use Rattle.fw_select.specs.Rows.{AgreeOn};
ghost use Rattle.fw_select.specs.declared.key.Source.TheVariants as source;

use crate::key::{Column, Source};
use fw_columns::Columns;
use std::alloc::{AllocError, Global};

// A code for each row of a segment: rows with one code have one text under a source. Each text is looked at once, however many rows have it.
pub(crate) fn codes_of(
    alloc: Global,
    segment: &Columns,
    source: Source<'_>,
) -> Result<Vec<u32>, AllocError>
    ensures { IfOk result (λ codes. AgreeOn source.entry segment.now codes.items) }
{
    match source {
        Source::Tag(key) => codes_of_tag(segment, key),
        Source::Column(column) => codes_of_column(alloc, segment, column),
    }
}

// The codes of the groups of rows under a tag.
fn codes_of_tag(segment: &Columns, key: &str) -> Result<Vec<u32>, AllocError>
    ensures { IfOk result (λ codes. AgreeOn (source.Tag key.entry) segment.now codes.items) }
{
    let codes = segment.tag_codes(key)?;
    Ok(codes)
}

// The codes of rows in a column.
fn codes_of_column(alloc: Global, segment: &Columns, column: Column) -> Result<Vec<u32>, AllocError>
    ensures { IfOk result (λ codes. AgreeOn (source.Column column) segment.now codes.items) }
{
    match column {
        Column::SkuId => copied(alloc, segment.skus()),
        Column::SubAccountId => copied(alloc, segment.sub_accounts()),
        Column::ChargeCategory => widened(alloc, segment.categories()),
        Column::CommitmentDiscountId => copied(alloc, segment.discount_codes()),
        Column::CommitmentDiscountStatus => widened(alloc, segment.statuses()),
    }
}

// A copy of codes.
fn copied(alloc: Global, codes: &[u32]) -> Result<Vec<u32>, AllocError>
    ensures { IfOk result (λ copy. copy.items ≡ codes.now) }
{
    Ok(codes.to_vec(alloc)?)
}

// Codes of one byte as wider ones.
fn widened(alloc: Global, codes: &[u8]) -> Result<Vec<u32>, AllocError>
    ensures { IfOk result (λ wide. wide.items ≡ codes.now) }
{
    let mut wide = Vec::with_capacity(alloc, codes.len())?;
    for code in codes {
        wide.push(u32::from(*code))?;
    }
    Ok(wide)
}
