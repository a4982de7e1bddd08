//! What the tests are given.
use fw_rows::{Currency, Row, read_rows};
use std::alloc::{AllocError, Global};

/// The header of all texts of rows.
const HEADER: &str =
    "BilledCost,EffectiveCost,BillingCurrency,ChargeCategory,ChargeClass,ChargePeriodStart,ChargePeriodEnd,\
CommitmentDiscountId,CommitmentDiscountCategory,CommitmentDiscountStatus,\
ConsumedQuantity,ConsumedUnit,SkuId,SubAccountId,Tags\n";

/// The dollar.
pub(crate) fn dollar() -> Result<Currency, AllocError> {
    Currency::new(b"USD").ok_or(AllocError)
}

/// The rows of these records.
pub(crate) fn rows(alloc: Global, records: &str) -> Result<Vec<Row>, AllocError> {
    let text = format!(in alloc; "{HEADER}{records}")?;
    read_rows(alloc, text.as_bytes(), dollar()?).or(Err(AllocError))
}
