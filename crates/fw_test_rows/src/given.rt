//! What the tests are given.
use fw_commitment::{CommitmentFault, read_commitment};
use fw_rows::{Currency, Row, read_rows};
use fw_terms::Commitment;
use std::alloc::{AllocError, Global};

/// The header of all texts of rows.
const HEADER: &str =
    "BilledCost,EffectiveCost,BillingCurrency,ChargeCategory,ChargeClass,ChargePeriodStart,ChargePeriodEnd,\
CommitmentDiscountId,CommitmentDiscountCategory,CommitmentDiscountStatus,\
ConsumedQuantity,ConsumedUnit,SkuId,SubAccountId,Tags\n";

/// The first hour of 2024.
pub(crate) const HOUR: u32 = 473_352;

/// Rows and commitments.
#[derive(Drop)]
pub(crate) struct Given {
    pub(crate) commitments: Vec<Commitment>,
    pub(crate) rows: Vec<Row>,
}

/// The dollar.
fn dollar() -> Result<Currency, AllocError> {
    Currency::new(b"USD").ok_or(AllocError)
}

/// The rows of these records.
pub(crate) fn rows(alloc: Global, records: &str) -> Result<Vec<Row>, AllocError> {
    let text = format!(in alloc; "{HEADER}{records}")?;
    read_rows(alloc, text.as_bytes(), dollar()?).or(Err(AllocError))
}

/// The commitments of these texts.
fn commitments(alloc: Global, texts: &[&str]) -> Result<Vec<Commitment>, CommitmentFault> {
    let mut commitments = Vec::new(alloc);
    for text in texts {
        commitments.push(read_commitment(alloc, text.as_bytes())?)?;
    }
    Ok(commitments)
}

/// The commitments of these texts and the rows of these records.
pub(crate) fn read(alloc: Global, texts: &[&str], records: &str) -> Result<Box<Given>, AllocError> {
    let commitments = commitments(alloc, texts).or(Err(AllocError))?;
    beside(alloc, commitments, rows(alloc, records))
}

/// These commitments and rows.
fn beside(
    alloc: Global,
    commitments: Vec<Commitment>,
    rows: Result<Vec<Row>, AllocError>,
) -> Result<Box<Given>, AllocError> {
    let rows = rows?;
    Ok(Box::new(alloc, Given { commitments, rows })?)
}
