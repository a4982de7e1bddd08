//! The rows that a commitment applies to, and why it doesn't apply to others of its SKUs.
ghost use Rattle.std.specs.Prelude.{◌≡◌};
ghost use Rattle.fw_cover.specs.Applies.{allows, has_unit, is_text};
ghost use Rattle.fw_terms.specs.TermsView.{terms_view};
ghost use Rattle.fw_adding.specs.Matching.{match_of};

use fw_columns::{Columns, LentRow};
use fw_cover::{is_eligible, is_in_term};
use fw_terms::{Commitment, Rate, Terms};
use indexmap::IndexMap;
use std::alloc::{AllocError, Global};

/// Whether a commitment applies to a row of a SKU that it lists, or the first reason why it doesn't.
#[derive(Clone, Copy, Debug, Drop, PartialEq, Eq)]
pub(crate) enum Match {
    /// It applies to the row.
    Applies,
    /// Commitments may not cover the row.
    NotEligible,
    /// The row is of an hour outside of the term.
    OutOfTerm,
    /// The row is of another sub-account.
    OtherAccount,
    /// The row is in another unit, or in none.
    OtherUnit,
}

/// How many rows of the SKUs that a commitment lists it applies to, and how many it doesn't apply to, each counted
/// under the first reason that holds: in the order of the fields.
pub struct Matches<'s> {
    /// It applies to them.
    pub applies: u64,
    /// Commitments may not cover them.
    pub not_eligible: u64,
    /// They are of hours outside of the term.
    pub out_of_term: u64,
    /// They are of another sub-account.
    pub other_account: u64,
    /// They have no unit.
    pub no_unit: u64,
    /// They are in another unit: how many in each, in the order in which these come.
    pub other_units: IndexMap<&'s str, u64>,
}

impl Drop for Matches<'_> {
    fn drop(self) {
        let Self {
            applies: _,
            not_eligible: _,
            out_of_term: _,
            other_account: _,
            no_unit: _,
            other_units: _,
        } = self;
    }
}

/// How many rows of segments a commitment applies to, and why not to others of its SKUs: of the rows that count, where
/// these are the segments that have them. It goes over the rows once, and takes memory for each segment and for each
/// unit, and none for a row. The error comes where memory ran out.
pub fn matches_of<'s>(
    alloc: Global,
    commitment: &Commitment,
    segments: &[&'s Columns],
) -> Result<Matches<'s>, AllocError> {
    let mut matches = Matches {
        applies: 0,
        not_eligible: 0,
        out_of_term: 0,
        other_account: 0,
        no_unit: 0,
        other_units: IndexMap::new(alloc),
    };
    for columns in segments {
        add_segment(alloc, commitment, columns, &mut matches)?;
    }
    Ok(matches)
}

// Counts the rows of a segment.
fn add_segment<'s>(
    alloc: Global,
    commitment: &Commitment,
    columns: &'s Columns,
    matches: &mut Matches<'s>,
) -> Result<(), AllocError> {
    let listed = listed_codes(alloc, commitment.terms(), columns)?;
    add_rows(commitment, columns, listed.as_slice(), matches)
}

// Counts the rows whose SKU is listed.
fn add_rows<'s>(
    commitment: &Commitment,
    columns: &'s Columns,
    listed: &[bool],
    matches: &mut Matches<'s>,
) -> Result<(), AllocError> {
    for (place, code) in columns.sku_codes().iter().enumerate() {
        if place < columns.len() && is_listed(listed, *code) {
            add_row(commitment, &columns.lent(place), matches)?;
        }
    }
    Ok(())
}

// Whether a SKU's code is listed.
fn is_listed(listed: &[bool], code: u32) -> bool {
    match listed.get(code as usize) {
        Some(is_listed) => *is_listed,
        None => false,
    }
}

// Of each code that a row's SKU may have in a segment, whether the terms list it.
fn listed_codes(alloc: Global, terms: &Terms, columns: &Columns) -> Result<Vec<bool>, AllocError> {
    let mut listed = vec![in alloc; false; columns.names().len() + 1]?;
    match terms {
        Terms::Usage { skus, .. } => mark_skus(columns, skus, listed.as_mut_slice()),
        Terms::Spend { rates } => mark_rates(columns, rates, listed.as_mut_slice()),
    }
    Ok(listed)
}

// Marks the codes of SKUs.
fn mark_skus(columns: &Columns, skus: &[String], listed: &mut [bool]) {
    for sku in skus {
        mark(columns, sku.as_str(), listed);
    }
}

// Marks the codes of the SKUs of rates.
fn mark_rates(columns: &Columns, rates: &[Rate], listed: &mut [bool]) {
    for rate in rates {
        mark(columns, rate.sku(), listed);
    }
}

// Marks the code of a SKU: 1 more than its place among the names. A SKU that isn't among them has a place behind them,
// and no code.
fn mark(columns: &Columns, sku: &str, listed: &mut [bool]) {
    let code = columns.names().place(sku) as usize + 1;
    if code < listed.len() {
        listed[code] = true;
    }
}

// Counts a row of a SKU that is listed.
fn add_row<'s>(
    commitment: &Commitment,
    row: &LentRow<'s>,
    matches: &mut Matches<'s>,
) -> Result<(), AllocError> {
    match match_of(commitment, row) {
        Match::Applies => matches.applies = matches.applies.saturating_add(1),
        Match::NotEligible => matches.not_eligible = matches.not_eligible.saturating_add(1),
        Match::OutOfTerm => matches.out_of_term = matches.out_of_term.saturating_add(1),
        Match::OtherAccount => matches.other_account = matches.other_account.saturating_add(1),
        Match::OtherUnit => add_unit(row.unit(), matches)?,
    }
    Ok(())
}

// Counts a row in another unit, or in none.
fn add_unit<'s>(unit: Option<&'s str>, matches: &mut Matches<'s>) -> Result<(), AllocError> {
    match unit {
        Some(unit) => {
            let before = matches.other_units.get(unit).copied().unwrap_or(0);
            matches.other_units.insert(unit, before.saturating_add(1))?;
        }
        None => matches.no_unit = matches.no_unit.saturating_add(1),
    }
    Ok(())
}

// Whether a commitment applies to a row of a SKU that it lists.
#[tactic(auto, unfolding(crate::specs::Matching::match_of))]
fn match_of(commitment: &Commitment, row: &LentRow<'_>) -> Match
    ensures { result ≡ match_of commitment.now row.now }
{
    if !is_eligible(row) {
        return Match::NotEligible;
    }
    if !is_in_term(commitment, row.hour()) {
        return Match::OutOfTerm;
    }
    if !allows(commitment, row) {
        return Match::OtherAccount;
    }
    if has_unit(commitment.terms(), row) {
        Match::Applies
    } else {
        Match::OtherUnit
    }
}

// Whether a commitment takes rows of this row's sub-account.
fn allows(commitment: &Commitment, row: &LentRow<'_>) -> bool
    ensures { result ≡ allows commitment.now.sub_account row.now.sub_account }
{
    match commitment.sub_account() {
        Some(own) => row.sub_account().is_some_and(|account| account == own),
        None => true,
    }
}

// Whether terms are for rows in this row's unit.
fn has_unit(terms: &Terms, row: &LentRow<'_>) -> bool
    ensures { result ≡ has_unit (terms_view terms.now) row.now.unit }
{
    match terms {
        Terms::Usage { unit, .. } => is_in_unit(row, unit),
        Terms::Spend { .. } => true,
    }
}

// Whether a row's quantity is in a unit.
fn is_in_unit(row: &LentRow<'_>, unit: &str) -> bool
    ensures { result ≡ is_text unit.now row.now.unit }
{
    row.unit().is_some_and(|own| own == unit)
}
