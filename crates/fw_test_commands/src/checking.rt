//! Texts with faults, and what is found.
use crate::ended::check;
use fw_charge::Currency;
use fw_check::Checker;
use fw_cut::Cutter;
use fw_rows::RowFault;
use std::alloc::Global;

/// Five records: the second, the fourth and the fifth have faults, the fourth three of them.
const TEXT: &str =
    "BilledCost,EffectiveCost,BillingCurrency,ChargeCategory,ChargePeriodStart,ChargePeriodEnd,Tags\n\
    1,2,USD,Usage,2024-01-01T00:00Z,2024-01-01T01:00Z,\"{\"\"team\"\":\"\"web\"\"}\"\n\
    x,2,USD,Usage,2024-01-01T00:00Z,2024-01-01T01:00Z,\n\
    \n\
    3,4,USD,Tax,2024-01-01T01:00Z,2024-01-01T02:00Z,\n\
    1,y,EUR,Usage,2024-01-01T00:00Z,2024-01-01T01:00Z,nope\n\
    1,2\n";

/// The code, the column, the count and the first line of each finding, in order.
const FINDINGS: &[(&str, &str, u64, u64)] = &[
    ("V5 Cost", "BilledCost", 1, 3),
    ("V5 Cost", "EffectiveCost", 1, 6),
    ("V6 Currency", "BillingCurrency", 1, 6),
    ("V12 BadTags", "Tags", 1, 6),
    ("V1 Fields", "", 1, 7),
];

/// A header that lacks four columns and has one twice.
const HEADER: &str = "BilledCost,Tags,EffectiveCost,BilledCost\n";

/// The codes and columns of its faults, in order.
const HEADER_FINDINGS: &[(&str, &str)] = &[
    ("H1 MissingColumn", "BillingCurrency"),
    ("H1 MissingColumn", "ChargeCategory"),
    ("H1 MissingColumn", "ChargePeriodStart"),
    ("H1 MissingColumn", "ChargePeriodEnd"),
    ("H2 DoubleColumn", "BilledCost"),
];

/// What is found in the text.
fn checked(alloc: Global) -> Result<Checker, RowFault> {
    let Some(currency) = Currency::new(b"USD") else {
        return Err(RowFault::NoRows);
    };
    let mut checker = Checker::new(alloc, currency);
    let Ok(mut cutter) = Cutter::open(alloc, TEXT.as_bytes()) else {
        return Err(RowFault::NoMemory);
    };
    checker.pass_header(cutter.header(), cutter.line_end());
    let Ok(part) = cutter.next_part(alloc) else {
        return Err(RowFault::NoMemory);
    };
    checker.check(alloc, &part)?;
    Ok(checker)
}

/// Whether the findings are those, and the counts of the rest too.
fn is_right(checker: &Checker) -> bool {
    if checker.findings.len() != FINDINGS.len() {
        return false;
    }
    for (finding, (code, column, count, line)) in checker.findings.iter().zip(FINDINGS) {
        let first = match finding.places.first() {
            Some(place) => place.line,
            None => 0,
        };
        if finding.code != *code
            || finding.column.as_str() != *column
            || finding.count != *count
            || first != *line
        {
            return false;
        }
    }
    checker.records == 5
        && checker.bad_records == 3
        && checker.faults == 5
        && checker.statistics.rows == 2
        && checker.statistics.billed == 4_000_000_000
        && checker.statistics.effective == 6_000_000_000
        && checker.statistics.hours.len() == 2
        && checker.statistics.currencies.len() == 1
}

/// Whether the text's faults are found.
fn are_found(alloc: Global) -> Result<bool, RowFault> {
    let checker = checked(alloc)?;
    Ok(is_right(&checker))
}

/// Whether the faults of the header are found, and no other.
fn are_found_in_header(alloc: Global) -> Result<bool, RowFault> {
    let Some(currency) = Currency::new(b"USD") else {
        return Err(RowFault::NoRows);
    };
    let mut checker = Checker::new(alloc, currency);
    checker.check_header(alloc, HEADER.as_bytes())?;
    checker.end(alloc)?;
    for (finding, (code, column)) in checker.findings.iter().zip(HEADER_FINDINGS) {
        if finding.code != *code || finding.column.as_str() != *column {
            return Ok(false);
        }
    }
    Ok(checker.findings.len() == HEADER_FINDINGS.len() && checker.faults == 5)
}

#[test]
fn finds_each_fault_of_a_header(rt: HostRuntime) {
    check(&rt, are_found_in_header(rt.alloc()));
}

/// Whether a text without a record has a fault.
fn is_empty_found(alloc: Global) -> Result<bool, RowFault> {
    let Some(currency) = Currency::new(b"USD") else {
        return Err(RowFault::NoRows);
    };
    let mut checker = Checker::new(alloc, currency);
    checker.end(alloc)?;
    let code = match checker.findings.first() {
        Some(finding) => finding.code,
        None => "",
    };
    Ok(code == "V14 NoRows" && checker.faults == 1)
}

#[test]
fn finds_that_there_is_no_record(rt: HostRuntime) {
    check(&rt, is_empty_found(rt.alloc()));
}

#[test]
fn finds_each_fault(rt: HostRuntime) {
    check(&rt, are_found(rt.alloc()));
}
