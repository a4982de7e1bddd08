//! Columns that are kept as tags: what is wrong with them in a header, and the rows that come of them.
use crate::ended::check;
use crate::stores::{NEVER, ROOM, created};
use fw_charge::Currency;
use fw_check::{Checker, KeptColumn};
use fw_cut::Cutter;
use fw_disk::Mode;
use fw_import::{ImportFault, Importer, Outcome, import_part, import_part_keeping};
use fw_rows::{Keep, Keeper, RowFault};
use std::alloc::{AllocError, Global};

/// A header that lacks BilledCost, and has SkuId and Region twice.
const HEADER: &str =
    "EffectiveCost,BillingCurrency,ChargeCategory,ChargePeriodStart,ChargePeriodEnd,SkuId,SkuId,Zone,Region,Region\n";

/// The columns that are kept, each with the key of its tag.
const KEEPS: &[(&str, &str)] = &[
    ("Service", "service"),
    ("Zone", "zone"),
    ("SkuId", "sku"),
    ("BilledCost", "billed"),
    ("Region", "region"),
    ("SubAccountId", "account"),
    ("Service", "team"),
];

/// The codes and columns of the header's faults, in order. Each is counted once: SkuId and BilledCost are looked at in each header, and Service is kept
/// as two tags.
const FINDINGS: &[(&str, &str)] = &[
    ("H1 MissingColumn", "BilledCost"),
    ("H2 DoubleColumn", "SkuId"),
    ("H1 MissingColumn", "Service"),
    ("H2 DoubleColumn", "Region"),
    ("H1 MissingColumn", "SubAccountId"),
];

/// Four records: the third has the tag already.
const TEXT: &str =
    "BilledCost,EffectiveCost,BillingCurrency,ChargeCategory,ChargePeriodStart,ChargePeriodEnd,Tags,Service\n\
    1,2,USD,Usage,2024-01-01T00:00Z,2024-01-01T01:00Z,\"{\"\"team\"\":\"\"web\"\"}\",db\n\
    3,4,USD,Usage,2024-01-01T00:00Z,2024-01-01T01:00Z,,\n\
    5,6,USD,Usage,2024-01-01T01:00Z,2024-01-01T02:00Z,\"{\"\"service\"\":\"\"x\"\"}\",db\n\
    7,8,USD,Usage,2024-01-01T01:00Z,2024-01-01T02:00Z,,db\n";

/// Two rows, a column of which is kept.
const KEPT: &str =
    "BilledCost,EffectiveCost,BillingCurrency,ChargeCategory,ChargePeriodStart,ChargePeriodEnd,Tags,Service\n\
    1,2,USD,Usage,2024-01-01T00:00Z,2024-01-01T01:00Z,\"{\"\"team\"\":\"\"web\"\"}\",db\n\
    3,4,USD,Usage,2024-01-01T00:00Z,2024-01-01T01:00Z,,\n";

/// The same rows with the tag among their tags.
const TAGGED: &str =
    "BilledCost,EffectiveCost,BillingCurrency,ChargeCategory,ChargePeriodStart,ChargePeriodEnd,Tags\n\
    1,2,USD,Usage,2024-01-01T00:00Z,2024-01-01T01:00Z,\"{\"\"service\"\":\"\"db\"\",\"\"team\"\":\"\"web\"\"}\"\n\
    3,4,USD,Usage,2024-01-01T00:00Z,2024-01-01T01:00Z,\n";

/// Columns with the keys of their tags.
fn keeps(alloc: Global, names: &[(&str, &str)]) -> Result<Vec<Keep>, AllocError> {
    let mut keeps = Vec::new(alloc);
    for (column, key) in names {
        let column = String::from_str(alloc, column)?;
        let key = String::from_str(alloc, key)?;
        keeps.push(Keep::of_fields(column, key))?;
    }
    Ok(keeps)
}

/// Whether the faults of the header are found, and no other.
fn are_found_in_header(alloc: Global) -> Result<bool, RowFault> {
    let Some(currency) = Currency::new(b"USD") else {
        return Err(RowFault::NoRows);
    };
    let keeps = keeps(alloc, KEEPS)?;
    let mut checker = Checker::keeping(alloc, currency, keeps.as_slice())?;
    checker.check_header(alloc, HEADER.as_bytes())?;
    checker.check_kept(alloc, HEADER.as_bytes(), keeps.as_slice())?;
    for (finding, (code, column)) in checker.findings.iter().zip(FINDINGS) {
        if finding.code != *code || finding.column.as_str() != *column || finding.count != 1 {
            return Ok(false);
        }
    }
    Ok(checker.findings.len() == FINDINGS.len() && checker.faults == 5)
}

#[test]
fn finds_each_fault_of_kept_columns(rt: HostRuntime) {
    check(&rt, are_found_in_header(rt.alloc()));
}

/// Whether two rows of the kept column have a text, which is the same.
fn is_right(kept: Option<&KeptColumn>) -> bool {
    let Some(kept) = kept else {
        return false;
    };
    kept.column.as_str() == "Service"
        && kept.key.as_str() == "service"
        && kept.values.len() == 1
        && kept.values.get("db").copied() == Some(2)
}

/// Whether the values of a kept column are counted, and a tag that is there already is a fault.
fn are_counted(alloc: Global) -> Result<bool, RowFault> {
    let Some(currency) = Currency::new(b"USD") else {
        return Err(RowFault::NoRows);
    };
    let keeps = keeps(alloc, &[("Service", "service")])?;
    let mut checker = Checker::keeping(alloc, currency, keeps.as_slice())?;
    let Ok(mut cutter) = Cutter::open(alloc, TEXT.as_bytes()) else {
        return Err(RowFault::NoMemory);
    };
    checker.check_kept(alloc, cutter.header(), keeps.as_slice())?;
    checker.pass_header(cutter.header(), cutter.line_end());
    let Ok(part) = cutter.next_part(alloc) else {
        return Err(RowFault::NoMemory);
    };
    checker.check(alloc, &part)?;
    let code = match checker.findings.first() {
        Some(finding) => finding.code,
        None => "",
    };
    Ok(
        code == "V17 TagTwice"
            && checker.faults == 1
            && checker.records == 4
            && checker.statistics.rows == 3
            && is_right(checker.statistics.kept.first()),
    )
}

#[test]
fn counts_the_values_of_a_kept_column(rt: HostRuntime) {
    check(&rt, are_counted(rt.alloc()));
}

/// Whether rows with a kept column are imported as the same rows with its tag are, and as no others.
fn are_same(alloc: Global) -> Result<bool, ImportFault> {
    let mut store = match created(alloc, ROOM, NEVER, Mode::Once) {
        Ok(store) => store,
        Err(fault) => return Err(ImportFault::Store(fault)),
    };
    let mut keeper = Keeper::new(alloc, keeps(alloc, &[("Service", "service")])?);
    let mut importer = Importer::new(alloc, "a");
    let text = KEPT.as_bytes();
    let added = import_part_keeping(alloc, &mut store, &mut importer, &mut keeper, 1, text)?;
    let again = import_part_keeping(alloc, &mut store, &mut importer, &mut keeper, 1, text)?;
    let tagged = import_part(alloc, &mut store, &mut importer, 1, TAGGED.as_bytes())?;
    match import_part(alloc, &mut store, &mut importer, 1, text) {
        Err(ImportFault::Differs) => {}
        Ok(_) => return Ok(false),
        Err(fault) => return Err(fault),
    }
    Ok(
        added.outcome == Outcome::Added
            && added.rows == 2
            && again.outcome == Outcome::Same
            && tagged.outcome == Outcome::Same,
    )
}

#[test]
fn a_kept_column_is_imported_as_a_tag(rt: HostRuntime) {
    check(&rt, are_same(rt.alloc()));
}
