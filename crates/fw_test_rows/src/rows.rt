//! Texts and the rows that they read as. What is refused, and why, is shown by the cases of `examples/cases`.
use crate::ended::check_all;
use crate::lines::row_line;
use fw_rows::{Currency, Row, RowFault, read_rows};
use std::alloc::{AllocError, Global};

/// Columns in an order of their own, some of which aren't read; quotes, a line break, two kinds of line end.
const SOME_COLUMNS: &str =
    "\u{feff}Tags,ChargePeriodEnd,\"BilledCost\",Note,ChargeCategory,ChargePeriodStart,BillingCurrency,EffectiveCost\r\n\
    \"{\"\"a\"\":\"\"b,c\"\"}\",2024-01-01T02:00:00.000+01:00,\"-0.05\",\"two\nlines\",Credit,2024-01-01T00:00Z,USD,1e-9\r\n\
    \r\n\
    ,1970-01-01T01:59:59Z,100000000,,Adjustment,1970-01-01T01:59:59Z,\"USD\",-0";

/// All fifteen columns. A quantity past the greatest one is null.
const ALL_COLUMNS: &str =
    "\u{feff}Note,Tags,SubAccountId,SkuId,ConsumedUnit,ConsumedQuantity,CommitmentDiscountStatus,CommitmentDiscountCategory,CommitmentDiscountId,ChargeClass,BilledCost,EffectiveCost,BillingCurrency,ChargeCategory,ChargePeriodStart,ChargePeriodEnd\n\
    \"a, b\",\"{\"\"team\"\":\"\"x\"\",\"\"spot\"\":true,\"\"app\"\":null}\",acc-1,vm-4,Hours,0.5,Used,Spend,cd-1,Correction,1,2,USD,Usage,2024-01-01T00:00Z,2024-01-01T01:00Z\n\
    ,,,,,500000000,,,,,1,2,USD,Usage,2024-01-01T00:00Z,2024-01-01T01:00Z\n";

/// Texts, each with the lines of its rows.
const TEXTS: &[(&str, &str)] = &[
    (
        SOME_COLUMNS,
        "-50000000 1 Credit 1704067200 1704070800 false 473352 - - - - - a=b,c;\n\
        100000000000000000 0 Adjustment 7199 7199 false 1 - - - - - \n",
    ),
    (
        ALL_COLUMNS,
        "1000000000 2000000000 Usage 1704067200 1704070800 true 473352 cd-1 Spend Some(Used) 500000000 Hours vm-4 acc-1 app=;spot=true;team=x;\n\
        1000000000 2000000000 Usage 1704067200 1704070800 false 473352 - - - - - \n",
    ),
];

/// The rows of a text in dollars.
fn dollars(alloc: Global, text: &str) -> Result<Vec<Row>, RowFault> {
    match Currency::new(b"USD") {
        Some(currency) => read_rows(alloc, text.as_bytes(), currency),
        None => Err(RowFault::NoRows),
    }
}

/// Adds the lines of rows to a text.
fn push_lines(alloc: Global, lines: &mut String, rows: &[Row]) -> Result<(), AllocError> {
    for row in rows {
        lines.push_str(&row_line(alloc, row)?)?;
        lines.push_str("\n")?;
    }
    Ok(())
}

/// The lines of the rows of a text.
fn lines(alloc: Global, text: &str) -> Result<String, RowFault> {
    let rows = dollars(alloc, text)?;
    let mut lines = String::new(alloc);
    push_lines(alloc, &mut lines, &rows)?;
    Ok(lines)
}

/// The lines of the first text that reads otherwise.
fn first_misread(alloc: Global) -> Result<Option<String>, RowFault> {
    for (text, wanted) in TEXTS {
        let read = lines(alloc, text)?;
        if read.as_str() != *wanted {
            return Ok(Some(read));
        }
    }
    Ok(None)
}

#[test]
fn texts_read_as_rows(rt: HostRuntime) {
    check_all(&rt, first_misread(rt.alloc()));
}
