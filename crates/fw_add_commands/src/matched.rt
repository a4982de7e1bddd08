//! The rows that a commitment applies to, in words.
use crate::printing::print_line;
use crate::texts::Given;
use fw_adding::{Matches, matches_of};
use fw_console::Fault;
use fw_documents::Document;
use fw_snapshot::State;
use fw_table::{count_text, shown_text};
use fw_terms::{Commitment, Terms};
use std::alloc::{AllocError, Global};

/// Says how many rows of a warehouse that count a commitment applies to, and why it doesn't apply to others of its SKUs. Of
/// other documents nothing is said.
pub(crate) fn print_matches(
    rt: &HostRuntime,
    state: &State,
    given: &Given<'_>,
) -> Result<(), Fault> {
    match given.document {
        Document::Commitment(commitment) => print_matched(rt, state, given, commitment),
        Document::Policy(_) | Document::Purchase(_) => Ok(()),
    }
}

// Says how many rows a commitment applies to, and why not to others.
fn print_matched(
    rt: &HostRuntime,
    state: &State,
    given: &Given<'_>,
    commitment: &Commitment,
) -> Result<(), Fault> {
    let lines = lines_on(rt.alloc(), state, commitment)?;
    print_lines(rt, given, &lines)
}

// Prints lines about a file.
fn print_lines(rt: &HostRuntime, given: &Given<'_>, lines: &[String]) -> Result<(), Fault> {
    for line in lines {
        print_line(rt, given, line.as_str())?;
    }
    Ok(())
}

// The lines on how many rows of a warehouse a commitment applies to.
fn lines_on(
    alloc: Global,
    state: &State,
    commitment: &Commitment,
) -> Result<Vec<String>, AllocError> {
    let counting = state.counting_segments(alloc)?;
    let segments = counting.references(alloc)?;
    let matches = matches_of(alloc, commitment, segments.as_slice())?;
    match_lines(alloc, commitment, &matches)
}

/// Warns on standard error where a commitment applies to no row, and rows of its SKUs are in another unit.
pub(crate) fn warn_unmatched(
    rt: &HostRuntime,
    state: &State,
    given: &Given<'_>,
) -> Result<(), Fault> {
    match given.document {
        Document::Commitment(commitment) => warn_units(rt, state, given.file, commitment),
        Document::Policy(_) | Document::Purchase(_) => Ok(()),
    }
}

// Warns where a commitment applies to no row, and rows of its SKUs are in another unit.
fn warn_units(
    rt: &HostRuntime,
    state: &State,
    file: &str,
    commitment: &Commitment,
) -> Result<(), Fault> {
    if let Some(line) = warning_on(rt.alloc(), state, commitment)? {
        let _ = eprintln!(rt; "{file}: {line}");
    }
    Ok(())
}

// What is warned of a commitment and the rows of a warehouse, if anything is.
fn warning_on(
    alloc: Global,
    state: &State,
    commitment: &Commitment,
) -> Result<Option<String>, AllocError> {
    let counting = state.counting_segments(alloc)?;
    let segments = counting.references(alloc)?;
    let matches = matches_of(alloc, commitment, segments.as_slice())?;
    unit_warning(alloc, commitment, &matches)
}

// The warning that a commitment applies to no row, and that rows are in another unit; none where that isn't so.
fn unit_warning(
    alloc: Global,
    commitment: &Commitment,
    matches: &Matches<'_>,
) -> Result<Option<String>, AllocError> {
    if matches.applies > 0 || !is_in_other_units(matches) {
        return Ok(None);
    }
    Ok(Some(unit_line(alloc, commitment, matches)?))
}

// Whether there are rows in another unit, or in none.
fn is_in_other_units(matches: &Matches<'_>) -> bool {
    matches.no_unit > 0 || !matches.other_units.is_empty()
}

// The lines on how many rows a commitment applies to.
fn match_lines(
    alloc: Global,
    commitment: &Commitment,
    matches: &Matches<'_>,
) -> Result<Vec<String>, AllocError> {
    let mut lines = Vec::new(alloc);
    push_lines(alloc, &mut lines, commitment, matches)?;
    Ok(lines)
}

// Adds the lines on how many rows a commitment applies to.
fn push_lines(
    alloc: Global,
    lines: &mut Vec<String>,
    commitment: &Commitment,
    matches: &Matches<'_>,
) -> Result<(), AllocError> {
    lines.push(applies_line(alloc, matches.applies)?)?;
    if is_in_other_units(matches) {
        lines.push(unit_line(alloc, commitment, matches)?)?;
    }
    push_reasons(alloc, lines, commitment, matches)?;
    if matches.applies == 0 && lines.len() == 1 {
        let skus = sku_words(commitment.terms());
        lines.push(format!(in alloc; "no row of the warehouse is of {skus}")?)?;
    }
    Ok(())
}

// How many rows a commitment applies to.
fn applies_line(alloc: Global, count: u64) -> Result<String, AllocError> {
    let rows = rows_text(alloc, count)?;
    format!(in alloc; "it applies to {rows}")
}

// Adds a line for each other reason why a commitment doesn't apply to rows of its SKUs.
fn push_reasons(
    alloc: Global,
    lines: &mut Vec<String>,
    commitment: &Commitment,
    matches: &Matches<'_>,
) -> Result<(), AllocError> {
    let skus = sku_words(commitment.terms());
    let reasons = [
        (matches.other_account, "of another sub-account"),
        (matches.out_of_term, "outside of the term"),
        (
            matches.not_eligible,
            "not eligible: they are no use of exactly one hour, carry the id of a commitment, are corrections, or have no quantity above 0 or a cost below 0",
        ),
    ];
    for (count, reason) in reasons {
        push_reason(alloc, lines, skus, count, reason)?;
    }
    Ok(())
}

// Adds the line of a reason, where it holds of a row.
fn push_reason(
    alloc: Global,
    lines: &mut Vec<String>,
    skus: &str,
    count: u64,
    reason: &str,
) -> Result<(), AllocError> {
    if count == 0 {
        return Ok(());
    }
    let rows = rows_text(alloc, count)?;
    let verb = if count == 1 { "is" } else { "are" };
    lines.push(format!(in alloc; "{rows} of {skus} {verb} {reason}")?)?;
    Ok(())
}

// How many rows are in the unit of a commitment, and how many in which others.
fn unit_line(
    alloc: Global,
    commitment: &Commitment,
    matches: &Matches<'_>,
) -> Result<String, AllocError> {
    let mut line = rows_text(alloc, matches.applies)?;
    put_unit(alloc, &mut line, commitment.terms(), matches.applies)?;
    put_units(alloc, &mut line, sku_words(commitment.terms()), matches)?;
    Ok(line)
}

// Writes the unit of so many rows, which is that of a commitment's terms.
fn put_unit(alloc: Global, line: &mut String, terms: &Terms, rows: u64) -> Result<(), AllocError> {
    line.push_str(if rows == 1 { " matches" } else { " match" })?;
    line.push_str(" unit \"")?;
    line.push_str(shown_text(alloc, unit_of(terms))?.as_str())?;
    line.push_str("\"")
}

// Writes how many rows are in which other units.
fn put_units(
    alloc: Global,
    line: &mut String,
    skus: &str,
    matches: &Matches<'_>,
) -> Result<(), AllocError> {
    for (unit, count) in matches.other_units.iter() {
        put_rows(alloc, line, skus, *count)?;
        line.push_str(" \"")?;
        line.push_str(shown_text(alloc, unit)?.as_str())?;
        line.push_str("\"")?;
    }
    if matches.no_unit > 0 {
        put_rows(alloc, line, skus, matches.no_unit)?;
        line.push_str(" no unit")?;
    }
    Ok(())
}

// Writes how many rows of these SKUs have what follows.
fn put_rows(alloc: Global, line: &mut String, skus: &str, count: u64) -> Result<(), AllocError> {
    let verb = have(count);
    line.push_str("; ")?;
    line.push_str(rows_text(alloc, count)?.as_str())?;
    write!(line, " of {skus} {verb}")?;
    Ok(())
}

// The verb of so many rows.
fn have(count: u64) -> &'static str {
    if count == 1 { "has" } else { "have" }
}

// The unit of terms to a quantity.
fn unit_of(terms: &Terms) -> &str {
    match terms {
        Terms::Usage { unit, .. } => unit.as_str(),
        Terms::Spend { .. } => "",
    }
}

// The SKUs of terms, in words.
fn sku_words(terms: &Terms) -> &'static str {
    let count = match terms {
        Terms::Usage { skus, .. } => skus.len(),
        Terms::Spend { rates } => rates.len(),
    };
    if count == 1 { "this SKU" } else { "these SKUs" }
}

// So many rows, in words.
fn rows_text(alloc: Global, count: u64) -> Result<String, AllocError> {
    let number = count_text(alloc, count)?;
    let word = if count == 1 { "row" } else { "rows" };
    format!(in alloc; "{number} {word}")
}
