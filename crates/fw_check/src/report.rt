//! What was found, as text and as JSON.
ghost use Rattle.std.specs.Prelude.{◌≡◌, [], length, string_bytes, IfOk};
ghost use Rattle.fw_check.specs.Answers.{IsAnswer, IsJsonAnswer, counted_text, json_head, json_repeated, plural, repeated_text, sums_text, summary_text};
ghost use Rattle.fw_table.specs.Shown.{shown_text};

use crate::checker::Checker;
use crate::findings::{Finding, Place};
use crate::frequent::{most_frequent, rows_in};
use crate::kept::KeptColumn;
use crate::repeats::{Repeat, Repeats};
use crate::statistics::Statistics;
use fw_charge::Category;
use fw_table::shown_text;
use indexmap::IndexMap;
use std::alloc::{AllocError, Global};

/// What was found in a text, for people. Its name is shown so that it acts on no terminal ([`shown_text`]).
pub fn as_text(alloc: Global, name: &str, checker: &Checker) -> Result<String, AllocError>
    ensures { IfOk result (λ text. IsAnswer (shown_text name.now) checker.now (string_bytes text)) }
{
    let name = shown_text(alloc, name)?;
    text_of(alloc, name.as_str(), checker)
}

// What was found in a text of this name, which is shown already.
fn text_of(alloc: Global, name: &str, checker: &Checker) -> Result<String, AllocError>
    ensures { IfOk result (λ text. IsAnswer name.now checker.now (string_bytes text)) }
{
    let findings = findings_text(alloc, name, checker.findings.as_slice())?;
    let sums = sums_text(alloc, &checker.statistics)?;
    let counts = counts_text(alloc, &checker.statistics)?;
    let repeats = repeats_text(alloc, &checker.repeats)?;
    let mut text = summary_text(alloc, name, checker)?;
    text.push_str(findings.as_str())?;
    text.push_str(sums.as_str())?;
    text.push_str(counts.as_str())?;
    text.push_str(repeats.as_str())?;
    Ok(text)
}

// How many records a text has, how many of them have faults, and how many faults there are.
fn summary_text(alloc: Global, name: &str, checker: &Checker) -> Result<String, AllocError>
    ensures { IfOk result (λ text. string_bytes text ≡ summary_text name.now checker.now) }
{
    let records = counted_text(alloc, checker.records, "record")?;
    let bad = checker.bad_records;
    let faults = counted_text(alloc, checker.faults, "fault")?;
    let repeated = repeated_text(alloc, checker.repeated)?;
    format!(in alloc; "{name}: {records}, {bad} of them with faults; {faults}{repeated}\n")
}

// How many times the header stood again, as a further clause; nothing where it didn't.
#[tactic(auto, unfolding(crate::specs::Answers::repeated_text))]
fn repeated_text(alloc: Global, count: u64) -> Result<String, AllocError>
    ensures { IfOk result (λ text. string_bytes text ≡ repeated_text count) }
{
    if count == 0 {
        return Ok(String::new(alloc));
    }
    let headers = counted_text(alloc, count, "repeated header")?;
    format!(in alloc; "; {headers} skipped")
}

// A count and what is counted, as `5 records`.
fn counted_text(alloc: Global, count: u64, word: &str) -> Result<String, AllocError>
    ensures { IfOk result (λ text. string_bytes text ≡ counted_text count word.now) }
{
    let end = plural(count);
    format!(in alloc; "{count} {word}{end}")
}

// What a word ends with where it stands behind a count.
#[tactic(auto, unfolding(crate::specs::Answers::plural))]
fn plural(count: u64) -> &'static str
    ensures { result.now ≡ plural count }
{
    if count == 1 { "" } else { "s" }
}

// The groups of faults; nothing where there is none.
fn findings_text(alloc: Global, name: &str, findings: &[Finding]) -> Result<String, AllocError>
    ensures { IfOk result (λ text. findings.now ≡ [] → string_bytes text ≡ []) }
{
    let mut text = String::new(alloc);
    if findings.is_empty() {
        return Ok(text);
    }
    put_findings(&mut text, name, findings)?;
    Ok(text)
}

// Writes groups of faults.
fn put_findings(text: &mut String, name: &str, findings: &[Finding]) -> Result<(), AllocError> {
    for finding in findings {
        put_finding(text, name, finding)?;
    }
    Ok(())
}

// A group of faults, and its first places.
fn put_finding(text: &mut String, name: &str, finding: &Finding) -> Result<(), AllocError> {
    let code = finding.code;
    let column = finding.column.as_str();
    let count = finding.count;
    let expected = finding.expected;
    if column.is_empty() {
        write!(text, "\n{code}: {count}; expected {expected}\n")?;
    } else {
        write!(text, "\n{code} {column}: {count}; expected {expected}\n")?;
    }
    for place in finding.places.as_slice() {
        put_place(text, name, place)?;
    }
    Ok(())
}

// A place of a fault: the header has no number among the records.
fn put_place(text: &mut String, name: &str, place: &Place) -> Result<(), AllocError> {
    let line = place.line;
    let record = place.record;
    let value = place.value.as_str();
    if record == 0 {
        write!(text, "  {name}:{line}: the header\n")?;
    } else {
        write!(text, "  {name}:{line}: record {record}: {value:?}\n")?;
    }
    Ok(())
}

// The sums over the rows without a fault.
fn sums_text(alloc: Global, statistics: &Statistics) -> Result<String, AllocError>
    ensures { IfOk result (λ text. string_bytes text ≡ sums_text statistics.now) }
{
    let rows = statistics.rows;
    let hours = statistics.hours.len();
    let billed = fw_money::text(alloc, statistics.billed)?;
    let effective = fw_money::text(alloc, statistics.effective)?;
    format!(in alloc; "\nrows {rows}\nhours {hours}\nbilled {billed}\neffective {effective}\n")
}

// The counts by category, currency, tag and value of a kept column.
fn counts_text(alloc: Global, statistics: &Statistics) -> Result<String, AllocError> {
    let mut text = String::new(alloc);
    put_categories(&mut text, statistics)?;
    put_counts(&mut text, "currency", &statistics.currencies)?;
    put_counts(&mut text, "tag", &statistics.tags.keys)?;
    for kept in statistics.kept.as_slice() {
        put_kept(alloc, &mut text, kept)?;
    }
    Ok(text)
}

// Writes how many rows have a value of a kept column, how many values there are, and the most frequent ones.
fn put_kept(alloc: Global, text: &mut String, kept: &KeptColumn) -> Result<(), AllocError> {
    let (column, key) = (kept.column.as_str(), kept.key.as_str());
    let rows = counted_text(alloc, rows_in(&kept.values), "row")?;
    let values = kept.values.len();
    let word = counted_text(alloc, values as u64, "value")?;
    write!(text, "kept {column:?} as {key:?}: {rows}, {word}\n")?;
    let most = most_frequent(alloc, &kept.values)?;
    for (value, count) in most.as_slice() {
        write!(text, "  {value:?} {count}\n")?;
    }
    if values > most.len() {
        let more = values - most.len();
        write!(text, "  .. and {more} more\n")?;
    }
    Ok(())
}

// The rows that stand twice; nothing where there is none.
fn repeats_text(alloc: Global, repeats: &Repeats) -> Result<String, AllocError>
    ensures { IfOk result (λ text. repeats.now.count ≡ 0 → string_bytes text ≡ []) }
{
    let mut text = String::new(alloc);
    if repeats.count == 0 {
        return Ok(text);
    }
    put_repeats(alloc, &mut text, repeats)?;
    Ok(text)
}

// Writes the rows that stand twice.
fn put_repeats(alloc: Global, text: &mut String, repeats: &Repeats) -> Result<(), AllocError> {
    let count = counted_text(alloc, repeats.count, "row")?;
    let verb = if repeats.count == 1 {
        "repeats"
    } else {
        "repeat"
    };
    write!(
        text,
        "\nwarning: {count} {verb} an earlier row: all values that are read are the same\n"
    )?;
    for repeat in repeats.first.as_slice() {
        let Repeat { number, earlier } = *repeat;
        write!(text, "  record {number} is as record {earlier}\n")?;
    }
    let more = repeats.count.saturating_sub(repeats.first.len() as u64);
    if more > 0 {
        write!(text, "  .. and {more} more\n")?;
    }
    Ok(())
}

// Writes how many rows there are of each category.
fn put_categories(text: &mut String, statistics: &Statistics) -> Result<(), AllocError> {
    for (category, count) in Category::ALL.iter().zip(statistics.categories.iter()) {
        let word = category.word();
        write!(text, "category {word} {count}\n")?;
    }
    Ok(())
}

// Writes counts by text, each behind a word.
fn put_counts(
    text: &mut String,
    word: &str,
    counts: &IndexMap<String, u64>,
) -> Result<(), AllocError> {
    for (key, count) in counts.iter() {
        write!(text, "{word} {key:?} {count}\n")?;
    }
    Ok(())
}

/// What was found in a text, as one line of JSON.
pub fn as_json(alloc: Global, name: &str, checker: &Checker) -> Result<String, AllocError>
    ensures { IfOk result (λ text. IsJsonAnswer checker.now (string_bytes text)) }
{
    let mut file = String::new(alloc);
    put_json(&mut file, name)?;
    let findings = json_findings(alloc, checker.findings.as_slice())?;
    let mut statistics = String::new(alloc);
    put_json_statistics(alloc, &mut statistics, checker)?;
    let mut text = json_head(alloc, file.as_str(), checker)?;
    text.push_str(findings.as_str())?;
    text.push_str("],")?;
    text.push_str(statistics.as_str())?;
    text.push_str("}\n")?;
    Ok(text)
}

// The name of the file, which is a JSON string already, and how many records and faults there are.
fn json_head(alloc: Global, file: &str, checker: &Checker) -> Result<String, AllocError>
    ensures { IfOk result (λ text. string_bytes text ≡ json_head file.now checker.now) }
{
    let records = checker.records;
    let bad = checker.bad_records;
    let faults = checker.faults;
    let repeated = json_repeated(alloc, checker.repeated)?;
    format!(in alloc;
        "{{\"file\":{file},\"records\":{records},\"badRecords\":{bad},\"faults\":{faults}{repeated},\"findings\":["
    )
}

// How many times the header stood again, as a further member; nothing where it didn't.
#[tactic(auto, unfolding(crate::specs::Answers::json_repeated))]
fn json_repeated(alloc: Global, count: u64) -> Result<String, AllocError>
    ensures { IfOk result (λ text. string_bytes text ≡ json_repeated count) }
{
    if count == 0 {
        return Ok(String::new(alloc));
    }
    format!(in alloc; ",\"repeatedHeaders\":{count}")
}

// The groups of faults as JSON objects; nothing where there is none.
fn json_findings(alloc: Global, findings: &[Finding]) -> Result<String, AllocError>
    ensures { IfOk result (λ text. findings.now ≡ [] → string_bytes text ≡ []) }
{
    let mut text = String::new(alloc);
    if findings.is_empty() {
        return Ok(text);
    }
    put_json_findings(&mut text, findings)?;
    Ok(text)
}

// Writes groups of faults as JSON objects.
fn put_json_findings(text: &mut String, findings: &[Finding]) -> Result<(), AllocError> {
    let mut is_first = true;
    for finding in findings {
        if !is_first {
            text.push(',')?;
        }
        is_first = false;
        put_json_finding(text, finding)?;
    }
    Ok(())
}

// A text as a JSON string.
fn put_json(text: &mut String, value: &str) -> Result<(), AllocError> {
    text.push('"')?;
    for letter in value.chars() {
        match letter {
            '"' => text.push_str("\\\"")?,
            '\\' => text.push_str("\\\\")?,
            '\0'..='\x1f' => {
                let code = letter as u32;
                write!(text, "\\u{code:04x}")?;
            }
            _ => text.push(letter)?,
        }
    }
    text.push('"')?;
    Ok(())
}

// A group of faults as a JSON object.
fn put_json_finding(text: &mut String, finding: &Finding) -> Result<(), AllocError> {
    text.push_str("{\"code\":")?;
    put_json(text, finding.code)?;
    text.push_str(",\"column\":")?;
    put_json(text, finding.column.as_str())?;
    text.push_str(",\"expected\":")?;
    put_json(text, finding.expected)?;
    let count = finding.count;
    write!(text, ",\"count\":{count},\"places\":[")?;
    put_json_places(text, finding.places.as_slice())?;
    text.push_str("]}")?;
    Ok(())
}

// The first places of a group of faults as JSON objects.
fn put_json_places(text: &mut String, places: &[Place]) -> Result<(), AllocError> {
    let mut is_first = true;
    for place in places {
        if !is_first {
            text.push(',')?;
        }
        is_first = false;
        let line = place.line;
        let record = place.record;
        write!(text, "{{\"line\":{line},\"record\":{record},\"value\":")?;
        put_json(text, place.value.as_str())?;
        text.push('}')?;
    }
    Ok(())
}

// The statistics as members of a JSON object.
fn put_json_statistics(
    alloc: Global,
    text: &mut String,
    checker: &Checker,
) -> Result<(), AllocError> {
    let statistics = &checker.statistics;
    put_json_sums(alloc, text, statistics)?;
    text.push_str(",\"categories\":{")?;
    put_json_categories(text, statistics)?;
    text.push_str("},\"currencies\":{")?;
    put_json_counts(text, &statistics.currencies)?;
    text.push_str("},\"tags\":{")?;
    put_json_counts(text, &statistics.tags.keys)?;
    text.push('}')?;
    put_json_kept(alloc, text, statistics.kept.as_slice())?;
    put_json_repeats(text, &checker.repeats)?;
    Ok(())
}

// The kept columns as a member of a JSON object; nothing where none is kept.
fn put_json_kept(alloc: Global, text: &mut String, kept: &[KeptColumn]) -> Result<(), AllocError> {
    if kept.is_empty() {
        return Ok(());
    }
    text.push_str(",\"kept\":[")?;
    let mut is_first = true;
    for column in kept {
        if !is_first {
            text.push(',')?;
        }
        is_first = false;
        put_json_column(alloc, text, column)?;
    }
    text.push(']')?;
    Ok(())
}

// A kept column as a JSON object.
fn put_json_column(alloc: Global, text: &mut String, kept: &KeptColumn) -> Result<(), AllocError> {
    text.push_str("{\"column\":")?;
    put_json(text, kept.column.as_str())?;
    text.push_str(",\"tag\":")?;
    put_json(text, kept.key.as_str())?;
    let rows = rows_in(&kept.values);
    let values = kept.values.len();
    write!(
        text,
        ",\"rows\":{rows},\"values\":{values},\"mostFrequent\":["
    )?;
    let mut is_first = true;
    for (value, count) in most_frequent(alloc, &kept.values)?.as_slice() {
        if !is_first {
            text.push(',')?;
        }
        is_first = false;
        text.push_str("{\"value\":")?;
        put_json(text, value)?;
        write!(text, ",\"rows\":{count}}}")?;
    }
    text.push_str("]}")?;
    Ok(())
}

// The rows that stand twice as members of a JSON object; nothing where there is none.
fn put_json_repeats(text: &mut String, repeats: &Repeats) -> Result<(), AllocError> {
    let count = repeats.count;
    if count == 0 {
        return Ok(());
    }
    write!(text, ",\"repeatedRows\":{count},\"firstRepeated\":[")?;
    let mut is_first = true;
    for repeat in repeats.first.as_slice() {
        if !is_first {
            text.push(',')?;
        }
        is_first = false;
        let Repeat { number, earlier } = *repeat;
        write!(text, "{{\"record\":{number},\"earlier\":{earlier}}}")?;
    }
    text.push(']')?;
    Ok(())
}

// The sums over the rows without a fault, as members of a JSON object.
fn put_json_sums(
    alloc: Global,
    text: &mut String,
    statistics: &Statistics,
) -> Result<(), AllocError> {
    let rows = statistics.rows;
    let hours = statistics.hours.len();
    let billed = fw_money::text(alloc, statistics.billed)?;
    let effective = fw_money::text(alloc, statistics.effective)?;
    write!(
        text,
        "\"rows\":{rows},\"hours\":{hours},\"billed\":\"{billed}\",\"effective\":\"{effective}\""
    )?;
    Ok(())
}

// How many rows there are of each category, as members of a JSON object.
fn put_json_categories(text: &mut String, statistics: &Statistics) -> Result<(), AllocError> {
    let mut is_first = true;
    for (category, count) in Category::ALL.iter().zip(statistics.categories.iter()) {
        if !is_first {
            text.push(',')?;
        }
        is_first = false;
        let word = category.word();
        write!(text, "\"{word}\":{count}")?;
    }
    Ok(())
}

// Counts by text as members of a JSON object.
fn put_json_counts(text: &mut String, counts: &IndexMap<String, u64>) -> Result<(), AllocError> {
    let mut is_first = true;
    for (key, count) in counts.iter() {
        if !is_first {
            text.push(',')?;
        }
        is_first = false;
        put_json(text, key.as_str())?;
        write!(text, ":{count}")?;
    }
    Ok(())
}
