//! A name of a document that is none of its fields.
use crate::kind::Kind;
use fw_toml::{Table, TableFault, member, table_of, tables, text};
use std::alloc::{AllocError, Global};

/// The fields of a commitment to a quantity.
const USAGE_FIELDS: [&str; 10] = [
    "id",
    "category",
    "start",
    "hours",
    "capacity",
    "unit",
    "skus",
    "sub_account",
    "tags",
    "purchase",
];

/// The fields of a commitment to a cost.
const SPEND_FIELDS: [&str; 9] = [
    "id",
    "category",
    "start",
    "hours",
    "capacity",
    "rates",
    "sub_account",
    "tags",
    "purchase",
];

/// The fields of a purchase that is added to a commitment.
const PURCHASE_FIELDS: [&str; 3] = ["id", "at", "billed"];

/// The fields of a policy.
const POLICY_FIELDS: [&str; 2] = ["key", "rule"];

/// The fields of a rule.
const RULE_FIELDS: [&str; 3] = ["from", "to", "proportional"];

/// The first name of a text that is no field of what it is, in byte order, or where there is none in the document
/// itself, of its first rule that has one; `None` where all are fields, or the text is no TOML. The error comes where
/// memory ran out.
pub fn unknown_name(
    alloc: Global,
    kind: Kind,
    document: &[u8],
) -> Result<Option<String>, AllocError> {
    match table_of(alloc, document) {
        Ok(table) => unknown_in(alloc, kind, &table),
        Err(TableFault::Syntax) => Ok(None),
        Err(TableFault::NoMemory) => Err(AllocError),
    }
}

// The first name of a table that is no field of what it is.
fn unknown_in(alloc: Global, kind: Kind, table: &Table) -> Result<Option<String>, AllocError> {
    match kind {
        Kind::Commitment => copied(alloc, other_name(table, commitment_fields(table))),
        Kind::Policy => match other_name(table, &POLICY_FIELDS) {
            Some(name) => copied(alloc, Some(name)),
            None => unknown_in_rules(alloc, table),
        },
        Kind::Purchase => copied(alloc, other_name(table, &PURCHASE_FIELDS)),
    }
}

// The fields of the commitment of a table.
fn commitment_fields(table: &Table) -> &'static [&'static str] {
    match text(table, "category") {
        Some("Spend") => &SPEND_FIELDS,
        _ => &USAGE_FIELDS,
    }
}

// The first name of a rule that is no field of a rule.
fn unknown_in_rules(alloc: Global, table: &Table) -> Result<Option<String>, AllocError> {
    let Some(array) = member(table, "rule") else {
        return Ok(None);
    };
    let Some(rules) = tables(alloc, array)? else {
        return Ok(None);
    };
    for rule in rules.iter() {
        if let Some(name) = other_name(rule, &RULE_FIELDS) {
            return copied(alloc, Some(name));
        }
    }
    Ok(None)
}

// The first name of a table that is none of these.
fn other_name<'t>(table: &'t Table, fields: &[&str]) -> Option<&'t str> {
    for name in table.keys() {
        if !is_among(name.as_str(), fields) {
            return Some(name.as_str());
        }
    }
    None
}

// Whether a name is one of these.
fn is_among(name: &str, fields: &[&str]) -> bool {
    fields.iter().any(|field| *field == name)
}

// A copy of a name.
fn copied(alloc: Global, name: Option<&str>) -> Result<Option<String>, AllocError> {
    match name {
        Some(name) => Ok(Some(String::from_str(alloc, name)?)),
        None => Ok(None),
    }
}
