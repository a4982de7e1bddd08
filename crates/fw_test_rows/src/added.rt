//! Texts and the purchases that they read as, and commitments that such purchases are added to.
use crate::commitment::{SPEND, USAGE};
use crate::ended::check_all;
use crate::lines::commitment_line;
use fw_commitment::{AddedPurchase, CommitmentFault, read_commitment, read_purchase};
use std::alloc::{AllocError, Global};

/// A purchase of 2 nanos.
const TWO_NANOS: &str = "id = \"cd-1\"
at = \"2024-01-01T01:00Z\"
billed = \"0.000000002\"
";

/// Texts, each with what it reads as: the id, the second and the nanos of a purchase, or the fault.
const READINGS: &[(&str, &str)] = &[
    (TWO_NANOS, "cd-1 1704070800 2"),
    (
        "id = \"cd-1\"\nat = \"2024-01-01T02:00:00.000+01:00\"\nbilled = \"100000000\"",
        "cd-1 1704070800 100000000000000000",
    ),
    (
        "id = \"cd-1\"\nat = \"2024-01-01T01:00Z\"\nbilled = \"-1\"",
        "the field billed is out of its limits",
    ),
    (
        "id = \"cd-1\"\nat = \"2024-01-01T01:00Z\"\nbilled = \"100000000.000000001\"",
        "the field billed is missing or is not what it must be",
    ),
    (
        "id = \"cd-1\"\nat = \"2024-01-01T01:00Z\"\nbilled = 1",
        "the field billed is missing or is not what it must be",
    ),
    (
        "id = \"cd-1\"\nbilled = \"-1\"",
        "the field at is missing or is not what it must be",
    ),
    (
        "id = \"cd-1\"\nat = \"2024-01-01T01:00:00.5Z\"\nbilled = \"1\"",
        "the field at is missing or is not what it must be",
    ),
    (
        "id = \"cd-1\"\nat = \"2024-01-01T01:00Z\"\nbilled = \"1\"\nhours = 3",
        "the field unknown is missing or is not what it must be",
    ),
    (
        "id = \"\"\nat = \"2024-01-01T01:00Z\"\nbilled = \"x\"",
        "the field id is out of its limits",
    ),
    (
        "at = \"2024-01-01T01:00Z\"\nbilled = \"1\"",
        "the field id is missing or is not what it must be",
    ),
    ("id =", "the text is no TOML document"),
];

/// Commitments, each with the line of what it is with 2 nanos paid more.
const GROWN: &[(&str, &str)] = &[
    (
        USAGE,
        "cd-1 473352 3 2000000000 12 Hours disk vm - team=platform;",
    ),
    (SPEND, "cd-2 473352 24 1000000000 24000000002 vm team-a "),
];

fn added_line(alloc: Global, added: &AddedPurchase) -> Result<String, AllocError> {
    let purchase = added.purchase();
    format!(in alloc;
        "{} {} {}",
        added.id(),
        purchase.at(),
        purchase.billed().count()
    )
}

/// What a text reads as.
fn reading(alloc: Global, text: &str) -> Result<String, CommitmentFault> {
    match read_purchase(alloc, text.as_bytes()) {
        Ok(added) => Ok(added_line(alloc, &added)?),
        Err(CommitmentFault::NoMemory) => Err(CommitmentFault::NoMemory),
        Err(fault) => Ok(format!(in alloc; "{fault}")?),
    }
}

/// Whether a text reads as a line says.
fn reads_as(alloc: Global, text: &str, wanted: &str) -> Result<bool, CommitmentFault> {
    Ok(reading(alloc, text)?.as_str() == wanted)
}

/// The first text that reads otherwise.
fn first_misread(alloc: Global) -> Result<Option<&'static str>, CommitmentFault> {
    for (text, wanted) in READINGS {
        if !reads_as(alloc, text, wanted)? {
            return Ok(Some(text));
        }
    }
    Ok(None)
}

#[test]
fn texts_read_as_added_purchases(rt: HostRuntime) {
    check_all(&rt, first_misread(rt.alloc()));
}

/// The line of the commitment of a text with 2 nanos paid more, where it takes them.
fn grown_line(alloc: Global, text: &str) -> Result<Option<String>, CommitmentFault> {
    let (_id, purchase) = read_purchase(alloc, TWO_NANOS.as_bytes())?.into_parts();
    let commitment = read_commitment(alloc, text.as_bytes())?;
    if !commitment.takes_purchase(&purchase) {
        return Ok(None);
    }
    let grown = commitment.with_purchase(alloc, purchase)?;
    Ok(Some(commitment_line(alloc, &grown)?))
}

/// The first commitment that becomes another one.
fn first_misgrown(alloc: Global) -> Result<Option<&'static str>, CommitmentFault> {
    for (text, wanted) in GROWN {
        if grown_line(alloc, text)?.as_deref() != Some(*wanted) {
            return Ok(Some(text));
        }
    }
    Ok(None)
}

#[test]
fn commitments_grow_by_purchases(rt: HostRuntime) {
    check_all(&rt, first_misgrown(rt.alloc()));
}
