//! Texts and the commitments that they read as. What is refused, and why, is shown by a case of `examples/cases`.
use crate::ended::check_all;
use crate::lines::commitment_line;
use fw_commitment::{CommitmentFault, read_commitment};
use std::alloc::Global;

pub(crate) const USAGE: &str = "id = \"cd-1\"
category = \"Usage\"
start = \"2024-01-01T00:00Z\"
hours = 3
capacity = \"2\"
unit = \"Hours\"
skus = [\"vm\", \"disk\"]
[tags]
team = \"platform\"
[[purchase]]
at = \"2024-01-01T00:00Z\"
billed = \"0.00000001\"
";

pub(crate) const SPEND: &str = "id = \"cd-2\"
category = \"Spend\"
start = \"2024-01-01T00:00Z\"
hours = 24
capacity = \"1\"
rates = { vm = 700000 }
sub_account = \"team-a\"
[[purchase]]
at = \"2024-01-01T00:30Z\"
billed = \"24\"
";

/// Texts, each with the line of its commitment.
const TEXTS: &[(&str, &str)] = &[
    (
        USAGE,
        "cd-1 473352 3 2000000000 10 Hours disk vm - team=platform;",
    ),
    (SPEND, "cd-2 473352 24 1000000000 24000000000 vm team-a "),
];

/// The line of the commitment of a text, where its copy has the same.
fn line(alloc: Global, text: &str) -> Result<Option<String>, CommitmentFault> {
    let commitment = Box::new(alloc, read_commitment(alloc, text.as_bytes())?)?;
    let copy = Box::new(alloc, commitment.copy()?)?;
    let (line, other) = (
        commitment_line(alloc, &commitment)?,
        commitment_line(alloc, &copy)?,
    );
    Ok(if line == other { Some(line) } else { None })
}

/// Whether a text reads as the commitment of a line.
fn reads_as(alloc: Global, text: &str, wanted: &str) -> Result<bool, CommitmentFault> {
    Ok(line(alloc, text)?.as_deref() == Some(wanted))
}

/// The first text that reads otherwise.
fn first_misread(alloc: Global) -> Result<Option<&'static str>, CommitmentFault> {
    for (text, wanted) in TEXTS {
        if !reads_as(alloc, text, wanted)? {
            return Ok(Some(text));
        }
    }
    Ok(None)
}

#[test]
fn texts_read_as_commitments(rt: HostRuntime) {
    check_all(&rt, first_misread(rt.alloc()));
}
