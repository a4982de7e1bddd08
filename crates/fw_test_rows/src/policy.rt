//! Texts and the policies that they read as. What is refused, and why, is shown by a case of `examples/cases`.
use crate::ended::check_all;
use crate::lines::policy_line;
use fw_policy::{PolicyFault, read_policy};
use std::alloc::Global;

/// Texts, each with the line of its policy.
const TEXTS: &[(&str, &str)] = &[
    (
        "key = \"team\"\n[[rule]]\nfrom = \"platform\"\nto = { web = 3, data = 1 }\n",
        "team; 'platform' to data*1 web*3",
    ),
    (
        "key = 't'\n[[rule]]\nfrom = ''\nproportional = true",
        "t; '' to in proportion",
    ),
    ("key = 't'", "t"),
    ("key = 't'\nrule = []", "t"),
];

/// Whether a text reads as the policy of a line.
fn reads_as(alloc: Global, text: &str, wanted: &str) -> Result<bool, PolicyFault> {
    let policy = Box::new(alloc, read_policy(alloc, text.as_bytes())?)?;
    Ok(policy_line(alloc, &policy)?.as_str() == wanted)
}

/// The first text that reads otherwise.
fn first_misread(alloc: Global) -> Result<Option<&'static str>, PolicyFault> {
    for (text, wanted) in TEXTS {
        if !reads_as(alloc, text, wanted)? {
            return Ok(Some(text));
        }
    }
    Ok(None)
}

#[test]
fn texts_read_as_policies(rt: HostRuntime) {
    check_all(&rt, first_misread(rt.alloc()));
}
