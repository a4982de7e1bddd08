//! Texts and the seconds that they stand for.
use crate::ended::none_wrong;
use fw_instants::second_of;

const CASES: &[(&str, Option<u64>)] = &[
    ("1970-01-01T00:00Z", Some(0)),
    ("2024-01-01T00:00:00Z", Some(1_704_067_200)),
    ("2024-01-01T00:00:00.000Z", Some(1_704_067_200)),
    ("2024-01-01T01:30+01:30", Some(1_704_067_200)),
    ("2024-01-01T00:00:00.000000001Z", None),
    ("1970-01-01T00:30+01:00", None),
    ("2024-01-01T00:00", None),
    ("2024-02-30T00:00Z", None),
];

/// The first text that stands for another second.
fn first_misread() -> Option<&'static str> {
    for (text, second) in CASES {
        if second_of(text) != *second {
            return Some(text);
        }
    }
    None
}

#[test]
fn seconds(rt: HostRuntime) {
    none_wrong(&rt, first_misread());
}
