//! Scripts and the commands that they hold. Hour 473,352 since 1970 begins at 2024-01-01T00:00Z.
use crate::ended::none_wrong;
use fw_script::*;

type Case = (&'static str, &'static [u8], &'static [Command<'static>]);

const BAD: Command<'static> = Command::BadCommand;

macro_rules! post {
    ($origin:expr, $sequence:expr, $content:expr) => {
        Command::Entry {
            kind: EntryKind::Post,
            origin: $origin,
            sequence: $sequence,
            content: $content,
        }
    };
}

macro_rules! withdraw {
    ($origin:expr, $sequence:expr, $target:expr) => {
        Command::Entry {
            kind: EntryKind::Withdraw,
            origin: $origin,
            sequence: $sequence,
            content: $target,
        }
    };
}

macro_rules! report {
    ($key:expr, $from:expr, $to:expr) => {
        Command::Report {
            key: $key,
            from: $from,
            to: $to,
        }
    };
}

// Whether a script holds these commands and no others.
fn holds(text: &[u8], commands: &[Command<'_>]) -> bool {
    let mut script = Script::new(text);
    for command in commands {
        if script.next_command() != Some(*command) {
            return false;
        }
    }
    script.next_command().is_none()
}

// The name of the first script that doesn't hold its commands and no others.
fn first_misread(cases: &[Case]) -> Option<&'static str> {
    for (name, text, commands) in cases {
        if !holds(text, commands) {
            return Some(name);
        }
    }
    None
}

const SCRIPTS: &[Case] = &[
    ("nothing", b"", &[]),
    ("a lone line feed", b"\n", &[BAD]),
    (
        "lines that are no commands",
        b"\nfoo\npost a 1\npost a 1 x\npost a 1 1000001\nreport t x y\n\
            report t 2024-01-01T00:30Z 2024-01-01T01:00Z\nreport t 1969-12-31T23:00Z 2024-01-01T01:00Z\n\
            report\n post a 1 0\nlines\nlines 2024-01-01T00:00Z\nlines a 2024-01-01T00:00Z 2024-01-01T01:00Z\n",
        &[
            BAD, BAD, BAD, BAD, BAD, BAD, BAD, BAD, BAD, BAD, BAD, BAD, BAD,
        ],
    ),
    (
        "fewer lines than asked for",
        b"post a 1 3\nx\n",
        &[Command::BadEnd],
    ),
    (
        "keys",
        b"report two words 2024-01-01T00:00Z 2024-01-01T01:00Z\nreport team  2024-01-01T00:00Z 2024-01-01T01:00Z\n\
            report \xc3\xa9 2024-01-01T00:00Z 2024-01-02T00:00Z\nreport  2024-01-01T00:00Z 2024-01-01T01:00Z\n\
            report 2024-01-01T00:00Z 2024-01-01T01:00Z\nreport \xc3 2024-01-01T00:00Z 2024-01-01T01:00Z\n",
        &[
            report!("two words", 473_352, 473_353),
            report!("team ", 473_352, 473_353),
            report!("é", 473_352, 473_376),
            report!("", 473_352, 473_353),
            BAD,
            BAD,
        ],
    ),
    (
        "a stored run",
        b"post a 1 3\nBilledCost,EffectiveCost\n0.1,0.25\n-0.05,1e-9\nreport team 2024-01-01T00:00Z 2024-01-01T01:00Z\n",
        &[
            post!(
                b"a",
                b"1",
                b"BilledCost,EffectiveCost\n0.1,0.25\n-0.05,1e-9\n"
            ),
            report!("team", 473_352, 473_353),
        ],
    ),
    (
        "content without a last line feed",
        b"post a 1 2\nx\ny",
        &[post!(b"a", b"1", b"x\ny")],
    ),
    (
        "content with a last line feed",
        b"post a 1 2\nx\ny\n",
        &[post!(b"a", b"1", b"x\ny\n")],
    ),
    (
        "content of empty lines",
        b"post a 1 2\n\n\nfoo",
        &[post!(b"a", b"1", b"\n\n"), BAD],
    ),
    (
        "content that reads as commands",
        b"post a 1 1\npost b 1 1\n",
        &[post!(b"a", b"1", b"post b 1 1\n")],
    ),
];

const LINES: &[Case] = &[
    (
        "no lines",
        b"post a 1 0\npost a 2 0",
        &[post!(b"a", b"1", b""), post!(b"a", b"2", b"")],
    ),
    (
        "leading zeros",
        b"post a 1 0000000000000000000000000002\nx\ny\nz\n",
        &[post!(b"a", b"1", b"x\ny\n"), BAD],
    ),
    ("signs", b"post a 1 +1\npost a 1 -1\n", &[BAD, BAD]),
    (
        "the most lines",
        b"post a 1 1000000\nx\n",
        &[Command::BadEnd],
    ),
    (
        "a line too many",
        b"post a 1 1000001\npost a 1 0\n",
        &[BAD, post!(b"a", b"1", b"")],
    ),
    (
        "a number past any type",
        b"post a 1 99999999999999999999999999\npost a 1 0\n",
        &[BAD, post!(b"a", b"1", b"")],
    ),
    (
        "empty words",
        b"post  1 1\nx\npost   1\ny\npost a 1 \n",
        &[post!(b"", b"1", b"x\n"), post!(b"", b"", b"y\n"), BAD],
    ),
    (
        "words that are judged later",
        b"post \xff x 1\ny\n",
        &[post!(b"\xff", b"x", b"y\n")],
    ),
    ("a word too many", b"post a 1 1 1\nx\n", &[BAD, BAD]),
    (
        "carriage returns",
        b"post a 1 0\r\nreport t 2024-01-01T00:00Z 2024-01-01T01:00Z\r\n",
        &[BAD, BAD],
    ),
    (
        "times",
        b"report t 2024-01-01T02:00:00+02:00 2024-01-01T01:00:00.000Z\n",
        &[report!("t", 473_352, 473_353)],
    ),
    (
        "the first hour",
        b"report t 1970-01-01T00:00Z 1970-01-01T00:00Z\n",
        &[report!("t", 0, 0)],
    ),
    (
        "hours backwards",
        b"report t 2024-01-01T01:00Z 2024-01-01T00:00Z\n",
        &[report!("t", 473_353, 473_352)],
    ),
    (
        "times that are no whole hours",
        b"report t 2024-01-01T00:00Z 2024-01-01T23:59:60Z\nreport t 2024-01-01T00:00:00.5Z 2024-01-01T01:00Z\n\
            report t 2024-01-01T00:00Z 2024-01-01T01:00:01Z\nreport t 2024-01-01 00:00Z 2024-01-01T01:00Z\n\
            report t 2024-01-01T00:00 2024-01-01T01:00Z\n",
        &[BAD, BAD, BAD, BAD, BAD],
    ),
    (
        "entries of other kinds",
        b"commit a 1 1\nid = 1\npolicy b 2 0\nPolicy b 2 0\n",
        &[
            Command::Entry {
                kind: EntryKind::Commit,
                origin: b"a",
                sequence: b"1",
                content: b"id = 1\n",
            },
            Command::Entry {
                kind: EntryKind::Policy,
                origin: b"b",
                sequence: b"2",
                content: b"",
            },
            BAD,
        ],
    ),
    (
        "added purchases, and lines that only look like them",
        b"add a 3 1\nid = 1\nAdd a 3 0\nadds a 3 0\nadd a 3\nadd a 3 0 0\nadd  a 3 0\n add a 3 0\nadd a 3 0\r\n\
            add b 18446744073709551615 0\nadd c 1 2\n\n",
        &[
            Command::Entry {
                kind: EntryKind::AddPurchase,
                origin: b"a",
                sequence: b"3",
                content: b"id = 1\n",
            },
            BAD,
            BAD,
            BAD,
            BAD,
            BAD,
            BAD,
            BAD,
            Command::Entry {
                kind: EntryKind::AddPurchase,
                origin: b"b",
                sequence: b"18446744073709551615",
                content: b"",
            },
            Command::BadEnd,
        ],
    ),
    (
        "withdrawals, and lines that only look like them",
        b"withdraw a 3 2\nwithdraw a 4 0\nwithdraw a 4 x\nwithdraw a 4 18446744073709551616\nwithdraw a 4\n\
            withdraw a 4 2 0\nwithdraw a 4 2 \nwithdraw a 4 2\r\nwithdraw a 4 +2\nWithdraw a 4 2\n withdraw a 4 2\n\
            withdraw b 0 018446744073709551615\nwithdraw  x 1\nid = 1\nwithdraw c 1 1",
        &[
            withdraw!(b"a", b"3", b"2"),
            BAD,
            BAD,
            BAD,
            BAD,
            BAD,
            BAD,
            BAD,
            BAD,
            BAD,
            BAD,
            withdraw!(b"b", b"0", b"018446744073709551615"),
            withdraw!(b"", b"x", b"1"),
            BAD,
            withdraw!(b"c", b"1", b"1"),
        ],
    ),
    (
        "lines",
        b"lines 2024-01-01T00:00Z 2024-01-01T01:00Z\n",
        &[Command::Lines {
            from: 473_352,
            to: 473_353,
        }],
    ),
    (
        "words that begin no command",
        b"commits\nlines  2024-01-01T00:00Z\n",
        &[BAD, BAD],
    ),
    (
        "the state",
        b"state\npost a 1 1\nstate\nstate\nstate",
        &[
            Command::State,
            post!(b"a", b"1", b"state\n"),
            Command::State,
            Command::State,
        ],
    ),
    (
        "checkpoints, and lines that only look like them",
        b"checkpoint\ncheckpoint \n checkpoint\ncheckpoints\nCheckpoint\ncheckpoint now\ncheckpoint",
        &[
            Command::Checkpoint,
            BAD,
            BAD,
            BAD,
            BAD,
            BAD,
            Command::Checkpoint,
        ],
    ),
    (
        "lines that only look like `state`",
        b"state \n state\nstates\nState\nstat\nstate state\nstate\r\nstate\t\nstate 2024-01-01T00:00Z\n",
        &[BAD, BAD, BAD, BAD, BAD, BAD, BAD, BAD, BAD],
    ),
];

const SEQUENCES: &[(&[u8], Option<u64>)] = &[
    (b"1", Some(1)),
    (b"9", Some(9)),
    (b"10", Some(10)),
    (b"007", Some(7)),
    (b"0000000000000000000000000000002", Some(2)),
    (b"18446744073709551614", Some(18_446_744_073_709_551_614)),
    (b"18446744073709551615", Some(18_446_744_073_709_551_615)),
    (b"00018446744073709551615", Some(18_446_744_073_709_551_615)),
    (b"18446744073709551616", None),
    (b"18446744073709551617", None),
    (b"99999999999999999999999999", None),
    (b"0", None),
    (b"000", None),
    (b"", None),
    (b"+1", None),
    (b"-1", None),
    (b"+", None),
    (b" 1", None),
    (b"1 ", None),
    (b"1 2", None),
    (b"1\r", None),
    (b"1.0", None),
    (b"1_000", None),
    (b"0x1", None),
    (b"1a", None),
    (b"/", None),
    (b":", None),
    (b"\xff", None),
    (b"\xd9\xa1", None),
];

#[test]
fn reads_whole_scripts(rt: HostRuntime) {
    none_wrong(&rt, first_misread(SCRIPTS));
}

#[test]
fn reads_lines(rt: HostRuntime) {
    none_wrong(&rt, first_misread(LINES));
}

// The place of the first word that reads as another number, or as none.
fn first_misread_number() -> Option<usize> {
    for (place, (word, number)) in SEQUENCES.iter().enumerate() {
        if sequence_number(word) != *number {
            return Some(place);
        }
    }
    None
}

#[test]
fn reads_sequence_numbers(rt: HostRuntime) {
    none_wrong(&rt, first_misread_number());
}
