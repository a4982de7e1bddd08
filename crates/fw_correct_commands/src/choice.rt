//! Which posts of an origin a command is about.
ghost use Rattle.std.specs.Prelude.{◌≡◌};
ghost use Rattle.std.specs.Process.{exit_status};
ghost use Rattle.fw_console.specs.Statuses.{wrong_use_status};

use clap::ArgMatches;
use fw_command_line::{ALL, FROM, SEQ, TO};
use fw_console::{Fault, WRONG_USE, read_range, wrong_time};
use std::alloc::Global;
use std::process::ExitCode;

/// A range of hours since 1970: from the first one up to the one behind the last.
#[derive(Clone, Copy, Drop)]
pub(crate) struct Hours {
    pub(crate) from: u64,
    pub(crate) to: u64,
}

/// Which posts of an origin are meant.
#[derive(Clone, Copy, Drop)]
pub(crate) enum Choice {
    /// The one of this number.
    Number(u64),
    /// Those whose rows begin in these hours.
    Range(Hours),
    /// All of them.
    All,
}

/// What is wrong with the options that say which posts are meant.
#[derive(Clone, Copy, Drop)]
pub(crate) enum WrongChoice {
    /// None of them is there, or more than one.
    NotOne,
    /// One end of the range is missing.
    OneEnd,
    /// The value of `--seq` is no number from 1 on.
    Number,
    /// The value of this option is no time.
    Time(&'static str),
}

/// The posts that the options name.
pub(crate) fn read_choice(
    alloc: Global,
    options: &ArgMatches<'_>,
) -> Result<Result<Choice, WrongChoice>, Fault> {
    let range = match read_hours(alloc, options)? {
        Ok(range) => range,
        Err(wrong) => return Ok(Err(wrong)),
    };
    Ok(choice_of(options.get_str(SEQ), range, options.get_flag(ALL)))
}

// The posts that a number, a range or the word for all name; one of the three has to be there.
fn choice_of(
    number: Option<&str>,
    range: Option<Hours>,
    takes_all: bool,
) -> Result<Choice, WrongChoice> {
    match (number, range, takes_all) {
        (Some(text), None, false) => match text.parse::<u64>() {
            Ok(number) if number >= 1 => Ok(Choice::Number(number)),
            _ => Err(WrongChoice::Number),
        },
        (None, Some(hours), false) => Ok(Choice::Range(hours)),
        (None, None, true) => Ok(Choice::All),
        _ => Err(WrongChoice::NotOne),
    }
}

/// The range that the options name; all posts are meant where they name none.
pub(crate) fn read_hours(
    alloc: Global,
    options: &ArgMatches<'_>,
) -> Result<Result<Option<Hours>, WrongChoice>, Fault> {
    match (options.get_str(FROM), options.get_str(TO)) {
        (None, None) => Ok(Ok(None)),
        (Some(_), Some(_)) => match read_range(alloc, options)? {
            Ok((from, to)) => Ok(Ok(Some(Hours { from, to }))),
            Err(option) => Ok(Err(WrongChoice::Time(option))),
        },
        _ => Ok(Err(WrongChoice::OneEnd)),
    }
}

/// Says what is wrong with the options.
pub(crate) fn wrong_choice(
    rt: &HostRuntime,
    options: &ArgMatches<'_>,
    wrong: WrongChoice,
) -> ExitCode
    ensures { exit_status result ≡ wrong_use_status }
{
    let why = match wrong {
        WrongChoice::NotOne =>
            "say which posts: one by --seq N, those of a range by --from T --to T, or all by --all",
        WrongChoice::OneEnd => "a range has both --from and --to",
        WrongChoice::Number => "--seq is not a number from 1 on, as 3",
        WrongChoice::Time(option) => return wrong_time(rt, options, option),
    };
    let _ = eprintln!(rt; "focusd: {why}");
    ExitCode::from(WRONG_USE)
}
