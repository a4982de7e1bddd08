//! The options that several commands have.
ghost use Rattle.std.specs.Prelude.{◌≡◌, true, false, codes};
ghost use Rattle.clap.specs.declared.builder.action.ArgAction.TheVariants.{SetTrue};
ghost use Rattle.fw_command_line.specs.declared.parameter.Value.TheVariants.{Number};

use crate::ids::{
    BY, CREATE, CURRENCY, DIR, DRY_RUN, FILES, FORMAT, FROM, ORIGIN, QUIET, STRICT, SUMMARY, TAG,
    TO, TOP, WORKERS, YES,
};
use crate::parameter::{Parameter, Takes};
use clap::Command;
use std::alloc::{AllocError, Global};

/// The option that names the folder of the warehouse.
pub(crate) fn dir_option() -> Parameter
    ensures id { result.id.now ≡ codes "dir" }
    ensures needed { result.is_needed ≡ false }
{
    Parameter::option(DIR, "DIR", "The folder of the warehouse")
}

/// The option that names the folder of the warehouse, where it has to be given.
pub(crate) fn folder_option() -> Parameter
    ensures { result.is_needed ≡ true }
{
    dir_option().needed()
}

/// The option that says how many workers there are, from 1 to 64.
pub(crate) fn workers_option(help: &'static str) -> Parameter
    ensures id { result.id.now ≡ codes "workers" }
    ensures value { result.value ≡ Number 64 }
{
    Parameter::option(WORKERS, "N", help).or("1").up_to(64)
}

/// The option that says how many workers make a report; without it there are as many as there are processors.
pub(crate) fn report_workers_option() -> Parameter
    ensures id { result.id.now ≡ codes "workers" }
    ensures value { result.value ≡ Number 64 }
{
    Parameter::option(
        WORKERS,
        "N",
        "How many workers share the rows of a report by one tag, 1 to 64; without it, as many as there are processors",
    )
    .up_to(64)
}

/// The option that names the format of an answer, one of these words.
pub(crate) fn format_option(
    formats: &'static [&'static str],
    default: &'static str,
    help: &'static str,
) -> Parameter
    ensures id { result.id.now ≡ codes "format" }
    ensures needed { result.is_needed ≡ false }
{
    Parameter::option(FORMAT, "FORMAT", help)
        .or(default)
        .one_of(formats)
}

/// The formats of a report.
const REPORT_FORMATS: [&str; 4] = ["table", "csv", "json", "html"];

/// The option that names the format of a report.
pub(crate) fn report_format_option() -> Parameter
    ensures { result.is_needed ≡ false }
{
    format_option(
        REPORT_FORMATS.as_slice(),
        "table",
        "How the report is written",
    )
}

/// The option that names the tag.
pub(crate) fn tag_option() -> Parameter
    ensures id { result.id.now ≡ codes "tag" }
    ensures needed { result.is_needed ≡ false }
{
    Parameter::option(TAG, "KEY", "The tag whose values are the groups")
}

/// The periods that a range can be cut into.
pub(crate) const STEPS: [&str; 3] = ["hour", "day", "month"];

/// The option that cuts the range into periods.
pub(crate) fn by_option() -> Parameter
    ensures { result.is_needed ≡ false }
{
    Parameter::option(
        BY,
        "PERIOD",
        "Cuts the range into hours, days or months, each with a report of its own",
    )
    .one_of(STEPS.as_slice())
}

/// The option that shows the groups that are charged most.
pub(crate) fn top_option() -> Parameter
    ensures { result.is_needed ≡ false }
{
    Parameter::option(
        TOP,
        "N",
        "Shows the N groups that are charged most, and the sums of all others: 1 to 1,000",
    )
}

/// The argument that names a file or more, which help calls so.
pub(crate) fn files_argument(name: &'static str, help: &'static str) -> Parameter
    ensures { result.is_needed ≡ true }
{
    Parameter::argument(FILES, Takes::Many(name), help)
        .again()
        .needed()
}

/// The option that names the currency of a warehouse that is created.
pub(crate) fn currency_option() -> Parameter
    ensures { result.is_needed ≡ false }
{
    Parameter::option(
        CURRENCY,
        "CUR",
        "The currency of all costs, where a warehouse is created: three capital letters",
    )
    .or("USD")
}

/// The option that creates the warehouse.
pub(crate) fn create_option(help: &'static str) -> Parameter
    ensures { result.action ≡ SetTrue }
{
    Parameter::flag(CREATE, help)
}

/// The option that prints no progress.
pub(crate) fn quiet_option() -> Parameter
    ensures { result.action ≡ SetTrue }
{
    Parameter::flag(QUIET, "Prints no progress")
}

/// How a command says what it did.
const SUMMARIES: [&str; 2] = ["text", "json"];

/// The option that has a command say what it did for programs.
pub(crate) fn summary_option() -> Parameter
    ensures id { result.id.now ≡ codes "summary" }
    ensures needed { result.is_needed ≡ false }
{
    Parameter::option(
        SUMMARY,
        "HOW",
        "How it says what it did: in words, or as one line of JSON for programs",
    )
    .or("text")
    .one_of(SUMMARIES.as_slice())
}

/// The option that has a refused entry end the program with a status of its own.
pub(crate) fn strict_option() -> Parameter
    ensures { result.action ≡ SetTrue }
{
    Parameter::flag(
        STRICT,
        "Ends with status 3 where an entry was refused, and says how many were",
    )
}

/// The option that writes nothing.
pub(crate) fn dry_run_option(help: &'static str) -> Parameter
    ensures { result.action ≡ SetTrue }
{
    Parameter::flag(DRY_RUN, help)
}

/// The option that goes on without asking.
pub(crate) fn yes_option(help: &'static str) -> Parameter
    ensures { result.action ≡ SetTrue }
{
    Parameter::flag(YES, help)
}

/// The option that names who sent the posts.
pub(crate) fn poster_option() -> Parameter
    ensures { result.is_needed ≡ true }
{
    Parameter::option(ORIGIN, "NAME", "Who sent the posts").needed()
}

/// The option that takes a time.
pub(crate) fn time_option(id: &'static str, help: &'static str) -> Parameter
    ensures id { result.id ≡ id.entry }
    ensures needed { result.is_needed ≡ false }
{
    Parameter::option(id, "T", help)
}

/// The option that says when the range begins, where there needn't be one.
pub(crate) fn perhaps_from_option() -> Parameter
    ensures { result.is_needed ≡ false }
{
    time_option(FROM, "When the range begins")
}

/// The option that says when the range ends, where there needn't be one.
pub(crate) fn perhaps_to_option() -> Parameter
    ensures { result.is_needed ≡ false }
{
    time_option(
        TO,
        "When the range ends; the hour that begins then is not in it",
    )
}

/// A command that takes these.
pub(crate) fn command_with<'a>(
    alloc: Global,
    name: &'a str,
    about: &'a str,
    help: &'a str,
    parameters: &[Parameter],
) -> Result<Command<'a>, AllocError> {
    let mut arguments = Vec::new(alloc);
    for parameter in parameters {
        arguments.push(parameter.to_argument(alloc)?)?;
    }
    Command::new(alloc, name)
        .about(about)
        .after_help(help)
        .args(arguments)
}

/// A command that takes a folder alone.
pub(crate) fn folder_command<'a>(
    alloc: Global,
    name: &'a str,
    about: &'a str,
    example: &'a str,
) -> Result<Command<'a>, AllocError> {
    command_with(alloc, name, about, example, &[folder_option()])
}
