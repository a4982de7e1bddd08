//! Questions to the warehouse of a folder.
ghost use Rattle.std.specs.Prelude.{◌≡◌};

use crate::hours_question::HoursQuestion;
use crate::past::{has_entries, past_of, read_as_of, too_few, wrong_as_of};
use crate::policy::{GivenPolicy, say_policy};
use crate::range::say_hours;
use crate::selecting::selection_text;
use crate::silence::{say_left_out, say_selected};
use crate::wanted::Wanted;
use clap::ArgMatches;
use fw_calendar::{Period, Step};
use fw_command_line::DIR;
use fw_console::{Fault, advised, let_go, open_to_ask, print_answer, warn_unfinished};
use fw_disk::FileVolume;
use fw_query::Query;
use fw_recover::Store;
use fw_snapshot::{Snapshot, State};
use fw_table::shown_text;
use fw_views::{AskedHours, CoverageFormat, Question, answer, answer_of, row_hours};
use std::alloc::AllocError;
use std::process::ExitCode;

/// What is asked of a range of hours, beside the report by a tag.
#[derive(Clone, Copy, Debug)]
pub(crate) enum Asked<'q> {
    /// What each group of a tag cost before any policy, as a document.
    Direct { key: &'q str, step: Option<Step> },
    /// What each group of several keys cost, under filters and maps.
    Selection(&'q Wanted),
    /// Each line.
    Lines,
    /// How well commitments were used.
    Coverage { format: CoverageFormat },
}

/// What a report sums.
pub(crate) fn query_of<'q>(key: &'q str, hours: Period) -> Query<'q> {
    Query {
        key,
        from_hour: hours.from,
        to_hour: hours.to,
    }
}

/// Opens the warehouse of the folder that the options name, and prints its answer to a question. Where
/// rows are being replaced and the replacement was stopped, that is said too.
pub(crate) fn ask(rt: &HostRuntime, options: &ArgMatches<'_>, question: &Question<'_>) -> ExitCode {
    let folder = options.get_str(DIR).unwrap_or("");
    let asked = answer_in(rt, folder, question).and_then(|text| print_answer(rt, text.as_slice()));
    advised(rt, folder, asked)
}

// The answer of the warehouse of a folder.
fn answer_in(rt: &HostRuntime, folder: &str, question: &Question<'_>) -> Result<Vec<u8>, Fault> {
    let store = open_to_ask(rt, folder)?;
    let answered = answer_store(rt, folder, &store, question);
    let_go(store, answered)
}

// The answer of a warehouse that is open.
fn answer_store(
    rt: &HostRuntime,
    folder: &str,
    store: &Store<FileVolume>,
    question: &Question<'_>,
) -> Result<Vec<u8>, Fault> {
    warn_unfinished(rt, folder)?;
    Ok(answer(rt.alloc(), store, question)?)
}

/// Opens the warehouse of the folder that the options name, and prints its answer to a question over the hours that are asked for, of which its
/// rows give what is left open. It also says what the answer leaves out.
pub fn ask_hours<Q: HoursQuestion>(
    rt: &HostRuntime,
    options: &ArgMatches<'_>,
    hours: AskedHours,
    asked: &Q,
) -> ExitCode
    requires { Q.is_askable asked.now }
{
    let folder = options.get_str(DIR).unwrap_or("");
    let as_of = match read_as_of(options) {
        Ok(as_of) => as_of,
        Err(text) => return wrong_as_of(rt, text),
    };
    let answered = answer_hours_in(rt, folder, as_of, hours, asked);
    let is_range = matches!(answered, Err(Fault::Range));
    let printed = answered.and_then(|answered| print_if_any(rt, folder, answered));
    let status = advised(rt, folder, printed);
    if is_range {
        say_part(rt, hours);
    }
    status
}

/// What became of a question over hours.
enum Answered {
    /// Its answer.
    Text(Vec<u8>),
    /// The rows are to give the range, and there are none.
    NoRows,
    /// It is asked as of more entries than there are, which are so many.
    TooFew(usize),
}

// Prints an answer, or says why there is none.
fn print_if_any(rt: &HostRuntime, folder: &str, answered: Answered) -> Result<ExitCode, Fault> {
    match answered {
        Answered::Text(text) => print_answer(rt, text.as_slice()),
        Answered::NoRows => Ok(no_rows(rt, folder)?),
        Answered::TooFew(entries) => Ok(too_few(rt, folder, entries)?),
    }
}

// Says how to ask for fewer hours, where the rows gave the range.
pub(crate) fn say_part(rt: &HostRuntime, hours: AskedHours) {
    if let AskedHours::Given(_) = hours {
        return;
    }
    let _ = eprintln!(rt;
        "What to do: ask for some of the hours that have rows, as by --month 2024-09 or --last 3 months"
    );
}

// Says that no row of the warehouse of a folder counts.
pub(crate) fn no_rows(rt: &HostRuntime, folder: &str) -> Result<ExitCode, AllocError> {
    let folder = shown_text(rt.alloc(), folder)?;
    let _ = eprintln!(rt;
        "focusd: {folder}: the warehouse has no row that counts, so the rows give no range"
    );
    let _ = eprintln!(rt; "What to do: import an export, or give the range by --from and --to");
    Ok(ExitCode::FAILURE)
}

// The answer of the warehouse of a folder, as of so many entries where a number is given.
fn answer_hours_in<Q: HoursQuestion>(
    rt: &HostRuntime,
    folder: &str,
    as_of: Option<usize>,
    hours: AskedHours,
    asked: &Q,
) -> Result<Answered, Fault>
    requires { Q.is_askable asked.now }
{
    let store = open_to_ask(rt, folder)?;
    let answered = answer_as_of(rt, folder, store.state(), as_of, hours, asked);
    let_go(store, answered)
}

// The answer of a warehouse, as of so many entries where a number is given.
fn answer_as_of<Q: HoursQuestion>(
    rt: &HostRuntime,
    folder: &str,
    snapshot: &Snapshot,
    as_of: Option<usize>,
    hours: AskedHours,
    asked: &Q,
) -> Result<Answered, Fault>
    requires { Q.is_askable asked.now }
{
    warn_unfinished(rt, folder)?;
    if !has_entries(snapshot.state(), as_of) {
        return Ok(Answered::TooFew(snapshot.state().entries()));
    }
    let past = past_of(rt.alloc(), snapshot, as_of)?;
    answer_hours(rt, &past, hours, asked)
}

// The answer of a warehouse.
fn answer_hours<Q: HoursQuestion>(
    rt: &HostRuntime,
    snapshot: &Snapshot,
    hours: AskedHours,
    asked: &Q,
) -> Result<Answered, Fault>
    requires { Q.is_askable asked.now }
{
    let rows = match hours {
        AskedHours::Given(_) => None,
        _ => row_hours(rt.alloc(), snapshot.state())?,
    };
    let Some(covered) = hours.of_rows(rows) else {
        return Ok(Answered::NoRows);
    };
    say_hours(rt, hours, covered)?;
    Ok(Answered::Text(asked.answer(rt, snapshot, covered)?))
}

impl<'q> HoursQuestion for Asked<'q> {
    ghost is_askable = { λ _. Unit {0} };

    fn answer(
        &self,
        rt: &HostRuntime,
        snapshot: &Snapshot,
        hours: Period,
    ) -> Result<Vec<u8>, Fault> {
        let text = text_over(rt, snapshot, hours, *self)?;
        if let Asked::Selection(wanted) = self {
            say_selected(rt, snapshot.state(), hours, wanted)?;
        }
        Ok(text)
    }
}

/// Says of a report by a tag what it leaves out, and which policy it applied.
pub fn say_charged(
    rt: &HostRuntime,
    state: &State,
    hours: Period,
    key: &str,
    policy: Option<GivenPolicy<'_>>,
) -> Result<(), AllocError> {
    say_left_out(rt, state, hours, key)?;
    match policy {
        Some(given) => given.say(rt),
        None => say_policy(rt, state, key),
    }
}

// The answer of a warehouse over these hours. Of a selection with sums it is said too how many rows have no amount.
fn text_over(
    rt: &HostRuntime,
    snapshot: &Snapshot,
    hours: Period,
    asked: Asked<'_>,
) -> Result<Vec<u8>, Fault> {
    let Period { from, to } = hours;
    let question = match asked {
        Asked::Selection(wanted) => return selection_text(rt, snapshot, hours, wanted),
        Asked::Direct { key, step } => Question::Direct {
            query: query_of(key, hours),
            step,
        },
        Asked::Lines => Question::Lines { from, to },
        Asked::Coverage { format } => Question::Coverage { from, to, format },
    };
    Ok(answer_of(rt.alloc(), snapshot, &question)?)
}
