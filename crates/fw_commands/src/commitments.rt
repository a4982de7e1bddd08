//! `focusd commitments`: what commitments cost, covered and saved in a range of time.
use crate::ask::ask_hours;
use crate::hours_question::HoursQuestion;
use crate::range::{read_hours, wrong_hours};
use crate::silence::{say_if_missing, say_missing};
use crate::wanted::{WantedKey, read_some_keys};
use clap::ArgMatches;
use fw_calendar::{Period, Step};
use fw_command_line::{BY, FORMAT, PRICE_TAG};
use fw_console::{Fault, letters, step_of};
use fw_figures::{Sheet, SheetFormat, commitments_of, written};
use fw_snapshot::{Snapshot, State};
use std::alloc::{AllocError, Global};
use std::process::ExitCode;

/// What the figures of commitments are asked for.
#[derive(Debug, Drop)]
struct Figured {
    keys: Vec<WantedKey>,
    /// The tag that has the prices of what providers' commitments cover.
    price_tag: Option<String>,
    step: Option<Step>,
    format: SheetFormat,
}

impl Figured {
    // The names of the keys.
    fn names(&self, alloc: Global) -> Result<Vec<&str>, AllocError> {
        let mut names = Vec::new(alloc);
        for key in &self.keys {
            names.push(key.name())?;
        }
        Ok(names)
    }

    // Says where no row and no commitment of the hours has one of the tags.
    fn say(&self, rt: &HostRuntime, state: &State, hours: Period) -> Result<(), AllocError> {
        say_missing(rt, state, hours, self.keys.as_slice())?;
        match self.price_tag() {
            Some(tag) => say_if_missing(rt, state, hours, tag),
            None => Ok(()),
        }
    }

    // The tag that has prices, where one has.
    fn price_tag(&self) -> Option<&str> {
        match &self.price_tag {
            Some(tag) => Some(tag.as_str()),
            None => None,
        }
    }
}

/// Prints the figures of commitments that the options ask for.
pub fn print_commitments(rt: &HostRuntime, options: &ArgMatches<'_>) -> Result<ExitCode, Fault> {
    let hours = match read_hours(rt.alloc(), options)? {
        Ok(hours) => hours,
        Err(option) => return Ok(wrong_hours(rt, options, option)),
    };
    let keys = match read_some_keys(rt, options)? {
        Ok(keys) => keys,
        Err(status) => return Ok(status),
    };
    let price_tag = match options.get_str(PRICE_TAG) {
        Some(tag) => Some(String::from_str(rt.alloc(), tag)?),
        None => None,
    };
    let figured = Figured {
        keys,
        price_tag,
        step: step_of(options.get_str(BY)),
        format: format_of(options.get_str(FORMAT)),
    };
    Ok(ask_hours(rt, options, hours, &figured))
}

// The format that a word of `--format` names.
fn format_of(word: Option<&str>) -> SheetFormat {
    match word {
        Some("csv") => SheetFormat::Csv,
        Some("json") => SheetFormat::Json,
        Some("html") => SheetFormat::Html,
        _ => SheetFormat::Table,
    }
}

impl HoursQuestion for Figured {
    ghost is_askable = { λ _. Unit {0} };

    fn answer(
        &self,
        rt: &HostRuntime,
        snapshot: &Snapshot,
        hours: Period,
    ) -> Result<Vec<u8>, Fault> {
        let text = figures_text(rt.alloc(), snapshot, hours, self)?;
        self.say(rt, snapshot.state(), hours)?;
        Ok(text)
    }
}

// The text of the figures over these hours.
fn figures_text(
    alloc: Global,
    snapshot: &Snapshot,
    hours: Period,
    figured: &Figured,
) -> Result<Vec<u8>, Fault> {
    let mut sources = Vec::new(alloc);
    for key in &figured.keys {
        sources.push(key.source())?;
    }
    let found = commitments_of(
        alloc,
        snapshot,
        sources.as_slice(),
        figured.price_tag(),
        hours,
        figured.step,
    )?;
    let names = figured.names(alloc)?;
    let currency = snapshot.state().currency();
    let sheet = Sheet {
        keys: names.as_slice(),
        price_tag: figured.price_tag(),
        currency: letters(&currency),
        hours,
        step: figured.step,
    };
    Ok(written(alloc, &found, &sheet, figured.format)?)
}
