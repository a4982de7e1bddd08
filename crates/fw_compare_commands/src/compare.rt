//! `focusd compare`: what each group cost in a range of time and in the one before, and the differences.
use crate::before::{Before, read_before, say_before};
use crate::groups::groups_in;
use clap::ArgMatches;
use fw_add_commands::{PolicyFile, policy_file};
use fw_calendar::Period;
use fw_command_line::{BY, POLICY};
use fw_commands::{
    GivenPolicy, HoursQuestion, Wanted, ask_hours, read_hours, read_wanted, say_charged,
    say_selected, wrong_hours,
};
use fw_compare::{Form, Key, View, compared, ranked, written};
use fw_console::{Fault, letters, step_of, workers_of, wrong_time, wrong_use};
use fw_selections::SheetFormat;
use fw_snapshot::Snapshot;
use fw_views::AskedHours;
use fw_what_if::under_policy;
use std::process::ExitCode;
use std::thread::Threads;

/// A comparison of a range with another one.
#[derive(Drop)]
struct Comparing<'q, R> {
    threads: &'q R,
    // how many workers make each of its two reports
    workers: u32,
    wanted: &'q Wanted,
    before: Before,
    policy: Option<GivenPolicy<'q>>,
}

/// Prints the comparison that the options ask for.
pub fn print_comparison(
    rt: &HostRuntime,
    threads: &(impl Threads + Sync),
    options: &ArgMatches<'_>,
) -> Result<ExitCode, Fault> {
    let hours = match read_hours(rt.alloc(), options)? {
        Ok(hours) => hours,
        Err(option) => return Ok(wrong_hours(rt, options, option)),
    };
    let before = match read_before(rt.alloc(), options)? {
        Ok(before) => before,
        Err(option) => return Ok(wrong_time(rt, options, option)),
    };
    if step_of(options.get_str(BY)).is_some() {
        return Ok(wrong_use(
            rt,
            "--by: names a tag or a column here, as SkuId, and no period; a tag of this name is tag:NAME",
        ));
    }
    match read_wanted(rt, options)? {
        Ok(wanted) => print_wanted(rt, threads, options, hours, &wanted, before),
        Err(status) => Ok(status),
    }
}

// Prints the comparison of what is wanted, under the policy of the warehouse or the one of a file.
fn print_wanted<'q>(
    rt: &HostRuntime,
    threads: &'q (impl Threads + Sync),
    options: &ArgMatches<'_>,
    hours: AskedHours,
    wanted: &'q Wanted,
    before: Before,
) -> Result<ExitCode, Fault> {
    let plain = Comparing {
        threads,
        workers: workers_of(threads, options),
        wanted,
        before,
        policy: None,
    };
    if options.contains_id(POLICY) && wanted.one_tag().is_none() {
        return Ok(no_policy(rt));
    }
    match &policy_file(rt, options)? {
        PolicyFile::Policy(policy) => {
            let file = options.get_str(POLICY).unwrap_or("");
            print_under(rt, options, hours, &plain, GivenPolicy { file, policy })
        }
        PolicyFile::None => Ok(ask_hours(rt, options, hours, &plain)),
        PolicyFile::Refused => Ok(ExitCode::FAILURE),
    }
}

// Prints a comparison under a policy that is given, where it is for the tag that is asked for.
fn print_under(
    rt: &HostRuntime,
    options: &ArgMatches<'_>,
    hours: AskedHours,
    plain: &Comparing<'_, impl Threads + Sync>,
    given: GivenPolicy<'_>,
) -> Result<ExitCode, Fault> {
    if plain.wanted.one_tag() != Some(given.policy.key()) {
        return Ok(given.refuse(rt)?);
    }
    let under = Comparing {
        threads: plain.threads,
        workers: plain.workers,
        wanted: plain.wanted,
        before: plain.before,
        policy: Some(given),
    };
    Ok(ask_hours(rt, options, hours, &under))
}

// Says that no policy charges the groups that are asked for.
fn no_policy(rt: &HostRuntime) -> ExitCode {
    wrong_use(
        rt,
        "--policy: a policy shares the costs of all lines, by one --tag",
    )
}

impl<'q, R: Threads + Sync> HoursQuestion for Comparing<'q, R> {
    ghost use Rattle.std.specs.Thread.{IsSync};

    ghost is_askable = { λ _. IsSync R.row };

    fn answer(
        &self,
        rt: &HostRuntime,
        snapshot: &Snapshot,
        hours: Period,
    ) -> Result<Vec<u8>, Fault> {
        let before = self.before.of(hours)?;
        say_before(rt, before)?;
        match self.policy {
            Some(given) => {
                let under = under_policy(rt.alloc(), snapshot.state(), given.policy)?;
                self.answer_own(rt, &under, before, hours)
            }
            None => self.answer_own(rt, snapshot, before, hours),
        }
    }
}

impl<'q, R: Threads + Sync> Comparing<'q, R> {
    // The comparison, under the policy of the warehouse.
    fn answer_own(
        &self,
        rt: &HostRuntime,
        snapshot: &Snapshot,
        before: Period,
        hours: Period,
    ) -> Result<Vec<u8>, Fault> {
        let alloc = rt.alloc();
        let (threads, workers) = (self.threads, self.workers);
        let first = groups_in(threads, alloc, snapshot, before, self.wanted, workers)?;
        let second = groups_in(threads, alloc, snapshot, hours, self.wanted, workers)?;
        let lines = compared(alloc, first.as_slice(), second.as_slice())?;
        let lines = ranked(alloc, lines.as_slice())?;
        self.say(rt, snapshot, hours)?;
        let keys = self.wanted.names(alloc)?;
        let mut names = Vec::new(alloc);
        for key in &keys {
            names.push(Key { name: key.name })?;
        }
        let currency = snapshot.state().currency();
        let view = View {
            keys: names.as_slice(),
            currency: letters(&currency),
            before,
            after: hours,
            has_charges: self.wanted.one_tag().is_some(),
            top: self.wanted.top(),
        };
        Ok(written(
            alloc,
            lines.as_slice(),
            &view,
            form_of(self.wanted.format()),
        )?)
    }

    // Says what the comparison leaves out, and which policy it applied.
    fn say(&self, rt: &HostRuntime, snapshot: &Snapshot, hours: Period) -> Result<(), Fault> {
        match self.wanted.one_tag() {
            Some(key) => say_charged(rt, snapshot.state(), hours, key, self.policy)?,
            None => say_selected(rt, snapshot.state(), hours, self.wanted)?,
        }
        Ok(())
    }
}

// The form of a comparison, by the format that is asked for.
fn form_of(format: Option<SheetFormat>) -> Form {
    match format {
        Some(SheetFormat::Csv) => Form::Csv,
        Some(SheetFormat::Json) => Form::Json,
        _ => Form::Table,
    }
}
