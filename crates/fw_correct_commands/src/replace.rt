//! `focusd replace`: what an origin sent is replaced by an export that was sent again.
use crate::choice::{Hours, read_hours, wrong_choice};
use crate::costs::change_between;
use crate::entries::{Missing, add_posts, withdrawals_of};
use crate::groups::{add_entries, group_len, state_with};
use crate::reading::{Form, read_files};
use crate::texts::{hours_text, print_line, rows_text};
use crate::withdraw::say_across;
use clap::ArgMatches;
use fw_charge::hour_of;
use fw_columns::Columns;
use fw_command_line::{DIALECT, DIR, DRY_RUN, FILES, KEEP, ORIGIN, QUIET};
use fw_console::{
    Fault, Member, advised, begin_replacement, closed, end_replacement, open_to_ask,
    open_warehouse, say_fault, tell, tells_json, unfinished_origin, wrong_origin, wrong_use,
};
use fw_dialect::Dialect;
use fw_disk::Volume;
use fw_entry::{Entry, is_origin};
use fw_export_files::{keeper_of, read_keeps};
use fw_recover::Store;
use fw_replace::{Matching, Post, Reach, StoredRows, matched, posts_of, reach_of, summary_of};
use fw_snapshot::{Snapshot, State};
use fw_table::count_text;
use std::alloc::{AllocError, Global};
use std::process::ExitCode;

/// What is to be replaced, and how.
#[derive(Drop)]
struct Job<'a> {
    folder: &'a str,
    origin: &'a str,
    range: Option<Hours>,
    is_dry: bool,
    is_quiet: bool,
    /// Whether what was done isn't said in words.
    is_silent: bool,
}

/// What a replacement did, or would do where nothing is to be written.
#[derive(Clone, Copy, Drop)]
struct Replaced {
    rows_before: u64,
    rows_after: u64,
}

impl Replaced {
    // Its members in JSON.
    fn members(self) -> [Member; 2] {
        [
            Member::new("rowsBefore", self.rows_before),
            Member::new("rowsAfter", self.rows_after),
        ]
    }
}

/// What a replacement does.
#[derive(Drop)]
struct Plan {
    /// How many rows count before and after, of those that are replaced.
    rows_before: u64,
    rows_after: u64,
    /// The hours that have a row before or after, if there is one.
    hours: Option<Hours>,
    /// What is added: first what withdraws posts, then posts.
    entries: Vec<Entry>,
}

/// Replaces the rows that the options name.
pub fn replace_rows(rt: &HostRuntime, options: &ArgMatches<'_>) -> Result<ExitCode, Fault> {
    let origin = options.get_str(ORIGIN).unwrap_or("");
    if !is_origin(origin.as_bytes()) {
        return Ok(wrong_origin(rt, origin));
    }
    let range = match read_hours(rt.alloc(), options)? {
        Ok(range) => range,
        Err(wrong) => return Ok(wrong_choice(rt, options, wrong)),
    };
    let keeps = match read_keeps(rt.alloc(), options.get_strs(KEEP).unwrap_or(&[]))? {
        Ok(keeps) => keeps,
        Err(why) => return Ok(wrong_use(rt, why.as_str())),
    };
    let folder = options.get_str(DIR).unwrap_or("");
    let job = Job {
        folder,
        origin,
        range,
        is_dry: options.get_flag(DRY_RUN),
        is_quiet: options.get_flag(QUIET),
        is_silent: tells_json(options),
    };
    let form = Form {
        dialect: options.get_str(DIALECT).and_then(Dialect::of_name),
        keeper: keeper_of(rt.alloc(), keeps),
    };
    let done = replace_in(rt, &job, form, options.get_strs(FILES).unwrap_or(&[]));
    end(rt, &job, done)
}

// The status of what was done, which is also printed as JSON where that is asked for.
fn end(
    rt: &HostRuntime,
    job: &Job<'_>,
    done: Result<Option<Replaced>, Fault>,
) -> Result<ExitCode, Fault> {
    let status = advised(rt, job.folder, done.map(status_of));
    match done {
        _ if !job.is_silent => Ok(status),
        Ok(Some(replaced)) => tell(rt, "replace", &replaced.members(), status),
        Ok(None) | Err(_) => tell(rt, "replace", &[], status),
    }
}

// The status of what was done; nothing was, where something was refused.
fn status_of(done: Option<Replaced>) -> ExitCode {
    match done {
        Some(_) => ExitCode::SUCCESS,
        None => ExitCode::FAILURE,
    }
}

// Replaces rows of the warehouse of a folder; `None` where something is refused, which is said.
fn replace_in(
    rt: &HostRuntime,
    job: &Job<'_>,
    form: Form,
    files: &[&str],
) -> Result<Option<Replaced>, Fault> {
    let mut store = if job.is_dry {
        open_to_ask(rt, job.folder)?
    } else {
        open_warehouse(rt, job.folder)?
    };
    let done = replace_by(rt, &mut store, job, form, files);
    closed(store, done)
}

// Replaces rows of a warehouse by those of files.
fn replace_by<V: Volume>(
    rt: &HostRuntime,
    store: &mut Store<V>,
    job: &Job<'_>,
    form: Form,
    files: &[&str],
) -> Result<Option<Replaced>, Fault> {
    if is_another_unfinished(rt, job)? {
        return Ok(None);
    }
    let currency = store.state().state().currency();
    match read_files(rt, currency, job.is_quiet, form, files)? {
        Some(parts) => replace(rt, store, job, parts),
        None => Ok(nothing_done(rt)),
    }
}

// Whether a replacement of another origin's rows is unfinished, which is said.
fn is_another_unfinished(rt: &HostRuntime, job: &Job<'_>) -> Result<bool, Fault> {
    match unfinished_origin(rt, job.folder)? {
        Some(origin) if origin.as_str() != job.origin => {
            let about = format!(in rt.alloc(); "the rows of {origin}")?;
            say_fault(rt, about.as_str(), "R6 Unfinished");
            Ok(true)
        }
        _ => Ok(false),
    }
}

// Says that a fault kept everything as it was.
fn nothing_done(rt: &HostRuntime) -> Option<Replaced> {
    let _ = eprintln!(rt; "focusd: nothing was replaced");
    None
}

// Replaces rows of a warehouse by those of posts.
fn replace<V: Volume>(
    rt: &HostRuntime,
    store: &mut Store<V>,
    job: &Job<'_>,
    parts: Vec<Columns>,
) -> Result<Option<Replaced>, Fault> {
    match planned(rt, store.state().state(), job, parts)? {
        Some(plan) => replace_as(rt, store, job, &plan),
        None => Ok(nothing_done(rt)),
    }
}

// Replaces rows of a warehouse as a plan says.
fn replace_as<V: Volume>(
    rt: &HostRuntime,
    store: &mut Store<V>,
    job: &Job<'_>,
    plan: &Plan,
) -> Result<Option<Replaced>, Fault> {
    match change_of(rt, store.state(), plan)? {
        Some(change) => carry_through(rt, store, job, plan, change.as_str()),
        None => Ok(nothing_done(rt)),
    }
}

// Carries out a plan, unless nothing is to be written, and says what it changes.
fn carry_through<V: Volume>(
    rt: &HostRuntime,
    store: &mut Store<V>,
    job: &Job<'_>,
    plan: &Plan,
    change: &str,
) -> Result<Option<Replaced>, Fault> {
    if !job.is_dry && !carry_out(rt, store, job, plan)? {
        return Ok(None);
    }
    if !job.is_silent {
        print_line(rt, change)?;
    }
    Ok(Some(Replaced {
        rows_before: plan.rows_before,
        rows_after: plan.rows_after,
    }))
}

// What a replacement changes, in words; `None` where an entry of it isn't accepted, which was said.
fn change_of(rt: &HostRuntime, before: &Snapshot, plan: &Plan) -> Result<Option<String>, Fault> {
    let Some(after) = state_with(rt, before.state(), &plan.entries)? else {
        return Ok(None);
    };
    let Ok(after) = Snapshot::new(after) else {
        return Err(Fault::NoMemory);
    };
    let change = change_in(rt.alloc(), before, &after, plan.hours)?;
    Ok(Some(plan_text(rt.alloc(), plan, change)?))
}

// What the costs of some hours change by, in words.
fn change_in(
    alloc: Global,
    before: &Snapshot,
    after: &Snapshot,
    hours: Option<Hours>,
) -> Result<Option<String>, Fault> {
    match hours {
        Some(hours) => change_between(alloc, before, after, hours),
        None => Ok(None),
    }
}

// What a replacement does, in words.
fn plan_text(alloc: Global, plan: &Plan, change: Option<String>) -> Result<String, AllocError> {
    let before = rows_text(alloc, plan.rows_before)?;
    let after = count_text(alloc, plan.rows_after)?;
    match change {
        Some(change) => format!(in alloc; "{before} replaced by {after}; {change}"),
        None => format!(in alloc; "{before} replaced by {after}"),
    }
}

// Adds the entries of a plan; false where one was refused, which was said. Where they take more than one step, that is written down until the
// last one is done.
fn carry_out<V: Volume>(
    rt: &HostRuntime,
    store: &mut Store<V>,
    job: &Job<'_>,
    plan: &Plan,
) -> Result<bool, Fault> {
    let entries = plan.entries.as_slice();
    if group_len(entries) < entries.len() {
        begin_replacement(rt, job.folder, job.origin)?;
    }
    if !add_entries(rt, store, entries)? {
        return Ok(false);
    }
    end_replacement(rt, job.folder)?;
    Ok(true)
}

// What a replacement by the rows of posts does, which are let go of then.
fn planned(
    rt: &HostRuntime,
    state: &State,
    job: &Job<'_>,
    parts: Vec<Columns>,
) -> Result<Option<Plan>, Fault> {
    plan_of(rt, state, job, &parts)
}

// What a replacement does; `None` where a row lies outside of the range or an entry can't be, which was said.
fn plan_of(
    rt: &HostRuntime,
    state: &State,
    job: &Job<'_>,
    parts: &[Columns],
) -> Result<Option<Plan>, Fault> {
    let rows = StoredRows::of(rt.alloc(), state.segments())?;
    match replaced_posts(rt, state, &rows, job)? {
        Some(replaced) => plan_over(rt, state, job, &rows, &replaced, parts),
        None => Ok(None),
    }
}

// What a replacement of posts does.
fn plan_over(
    rt: &HostRuntime,
    state: &State,
    job: &Job<'_>,
    rows: &StoredRows,
    replaced: &[Post],
    parts: &[Columns],
) -> Result<Option<Plan>, Fault> {
    if !are_inside(rt, job, parts)? {
        return Ok(None);
    }
    let after = size_of(parts);
    let before = replaced_size(rows, replaced, after.hours);
    let matching = matched(rt.alloc(), rows, replaced, parts)?;
    let entries = entries_of(rt, state, job, &matching, parts);
    plan_with(entries, before, after.rows)
}

// The plan of entries, if there are such, over the rows that count before, and so many after.
fn plan_with(
    entries: Result<Option<Vec<Entry>>, Fault>,
    before: Size,
    rows_after: u64,
) -> Result<Option<Plan>, Fault> {
    match entries {
        Ok(Some(entries)) => Ok(Some(Plan {
            rows_before: before.rows,
            rows_after,
            hours: before.hours,
            entries,
        })),
        Ok(None) => Ok(None),
        Err(fault) => Err(fault),
    }
}

// The entries of a replacement: what withdraws the posts that go, and then the parts that aren't there.
fn entries_of(
    rt: &HostRuntime,
    state: &State,
    job: &Job<'_>,
    matching: &Matching,
    parts: &[Columns],
) -> Result<Option<Vec<Entry>>, Fault> {
    let numbers = numbers_of(rt.alloc(), &matching.left)?;
    let Some(mut entries) = withdrawals_of(rt, state, job.origin, &numbers)? else {
        return Ok(None);
    };
    let missing = Missing {
        parts,
        is_there: &matching.is_there,
    };
    let are_added = add_posts(rt, state, job.origin, &mut entries, missing)?;
    Ok(if are_added { Some(entries) } else { None })
}

// The numbers of posts.
fn numbers_of(alloc: Global, posts: &[Post]) -> Result<Vec<u64>, AllocError> {
    posts.iter().map(|post| post.number).collect(alloc)
}

// The posts that are replaced; `None` where one has rows both in the range and outside of it, which was said.
fn replaced_posts(
    rt: &HostRuntime,
    state: &State,
    rows: &StoredRows,
    job: &Job<'_>,
) -> Result<Option<Vec<Post>>, Fault> {
    let posts = posts_of(rt.alloc(), state, job.origin)?;
    match job.range {
        Some(range) => posts_in(rt, rows, job.origin, &posts, range),
        None => Ok(Some(posts)),
    }
}

// The posts whose rows are all in a range; `None` where one has rows outside of it too, which was said.
fn posts_in(
    rt: &HostRuntime,
    rows: &StoredRows,
    origin: &str,
    posts: &[Post],
    range: Hours,
) -> Result<Option<Vec<Post>>, Fault> {
    let mut inside = Vec::new(rt.alloc());
    let mut are_whole = true;
    for post in posts {
        match reach_of(rows, post, range.from, range.to) {
            Reach::Inside => inside.push(*post)?,
            Reach::Outside => {}
            Reach::Across => {
                are_whole = false;
                say_across(rt, origin, post.number, &summary_of(rows, post))?;
            }
        }
    }
    Ok(if are_whole { Some(inside) } else { None })
}

// Whether all rows of the files are in the range; where one isn't, that is said.
fn are_inside(rt: &HostRuntime, job: &Job<'_>, parts: &[Columns]) -> Result<bool, Fault> {
    let (Some(range), Some(hours)) = (job.range, size_of(parts).hours) else {
        return Ok(true);
    };
    if range.from <= hours.from && hours.to <= range.to {
        return Ok(true);
    }
    let hours = hours_text(rt.alloc(), hours.from, hours.to.saturating_sub(1))?;
    let about = format!(in rt.alloc(); "the files have rows of {hours}")?;
    say_fault(rt, about.as_str(), "R5 Outside");
    Ok(false)
}

/// How many rows there are, and the hours from the first one in which a row begins to the last.
#[derive(Clone, Copy, Drop)]
struct Size {
    rows: u64,
    hours: Option<Hours>,
}

// The size of the rows of parts.
fn size_of(parts: &[Columns]) -> Size {
    let mut size = Size {
        rows: 0,
        hours: None,
    };
    for part in parts {
        size.rows = size.rows.saturating_add(part.len() as u64);
        for start in part.starts() {
            let hour = hour_of(start.unsigned_abs());
            size.hours = Some(joined(size.hours, hour, hour));
        }
    }
    size
}

// The size of the rows of posts, whose hours are joined with others.
fn replaced_size(rows: &StoredRows, posts: &[Post], hours: Option<Hours>) -> Size {
    let mut size = Size { rows: 0, hours };
    for post in posts {
        let summary = summary_of(rows, post);
        size.rows = size.rows.saturating_add(post.rows as u64);
        size.hours = Some(joined(size.hours, summary.first_hour, summary.last_hour));
    }
    size
}

// Hours, and those from a first to a last one.
fn joined(hours: Option<Hours>, first: u64, last: u64) -> Hours {
    let end = last.saturating_add(1);
    match hours {
        Some(hours) => Hours {
            from: hours.from.min(first),
            to: hours.to.max(end),
        },
        None => Hours {
            from: first,
            to: end,
        },
    }
}
