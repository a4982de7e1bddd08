//! `focusd withdraw`: posts are taken out of all reports.
use crate::asking::{Answer, ask};
use crate::choice::{Choice, read_choice, wrong_choice};
use crate::entries::withdrawals_of;
use crate::groups::{add_entries, state_with};
use crate::texts::{hours_text, posts_text, print_line, print_text, rows_text};
use clap::ArgMatches;
use fw_command_line::{DIR, DRY_RUN, ORIGIN, YES};
use fw_console::{
    Fault, WRONG_USE, advised, closed, open_to_ask, open_warehouse, say_fault, wrong_origin,
};
use fw_disk::Volume;
use fw_entry::{Entry, is_origin};
use fw_recover::Store;
use fw_replace::{Post, Reach, StoredRows, Summary, posts_of, reach_of, summary_of};
use fw_snapshot::State;
use fw_table::{Align, Line, cents_text, count_text, table_text};
use std::alloc::{AllocError, Global};
use std::process::ExitCode;

/// What is to be withdrawn, and how.
#[derive(Drop)]
struct Job<'a> {
    origin: &'a str,
    choice: Choice,
    is_dry: bool,
    says_yes: bool,
}

/// A post that is to be withdrawn.
#[derive(Drop)]
struct Chosen {
    post: Post,
    summary: Summary,
}

/// Withdraws the posts that the options name.
pub fn withdraw_posts(rt: &HostRuntime, options: &ArgMatches<'_>) -> Result<ExitCode, Fault> {
    let origin = options.get_str(ORIGIN).unwrap_or("");
    if !is_origin(origin.as_bytes()) {
        return Ok(wrong_origin(rt, origin));
    }
    let choice = match read_choice(rt.alloc(), options)? {
        Ok(choice) => choice,
        Err(wrong) => return Ok(wrong_choice(rt, options, wrong)),
    };
    let job = Job {
        origin,
        choice,
        is_dry: options.get_flag(DRY_RUN),
        says_yes: options.get_flag(YES),
    };
    let folder = options.get_str(DIR).unwrap_or("");
    Ok(advised(rt, folder, withdraw_from(rt, folder, &job)))
}

// Withdraws posts of the warehouse of a folder.
fn withdraw_from(rt: &HostRuntime, folder: &str, job: &Job<'_>) -> Result<ExitCode, Fault> {
    let mut store = if job.is_dry {
        open_to_ask(rt, folder)?
    } else {
        open_warehouse(rt, folder)?
    };
    let done = withdraw(rt, &mut store, job);
    closed(store, done)
}

// Withdraws posts of a warehouse, once they were listed and that is wanted.
fn withdraw<V: Volume>(
    rt: &HostRuntime,
    store: &mut Store<V>,
    job: &Job<'_>,
) -> Result<ExitCode, Fault> {
    match chosen_posts(rt, store.state().state(), job)? {
        Some(chosen) => withdraw_chosen(rt, store, job, &chosen),
        None => Ok(ExitCode::FAILURE),
    }
}

// Withdraws posts, once they were listed and that is wanted.
fn withdraw_chosen<V: Volume>(
    rt: &HostRuntime,
    store: &mut Store<V>,
    job: &Job<'_>,
    chosen: &[Chosen],
) -> Result<ExitCode, Fault> {
    if chosen.is_empty() {
        return nothing(rt, store.state().state(), job);
    }
    print_text(rt, chosen_text(rt.alloc(), chosen)?.as_str())?;
    if job.is_dry {
        return Ok(ExitCode::SUCCESS);
    }
    match wanted(rt, job, chosen)? {
        Answer::Yes => withdraw_all(rt, store, job, chosen),
        Answer::No => Ok(ExitCode::FAILURE),
        Answer::Nobody => Ok(unanswered(rt)),
    }
}

// Whether the posts are to be withdrawn.
fn wanted(rt: &HostRuntime, job: &Job<'_>, chosen: &[Chosen]) -> Result<Answer, Fault> {
    if job.says_yes {
        return Ok(Answer::Yes);
    }
    let posts = posts_text(rt.alloc(), chosen.len() as u64)?;
    let question = format!(in rt.alloc(); "Withdraw {posts}? It can't be taken back.")?;
    ask(rt, question.as_str())
}

// Says that nobody said yes.
fn unanswered(rt: &HostRuntime) -> ExitCode {
    let _ = eprintln!(rt; "focusd: nothing was withdrawn: say --yes to withdraw these posts");
    ExitCode::from(WRONG_USE)
}

// Says that no post is to be withdrawn.
fn nothing(rt: &HostRuntime, state: &State, job: &Job<'_>) -> Result<ExitCode, Fault> {
    let origin = job.origin;
    if let Choice::Number(number) = job.choice {
        if !state.has_post(origin, number) {
            let about = format!(in rt.alloc(); "{origin} has no post {number}")?;
            say_fault(rt, about.as_str(), "J6 NoSuchPost");
            return Ok(ExitCode::FAILURE);
        }
    }
    print_line(rt, "no post is left to withdraw")?;
    Ok(ExitCode::SUCCESS)
}

// The posts that are meant, in order; `None` where one has rows both in the range and outside of it, which was said.
fn chosen_posts(
    rt: &HostRuntime,
    state: &State,
    job: &Job<'_>,
) -> Result<Option<Vec<Chosen>>, Fault> {
    let rows = StoredRows::of(rt.alloc(), state.segments())?;
    let posts = posts_of(rt.alloc(), state, job.origin)?;
    let mut chosen = Vec::new(rt.alloc());
    let are_whole = choose(rt, &rows, job, &posts, &mut chosen)?;
    Ok(if are_whole { Some(chosen) } else { None })
}

// Chooses the posts that are meant; false where one has rows both in the range and outside of it, which is said.
fn choose(
    rt: &HostRuntime,
    rows: &StoredRows,
    job: &Job<'_>,
    posts: &[Post],
    chosen: &mut Vec<Chosen>,
) -> Result<bool, Fault> {
    let mut are_whole = true;
    for post in posts {
        let summary = summary_of(rows, post);
        match reach_in(rows, post, job.choice) {
            Reach::Inside => chosen.push(Chosen {
                post: *post,
                summary,
            })?,
            Reach::Outside => {}
            Reach::Across => {
                are_whole = false;
                say_across(rt, job.origin, post.number, &summary)?;
            }
        }
    }
    Ok(are_whole)
}

// Whether a post is meant.
fn reach_in(rows: &StoredRows, post: &Post, choice: Choice) -> Reach {
    match choice {
        Choice::Number(wanted) if wanted == post.number => Reach::Inside,
        Choice::Number(_) => Reach::Outside,
        Choice::Range(hours) => reach_of(rows, post, hours.from, hours.to),
        Choice::All => Reach::Inside,
    }
}

/// Says that a post has rows both in the range and outside of it.
pub(crate) fn say_across(
    rt: &HostRuntime,
    origin: &str,
    number: u64,
    summary: &Summary,
) -> Result<(), Fault> {
    let hours = hours_text(rt.alloc(), summary.first_hour, summary.last_hour)?;
    let about = format!(in rt.alloc(); "post {number} of {origin} has rows of {hours}")?;
    say_fault(rt, about.as_str(), "R4 Across");
    Ok(())
}

// The table of the posts.
fn chosen_text(alloc: Global, chosen: &[Chosen]) -> Result<String, AllocError> {
    let mut lines = Vec::new(alloc);
    lines.push(title(alloc)?)?;
    lines.push(Line::Rule)?;
    for one in chosen {
        lines.push(line_of(alloc, one)?)?;
    }
    table_text(
        alloc,
        &[Align::Right, Align::Right, Align::Left, Align::Right],
        lines.as_slice(),
    )
}

// The first line of the table.
fn title(alloc: Global) -> Result<Line, AllocError> {
    let mut cells = Vec::new(alloc);
    for name in ["Post", "Rows", "Hours", "Billed"] {
        cells.push(String::from_str(alloc, name)?)?;
    }
    Ok(Line::Cells(cells))
}

// The line of a post.
fn line_of(alloc: Global, chosen: &Chosen) -> Result<Line, AllocError> {
    let summary = &chosen.summary;
    let mut cells = Vec::new(alloc);
    cells.push(count_text(alloc, chosen.post.number)?)?;
    cells.push(count_text(alloc, chosen.post.rows as u64)?)?;
    cells.push(hours_text(alloc, summary.first_hour, summary.last_hour)?)?;
    cells.push(cents_text(alloc, summary.billed)?)?;
    Ok(Line::Cells(cells))
}

// Withdraws the posts, and says how many.
fn withdraw_all<V: Volume>(
    rt: &HostRuntime,
    store: &mut Store<V>,
    job: &Job<'_>,
    chosen: &[Chosen],
) -> Result<ExitCode, Fault> {
    let numbers = numbers_of(rt.alloc(), chosen)?;
    match withdrawals_of(rt, store.state().state(), job.origin, &numbers)? {
        Some(entries) => add_all(rt, store, chosen, &entries),
        None => Ok(ExitCode::FAILURE),
    }
}

// Adds the entries that withdraw posts, and says how many these are.
fn add_all<V: Volume>(
    rt: &HostRuntime,
    store: &mut Store<V>,
    chosen: &[Chosen],
    entries: &[Entry],
) -> Result<ExitCode, Fault> {
    if state_with(rt, store.state().state(), entries)?.is_none()
        || !add_entries(rt, store, entries)?
    {
        return Ok(ExitCode::FAILURE);
    }
    let text = withdrawn_text(rt.alloc(), chosen)?;
    print_line(rt, text.as_str())?;
    Ok(ExitCode::SUCCESS)
}

// What was withdrawn, in words.
fn withdrawn_text(alloc: Global, chosen: &[Chosen]) -> Result<String, AllocError> {
    let posts = posts_text(alloc, chosen.len() as u64)?;
    let rows = rows_text(alloc, rows_in(chosen))?;
    format!(in alloc; "withdrawn: {posts}, {rows}")
}

// The numbers of the posts.
fn numbers_of(alloc: Global, chosen: &[Chosen]) -> Result<Vec<u64>, AllocError> {
    chosen.iter().map(|one| one.post.number).collect(alloc)
}

// How many rows the posts have.
fn rows_in(chosen: &[Chosen]) -> u64 {
    let mut rows: u64 = 0;
    for one in chosen {
        rows = rows.saturating_add(one.post.rows as u64);
    }
    rows
}
