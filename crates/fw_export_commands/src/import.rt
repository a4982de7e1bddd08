//! `focusd import`: CSV exports of any length are taken into a warehouse.
use crate::ahead::Ahead;
use crate::fitting::do_fit;
use crate::importing::{Import, Imported};
use crate::messages::{warn_of_posts_behind, wrong_currency};
use clap::ArgMatches;
use clap::parser::ValueSource;
use fw_command_line::{CREATE, CURRENCY, DIALECT, DIR, FILES, KEEP, ORIGIN, QUIET, WORKERS};
use fw_console::{
    Creates, Fault, advised, open_folder, print_answer, read_currency, tell, tells_json,
    wrong_origin, wrong_use,
};
use fw_dialect::Dialect;
use fw_entry::is_origin;
use fw_export_files::{Walk, keeper_of, read_keeps, walk_files};
use fw_rows::{Currency, Keep};
use std::alloc::{AllocError, Global};
use std::process::ExitCode;
use std::thread::Threads;

/// Imports the files that the options name. Where these name several workers, they read parts in threads ahead of the one that is stored.
pub fn import_files(
    rt: &HostRuntime,
    threads: &impl Threads,
    options: &ArgMatches<'_>,
) -> Result<ExitCode, Fault> {
    let Some(currency) = read_currency(options) else {
        return Ok(wrong_use(rt, "--currency: it must be three capital letters, e.g. USD"));
    };
    let origin = options.get_str(ORIGIN).unwrap_or("");
    if !is_origin(origin.as_bytes()) {
        return Ok(wrong_origin(rt, origin));
    }
    let keeps = match read_keeps(rt.alloc(), options.get_strs(KEEP).unwrap_or(&[]))? {
        Ok(keeps) => keeps,
        Err(why) => return Ok(wrong_use(rt, why.as_str())),
    };
    let folder = options.get_str(DIR).unwrap_or("");
    let (imported, done) = import_into(rt, threads, folder, currency, origin, keeps, options);
    let status = advised(rt, folder, done);
    if tells_json(options) {
        return tell(rt, "import", &imported.members(), status);
    }
    Ok(status)
}

// Imports the files into the warehouse of a folder. Also where that fails, what was imported before is counted.
fn import_into(
    rt: &HostRuntime,
    threads: &impl Threads,
    folder: &str,
    currency: Currency,
    origin: &str,
    keeps: Vec<Keep>,
    options: &ArgMatches<'_>,
) -> (Imported, Result<ExitCode, Fault>) {
    let creates = if options.get_flag(CREATE) {
        Creates::IfMissing(currency)
    } else {
        Creates::Never
    };
    match open_folder(rt, folder, creates) {
        Ok(house) => {
            let keeper = keeper_of(rt.alloc(), keeps);
            let mut import = Import::new(rt.alloc(), house, origin, keeper);
            let done = import_named(rt, threads, &mut import, folder, currency, options);
            (import.imported(), import.close(done))
        }
        Err(fault) => (Imported::default(), Err(fault)),
    }
}

// Imports the files, if the warehouse has the currency that was named.
fn import_named(
    rt: &HostRuntime,
    threads: &impl Threads,
    import: &mut Import<'_>,
    folder: &str,
    currency: Currency,
    options: &ArgMatches<'_>,
) -> Result<ExitCode, Fault> {
    let own = import.house.currency();
    if is_named(options) && own != currency {
        return wrong_currency(rt, folder, currency, own);
    }
    let files = options.get_strs(FILES).unwrap_or(&[]);
    let mut walk = Walk::new(rt, options.get_flag(QUIET), files);
    walk.dialect = options.get_str(DIALECT).and_then(Dialect::of_name);
    if !do_fit(rt, import, files)? {
        return Ok(ExitCode::FAILURE);
    }
    import.watch_others(rt.alloc())?;
    let workers = options.get_one(WORKERS).unwrap_or(1);
    if !import_all(rt, threads, import, files, walk, workers)? {
        return Ok(ExitCode::FAILURE);
    }
    import.end(rt.alloc())?;
    look_behind(rt, import)?;
    if tells_json(options) {
        return Ok(ExitCode::SUCCESS);
    }
    let answer = imported_text(rt.alloc(), import.imported())?;
    print_answer(rt, answer.as_bytes())
}

// Whether the command line names a currency.
fn is_named(options: &ArgMatches<'_>) -> bool {
    match options.value_source(CURRENCY) {
        Some(ValueSource::CommandLine) => true,
        Some(ValueSource::DefaultValue) | None => false,
    }
}

// Imports files; false where one was refused, which was said.
fn import_all<'f>(
    rt: &HostRuntime,
    threads: &impl Threads,
    import: &mut Import<'_>,
    files: &[&'f str],
    walk: Walk<'f>,
    workers: u32,
) -> Result<bool, Fault> {
    let mut walk = walk;
    let mut ahead = Ahead::new(rt.alloc(), import, threads, workers);
    let is_whole = walk_files(rt, files, &mut walk, &mut ahead);
    ahead.stop();
    drop(ahead);
    import.repeated = walk.repeated;
    is_whole
}

// Warns where the origin has posts that count behind those of the files.
fn look_behind(rt: &HostRuntime, import: &Import<'_>) -> Result<(), AllocError> {
    let mut first = None;
    let mut count: u64 = 0;
    let mut rows: u64 = 0;
    for post in import.posts(rt.alloc())?.as_slice() {
        if post.counts && post.number >= import.number {
            first = first.or(Some(post.number));
            count = count.saturating_add(1);
            rows = rows.saturating_add(post.rows);
        }
    }
    if let Some(first) = first {
        warn_of_posts_behind(rt, import.origin, first, count, rows);
    }
    Ok(())
}

// What was imported, and how many repeated headers were skipped, where there are any.
fn imported_text(alloc: Global, imported: Imported) -> Result<String, AllocError> {
    let Imported {
        added,
        same,
        posts,
        repeated,
    } = imported;
    let rows = if added == 1 { "row" } else { "rows" };
    let were = if same == 1 { "was" } else { "were" };
    let entries = if posts == 1 { "post" } else { "posts" };
    let skipped = skipped_text(alloc, repeated)?;
    format!(in alloc;
        "imported {added} {rows}, {same} {were} there already; {posts} {entries}{skipped}\n"
    )
}

// How many repeated headers were skipped, as a further clause; nothing where there is none.
fn skipped_text(alloc: Global, repeated: u64) -> Result<String, AllocError> {
    if repeated == 0 {
        return Ok(String::new(alloc));
    }
    let headers = if repeated == 1 { "header" } else { "headers" };
    format!(in alloc; "; {repeated} repeated {headers} skipped")
}
