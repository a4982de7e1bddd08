//! `focusd run`: a script is read from standard input and answered.
ghost use Rattle.std.specs.Prelude.{◌≡◌, ◌≤◌};
ghost use Rattle.std.specs.Process.{exit_status};
ghost use Rattle.fw_console.specs.Statuses.{wrong_use_status};
ghost use Rattle.fw_serve.specs.Served.{most_workers};

use crate::strict::{Watched, strict_status};
use clap::ArgMatches;
use fw_command_line::{CREATE, CURRENCY, DIR, STRICT, WORKERS};
use fw_console::{
    Creates, Fault, Heard, advised_on_terminal, let_go, open_folder, read_currency, tell_failure,
    wrong_use,
};
use fw_disk::{NullVolume, Volume};
use fw_recover::Store;
use fw_rows::Currency;
use fw_serve::{ServeFault, serve};
use std::io::{self, BufWriter, IsTerminal, LineWriter, Write};
use std::process::ExitCode;
use std::thread::Threads;

/// How many bytes of answers are written at once.
const OUTPUT_BUFFER: usize = 64 * 1024;

/// Opens or creates the warehouse that the options name, and serves the script on standard input from it.
pub fn serve_script(
    rt: &HostRuntime,
    threads: &(impl Threads + Sync),
    options: &ArgMatches<'_>,
) -> Result<ExitCode, Fault> {
    let Some(currency) = read_currency(options) else {
        return Ok(wrong_currency(rt, options));
    };
    let workers = read_workers(options);
    let is_strict = options.get_flag(STRICT);
    let Some(folder) = options.get_str(DIR) else {
        let served = serve_memory(rt, threads, currency, workers, is_strict);
        return Ok(advised_on_terminal(rt, "", served));
    };
    let creates = if options.get_flag(CREATE) {
        Creates::New(currency)
    } else {
        Creates::Never
    };
    let served = serve_folder(rt, threads, folder, creates, workers, is_strict);
    Ok(advised_on_terminal(rt, folder, served))
}

// Says that the currency is none: the line that scripts know and, for a person at a terminal, what is wrong.
fn wrong_currency(rt: &HostRuntime, options: &ArgMatches<'_>) -> ExitCode
    ensures { exit_status result ≡ wrong_use_status }
{
    let status = wrong_use(rt, "currency");
    if rt.stderr().is_terminal() {
        let text = options.get_str(CURRENCY).unwrap_or("");
        let _ = eprintln!(rt; "--currency: {text:?} is not three capital letters, as USD");
    }
    status
}

// How many workers read posts and share the rows of a report. The command line lets no other number pass.
fn read_workers(options: &ArgMatches<'_>) -> u32
    ensures some { 1 ≤ result }
    ensures few { result ≤ most_workers }
{
    options.get_one(WORKERS).unwrap_or(1).clamp(1, 64)
}

// Serves the script from the warehouse of a folder. Each answer is written as soon as its line ends: whoever reads `accepted`
// knows then that the entry is stored.
fn serve_folder(
    rt: &HostRuntime,
    threads: &(impl Threads + Sync),
    folder: &str,
    creates: Creates,
    workers: u32,
    is_strict: bool,
) -> Result<ExitCode, Fault>
    requires some_workers { 1 ≤ workers }
    requires few_workers { workers ≤ most_workers }
{
    let Ok(output) = LineWriter::with_capacity(rt.alloc(), OUTPUT_BUFFER, rt.stdout()) else {
        return Err(Fault::NoMemory);
    };
    let mut store = open_folder(rt, folder, creates)?.into_store()?;
    let mut output = Heard::new(output);
    let served = serve_answers(rt, threads, &mut output, &mut store, workers, is_strict);
    tell_failure(rt, folder, store);
    served
}

// Serves the script from an empty warehouse in memory. It can't be opened again, so no byte of its log is kept.
fn serve_memory(
    rt: &HostRuntime,
    threads: &(impl Threads + Sync),
    currency: Currency,
    workers: u32,
    is_strict: bool,
) -> Result<ExitCode, Fault>
    requires some_workers { 1 ≤ workers }
    requires few_workers { workers ≤ most_workers }
{
    let Ok(output) = BufWriter::with_capacity(rt.alloc(), OUTPUT_BUFFER, rt.stdout()) else {
        return Err(Fault::NoMemory);
    };
    match Store::create(rt.alloc(), NullVolume::new(), currency) {
        Ok(mut store) => {
            let mut output = Heard::new(output);
            let served = serve_answers(rt, threads, &mut output, &mut store, workers, is_strict);
            let_go(store, served)
        }
        Err((_, fault)) => Err(Fault::Store(fault)),
    }
}

// Serves the script on standard input from a store. Where it is to be strict, its answers are watched.
fn serve_answers<W: Write, V: Volume>(
    rt: &HostRuntime,
    threads: &(impl Threads + Sync),
    output: &mut Heard<W>,
    store: &mut Store<V>,
    workers: u32,
    is_strict: bool,
) -> Result<ExitCode, Fault>
    requires some_workers { 1 ≤ workers }
    requires few_workers { workers ≤ most_workers }
{
    if !is_strict {
        return serve_streams(rt, threads, output, store, workers);
    }
    let mut watched = Heard::new(Watched::new(output));
    let served = serve_streams(rt, threads, &mut watched, store, workers);
    strict_status(rt, is_strict, watched.stream.refusals.count(), served)
}

// Serves the script on standard input from a store.
fn serve_streams<W: Write, V: Volume>(
    rt: &HostRuntime,
    threads: &(impl Threads + Sync),
    output: &mut Heard<W>,
    store: &mut Store<V>,
    workers: u32,
) -> Result<ExitCode, Fault>
    requires some_workers { 1 ≤ workers }
    requires few_workers { workers ≤ most_workers }
{
    let mut input = Heard::new(rt.stdin());
    match serve(threads, rt.alloc(), &mut input, output, store, workers) {
        Ok(()) => Ok(ExitCode::SUCCESS),
        Err(fault) => Err(heard(fault, input.error, output.error)),
    }
}

// The fault of a script that was not served to its end, with what the system said to its reader or its writer.
fn heard(fault: ServeFault, input: Option<io::Error>, output: Option<io::Error>) -> Fault {
    match (fault, input, output) {
        (ServeFault::Read, Some(error), _) => Fault::Input(error),
        (ServeFault::Write, _, Some(error)) => Fault::Output(error),
        _ => Fault::Serve(fault),
    }
}
