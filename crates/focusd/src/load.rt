//! `focusd load`: files are loaded side by side.
use clap::ArgMatches;
use fw_command_line::{ANALYSTS, CREATE, CURRENCY, DIR, FILES, ORIGIN, STRICT};
use fw_commands::{Refusals, strict_status};
use fw_console::{
    Creates, Fault, Heard, WRONG_USE, advised, closed, is_folder, let_go, open_folder,
    print_answer, read_currency,
};
use fw_disk::{NullVolume, Volume};
use fw_explain::explain_fault;
use fw_load::{Job, LoadFault, Progress, load};
use fw_recover::Store;
use fw_serve::{ServeFault, read_within};
use fw_table::shown_text;
use std::fs::{self, File};
use std::io::{self, IsTerminal};
use std::process::ExitCode;
use std::sync::Wait;
use std::thread::Threads;

/// The most bytes of a file.
const MOST_BYTES: usize = 1 << 30;

/// Loads the files that the options name.
pub(crate) fn load_files<R: Threads + Wait + Sync>(
    rt: &HostRuntime,
    threads: &R,
    options: &ArgMatches<'_>,
) -> Result<ExitCode, Fault> {
    let Some(currency) = read_currency(options) else {
        return Ok(wrong_currency(rt, options));
    };
    let Some(texts) = texts_of(rt, options.get_strs(FILES).unwrap_or(&[]))? else {
        return Ok(ExitCode::FAILURE);
    };
    let job = Job {
        texts,
        origin: options.get_str(ORIGIN).unwrap_or("f"),
        analysts: options.get_one(ANALYSTS).unwrap_or(1),
    };
    let is_strict = options.get_flag(STRICT);
    match options.get_str(DIR) {
        Some(folder) => {
            let creates = if options.get_flag(CREATE) {
                Creates::New(currency)
            } else {
                Creates::Never
            };
            let loaded = load_folder(rt, threads, folder, creates, job, is_strict);
            Ok(advised(rt, folder, loaded))
        }
        None => match Store::create(rt.alloc(), NullVolume::new(), currency) {
            Ok(store) => {
                let (store, loaded) = load_into(rt, threads, store, job, is_strict);
                let_go(store, loaded)
            }
            Err((_, fault)) => Err(Fault::Store(fault)),
        },
    }
}

// Says that the value of `--currency` is none.
fn wrong_currency(rt: &HostRuntime, options: &ArgMatches<'_>) -> ExitCode {
    let text = options.get_str(CURRENCY).unwrap_or("");
    let _ = eprintln!(rt; "focusd: --currency: {text:?} is not three capital letters, as USD");
    ExitCode::from(WRONG_USE)
}

// The texts of the files, in order; none where one can't be read or is too long, which was said.
fn texts_of(rt: &HostRuntime, files: &[&str]) -> Result<Option<Vec<Vec<u8>>>, Fault> {
    let mut texts = Vec::new(rt.alloc());
    for file in files {
        match text_of(rt, file)? {
            Some(text) => texts.push(text)?,
            None => return Ok(None),
        }
    }
    Ok(Some(texts))
}

// The text of a file; none where it can't be read or is too long, which was said.
fn text_of(rt: &HostRuntime, file: &str) -> Result<Option<Vec<u8>>, Fault> {
    match fs::open(rt, file) {
        Ok(opened) => text_in(rt, file, opened),
        Err(error) => unread(rt, file, error),
    }
}

// The text of a file that is open; none where it can't be read or is too long, which was said.
fn text_in(rt: &HostRuntime, file: &str, opened: File) -> Result<Option<Vec<u8>>, Fault> {
    let mut heard = Heard::new(opened);
    match (read_within(rt.alloc(), &mut heard, MOST_BYTES), heard.error) {
        (Ok(text), _) => Ok(Some(text)),
        (Err(ServeFault::NoMemory), _) => Err(Fault::NoMemory),
        (Err(fault), _) if is_folder(rt, file) => {
            say_why(rt, file, fault, "it is a folder, and not a file")
        }
        (Err(ServeFault::TooLong), _) => say_why(
            rt,
            file,
            ServeFault::TooLong,
            "it has more than 2^30 bytes; focusd import takes files of any length",
        ),
        (Err(_), Some(error)) => unread(rt, file, error),
        (Err(fault), None) => say_why(rt, file, fault, "a read failed"),
    }
}

// Says what the system said of a file that can't be opened or read.
fn unread(rt: &HostRuntime, file: &str, error: io::Error) -> Result<Option<Vec<u8>>, Fault> {
    if error.kind() == io::ErrorKind::OutOfMemory {
        return Err(Fault::NoMemory);
    }
    let why = format!(in rt.alloc(); "{error}")?;
    say_why(rt, file, ServeFault::Read, why.as_str())
}

// Says why a file was not taken: the line of the fault, and one with the file.
fn say_why(
    rt: &HostRuntime,
    file: &str,
    fault: ServeFault,
    why: &str,
) -> Result<Option<Vec<u8>>, Fault> {
    let name = shown_text(rt.alloc(), file)?;
    let name = name.as_str();
    let _ = eprintln!(rt; "focusd: {fault}");
    let _ = eprintln!(rt; "{name}: {why}");
    Ok(None)
}

// Loads the files into the warehouse of a folder.
fn load_folder<R: Threads + Wait + Sync>(
    rt: &HostRuntime,
    threads: &R,
    folder: &str,
    creates: Creates,
    job: Job<'_>,
    is_strict: bool,
) -> Result<ExitCode, Fault> {
    let store = open_folder(rt, folder, creates)?.into_store()?;
    let (store, loaded) = load_into(rt, threads, store, job, is_strict);
    closed(store, loaded)
}

// Loads the files into a warehouse, which comes back.
fn load_into<R: Threads + Wait + Sync, V: Volume + Drop + Send>(
    rt: &HostRuntime,
    threads: &R,
    store: Store<V>,
    job: Job<'_>,
    is_strict: bool,
) -> (Store<V>, Result<ExitCode, Fault>) {
    let mut progress = FileProgress::new(rt, job.texts.len());
    let mut lines = Vec::new(rt.alloc());
    let (store, fault) = load(threads, rt.alloc(), store, job, &mut lines, &mut progress);
    let loaded = print_loaded(rt, lines.as_slice(), fault);
    let status = strict_status(rt, is_strict, refused_in(lines.as_slice()), loaded);
    (store, status)
}

// How many files were refused, by the lines of a load.
fn refused_in(lines: &[u8]) -> u64 {
    let mut refusals = Refusals::new(true);
    refusals.see(lines);
    refusals.count()
}

// Prints the lines of a load, and the fault that ended it, if one did. The lines are in memory, so where they couldn't be written it ran out.
fn print_loaded(
    rt: &HostRuntime,
    lines: &[u8],
    fault: Option<LoadFault>,
) -> Result<ExitCode, Fault> {
    let printed = print_answer(rt, lines);
    match fault {
        None => printed,
        Some(LoadFault::NoMemory) | Some(LoadFault::Write) => Err(Fault::NoMemory),
        Some(LoadFault::Store(fault)) => Err(Fault::Store(fault)),
        Some(fault) => say_fault(rt, fault),
    }
}

// Says what ended a load: the line of the fault, and one with what it means and what to do.
fn say_fault(rt: &HostRuntime, fault: LoadFault) -> Result<ExitCode, Fault> {
    let printed = format!(in rt.alloc(); "{fault}")?;
    let words = explain_fault(printed.as_str());
    let (meaning, remedy) = (words.meaning, words.remedy);
    let _ = eprintln!(rt; "focusd: {fault}");
    let _ = eprintln!(rt; "{meaning}. What to do: {remedy}");
    Ok(ExitCode::FAILURE)
}

/// How many files of a load are stored.
#[derive(Drop)]
struct FileProgress<'a> {
    rt: &'a HostRuntime,
    files: usize,
    is_shown: bool,
}

impl<'a> FileProgress<'a> {
    /// Progress of a load of so many files. It is printed where standard error is a terminal.
    fn new(rt: &'a HostRuntime, files: usize) -> FileProgress<'a> {
        FileProgress {
            rt,
            files,
            is_shown: rt.stderr().is_terminal(),
        }
    }
}

impl Progress for FileProgress<'_> {
    fn stored(&mut self, files: usize) {
        if self.is_shown {
            let all = self.files;
            let are = if all == 1 { "file is" } else { "files are" };
            let _ = eprintln!(self.rt; "{files} of {all} {are} stored");
        }
    }
}
