//! `focusd verify`: whether the files of a warehouse are sound, and its digest.
ghost use Rattle.std.specs.Prelude.{◌≡◌, ◌≢◌, IfOk, IfSome, None};
ghost use Rattle.std.specs.Process.{exit_status};
ghost use Rattle.fw_console.specs.Statuses.{wrong_use_status};
ghost use Rattle.fw_digest.specs.Digests.{digest_of};

use clap::ArgMatches;
use fw_command_line::{DIGEST, DIR, EXPECT};
use fw_console::{
    Fault, Member, WRONG_USE, advised, let_go, open_to_ask, print_answer, stopped, tell,
    tells_json, warn_unfinished,
};
use fw_digest::{digest, digest_text, read_digest};
use fw_disk::FileVolume;
use fw_recover::Store;
use fw_table::shown_text;
use fw_views::{Question, answer};
use std::io::IsTerminal;
use std::process::ExitCode;

/// What is asked of a warehouse.
#[derive(Clone, Copy, Drop)]
struct Job<'a> {
    folder: &'a str,
    /// The digest that it should have, where one is named.
    expected: Option<[u8; 32]>,
    /// Whether the digest is printed.
    is_digest: bool,
    /// Whether what is found is printed as one line of JSON.
    is_json: bool,
}

/// Reads the warehouse, and prints what was found, or its digest. Where a digest is expected and it has another one, that is
/// said, with status 1. What was found may be printed as one line of JSON, too.
pub fn verify_folder(rt: &HostRuntime, options: &ArgMatches<'_>) -> ExitCode {
    let expected = match options.get_str(EXPECT) {
        Some(text) => match read_digest(text) {
            Some(digest) => Some(digest),
            None => return wrong_digest(rt, text),
        },
        None => None,
    };
    let job = Job {
        folder: options.get_str(DIR).unwrap_or(""),
        expected,
        is_digest: options.get_flag(DIGEST),
        is_json: tells_json(options),
    };
    verify(rt, &job)
}

// Verifies the warehouse of a folder. Where it can't be opened, JSON says that no more is known.
fn verify(rt: &HostRuntime, job: &Job<'_>) -> ExitCode {
    let done = verify_in(rt, job);
    let status = advised(rt, job.folder, done);
    match done {
        Err(_) if job.is_json => match tell(rt, "verify", &[], status) {
            Ok(status) => status,
            Err(fault) => stopped(rt, &fault),
        },
        _ => status,
    }
}

// Opens the warehouse of a folder, and says what was found.
fn verify_in(rt: &HostRuntime, job: &Job<'_>) -> Result<ExitCode, Fault> {
    let store = open_to_ask(rt, job.folder)?;
    let done = verify_store(rt, &store, job);
    let_go(store, done)
}

// Says what was found of a warehouse: compares its digest with the one that is expected, and says where it is another one.
fn verify_store(
    rt: &HostRuntime,
    store: &Store<FileVolume>,
    job: &Job<'_>,
) -> Result<ExitCode, Fault>
    ensures same { IfSome job.now.expected (λ it. it ≡ digest_of store.now.history
        → IfOk result (λ status. exit_status status ≡ 0)) }
    ensures other { IfSome job.now.expected (λ it. it ≢ digest_of store.now.history
        → IfOk result (λ status. exit_status status ≡ 1)) }
    ensures any { job.now.expected ≡ None → IfOk result (λ status. exit_status status ≡ 0) }
{
    warn_unfinished(rt, job.folder)?;
    if job.expected.is_none() && !job.is_digest {
        return print_sound(rt, store, job);
    }
    let found = digest(rt.alloc(), store.state().state())?;
    if let Some(expected) = job.expected {
        if found.as_slice() != expected.as_slice() {
            return differs(rt, store, job, &found, &expected);
        }
    }
    if job.is_json {
        return tell_digest(rt, store, &found, ExitCode::SUCCESS);
    }
    if job.is_digest {
        return print_digest(rt, &found);
    }
    print_sound(rt, store, job)
}

// Says that the files are sound, and what the warehouse holds.
fn print_sound(
    rt: &HostRuntime,
    store: &Store<FileVolume>,
    job: &Job<'_>,
) -> Result<ExitCode, Fault>
    ensures { IfOk result (λ status. exit_status status ≡ 0) }
{
    if job.is_json {
        let entries = Member::new("entries", store.state().state().entries() as u64);
        return tell(rt, "verify", &[entries], ExitCode::SUCCESS);
    }
    if rt.stderr().is_terminal() && job.expected.is_none() {
        say_unseen(rt);
    }
    let text = answer(rt.alloc(), store, &Question::Verify)?;
    print_answer(rt, text.as_slice())
}

// Says what can't be seen without a digest.
fn say_unseen(rt: &HostRuntime) {
    let _ = eprintln!(rt;
        "Not seen: a changed byte of an amount. Write down what --digest prints, and compare with it by --expect"
    );
}

// Tells how many entries a warehouse has, and its digest.
fn tell_digest(
    rt: &HostRuntime,
    store: &Store<FileVolume>,
    found: &[u8; 32],
    status: ExitCode,
) -> Result<ExitCode, Fault>
    ensures { IfOk result (λ told. told ≡ status) }
{
    let is_well = status == ExitCode::SUCCESS;
    let entries = store.state().state().entries();
    let digest = digest_text(rt.alloc(), found)?;
    let line = format!(in rt.alloc();
        "{{\"command\":\"verify\",\"ok\":{is_well},\"entries\":{entries},\"digest\":\"{digest}\"}}\n"
    )?;
    print_answer(rt, line.as_bytes())?;
    Ok(status)
}

// Prints a digest.
fn print_digest(rt: &HostRuntime, found: &[u8; 32]) -> Result<ExitCode, Fault>
    ensures { IfOk result (λ status. exit_status status ≡ 0) }
{
    let mut line = digest_text(rt.alloc(), found)?;
    line.push_str("\n")?;
    print_answer(rt, line.as_bytes())
}

// Says that a warehouse has another digest than was expected.
fn differs(
    rt: &HostRuntime,
    store: &Store<FileVolume>,
    job: &Job<'_>,
    found: &[u8; 32],
    expected: &[u8; 32],
) -> Result<ExitCode, Fault>
    ensures { IfOk result (λ status. exit_status status ≡ 1) }
{
    let folder = shown_text(rt.alloc(), job.folder)?;
    let text = digest_text(rt.alloc(), found)?;
    let expected = digest_text(rt.alloc(), expected)?;
    let _ = eprintln!(rt; "focusd: {folder}: the digest is {text}, and {expected} was expected");
    let _ = eprintln!(rt;
        "What to do: if no entry was added since that digest was printed, a file was changed: restore the folder from a backup"
    );
    if job.is_json {
        return tell_digest(rt, store, found, ExitCode::FAILURE);
    }
    Ok(ExitCode::FAILURE)
}

// Says that a text is no digest.
fn wrong_digest(rt: &HostRuntime, text: &str) -> ExitCode
    ensures { exit_status result ≡ wrong_use_status }
{
    let _ = eprintln!(rt;
        "focusd: --expect: {text:?} is not a digest of 64 hex digits, as focusd verify --digest prints it"
    );
    ExitCode::from(WRONG_USE)
}
