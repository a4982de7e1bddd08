//! What a person can do about a fault: a further line on standard error.
ghost use Rattle.std.specs.Prelude.{◌≡◌, IfOk, IfErr};
ghost use Rattle.std.specs.Process.{exit_status};
ghost use Rattle.fw_console.specs.Statuses.{status_of};

use crate::fault::{Fault, FileFailure, failed};
use crate::folder::file_failure;
use fw_disk::{FileVolume, FolderFault, Side};
use fw_explain::explain_fault;
use fw_recover::{Store, StoreFault};
use fw_table::shown_text;
use std::io::{self, IsTerminal};
use std::process::ExitCode;

/// The status of what was done with a folder. A fault is printed, and what helps.
pub fn advised(rt: &HostRuntime, folder: &str, done: Result<ExitCode, Fault>) -> ExitCode
    ensures status { IfOk done (λ status. result ≡ status) }
    ensures fault { IfErr done (λ fault. exit_status result ≡ status_of fault) }
{
    ended(rt, folder, done, true)
}

/// The status of what a script did with a folder. A fault is printed, and what helps where standard error is a terminal.
pub fn advised_on_terminal(
    rt: &HostRuntime,
    folder: &str,
    done: Result<ExitCode, Fault>,
) -> ExitCode
    ensures status { IfOk done (λ status. result ≡ status) }
    ensures fault { IfErr done (λ fault. exit_status result ≡ status_of fault) }
{
    ended(rt, folder, done, rt.stderr().is_terminal())
}

/// The status of a fault that no folder has: it is printed and, of a standard stream, what the system said.
pub fn stopped(rt: &HostRuntime, fault: &Fault) -> ExitCode
    ensures { exit_status result ≡ status_of fault.now }
{
    let status = failed(rt, fault);
    if let Fault::Output(_) = fault {
        let _ = print_advice(rt, "", fault);
    }
    status
}

/// Says at a terminal which file of a folder could not be written, where that was so in a script. The warehouse is closed.
pub fn tell_failure(rt: &HostRuntime, folder: &str, store: Store<FileVolume>) {
    let volume = store.close();
    if let (Some(failure), true) = (file_failure(&volume), rt.stderr().is_terminal()) {
        advise(rt, folder, &Fault::File(failure));
    }
}

// The status of what was done with a folder. A fault is printed, and also what helps, where that is wanted.
fn ended(rt: &HostRuntime, folder: &str, done: Result<ExitCode, Fault>, advises: bool) -> ExitCode
    ensures status { IfOk done (λ status. result ≡ status) }
    ensures fault { IfErr done (λ fault. exit_status result ≡ status_of fault) }
{
    match done {
        Ok(status) => status,
        Err(fault) => {
            let status = failed(rt, &fault);
            if advises {
                advise(rt, folder, &fault);
            }
            status
        }
    }
}

// Prints what helps, with the folder's name as a terminal may show it. Where memory for that is refused, nothing more is said.
fn advise(rt: &HostRuntime, folder: &str, fault: &Fault) {
    if let Ok(name) = shown_text(rt.alloc(), folder) {
        let _ = print_advice(rt, name.as_str(), fault);
    }
}

// Prints what was wrong with a folder or its files, what the system said of it, and what helps.
fn print_advice(rt: &HostRuntime, folder: &str, fault: &Fault) -> io::Result<()> {
    match fault {
        Fault::Folder(FolderFault::InUse) => {
            eprintln!(rt; "{folder}: another process has this folder open")
        }
        Fault::Folder(why) => {
            let remedy = explain_fault("K1 Io").remedy;
            eprintln!(rt; "{folder}: {why}. What to do: {remedy}")
        }
        Fault::Store(StoreFault::Corrupt { side, at }) => {
            eprintln!(rt; "{folder}/{}: damaged at byte {at}", file_name(*side))
        }
        Fault::Store(StoreFault::NoMemory) => Ok(()),
        Fault::Store(fault) => print_words(rt, folder, fault),
        Fault::File(failure) => print_failure(rt, folder, failure),
        Fault::Input(error) => print_stream(rt, "standard input", error, "F1 Read"),
        Fault::Output(error) => print_stream(rt, "standard output", error, "F2 Write"),
        _ => Ok(()),
    }
}

// Prints which file of a folder could not be written, what the system said of it, and what helps.
fn print_failure(rt: &HostRuntime, folder: &str, failure: &FileFailure) -> io::Result<()> {
    let name = file_name(failure.side);
    let error = failure.error;
    let remedy = explain_fault("S3 Device").remedy;
    eprintln!(rt; "{folder}/{name}: {error}. What to do: {remedy}")
}

// Prints what the system said of a standard stream, and what helps against the fault.
fn print_stream(rt: &HostRuntime, stream: &str, error: &io::Error, fault: &str) -> io::Result<()> {
    let remedy = explain_fault(fault).remedy;
    eprintln!(rt; "{stream}: {error}. What to do: {remedy}")
}

// Prints what a fault of a warehouse means, and what to do. Where memory for that is refused, nothing is said.
fn print_words(rt: &HostRuntime, folder: &str, fault: &StoreFault) -> io::Result<()> {
    let Ok(printed) = format!(in rt.alloc(); "{fault}") else {
        return Ok(());
    };
    let words = explain_fault(printed.as_str());
    let (meaning, remedy) = (words.meaning, words.remedy);
    eprintln!(rt; "{folder}: {meaning}. What to do: {remedy}")
}

// The name of a side's file.
fn file_name(side: Side) -> &'static str {
    match side {
        Side::Left => "left",
        Side::Right => "right",
    }
}
