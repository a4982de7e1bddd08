//! `focusd dump`: a warehouse as a script that makes it again.
ghost use Rattle.std.specs.Prelude.{◌≡◌};
ghost use Rattle.std.specs.Process.{exit_status};

use clap::ArgMatches;
use fw_command_line::DIR;
use fw_console::{Fault, Heard, advised, let_go, open_to_ask, printed};
use fw_dump::{DumpFault, TextFault, dump};
use fw_explain::explain_fault;
use fw_snapshot::State;
use fw_table::shown_text;
use std::io;
use std::process::ExitCode;

/// Prints the script of the warehouse.
pub fn print_dump(rt: &HostRuntime, options: &ArgMatches<'_>) -> ExitCode {
    let folder = options.get_str(DIR).unwrap_or("");
    advised(rt, folder, dump_folder(rt, folder))
}

// Prints the script of the warehouse of a folder.
fn dump_folder(rt: &HostRuntime, folder: &str) -> Result<ExitCode, Fault> {
    let store = open_to_ask(rt, folder)?;
    let dumped = dump_state(rt, folder, store.state().state());
    let_go(store, dumped)
}

// Prints the script of a warehouse.
fn dump_state(rt: &HostRuntime, folder: &str, state: &State) -> Result<ExitCode, Fault> {
    let mut output = Heard::new(rt.stdout());
    match dump(rt.alloc(), state, &mut output) {
        Ok(()) => Ok(ExitCode::SUCCESS),
        Err(DumpFault::Write(kind)) => {
            printed(Err(output.error.unwrap_or(io::Error::from(kind))))?;
            Ok(ExitCode::SUCCESS)
        }
        Err(DumpFault::Entry { number, why }) => {
            let name = shown_text(rt.alloc(), folder)?;
            Ok(stopped(rt, name.as_str(), number, why))
        }
        Err(DumpFault::NoMemory) => Err(Fault::NoMemory),
    }
}

// The code of why an entry can't be dumped.
fn code_of(why: TextFault) -> &'static str {
    match why {
        TextFault::TooManyLines => "D1",
        TextFault::Differs => "D2",
        TextFault::NoMemory => "NoMemory",
    }
}

// Says that a dump of a folder of this name stopped before an entry, and why.
fn stopped(rt: &HostRuntime, folder: &str, number: u64, why: TextFault) -> ExitCode
    ensures { exit_status result ≡ 1 }
{
    let _ = eprintln!(rt; "focusd: {why}");
    let words = explain_fault(code_of(why));
    let (meaning, remedy) = (words.meaning, words.remedy);
    let _ = eprintln!(rt;
        "{folder}: entry {number} of the warehouse: {meaning}. What to do: {remedy}"
    );
    ExitCode::FAILURE
}
