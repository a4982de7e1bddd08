//! `focusd checkpoint`: the warehouse is written anew.
use clap::ArgMatches;
use fw_command_line::DIR;
use fw_console::{Fault, advised, closed, open_warehouse, print_answer};
use fw_disk::FileVolume;
use fw_recover::Store;
use std::process::ExitCode;

/// Makes a checkpoint of the warehouse, and prints that it is made.
pub fn make_checkpoint(rt: &HostRuntime, options: &ArgMatches<'_>) -> ExitCode {
    let folder = options.get_str(DIR).unwrap_or("");
    advised(rt, folder, checkpoint_in(rt, folder))
}

// Makes a checkpoint of the warehouse of a folder, and prints that it is made.
fn checkpoint_in(rt: &HostRuntime, folder: &str) -> Result<ExitCode, Fault> {
    let mut store = open_warehouse(rt, folder)?;
    let made = checkpoint(rt, &mut store);
    closed(store, made)
}

// Makes a checkpoint of a warehouse, and prints that it is made.
fn checkpoint(rt: &HostRuntime, store: &mut Store<FileVolume>) -> Result<ExitCode, Fault> {
    store.checkpoint(rt.alloc())?;
    print_answer(rt, b"checkpointed\n")
}
