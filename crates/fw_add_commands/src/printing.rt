//! Lines on standard output.
use crate::texts::Given;
use fw_console::{Fault, printed};

/// Prints a line about a file, unless nothing is to be said in words. A reader that has had enough, as `head`, is no fault.
pub(crate) fn print_line(rt: &HostRuntime, given: &Given<'_>, line: &str) -> Result<(), Fault> {
    if given.is_silent {
        return Ok(());
    }
    let file = given.file;
    printed(println!(rt; "{file}: {line}"))
}
