//! The files that the command line names.
ghost use Rattle.std.specs.Prelude.{◌≤◌, ◌^◌};

use crate::fault::Fault;
use crate::folder::is_folder;
use crate::heard::Heard;
use fw_serve::{ServeFault, read_within};
use fw_table::shown_text;
use std::fs;
use std::io::{self, Read};

/// The most bytes of a report that another warehouse wrote.
const MOST_REPORT_BYTES: usize = 1 << 26;

/// The most bytes of a file of TOML. What is read of it takes up to twenty times as much.
const MOST_TOML_BYTES: usize = 1 << 25;

/// The text of a report in a file, or on standard input where its name is `-`; `None` where it can't be read, or has more than 64 MiB, which was
/// said. The message has its name as a terminal may show it.
pub fn report_of(rt: &HostRuntime, file: &str) -> Result<Option<Vec<u8>>, Fault> {
    text_of(rt, file, MOST_REPORT_BYTES)
}

/// The text of a file of TOML, or of standard input where its name is `-`; `None` where it can't be read, or has more than 32 MiB, which was said. The
/// message has its name as a terminal may show it.
pub fn toml_of(rt: &HostRuntime, file: &str) -> Result<Option<Vec<u8>>, Fault> {
    text_of(rt, file, MOST_TOML_BYTES)
}

// The text of a file of at most so many bytes, or of standard input where its name is `-`; `None` where it can't be read or is longer, which was said.
fn text_of(rt: &HostRuntime, file: &str, most: usize) -> Result<Option<Vec<u8>>, Fault>
    requires { most ≤ 2 ^ 30 }
{
    if file == "-" {
        return read_text(rt, "standard input", rt.stdin(), most);
    }
    let name = shown_text(rt.alloc(), file)?;
    let name = name.as_str();
    if is_folder(rt, file) {
        let _ = eprintln!(rt; "{name}: it is a folder, and not a file (F1 Read)");
        return Ok(None);
    }
    match fs::open(rt, file) {
        Ok(opened) => read_text(rt, name, opened, most),
        Err(error) => {
            let _ = eprintln!(rt; "{name}: {error} (F1 Read)");
            Ok(None)
        }
    }
}

// The text of a reader of at most so many bytes.
fn read_text<R: Read + Drop>(
    rt: &HostRuntime,
    file: &str,
    reader: R,
    most: usize,
) -> Result<Option<Vec<u8>>, Fault>
    requires { most ≤ 2 ^ 30 }
{
    let mut heard = Heard::new(reader);
    match read_within(rt.alloc(), &mut heard, most) {
        Ok(text) => Ok(Some(text)),
        Err(fault) => say_unread(rt, file, fault, heard.error, most),
    }
}

// Says why a reader's text could not be read.
fn say_unread(
    rt: &HostRuntime,
    file: &str,
    fault: ServeFault,
    error: Option<io::Error>,
    most: usize,
) -> Result<Option<Vec<u8>>, Fault> {
    let _ = match (fault, error) {
        (ServeFault::NoMemory, _) => return Err(Fault::NoMemory),
        (ServeFault::TooLong, _) => {
            let most = most >> 20;
            eprintln!(rt; "{file}: it has more than {most} MiB (F3 TooLong)")
        }
        (_, Some(error)) => eprintln!(rt; "{file}: {error} (F1 Read)"),
        (_, None) => eprintln!(rt; "{file}: it can't be read (F1 Read)"),
    };
    Ok(None)
}
