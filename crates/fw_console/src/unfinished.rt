//! A replacement that isn't finished: a file beside the warehouse's own says of which origin.
//!
//! A replacement that takes more than one step writes the file before the first one, and removes it behind the last. The file is no part of the
//! warehouse: what stands in it changes no answer.
use crate::fault::Fault;
use fw_disk::FolderFault;
use fw_table::shown_text;
use std::alloc::{AllocError, Global};
use std::fs;
use std::io::{self, Write};

/// The origin whose rows are being replaced, where a replacement was begun in the folder and isn't finished.
pub fn unfinished_origin(rt: &HostRuntime, folder: &str) -> Result<Option<String>, Fault> {
    let path = path_of(rt.alloc(), folder)?;
    match fs::read_to_string(rt, path.as_str()) {
        Ok(text) => Ok(origin_in(rt.alloc(), text.as_str())?),
        Err(error) if error.kind() == io::ErrorKind::NotFound => Ok(None),
        Err(error) => Err(Fault::from(FolderFault::from(error))),
    }
}

/// Says on standard error where a replacement isn't finished, and how to finish it.
pub fn warn_unfinished(rt: &HostRuntime, folder: &str) -> Result<(), Fault> {
    if let Some(origin) = unfinished_origin(rt, folder)? {
        let folder = shown_text(rt.alloc(), folder)?;
        let origin = shown_text(rt.alloc(), origin.as_str())?;
        let _ = eprintln!(rt;
            "focusd: the rows of {origin} are being replaced, and some are there twice or not at all: run focusd replace --dir {folder} --origin {origin} again, with the same files"
        );
    }
    Ok(())
}

/// Writes down that a replacement of an origin's rows begins. It is on the disk, by the word of the system, before this returns. Where it stands
/// there already, the file stays as it is: one that is written anew is empty for a moment, and a stop within it would lose the word.
pub fn begin_replacement(rt: &HostRuntime, folder: &str, origin: &str) -> Result<(), Fault> {
    match unfinished_origin(rt, folder)? {
        Some(begun) if begun.as_str() == origin => return Ok(()),
        _ => {}
    }
    let path = path_of(rt.alloc(), folder)?;
    match write_origin(rt, folder, path.as_str(), origin) {
        Ok(()) => Ok(()),
        Err(error) => Err(Fault::from(FolderFault::from(error))),
    }
}

/// Writes down that no replacement is unfinished.
pub fn end_replacement(rt: &HostRuntime, folder: &str) -> Result<(), Fault> {
    let path = path_of(rt.alloc(), folder)?;
    match fs::remove_file(rt, path.as_str()) {
        Ok(()) => Ok(()),
        Err(error) if error.kind() == io::ErrorKind::NotFound => Ok(()),
        Err(error) => Err(Fault::from(FolderFault::from(error))),
    }
}

// The path of the file.
fn path_of(alloc: Global, folder: &str) -> Result<String, AllocError> {
    format!(in alloc; "{folder}/replacing")
}

// The origin that a text of the file names. One that isn't ended was not written whole, so the replacement didn't begin.
fn origin_in(alloc: Global, text: &str) -> Result<Option<String>, AllocError> {
    match text.strip_suffix('\n') {
        Some(origin) => Ok(Some(String::from_str(alloc, origin)?)),
        None => Ok(None),
    }
}

// Writes the file, and has the system write it and its name to the disk.
fn write_origin(rt: &HostRuntime, folder: &str, path: &str, origin: &str) -> io::Result<()> {
    let mut file = fs::create(rt, path)?;
    file.write_all(origin.as_bytes())?;
    file.write_all(b"\n")?;
    file.sync_all()?;
    fs::open(rt, folder)?.sync_all()
}
