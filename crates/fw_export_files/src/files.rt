//! The files of exports: those that the command line names, and those of folders that it names.
ghost use Rattle.std.specs.Prelude.{◌≡◌, codes, OnOk, string_bytes};
ghost use Rattle.std.specs.Cmp.Lexicographic.{slice_cmp};
ghost use Rattle.std.specs.List.Sorted.{IsPermutation, IsSorted};
ghost use Rattle.std.specs.Ordering.{nat_cmp};

use fw_console::is_folder;
use std::alloc::{AllocError, Global};
use std::fs::{self, DirEntry};
use std::io;

/// The exports that a name stands for, in order. A folder stands for the files in it that are exports by their names; what its own folders have doesn't
/// count. Any other name stands for itself, and `-` for standard input.
pub(crate) fn exports_of(rt: &HostRuntime, name: &str) -> io::Result<Vec<String>> {
    let mut files = Vec::new(rt.alloc());
    if name == "-" || !is_folder(rt, name) {
        files.push(String::from_str(rt.alloc(), name)?)?;
        return Ok(files);
    }
    for entry in fs::read_dir(rt, name)? {
        add_export(rt, &mut files, &entry?)?;
    }
    order(&mut files)?;
    Ok(files)
}

// Adds what a folder has under a name, if it is an export.
fn add_export(
    rt: &HostRuntime,
    files: &mut Vec<String>,
    entry: &DirEntry,
) -> Result<(), AllocError> {
    let path = entry.path().as_str();
    if is_export_name(entry.file_name()) && !is_folder(rt, path) {
        files.push(String::from_str(rt.alloc(), path)?)?;
    }
    Ok(())
}

// Whether a file of a folder is an export by its name.
fn is_export_name(name: &str) -> bool {
    name.ends_with(".csv")
}

// Puts files into the byte order of their names.
fn order(files: &mut Vec<String>) -> Result<(), AllocError>
    ensures same { IsPermutation files.old.items files.new.items }
    ensures sorted { OnOk result
        (IsSorted (λ a b. slice_cmp nat_cmp (string_bytes a) (string_bytes b)) files.new.items) }
{
    files.sort()
}

/// The exports that names stand for, in order. None where a folder can't be read, or memory runs out: the walk over it says why.
pub fn all_exports(rt: &HostRuntime, names: &[&str]) -> Option<Vec<String>> {
    let mut files = Vec::new(rt.alloc());
    for name in names {
        let mut more = exports_of(rt, *name).ok()?;
        files.append(&mut more).ok()?;
    }
    Some(files)
}

/// The names of files as texts.
pub fn texts_of<'a>(alloc: Global, files: &'a [String]) -> Result<Vec<&'a str>, AllocError> {
    files.iter().map(|file| file.as_str()).collect(alloc)
}
