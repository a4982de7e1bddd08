//! A walk over exports and their parts.
use crate::files::exports_of;
use crate::opening::{Source, open_export};
use crate::taker::Taker;
use crate::walk::Walk;
use fw_console::Fault;
use fw_cut::{CutFault, Cutter, Part};
use std::alloc::Global;
use std::borrow::CowStr;
use std::collections::VecDeque;

/// What is said of a folder that stands for no export.
const NO_EXPORT: &str = "it is a folder that has no file whose name ends in .csv";

/// Walks over the exports that names stand for, in order, and has their parts taken; false where one has a fault, which was said. A folder stands for the
/// files in it whose names end in `.csv`, in the byte order of their names.
pub fn walk_files<'a, T: Taker>(
    rt: &HostRuntime,
    names: &[&'a str],
    walk: &mut Walk<'a>,
    taker: &mut T,
) -> Result<bool, Fault> {
    let mut are_sound = true;
    for name in names {
        are_sound = walk_name(rt, *name, walk, taker)? && are_sound;
        if !are_sound && !taker.goes_on() {
            break;
        }
    }
    walk.progress.end(rt);
    Ok(are_sound)
}

// Walks over the exports that a name stands for.
fn walk_name<'a, T: Taker>(
    rt: &HostRuntime,
    name: &'a str,
    walk: &mut Walk<'a>,
    taker: &mut T,
) -> Result<bool, Fault> {
    walk.go_to(rt, CowStr::Borrowed(name))?;
    match exports_of(rt, name) {
        Ok(files) => walk_exports(rt, files, walk, taker),
        Err(error) => {
            let why = format!(in rt.alloc(); "{error}")?;
            walk.not_opened(rt, why.as_str());
            Ok(false)
        }
    }
}

// Walks over files in order; where there is none, as in a folder without an export, that is said.
fn walk_exports<T: Taker>(
    rt: &HostRuntime,
    files: Vec<String>,
    walk: &mut Walk<'_>,
    taker: &mut T,
) -> Result<bool, Fault> {
    if files.is_empty() {
        walk.not_opened(rt, NO_EXPORT);
        return Ok(false);
    }
    let mut are_sound = true;
    for file in files {
        let name = String::from_str(rt.alloc(), file.as_str())?;
        walk.go_to(rt, CowStr::Owned(name))?;
        are_sound = walk_file(rt, file.as_str(), walk, taker)? && are_sound;
        if !are_sound && !taker.goes_on() {
            break;
        }
    }
    Ok(are_sound)
}

// Walks over a file, or standard input.
fn walk_file<T: Taker>(
    rt: &HostRuntime,
    file: &str,
    walk: &mut Walk<'_>,
    taker: &mut T,
) -> Result<bool, Fault> {
    match open_export(rt, file, walk, taker.command())? {
        Some(source) => walk_source(rt, source, walk, taker),
        None => Ok(false),
    }
}

// Walks over what a source has.
fn walk_source<T: Taker>(
    rt: &HostRuntime,
    source: Source,
    walk: &mut Walk<'_>,
    taker: &mut T,
) -> Result<bool, Fault> {
    match Cutter::open(rt.alloc(), source) {
        Ok(cutter) => walk_export(rt, cutter, walk, taker),
        Err(CutFault::NoRecord) => taker.take_none(rt, walk),
        Err(fault) => walk.not_cut(rt, fault),
    }
}

// Walks over an export.
fn walk_export<T: Taker>(
    rt: &HostRuntime,
    cutter: Cutter<Source>,
    walk: &mut Walk<'_>,
    taker: &mut T,
) -> Result<bool, Fault> {
    let takes = taker.begin(rt, cutter.header(), cutter.line_end())?;
    walk.pass_header(rt, cutter.header(), cutter.line_end());
    let is_whole = !takes || walk_parts(rt, cutter, walk, taker)?;
    taker.end(rt, walk, is_whole)
}

// What became of a part.
enum Taken {
    // More parts follow it.
    Part,
    // It is the last one.
    Last,
    // It was refused, which was said.
    Refused,
}

// Parts that were cut and not taken yet, the first one first.
struct CutParts {
    // who cuts the parts behind them, if that isn't the taker or one of its threads
    cutter: Option<Cutter<Source>>,
    parts: VecDeque<Part>,
    // why the part behind them can't be cut
    fault: Option<CutFault>,
    // whether nothing is cut behind them any more
    is_end: bool,
}

impl Drop for CutParts {
    fn drop(self) {
        let Self {
            cutter: _,
            parts: _,
            fault: _,
            is_end: _,
        } = self;
    }
}

impl CutParts {
    // Nothing was cut yet.
    fn new(alloc: Global, cutter: Cutter<Source>) -> CutParts {
        CutParts {
            cutter: Some(cutter),
            parts: VecDeque::new(alloc),
            fault: None,
            is_end: false,
        }
    }

    // Cuts parts until there is one to take, and as many behind it as are wanted ahead of their turn.
    fn fill<T: Taker>(
        &mut self,
        rt: &HostRuntime,
        walk: &Walk<'_>,
        taker: &mut T,
    ) -> Result<(), Fault> {
        for _ in self.parts.len()..taker.parts_ahead().saturating_add(1) {
            if self.is_end {
                break;
            }
            match taker.cut(rt.alloc(), &mut self.cutter) {
                Some(Ok(part)) => {
                    self.is_end = part.is_last;
                    taker.see(rt, walk, &part)?;
                    self.parts.push_back(part)?;
                }
                Some(Err(fault)) => {
                    self.is_end = true;
                    self.fault = Some(fault);
                }
                None => self.is_end = true,
            }
        }
        Ok(())
    }
}

// Walks over the parts of an export in order; false where one was refused, which was said.
fn walk_parts<T: Taker>(
    rt: &HostRuntime,
    cutter: Cutter<Source>,
    walk: &mut Walk<'_>,
    taker: &mut T,
) -> Result<bool, Fault> {
    let mut cut = CutParts::new(rt.alloc(), cutter);
    for _ in 0..u64::MAX {
        cut.fill(rt, walk, taker)?;
        let Some(part) = cut.parts.pop_front() else {
            break;
        };
        walk.pass_repeated(rt, &part);
        if !taker.take(rt, walk, &part)? {
            return Ok(false);
        }
    }
    match cut.fault.take() {
        Some(fault) => walk.not_cut(rt, fault),
        None => Ok(true),
    }
}
