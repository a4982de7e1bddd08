//! Files that the command line names.
use crate::foreign::{TELLING, foreign_of};
use crate::walk::Walk;
use fw_console::Fault;
use std::alloc::{AllocError, Global};
use std::fs::{self, File};
use std::io::{self, Read, Stdin};

/// A file that is open, or standard input.
#[derive(Drop)]
enum Input {
    Input(Stdin),
    File(File),
}

impl Read for Input {
    fn read(&mut self, buf: &mut [u8]) -> io::Result<usize> {
        match self {
            Input::Input(input) => input.read(buf),
            Input::File(file) => file.read(buf),
        }
    }
}

/// What a file or standard input has.
#[derive(Drop)]
pub struct Source {
    input: Input,
    // the bytes that were read to see what the file is
    start: Vec<u8>,
}

impl Read for Source {
    // The first read gives the bytes at the start too, so that each gives as many as if these weren't read before.
    fn read(&mut self, buf: &mut [u8]) -> io::Result<usize> {
        let count = self.start.len();
        if count == 0 || buf.len() < count {
            return self.input.read(buf);
        }
        let (front, rest) = buf.split_at_mut(count);
        front.copy_from_slice(self.start.as_slice());
        self.start.clear();
        let more = self.input.read(rest)?;
        Ok(count + more)
    }
}

// The bytes at the start, as many as tell what a file is. A read that fails here fails again.
fn start_of(alloc: Global, input: &mut Input) -> Result<Vec<u8>, AllocError> {
    let mut start = Vec::new(alloc);
    for _ in 0..TELLING {
        let mut byte = [0];
        match input.read(&mut byte) {
            Ok(1) => start.push(byte[0])?,
            Ok(_) | Err(_) => return Ok(start),
        }
    }
    Ok(start)
}

/// Opens the file of a walk, or standard input where its name is `-`; none where it can't be opened or is no CSV in UTF-8, which was said.
pub(crate) fn open_export(
    rt: &HostRuntime,
    file: &str,
    walk: &mut Walk<'_>,
    command: &str,
) -> Result<Option<Source>, Fault> {
    let Some(input) = open_input(rt, file, walk)? else {
        return Ok(None);
    };
    let mut input = input;
    let start = start_of(rt.alloc(), &mut input)?;
    if let Some(format) = foreign_of(start.as_slice()) {
        walk.say_foreign(rt, format, file == "-", command)?;
        return Ok(None);
    }
    Ok(Some(Source { input, start }))
}

// Opens the file of a walk; none where it can't be opened, which was said.
fn open_input(rt: &HostRuntime, file: &str, walk: &mut Walk<'_>) -> Result<Option<Input>, Fault> {
    if file == "-" {
        return Ok(Some(Input::Input(rt.stdin())));
    }
    match fs::open(rt, file) {
        Ok(opened) => Ok(Some(Input::File(opened))),
        Err(error) => {
            let why = format!(in rt.alloc(); "{error}")?;
            walk.not_opened(rt, why.as_str());
            Ok(None)
        }
    }
}
