//! A part of an export, as it is written.
use fw_calendar::Period;
use std::alloc::{AllocError, Global};
use std::fs::{self, OpenOptions};
use std::io::{self, Write};

/// Records in a row, as they stand in an export.
#[derive(Clone, Copy, Drop)]
pub(crate) struct Records<'r> {
    pub(crate) bytes: &'r [u8],
    /// What ends the last one, where nothing does.
    pub(crate) ending: &'r [u8],
    /// How many they are.
    pub(crate) rows: u64,
}

/// A part of an export: its file, and what is to be written behind what the file has.
pub(crate) struct Output {
    /// The name of its file, in the folder of the parts.
    pub(crate) name: String,
    /// The hours of its rows.
    pub(crate) span: Period,
    /// Its pile, counted from 1.
    pub(crate) pile: usize,
    pub(crate) rows: u64,
    pub(crate) bytes: u64,
    // what is to be written
    buffer: Vec<u8>,
    // whether the file was made
    is_made: bool,
}

impl Drop for Output {
    fn drop(self) {
        let Self {
            name: _,
            span: _,
            pile: _,
            rows: _,
            bytes: _,
            buffer: _,
            is_made: _,
        } = self;
    }
}

impl Output {
    /// A part without rows.
    pub(crate) fn new(alloc: Global, name: String, span: Period, pile: usize) -> Output {
        Output {
            name,
            span,
            pile,
            rows: 0,
            bytes: 0,
            buffer: Vec::new(alloc),
            is_made: false,
        }
    }

    /// Puts records, behind the header where they are the first ones. What is returned is how many bytes more there are to be written.
    pub(crate) fn put(
        &mut self,
        header: &[u8],
        records: &Records<'_>,
    ) -> Result<usize, AllocError> {
        if records.rows == 0 {
            return Ok(0);
        }
        let before = self.buffer.len();
        if self.rows == 0 {
            self.buffer.extend_from_slice(header)?;
        }
        self.buffer.extend_from_slice(records.bytes)?;
        self.buffer.extend_from_slice(records.ending)?;
        self.rows = self.rows.saturating_add(records.rows);
        let more = self.buffer.len().saturating_sub(before);
        self.bytes = self.bytes.saturating_add(more as u64);
        Ok(more)
    }

    /// Writes what is to be written to the file in the folder, which has no name yet but for a further ending.
    pub(crate) fn write(&mut self, rt: &HostRuntime, folder: &str) -> io::Result<()> {
        if self.buffer.is_empty() {
            return Ok(());
        }
        let path = part_path(rt.alloc(), folder, self.name.as_str())?;
        let mut file = if self.is_made {
            OpenOptions::new().append(true).open(rt, path.as_str())?
        } else {
            fs::create(rt, path.as_str())?
        };
        self.is_made = true;
        file.write_all(self.buffer.as_slice())?;
        self.buffer = Vec::new(rt.alloc());
        Ok(())
    }

    /// Has the system write the file to the disk.
    pub(crate) fn sync(&self, rt: &HostRuntime, folder: &str) -> io::Result<()> {
        let path = part_path(rt.alloc(), folder, self.name.as_str())?;
        OpenOptions::new()
            .append(true)
            .open(rt, path.as_str())?
            .sync_all()
    }

    /// Gives the file its name.
    pub(crate) fn give_name(&mut self, rt: &HostRuntime, folder: &str) -> io::Result<()> {
        let path = part_path(rt.alloc(), folder, self.name.as_str())?;
        let named = path_in(rt.alloc(), folder, self.name.as_str())?;
        fs::rename(rt, path.as_str(), named.as_str())?;
        self.is_made = false;
        Ok(())
    }

    /// Removes the file, where it was made and has no name yet.
    pub(crate) fn remove(&mut self, rt: &HostRuntime, folder: &str) {
        if self.is_made {
            self.is_made = false;
            if let Ok(path) = part_path(rt.alloc(), folder, self.name.as_str()) {
                let _ = fs::remove_file(rt, path.as_str());
            }
        }
    }
}

/// The path of a file in a folder.
pub(crate) fn path_in(alloc: Global, folder: &str, name: &str) -> Result<String, AllocError> {
    format!(in alloc; "{folder}/{name}")
}

// The path of a part that has no name yet.
fn part_path(alloc: Global, folder: &str, name: &str) -> Result<String, AllocError> {
    format!(in alloc; "{folder}/{name}.part")
}
