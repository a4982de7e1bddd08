//! Exports as posts: the files are cut as `focusd import` cuts them, and read whole before anything is done.
use fw_column_rows::{KnownTexts, read_columns_after, read_columns_keeping};
use fw_columns::Columns;
use fw_console::{Fault, letters};
use fw_cut::Part;
use fw_dialect::Dialect;
use fw_export_files::{Taker, Walk, header_fault, say_header, say_kept, walk_files};
use fw_rows::{Currency, Keeper, RowFault};
use std::alloc::Global;

/// How exports are read.
#[derive(Drop)]
pub(crate) struct Form {
    /// The form that they have, where that isn't the one of FOCUS.
    pub(crate) dialect: Option<Dialect>,
    /// The columns that are kept as tags, if any are.
    pub(crate) keeper: Option<Keeper>,
}

/// The exports that are read.
#[derive(Drop)]
struct Reading {
    currency: Currency,
    keeper: Option<Keeper>,
    known: KnownTexts,
    // the rows of each post, in order
    parts: Vec<Columns>,
}

/// The rows of each post of the files, in order; none where a file has a fault, which was said.
pub(crate) fn read_files(
    rt: &HostRuntime,
    currency: Currency,
    is_quiet: bool,
    form: Form,
    files: &[&str],
) -> Result<Option<Vec<Columns>>, Fault> {
    let Form { dialect, keeper } = form;
    let mut walk = Walk::new(rt, is_quiet, files);
    walk.dialect = dialect;
    let mut reading = Reading {
        currency,
        keeper,
        known: KnownTexts::new(rt.alloc()),
        parts: Vec::new(rt.alloc()),
    };
    let are_read = walk_files(rt, files, &mut walk, &mut reading);
    if are_read? {
        Ok(Some(reading.parts))
    } else {
        Ok(None)
    }
}

impl Reading {
    // The rows of a part, as it is to be read.
    fn read(&mut self, alloc: Global, part: &Part) -> Result<Columns, RowFault> {
        let text = part.text.as_slice();
        match &mut self.keeper {
            Some(keeper) => {
                read_columns_keeping(alloc, text, self.currency, &mut self.known, keeper)
            }
            None => read_columns_after(alloc, text, self.currency, &mut self.known),
        }
    }

    // Takes the rows of a part.
    fn keep(
        &mut self,
        rt: &HostRuntime,
        walk: &mut Walk<'_>,
        part: &Part,
        rows: Columns,
    ) -> Result<bool, Fault> {
        walk.took(rt, part, rows.len() as u64);
        self.parts.push(rows)?;
        Ok(true)
    }

    // Says which value of a part is wrong, which is to be read as another one. The answer is false.
    fn refuse(
        &self,
        rt: &HostRuntime,
        walk: &mut Walk<'_>,
        part: &Part,
        read: &Part,
        fault: RowFault,
    ) -> Result<bool, Fault> {
        let is_taken = walk.refuse(rt, part, fault, letters(&self.currency))?;
        if let Some(keeper) = &self.keeper {
            say_kept(rt, keeper.keeps(), read, fault)?;
        }
        Ok(is_taken)
    }

    // Whether the header of a part has each kept column once; where it hasn't, that is said.
    fn has_columns(
        &self,
        rt: &HostRuntime,
        walk: &mut Walk<'_>,
        part: &Part,
    ) -> Result<bool, Fault> {
        let Some(keeper) = &self.keeper else {
            return Ok(true);
        };
        match header_fault(rt.alloc(), keeper.keeps(), part)? {
            Some(fault) => Ok(say_header(rt, walk, &fault)),
            None => Ok(true),
        }
    }
}

impl Taker for Reading {
    fn command(&self) -> &'static str {
        "replace"
    }

    fn take(&mut self, rt: &HostRuntime, walk: &mut Walk<'_>, part: &Part) -> Result<bool, Fault> {
        if !self.has_columns(rt, walk, part)? {
            return Ok(false);
        }
        let meant = walk.meant(rt.alloc(), part)?;
        let read = meant.as_ref().unwrap_or(part);
        match self.read(rt.alloc(), read) {
            Ok(rows) => self.keep(rt, walk, part, rows),
            // What follows the last record, as a line feed, is no post, and neither is a header that another one follows.
            Err(RowFault::NoRows) if walk.record > 1 || !part.is_last => Ok(true),
            Err(fault) => self.refuse(rt, walk, part, read, fault),
        }
    }
}
