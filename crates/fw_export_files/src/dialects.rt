//! Exports in the form of a provider.
use crate::walk::Walk;
use fw_cut::Part;
use fw_dialect::{Dialect, proposed, rewrite};
use std::alloc::{AllocError, Global};

/// The part that a part in a dialect stands for. Records, fields and lines are as many.
pub fn rewritten(alloc: Global, dialect: Dialect, part: &Part) -> Result<Part, AllocError> {
    let text = part.text.as_slice();
    let (header, body) = text.split_at(part.header.min(text.len()));
    Ok(Part {
        text: rewrite(alloc, dialect, header, body)?,
        header: header.len(),
        is_last: part.is_last,
        skipped: Vec::new(alloc),
    })
}

impl Walk<'_> {
    /// The part that a part of the exports stands for; none where that is the part itself. Records, fields and lines are as many.
    pub fn meant(&self, alloc: Global, part: &Part) -> Result<Option<Part>, AllocError> {
        match self.dialect {
            Some(dialect) => Ok(Some(rewritten(alloc, dialect, part)?)),
            None => Ok(None),
        }
    }

    /// Says which dialect reads a value of a column, where one does and none was named.
    pub fn propose(&self, rt: &HostRuntime, column: &str, value: &str) -> bool {
        match (self.dialect, proposed(column, value)) {
            (None, Some(dialect)) => {
                say_dialect(rt, dialect);
                true
            }
            _ => false,
        }
    }
}

// Says which dialect may read the exports.
fn say_dialect(rt: &HostRuntime, dialect: Dialect) {
    let name = dialect.name();
    let whose = match dialect {
        Dialect::Gcp => "BigQuery exports Google's costs so",
    };
    let _ = eprintln!(rt; "{whose}: --dialect {name} reads such times and tags.");
}
