//! How rows are written.

/// How rows are written.
#[derive(Clone, Copy, Debug, Drop, PartialEq, Eq)]
pub enum ExportFormat {
    /// A CSV: the names of the columns, and a record for each row.
    Csv,
    /// An object of JSON for each row, each on a line of its own.
    JsonLines,
}
