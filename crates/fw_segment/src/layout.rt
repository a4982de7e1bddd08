//! Layouts of segments.

/// How the rows of a segment are laid out.
#[derive(Clone, Copy, Debug, Drop, PartialEq, Eq)]
pub enum SegmentLayout {
    /// One row after the other.
    Rows,
    /// One column after the other, each text once.
    Columns,
}
