//! A commitment that applies to a row.

/// A commitment that applies to a row.
#[derive(Clone, Copy, Debug, PartialEq, Eq)]
pub(crate) struct Pair {
    /// The commitment's place in the list of commitments.
    pub(crate) commitment: usize,
    /// The row's place in the list of rows.
    pub(crate) row: usize,
    /// The share of the row's cost that a commitment to a cost charges, in parts per million; `None` for a commitment to a quantity.
    pub(crate) rate: Option<u32>,
}
