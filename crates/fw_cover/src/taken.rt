//! What a commitment took of a row.

/// What a commitment took of a row.
#[derive(Clone, Copy, Debug, PartialEq, Eq)]
pub struct Taken {
    /// The commitment's place in the list that was handed in.
    pub commitment: usize,
    /// The row's place in the list that was handed in.
    pub row: usize,
    /// The quantity that was taken of the row, in nanos; above 0.
    pub quantity: u64,
    /// What it uses of the commitment's capacity, in nanos.
    pub weight: u64,
}
