//! The rows that a warehouse was ever sent, in segments, and which of them count.
//!
//! Rows are withdrawn in ranges, and then count no more. A stored segment stays as it is for ever. Beside one that has a withdrawn row stand the
//! rows of it that still count, in columns of their own, so that a report goes over columns all of whose rows count. Where nothing was withdrawn,
//! these are the segments themselves.
//!
//! The value is never changed. A post costs what it brings. A withdrawal notes its range beside each segment that it meets, which it finds by their
//! places: it costs the same in a long segment as in a short one. The columns of the rows that are left are made when they are first asked for, or
//! by [`PostedRows::settled`], which keeps them. All of these share with the old value what stays.
#![tactic(auto)]

mod counting;
mod finding;
mod gone;
mod laws;
mod left;
mod making;
mod marks;
mod merging;
mod part;
mod posted;
mod reading;
mod settling;
mod withdrawing;

pub use counting::CountingSegments;
pub use laws::{merging_keeps_rows, selection_is_by_part};
pub use posted::PostedRows;
