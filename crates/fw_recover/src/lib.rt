//! A warehouse on the two sides of a volume: what two files stand for, where they are corrupt, and how they are opened.
//!
//! A side has a state and a log of the groups that were committed after it. Of the two the open one of greater generation
//! counts, so the next state is made on the other side while this one stands, and opening its gate is the step from the one
//! to the other.
//!
//! [`Store::open`] reads both: it answers with the one warehouse for which the files stand, or with none, or with the place of
//! the first fault. [`Store::commit`] judges an entry and adds it to the log of the side in use; [`Store::commit_group`] adds
//! several as one group, and [`Store::run`] a list of them one by one.
#![tactic(auto)]

mod checkpoint;
mod commit;
mod create;
mod fault;
mod header;
mod judging;
mod laws;
mod opening;
mod prepared;
mod run;
mod shared;
mod sides;
mod spelled;
mod store;
mod walk;

pub use fault::StoreFault;
pub use header::{Header, side_in_use};
pub use laws::{
    a_first_side_adds_a_warehouse_or_nothing, an_append_adds_a_group_or_nothing,
    each_moment_is_recovered, images_have_one_meaning, making_a_side_keeps_the_warehouse,
    what_is_settled_stands_as_read,
};
pub use prepared::Prepared;
pub use run::run_and_recover;
pub use sides::{close_side, fill_side, make_side, open_side};
pub use store::Store;
