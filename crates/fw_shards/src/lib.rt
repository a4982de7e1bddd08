//! Reports of shards, added up. A shard is a warehouse that holds some of what one warehouse would: some of the hours, or in an hour some of the
//! rows, with the commitments that apply to these.
//!
//! [`added`] adds direct reports by group, and [`charged`] applies a policy to the sum, which goes last. `specs/Dealt.antt` and
//! `specs/Asked.antt` say what shards are. [`shards_add_up`] says that their lines are those of one warehouse that holds all, each once, and
//! [`the_sum_is_the_report`] that so are their reports.
#![tactic(auto)]

mod adding;
mod charging;
mod direct;
mod fault;
mod laws;
mod range;
mod reporting;

pub use adding::added;
pub use charging::charged;
pub use direct::{Direct, DirectReport};
pub use fault::AddFault;
pub use laws::{reports_are_direct, shards_add_up, the_sum_is_the_report, whole_hours_are_shards};
pub use reporting::{charged_report, direct_alone};
