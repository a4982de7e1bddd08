//! The commands of `focusd` over shards, which are warehouses that hold together what one would: `split` cuts exports into the parts that shards take,
//! and `charge` adds the direct reports of shards and applies the policy.
//!
//! Each takes what the command line took of its options, and prints. What is read and added is computed by `fw_direct` and `fw_shards`.
#![tactic(auto)]

mod charge;
mod dealing;
mod fields;
mod listing;
mod output;
mod outputs;
mod piles;
mod reports;
mod span;
mod split;

pub use charge::charge_reports;
pub use split::split_files;
