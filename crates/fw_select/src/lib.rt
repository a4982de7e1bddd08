//! Reports by several keys and under filters.
//!
//! A [`Selector`] says which lines count and in which group each is: its keys are tags or columns, and the group of a line is the list of their
//! values on it. [`selected`] sums BilledCost and EffectiveCost of the lines of a range of hours by group, and a [`Counter`] those of other lines.
#![tactic(auto)]

mod apart;
mod codes;
mod count;
mod counter;
mod group;
mod key;
mod known;
mod laws;
mod name;
mod rows;
mod selection;
mod selector;
mod table;
mod walk;

pub use counter::Counter;
pub use group::Group;
pub use key::{Column, Key, Source, ValueMap};
pub use laws::{
    a_filter_and_its_opposite_sum_to_the_whole, fewer_keys_have_the_sums_of_more,
    mapped_groups_are_sums, one_tag_counts_as_a_report_does,
};
pub use name::group_name;
pub use selection::{Selection, selected};
pub use selector::{Filter, Selector};
