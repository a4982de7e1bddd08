//! What definitions come to that follow the code step by step.
//!
//! Some definitions of the crates below say how something is computed: how a list is put in order,
//! how segments are joined, how heads and columns are read. The laws here say what comes of it,
//! without the steps.
#![tactic(auto)]

mod laws;

pub use laws::{
    an_order_is_sorted_and_stable, columns_read_as_they_are_spelled,
    heads_are_read_up_to_the_first_bad_one, segments_are_joined_as_far_as_they_fit,
};
