//! A volume whose syncs wait at a gate: a test holds a commit in its sync for as long as it likes.
#![tactic(auto)]

mod gate;

pub use gate::{Gate, GateVolume};
