//! Tests of importers, a flusher and analysts on threads, over the public calls.
//!
//! They stand in a crate of their own so that the crates which they test are proved once.
#![tactic(auto)]

#[cfg(test)]
mod answered;
mod ends;
#[cfg(test)]
mod gated;
#[cfg(test)]
mod refused;
#[cfg(test)]
mod reported;
mod seats;
