//! Tests of the crates that compute with amounts, texts and bytes, and that stand on no reader of rows, over their public calls.
//!
//! They stand in a crate of their own so that the crates which they test are proved once. They keep what no file of `examples/cases` can show: calls
//! that the program doesn't make, and values that no answer has. A test is proved as well as run, and its proof grows with its exits and with what is
//! dropped at each: so a test is one call of a function of `ended`, and a function that owns texts has few exits.
#![tactic(auto)]

#[cfg(test)]
mod bytes;
#[cfg(test)]
mod ended;
#[cfg(test)]
mod instants;
#[cfg(test)]
mod lanes;
#[cfg(test)]
mod money;
#[cfg(test)]
mod persistent;
#[cfg(test)]
mod rules;
#[cfg(test)]
mod script;
#[cfg(test)]
mod shares;
#[cfg(test)]
mod toml;
