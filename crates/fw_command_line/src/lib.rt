//! The command line of `focusd`: its commands, what they take, and what the help says.
//!
//! [`command_line`] is the whole of it. What it took of each option is asked for by the option's id, which is a constant here. Each command has a module.
#![tactic(auto)]

mod add;
mod charge;
mod check;
mod checkpoint;
mod commitments;
mod compact;
mod compare;
mod coverage;
mod dialects;
mod dump;
mod explain;
mod export;
mod exports;
mod ids;
mod import;
mod keeps;
mod line;
mod lines;
mod load;
mod options;
mod parameter;
mod past;
mod policy;
mod ranges;
mod replace;
mod report;
mod run;
mod selection;
mod split;
mod status;
mod verify;
mod what_if;
mod withdraw;

pub use ids::{
    ALL, ANALYSTS, AS_OF, BEFORE, BEFORE_TO, BY, CODE, COLUMN, COMMITMENTS, CREATE, CURRENCY,
    DIALECT, DIGEST, DIR, DIRECT, DRY_RUN, EXPECT, FILES, FORMAT, FROM, INTO, KEEP, LAST, LISTED,
    MAP, MONTH, NO_SYNC, ONLY, ORIGIN, OUT, POLICY, PRICE_TAG, QUIET, SEQ, STRICT, SUM, SUMMARY,
    TAG, TO, TOP, TOTAL_ONLY, WHERE, WHERE_NOT, WORKERS, YES,
};
pub use line::command_line;
