//! What the commands of `focusd` do that serve a script, ask a warehouse or write it anew, and the one that explains a code.
//!
//! Each takes what the command line took of its options, and prints. Commands that read exports are in `fw_export_commands`.
//!
//! Other commands that ask a warehouse over a range of hours do so by [`ask_hours`]: theirs is a [`HoursQuestion`].
#![tactic(auto)]

mod answers;
mod ask;
mod checkpoint;
mod commitments;
mod coverage;
mod dump;
mod explain;
mod export;
mod hours_question;
mod lines;
mod own;
mod past;
mod policy;
mod range;
mod report;
mod reporting;
mod run;
mod selected_page;
mod selecting;
mod silence;
mod status;
mod strict;
mod verify;
mod wanted;

pub use answers::Refusals;
pub use ask::{ask_hours, say_charged};
pub use checkpoint::make_checkpoint;
pub use commitments::print_commitments;
pub use coverage::print_coverage;
pub use dump::print_dump;
pub use explain::print_explanation;
pub use export::print_export;
pub use hours_question::HoursQuestion;
pub use lines::print_lines;
pub use policy::{GivenPolicy, list_policies};
pub use range::{read_hours, wrong_hours};
pub use report::{print_report, wrong_report};
pub use run::serve_script;
pub use selecting::selections_in;
pub use silence::say_selected;
pub use status::print_status;
pub use strict::strict_status;
pub use verify::verify_folder;
pub use wanted::{Wanted, read_wanted};
