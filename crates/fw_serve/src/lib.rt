//! Scripts that are served from a store: each command is run and answered in turn.
//!
//! [`serve`] is the program over any reader, any writer and any volume: it reads a script whole, runs its commands on a
//! [`Store`](fw_recover::Store) one after the other, and writes their answers. An entry is answered `accepted` only after its
//! group is on the volume, synced.
//!
//! [`reopen`] opens what a crash left of scripts that were served. Its contract says in one piece what is there, and what reports on it say.
//! [`serve_and_reopen`] does both, with a stop between them.
#![tactic(auto)]

mod answering;
mod content;
mod fault;
mod input;
mod laws;
mod parts;
mod questions;
mod recovery;
mod refusals;
mod reply;
mod server;
mod writing;

pub use fault::ServeFault;
pub use input::read_within;
pub use laws::{
    a_crash_keeps_what_was_answered, a_served_script_may_stop_anywhere,
    a_store_that_failed_takes_nothing_more, a_warehouse_outlives_its_stops,
    a_warehouse_stays_whole, answers_say_what_is_held, commands_are_run_in_turn,
    one_command_has_one_answer, questions_are_answered_from_what_is_held,
    stores_that_are_alike_answer_alike, what_a_crash_leaves_can_be_opened,
    what_a_crash_leaves_is_reported_whole, what_is_written_is_true,
    what_the_store_refuses_has_its_cause,
};
pub use questions::answer_state;
pub use recovery::{reopen, serve_and_reopen};
pub use refusals::{entry_reply, row_reply, verdict_reply};
pub use reply::{Detail, Refusal, Reply};
pub use server::serve;
pub use writing::write_reply;
