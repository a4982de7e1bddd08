//! Scripts: which commands a text holds.
//!
//! A script is lines. A line ends with a line feed or with the script, and a line feed at the end opens no further line. Single
//! spaces part the words of a line, so a word may be empty. The commands are:
//!
//! - `post ORIGIN SEQUENCE LINES`, `commit ORIGIN SEQUENCE LINES`, `policy ORIGIN SEQUENCE LINES` and
//!   `add ORIGIN SEQUENCE LINES`, each followed by that many lines of content, at most a million;
//! - `withdraw ORIGIN SEQUENCE TARGET`, where TARGET is a whole number from 1 to 2^64 - 1, with no lines after it;
//! - `report KEY FROM TO`, where KEY is the UTF-8 text between the first word and the last two, and FROM and TO are instants on
//!   whole hours, not before 1970;
//! - `lines FROM TO`, with the same kind of instants;
//! - `state` and `checkpoint`, each with nothing after it.
//!
//! Any other line is a bad command, and the next line is read as a command. Where fewer lines follow an entry than it asks for,
//! the script ends.
//!
//! An entry's origin and sequence number are taken as they stand, and so is the target of a withdrawal. `sequence_number` says which
//! number such a word writes.
//!
//! A script may come piece by piece: [`ScriptText`] keeps what came, and cuts off what is whole commands.
#![tactic(auto)]

mod commands;
mod hours;
mod laws;
mod lines;
mod pieces;
mod reader;
mod whole;
mod words;

pub use commands::{Command, EntryKind};
pub use laws::{commands_are_one, first_command_is_one, withdrawals_take_no_lines};
pub use pieces::{Commands, ScriptText};
pub use reader::Script;
pub use words::sequence_number;
