//! The running system as a value: what waits, what is in hand, what is published, and one step at a time.
#![tactic(auto)]

mod answer;
mod event;
mod hand;
mod inbox;
mod laws;
mod run;

pub use answer::{Answer, Front, Receipt, Seen};
pub use event::{Event, EventAnswer, House};
pub use hand::{Hand, answer_all};
pub use inbox::{Inbox, Item, PushFault};
pub use laws::what_is_accepted_stands_at_its_number;
pub use run::{Judged, judge_hand, run_events};
