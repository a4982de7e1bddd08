//! What the commands of `focusd` share: faults and exit statuses, the standard streams, progress, the folder of a warehouse, the texts of files, and the currency and the range of time that options name.
#![tactic(auto)]

mod advice;
mod currency;
mod fault;
mod files;
mod folder;
mod heard;
mod house;
mod origin;
mod output;
mod progress;
mod range;
mod report_options;
mod summary;
mod unfinished;
mod words;

pub use advice::{advised, advised_on_terminal, stopped, tell_failure};
pub use currency::{letters, read_currency};
pub use fault::{Fault, FileFailure, WRONG_USE, wrong_use};
pub use files::{report_of, toml_of};
pub use folder::{Creates, closed, is_folder, let_go, open_folder, open_to_ask, open_warehouse};
pub use heard::Heard;
pub use house::House;
pub use origin::wrong_origin;
pub use output::{print_answer, printed};
pub use progress::{Progress, bytes_of};
pub use range::{read_range, wrong_time};
pub use report_options::{read_options, step_of, workers_of, wrong_top};
pub use summary::{Member, tell, tells_json};
pub use unfinished::{begin_replacement, end_replacement, unfinished_origin, warn_unfinished};
pub use words::{conflict_code, entry_code, refuse, say_fault};
