//! Fields as bytes: whole numbers, texts, codes, options and lists, read from the front of a slice and written at the end of a buffer.
//!
//! Whole numbers stand with their low byte first, a text behind its length, and a list behind its count. The definitions put readings
//! together from few words, and the laws of those words say for each of them that what is read is spelled so, and that what is spelled
//! so is read again, whatever follows it. The formats of rows, terms and entries are made of these words in the crates above.
//!
//! A reader that fails reports how many bytes were left from the fault to the end, so no reader needs to know where its bytes stand.
#![tactic(auto)]

mod fault;
mod lengths;
mod reading;
mod writing;

pub use fault::ReadError;
pub use lengths::text_len;
pub use reading::{i64_at, str_at, u32_at, u64_at};
pub use writing::{put_byte, put_i64, put_text, put_u32, put_u64};
