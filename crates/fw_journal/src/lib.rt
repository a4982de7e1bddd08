//! A log of payloads on one side of a volume.
//!
//! From the log's first gate on stand frames: a gate of one byte, the payload's length in four bytes, the lowest first,
//! and the payload. A gate is open where it is 1, and closed at any other value; the log ends at its first closed gate.
//! An append writes the frame and a closed gate behind it, and syncs; then it opens the gate before the frame, and syncs
//! again. So a payload counts from the moment when its gate is open, and what stands behind an open gate was synced
//! before it was opened. No checksum is needed.
#![tactic(auto)]

mod fault;
mod frame;
mod gate;
mod laws;
mod log;
mod reading;
mod writing;

pub use fault::LogFault;
pub use gate::frame_at;
pub use laws::one_reading;
pub use log::Log;
pub use reading::replay;
