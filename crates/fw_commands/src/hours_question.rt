//! Questions over a range of hours.
use fw_calendar::Period;
use fw_console::Fault;
use fw_snapshot::Snapshot;

/// A question over a range of hours.
pub trait HoursQuestion {
    /// It can be asked: what it starts threads with may be shared by them.
    ghost is_askable: { Self → Type 0 };

    /// The answer of a warehouse over these hours, as text. What is to be said about it is said on standard error.
    fn answer(&self, rt: &HostRuntime, snapshot: &Snapshot, hours: Period) -> Result<Vec<u8>, Fault>
        requires { is_askable self.now };
}
