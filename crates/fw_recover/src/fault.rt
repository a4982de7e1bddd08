//! Why a call of a store was refused.
use fw_disk::Side;
use thiserror::Error;

/// Why a call of a store was refused. The text of each is its code and its name, as programs print them.
#[derive(Clone, Copy, Debug, PartialEq, Eq, Error)]
pub enum StoreFault {
    /// There is no warehouse: neither side is open.
    #[error("S1 NoHouse")]
    NoHouse,
    /// A side is corrupt: the first fault stands in the file of this side, `at` bytes from its start.
    #[error("S2 Corrupt")]
    Corrupt { side: Side, at: u64 },
    /// A read, a write or a sync of the volume has failed.
    #[error("S3 Device")]
    Device,
    /// The device has failed in an earlier call that writes. Open the warehouse again.
    #[error("S4 Failed")]
    Failed,
    /// The generation is the greatest that there is, so no further checkpoint can be made.
    #[error("S5 Generations")]
    Generations,
    /// The volume has no room for what would be written.
    #[error("S6 TooLarge")]
    TooLarge,
    /// A warehouse stands on the volume already.
    #[error("S7 Exists")]
    Exists,
    /// The side in use is of the first form, which an earlier version of the program wrote, and the form doesn't have an
    /// entry that would be written. A checkpoint makes a side of the second form, which has each entry.
    #[error("S8 OldSide")]
    OldSide,
    /// The allocator refused a growth.
    #[error("NoMemory")]
    NoMemory,
}
