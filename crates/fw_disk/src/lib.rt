//! Volumes: two files of bytes under a disk model that may tear any write which isn't synced. [`MemVolume`] keeps them
//! in memory, [`FileVolume`] in a folder, [`NullVolume`] keeps none of their bytes, [`FaultVolume`] lets calls of another volume fail by a plan, and
//! [`write_synced`] is the one step by which a store changes its files.
#![tactic(auto)]

mod calls;
mod fault;
mod file;
mod memory;
mod null;
mod synced;
mod volume;

pub use fault::{FaultVolume, Mode};
pub use file::{FileVolume, FolderFault};
pub use memory::{Choice, MemVolume};
pub use null::NullVolume;
pub use synced::write_synced;
pub use volume::{Side, Stoppable, Volume, VolumeFault};
