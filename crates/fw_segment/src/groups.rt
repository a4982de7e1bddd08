//! The reader and the writer of a group.
ghost use Rattle.std.specs.Prelude.{◌≡◌, ◌++◌, OnOk};
ghost use Rattle.fw_bytes.specs.Reading.{Gives, times};
ghost use Rattle.fw_entry_bytes.specs.Reading.{entry_at};
ghost use Rattle.fw_segment.specs.Groups.{group, group_at, IsGroup};

use fw_bytes::{ReadError, put_u32, u32_at};
use fw_entry::Entry;
use fw_entry_bytes::{Form, entry_of, put_entry};
use std::alloc::{AllocError, Global};

/// The most entries of a group.
const MOST_ENTRIES: u32 = 64;

/// So many entries. Memory is taken as each entry is read, not for the count.
fn entries_after(
    alloc: Global,
    form: Form,
    count: u32,
    bytes: &[u8],
) -> Result<(Vec<Entry>, &[u8]), ReadError>
    ensures { Gives (λ x. (x.0.items, x.1.now)) result (times (entry_at form) count bytes.now) }
{
    let mut entries = Vec::new(alloc);
    let mut rest = bytes;
    for _ in 0..count {
        match entry_of(alloc, form, rest) {
            Ok((entry, after)) => {
                entries.push(entry)?;
                rest = after;
            }
            Err(e) => return Err(e),
        }
    }
    Ok((entries, rest))
}

/// The entries of a group, and the bytes after it.
#[tactic(auto, unfolding(crate::specs::Groups::group_at, fw_bytes::specs::Reading::list_at))]
pub fn group_of(alloc: Global, form: Form, bytes: &[u8]) -> Result<(Vec<Entry>, &[u8]), ReadError>
    ensures { Gives (λ x. (x.0.items, x.1.now)) result (group_at form bytes.now) }
{
    let (count, rest) = u32_at(bytes)?;
    if count < 1 || count > MOST_ENTRIES {
        return Err(ReadError::Corrupt(bytes.len()));
    }
    entries_after(alloc, form, count, rest)
}

/// Writes a group at the end of the buffer.
#[tactic(auto, unfolding(crate::specs::Groups::group))]
pub fn put_group(out: &mut Vec<u8>, entries: &[Entry]) -> Result<(), AllocError>
    requires { IsGroup entries.now }
    ensures { OnOk result (out.new.items ≡ out.old.items ++ group entries.now) }
{
    put_u32(out, entries.len() as u32)?;
    for entry in entries {
        put_entry(out, entry)?;
    }
    Ok(())
}
