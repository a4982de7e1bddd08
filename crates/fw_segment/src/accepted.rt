//! The writer of those entries of a list that are accepted.
ghost use Rattle.std.specs.Prelude.{◌≡◌, ◌++◌, length, count_by, OnOk};
ghost use Rattle.fw_snapshot.specs.Verdicts.{chosen, is_accept};
ghost use Rattle.fw_segment.specs.Groups.{group, IsGroup};

use fw_bytes::put_u32;
use fw_entry::Entry;
use fw_entry_bytes::put_entry;
use fw_snapshot::Verdict;
use std::alloc::AllocError;

/// How many of these verdicts accept their entries.
fn accepted_count(verdicts: &[Verdict]) -> usize
    ensures { result ≡ count_by is_accept verdicts.now }
{
    verdicts
        .iter()
        .filter(|verdict| verdict.is_accept())
        .count()
}

/// Appends the bytes of a group: of those entries that their verdicts accept, each entry with the verdict at its place. There must be
/// 1 to 64 of them. No entry is copied.
///
/// # Errors
/// [`AllocError`] where the buffer can't grow. Then nothing is promised of what the buffer holds.
#[tactic(auto, unfolding(crate::specs::Groups::group))]
pub fn append_accepted(
    out: &mut Vec<u8>,
    entries: &[Entry],
    verdicts: &[Verdict],
) -> Result<(), AllocError>
    requires each { length verdicts.now ≡ length entries.now }
    requires group { IsGroup (chosen entries.now verdicts.now) }
    ensures { OnOk result (out.new.items
        ≡ out.old.items ++ group (chosen entries.now verdicts.now)) }
{
    put_u32(out, accepted_count(verdicts) as u32)?;
    for (entry, verdict) in entries.iter().zip(verdicts) {
        if verdict.is_accept() {
            out.reserve(entry.encoded_len())?;
            put_entry(out, entry)?;
        }
    }
    Ok(())
}
