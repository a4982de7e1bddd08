//! The walk over the log of a side, from the state that its body spells on.
ghost use Rattle.std.specs.Prelude.{◌≡◌, ◌+◌, ◌<◌, ◌≤◌, ℕ, IfOk, IfErr, IsErrOf, IsTrue, MatchBool, OnOk};
ghost use Rattle.fw_disk.specs.declared.volume.Side.{Side};
ghost use Rattle.fw_disk.specs.Volume.{Rose};
ghost use Rattle.fw_snapshot.specs.Judging.{IsLegal, IsLegalAfter};
ghost use Rattle.fw_snapshot.specs.Verdicts.{with_more};
ghost use Rattle.fw_recover.specs.declared.fault.StoreFault.TheVariants.{NoHouse, Corrupt, Device};
ghost use Rattle.fw_recover.specs.Corrupt.{LogBreaks};
ghost use Rattle.fw_recover.specs.Opening.{log_fault, IsOpenFault, GoesBehind, GoesNotBehind, HasGroups, IsClosedAt, OnlyReads};

use crate::StoreFault;
use crate::checkpoint::merged_of;
use crate::judging::judge_and_add;
use fw_disk::{Side, Volume};
use fw_entry_bytes::Form;
use fw_journal::{LogFault, frame_at};
use fw_segment::{DecodeFault, decode_group};
use fw_snapshot::{Entry, Snapshot, Verdict};
use std::alloc::{AllocError, Global};

/// Puts the groups of a log of the form behind the state, and answers the log's first closed gate. It reads the log frame by frame:
/// each group is decoded, and its entries are judged, before the next frame is looked at. It holds one payload in memory.
///
/// `Corrupt` at the first gate where neither a closed gate nor the frame of a group stands whose entries are accepted
/// after all before them; `Device` where a read failed; `NoMemory` where a growth was refused.
pub(crate) fn walk_log<V: Volume>(
    alloc: Global,
    volume: &mut V,
    side: Side,
    form: Form,
    start: u64,
    state: &mut Snapshot,
) -> Result<u64, StoreFault>
    requires legal { IsLegal state.old.entries }

    ensures groups { IfOk result (λ gate. IsTrue V.tells
        → HasGroups form state.old start gate ((V.view volume.old).seen side) state.new) }
    ensures closed { IfOk result (λ gate. IsTrue V.tells
        → IsClosedAt gate ((V.view volume.old).seen side)) }
    ensures within { IfOk result (λ gate. gate < (V.view volume.old).size side) }
    ensures corrupt { (at_side : Side) (at : ℕ) → IsErrOf result (Corrupt at_side at)
        → (at_side ≡ side) × (IsTrue V.tells → LogBreaks form state.old start at
        ((V.view volume.old).seen side)) }
    ensures not_no_house { IsErrOf result NoHouse → ⊥ }
    ensures which { IfErr result IsOpenFault }

    ensures reads { OnlyReads V.tells (V.view volume.old) (V.view volume.new) }
    ensures device { IsErrOf result Device → Rose (V.view volume.old).failures
        (V.view volume.new).failures }
{
    let mut gate = start;
    loop {
        match frame_at(alloc, volume, side, gate) {
            Ok(None) => return Ok(gate),
            Ok(Some((payload, next))) => match add_group(alloc, form, state, &payload) {
                Ok(true) => gate = next,
                Ok(false) => return Err(StoreFault::Corrupt { side, at: gate }),
                Err(AllocError) => return Err(StoreFault::NoMemory),
            },
            Err(fault) => return Err(of_log(side, fault)),
        }
    }
}

/// The fault of a log on a side, as that of a store.
fn of_log(side: Side, fault: LogFault) -> StoreFault
    ensures value { result ≡ log_fault side fault }
    ensures which { IsOpenFault result }
{
    match fault {
        LogFault::Corrupt { at } => StoreFault::Corrupt { side, at },
        LogFault::NoMemory => StoreFault::NoMemory,
        LogFault::Device | LogFault::Failed | LogFault::TooLarge => StoreFault::Device,
    }
}

/// Puts the group of a payload behind the state; false where the payload is no group of the form, or an entry isn't accepted
/// after those before it, which stay behind the state then.
fn add_group(
    alloc: Global,
    form: Form,
    state: &mut Snapshot,
    payload: &[u8],
) -> Result<bool, AllocError>
    ensures { IfOk result (λ all. MatchBool all (GoesBehind form state.old payload.now state.new)
        (GoesNotBehind form state.old.entries payload.now)) }
{
    match decode_group(alloc, form, payload) {
        Ok(entries) => {
            let all = add_all(state, &entries)?;
            join_short(state)?;
            Ok(all)
        }
        Err(DecodeFault::Corrupt { .. }) => Ok(false),
        Err(DecodeFault::NoMemory) => Err(AllocError),
    }
}

/// Puts entries behind the state, up to the first one that isn't accepted after those before it; false where there is one.
fn add_all(state: &mut Snapshot, entries: &[Entry]) -> Result<bool, AllocError>
    ensures { IfOk result (λ all. MatchBool all
        (IsLegalAfter state.old.entries entries.now × (state.new ≡ with_more state.old entries.now))
        (IsLegalAfter state.old.entries entries.now → ⊥)) }
{
    for entry in entries {
        let Verdict::Accept = judge_and_add(state, entry)? else {
            return Ok(false);
        };
    }
    Ok(true)
}

/// From how many segments on those of very short posts are joined.
const MANY_SEGMENTS: usize = 32_768;

/// How many rows a segment has where none is joined, at least, taken over all.
const FEW_ROWS: usize = 8;

/// Joins the segments of a state where there are many and most are very short. So the posts of a log take no more memory than their
/// rows do, however short each is.
fn join_short(state: &mut Snapshot) -> Result<(), AllocError>
    ensures { OnOk result (state.new ≡ state.old) }
{
    let segments = state.state().segments().len();
    if segments >= MANY_SEGMENTS && state.state().rows_posted() / FEW_ROWS < segments {
        let joined = merged_of(state.state())?;
        *state = joined;
    }
    Ok(())
}
