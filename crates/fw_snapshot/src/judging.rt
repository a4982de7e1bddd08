//! The verdict on an entry.
ghost use Rattle.std.specs.Prelude.{◌≡◌, ◌+◌, ◌≤◌, if◌then◌else◌, nat_le, nat_lt, None, Some};
ghost use Rattle.std.specs.List.{list_any};
ghost use Rattle.fw_entry.specs.View.{command_view};
ghost use Rattle.fw_snapshot.specs.History.{committed_of};
ghost use Rattle.fw_snapshot.specs.Judging.{judged, command_conflict, carries_any, has_registered_id, most_commitments, most_rows, refuses};
ghost use Rattle.fw_snapshot.specs.declared.verdict.Conflict.TheVariants as conflict;
ghost use Rattle.fw_snapshot.specs.declared.verdict.Verdict.TheVariants as verdict;

use crate::state::State;
use crate::verdict::{Conflict, Verdict};
use fw_columns::{Columns, LentRow};
use fw_entry::{Command, Entry};
use fw_terms::{AddedPurchase, Commitment};

/// The most rows that a warehouse may ever have had posted.
const MOST_ROWS: usize = 4_194_304;

/// The most commitments of a warehouse.
const MOST_COMMITMENTS: usize = 256;

/// What becomes of an entry that is sent to a warehouse of this state. It takes no memory, and reads no row of the warehouse.
#[tactic(auto, using(std::proofs::lemmas::Bool::Decides::nat_tests), unfolding(crate::specs::Judging::judged))]
pub fn judge(state: &State, entry: &Entry) -> Verdict
    ensures { result ≡ judged state.now.entries entry.now }
{
    if let Some(verdict) = out_of_turn(state.accepted_from(entry.origin()), entry.seq()) {
        return verdict;
    }
    match command_conflict(state, entry.origin(), entry.command()) {
        None => Verdict::Accept,
        Some(why) => Verdict::Refused(why),
    }
}

/// The verdict on an entry by its number alone, where so many of its origin were accepted: `None` where it is the next one.
#[tactic(auto, using(std::proofs::lemmas::Bool::Decides::nat_tests))]
pub(crate) fn out_of_turn(last: u64, seq: u64) -> Option<Verdict>
    ensures { result ≡ (if nat_le seq last then Some (verdict.Already last) else
        (if nat_lt (last + 1) seq then Some (verdict.Gap (last + 1)) else None)) }
{
    if seq <= last {
        return Some(Verdict::Already { last });
    }
    if seq - last > 1 {
        return Some(Verdict::Gap { expected: last + 1 });
    }
    None
}

/// Why what a command brings can't follow what was accepted, if it can't.
#[tactic(auto, unfolding(crate::specs::Judging::command_conflict, crate::specs::Judging::rows_conflict, crate::specs::Judging::commitment_conflict, crate::specs::Judging::withdrawal_conflict, crate::specs::Judging::purchase_conflict))]
fn command_conflict(state: &State, origin: &str, command: &Command) -> Option<Conflict>
    ensures { result ≡ command_conflict state.now.entries origin.now (command_view command.now) }
{
    match command {
        Command::Post(rows) => {
            rows_conflict(
                state.rows_posted(),
                rows.len(),
                carry_registered(state, rows),
            )
        }
        Command::Commit(commitment) => commitment_conflict(
            state.is_registered(commitment.id()),
            state.is_carried(commitment.id()),
            state.commitments(),
        ),
        Command::SetPolicy(_) => None,
        Command::Withdraw(seq) => withdrawal_conflict(
            state.has_post(origin, *seq),
            state.is_withdrawn(origin, *seq),
        ),
        Command::AddPurchase(added) => purchase_conflict(
            state.is_registered(added.id()),
            is_refused(state.commitment_list(), added),
        ),
    }
}

/// Why rows can't follow so many others, if they can't: so many of them, of which one carries the id of a commitment or none does.
#[tactic(auto, using(std::proofs::lemmas::Bool::Decides::nat_tests))]
pub(crate) fn rows_conflict(posted: usize, more: usize, own: bool) -> Option<Conflict>
    requires { posted ≤ most_rows }
    ensures { result ≡ (if nat_lt most_rows (posted + more) then Some conflict.Full else
        (if own then Some conflict.OwnCommitment else None)) }
{
    if more > MOST_ROWS - posted {
        return Some(Conflict::Full);
    }
    if own {
        return Some(Conflict::OwnCommitment);
    }
    None
}

/// Why a commitment can't follow so many others, if it can't: one of them has its id or none has, and a row carries it or none does.
#[tactic(auto, using(std::proofs::lemmas::Bool::Decides::nat_tests))]
pub(crate) fn commitment_conflict(
    registered: bool,
    carried: bool,
    commitments: usize,
) -> Option<Conflict>
    ensures { result ≡ (if registered then Some conflict.DoubleId else
        (if carried then Some conflict.IdInUse
        else (if nat_le most_commitments commitments then Some conflict.TooManyCommitments
        else None))) }
{
    if registered {
        return Some(Conflict::DoubleId);
    }
    if carried {
        return Some(Conflict::IdInUse);
    }
    if commitments >= MOST_COMMITMENTS {
        return Some(Conflict::TooManyCommitments);
    }
    None
}

/// Why a post can't be withdrawn, if it can't: its sender has none of the number, or has withdrawn it.
pub(crate) fn withdrawal_conflict(has_post: bool, withdrawn: bool) -> Option<Conflict>
    ensures { result
        ≡ (if has_post
        then (if withdrawn then Some conflict.Withdrawn else None) else Some conflict.NoSuchPost) }
{
    if !has_post {
        return Some(Conflict::NoSuchPost);
    }
    if withdrawn {
        return Some(Conflict::Withdrawn);
    }
    None
}

/// Why a purchase can't be added, if it can't: there is a commitment of its id or there is none, and this one can have it too or can't.
pub(crate) fn purchase_conflict(registered: bool, refused: bool) -> Option<Conflict>
    ensures { result ≡ (if registered then (if refused then Some conflict.PurchaseLimit else None)
        else Some conflict.NoSuchCommitment) }
{
    if !registered {
        return Some(Conflict::NoSuchCommitment);
    }
    if refused {
        return Some(Conflict::PurchaseLimit);
    }
    None
}

/// Whether the purchase is meant for one of these commitments that can't have it too.
pub(crate) fn is_refused(commitments: &[Commitment], added: &AddedPurchase) -> bool
    ensures { result ≡ list_any (refuses added.now) commitments.now }
{
    for commitment in commitments {
        if refuses(commitment, added) {
            return true;
        }
    }
    false
}

/// Whether the purchase is meant for this commitment, which can't have it too.
fn refuses(commitment: &Commitment, added: &AddedPurchase) -> bool
    ensures { result ≡ refuses added.now commitment.now }
{
    added.id() == commitment.id() && !commitment.takes_purchase(added.purchase())
}

/// Whether one of these rows carries the id of a commitment of the warehouse.
fn carry_registered(state: &State, rows: &Columns) -> bool
    ensures { result ≡ carries_any rows.now (committed_of state.now.entries) }
{
    let discounts = rows.discount_codes();
    for place in 0..discounts.len() {
        if discounts[place] != 0 {
            let row = rows.lent(place);
            if carries_registered(state, &row) {
                return true;
            }
        }
    }
    false
}

/// Whether a row carries the id of a commitment of the warehouse.
fn carries_registered(state: &State, row: &LentRow<'_>) -> bool
    ensures { result ≡ has_registered_id (committed_of state.now.entries) row.now }
{
    match row.discount() {
        Some(discount) => state.is_registered(discount.id),
        None => false,
    }
}
