//! What events and calls answered, as text.
use crate::script::Fault;
use fw_disk::{Side, Volume};
use fw_group::{Answer, EventAnswer, Seen};
use fw_snapshot::{Conflict, Content, Head, Snapshot, State, Verdict};
use std::alloc::{AllocError, Global};
use std::io::Write;

/// Writes what an event answered, on a line.
pub(crate) fn print_answer<W: Write>(
    alloc: Global,
    output: &mut W,
    answer: &EventAnswer,
) -> Result<(), Fault> {
    let text = answer_text(alloc, answer)?;
    print_line(output, text.as_str())
}

/// Writes a line.
pub(crate) fn print_line<W: Write>(output: &mut W, line: &str) -> Result<(), Fault> {
    output.write_all(line.as_bytes())?;
    output.write_all(b"\n")?;
    Ok(())
}

// What an event answered.
fn answer_text(alloc: Global, answer: &EventAnswer) -> Result<String, AllocError> {
    match answer {
        EventAnswer::Posted => String::from_str(alloc, "posted"),
        EventAnswer::Took(count) => format!(in alloc; "took {count}"),
        EventAnswer::Committed(answers) => committed_text(alloc, answers.as_slice()),
        EventAnswer::Checkpointed => String::from_str(alloc, "checkpointed"),
        EventAnswer::Failed(fault) => format!(in alloc; "failed {fault}"),
        EventAnswer::Viewed(snapshot) => list_text(alloc, "viewed", snapshot.state()),
        EventAnswer::Learned => String::from_str(alloc, "learned"),
        EventAnswer::Stopped => String::from_str(alloc, "stopped"),
        EventAnswer::Reopened(snapshot) => list_text(alloc, "reopened", snapshot.state()),
        EventAnswer::Ignored => String::from_str(alloc, "ignored"),
    }
}

// What each item of a group was answered.
fn committed_text(alloc: Global, answers: &[Answer<Snapshot>]) -> Result<String, AllocError> {
    let mut text = String::from_str(alloc, "committed")?;
    for answer in answers {
        let item = item_text(alloc, answer)?;
        text.push_str("; ")?;
        text.push_str(item.as_str())?;
    }
    Ok(text)
}

// What an item was answered. Where it was judged, the number of entries before it, and of those that the front has, come last.
fn item_text(alloc: Global, answer: &Answer<Snapshot>) -> Result<String, AllocError> {
    match answer {
        Answer::Accepted(receipt) => {
            let (number, entries) = (receipt.number, receipt.front.state().entries());
            format!(in alloc; "accepted {number} of {entries}")
        }
        Answer::Already { last, seen } => judged_text(alloc, "already", *last, seen),
        Answer::Gap { expected, seen } => judged_text(alloc, "gap", *expected, seen),
        Answer::Refused { why, seen } => judged_text(alloc, "refused", conflict_number(*why), seen),
        Answer::Unknown => String::from_str(alloc, "unknown"),
        Answer::NoMemory => String::from_str(alloc, "no memory"),
        Answer::Closed => String::from_str(alloc, "closed"),
    }
}

// A verdict with a number, and the list that it was found on.
fn judged_text(
    alloc: Global,
    word: &str,
    number: u64,
    seen: &Seen<Snapshot>,
) -> Result<String, AllocError> {
    let (at, entries) = (seen.at, seen.front.state().entries());
    format!(in alloc; "{word} {number} at {at} of {entries}")
}

// The number of a rule, as in J1 to J9.
fn conflict_number(why: Conflict) -> u64 {
    match why {
        Conflict::Full => 1,
        Conflict::DoubleId => 2,
        Conflict::IdInUse => 3,
        Conflict::OwnCommitment => 4,
        Conflict::TooManyCommitments => 5,
        Conflict::NoSuchPost => 6,
        Conflict::Withdrawn => 7,
        Conflict::NoSuchCommitment => 8,
        Conflict::PurchaseLimit => 9,
    }
}

/// A list of entries, and the BilledCost of each row that counts, in nanos, in order.
pub(crate) fn list_text(alloc: Global, word: &str, state: &State) -> Result<String, AllocError> {
    let mut text = String::from_str(alloc, word)?;
    let heads = state.heads();
    for place in 0..heads.len() {
        let head = head_text(alloc, heads.get(place))?;
        text.push_str(head.as_str())?;
    }
    text.push_str(" |")?;
    let counting = state.counting_segments(alloc)?;
    let segments = counting.references(alloc)?;
    for rows in segments.as_slice() {
        for billed in rows.billed() {
            let cost = format!(in alloc; " {billed}")?;
            text.push_str(cost.as_str())?;
        }
    }
    Ok(text)
}

// An entry: its origin and number, and what it brought.
fn head_text(alloc: Global, head: &Head) -> Result<String, AllocError> {
    let (origin, number) = (head.origin(), head.seq());
    match head.content() {
        Content::Post { rows } => format!(in alloc; " {origin}/{number}:{rows}"),
        Content::Commit(commitment) => {
            let id = commitment.id();
            format!(in alloc; " {origin}/{number}={id}")
        }
        Content::SetPolicy(policy) => {
            let key = policy.key();
            format!(in alloc; " {origin}/{number}!{key}")
        }
        Content::Withdraw(post) => format!(in alloc; " {origin}/{number}-{post}"),
        Content::AddPurchase(added) => {
            let (id, cost) = (added.id(), added.purchase().billed().count());
            format!(in alloc; " {origin}/{number}+{id}:{cost}")
        }
    }
}

/// A verdict on an entry.
pub(crate) fn verdict_text(alloc: Global, verdict: &Verdict) -> Result<String, AllocError> {
    match verdict {
        Verdict::Accept => String::from_str(alloc, "accepted"),
        Verdict::Already { last } => format!(in alloc; "already {last}"),
        Verdict::Gap { expected } => format!(in alloc; "gap {expected}"),
        Verdict::Refused(why) => {
            let number = conflict_number(*why);
            format!(in alloc; "refused {number}")
        }
    }
}

/// The verdicts on the entries of a group.
pub(crate) fn verdicts_text(alloc: Global, verdicts: &[Verdict]) -> Result<String, AllocError> {
    let mut text = String::from_str(alloc, "group")?;
    for verdict in verdicts {
        let verdict = verdict_text(alloc, verdict)?;
        text.push_str(" ")?;
        text.push_str(verdict.as_str())?;
    }
    Ok(text)
}

/// The stored segments of a list: how many rows each has, withdrawn or not, and the BilledCost of its first and its last one.
pub(crate) fn segments_text(alloc: Global, state: &State) -> Result<String, AllocError> {
    let mut text = String::from_str(alloc, "segments")?;
    let segments = state.segments();
    for number in 0..segments.len() {
        let billed = segments.get(number).billed();
        let (rows, first, last) = (billed.len(), amount(billed.first()), amount(billed.last()));
        let segment = format!(in alloc; " {rows}:{first}..{last}")?;
        text.push_str(segment.as_str())?;
    }
    Ok(text)
}

// An amount, 0 where there is none.
fn amount(of: Option<&i64>) -> i64 {
    match of {
        Some(amount) => *amount,
        None => 0,
    }
}

/// The bytes of a file as pairs of hexadecimal digits; a `-` where there is none, and `?` where they can't be read.
pub(crate) fn file_text<V: Volume>(
    alloc: Global,
    volume: &mut V,
    side: Side,
) -> Result<String, AllocError> {
    let mut bytes = vec![in alloc; 0; volume.len(side) as usize]?;
    match volume.read(side, 0, &mut bytes) {
        Ok(()) if bytes.is_empty() => String::from_str(alloc, "-"),
        Ok(()) => hex::encode(alloc, bytes),
        Err(_) => String::from_str(alloc, "?"),
    }
}
