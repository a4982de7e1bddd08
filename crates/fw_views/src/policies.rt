//! The policies that a warehouse accepted.
ghost use Rattle.std.specs.Prelude.{◌≡◌};
ghost use Rattle.fw_views.specs.Policies.{is_policy, policy_place};

use fw_snapshot::{Content, Head, State};
use fw_table::{Align, Line, count_text, table_text};
use fw_terms::Policy;
use std::alloc::{AllocError, Global};

/// The columns of the list: the place of the entry among all, its origin, its number, the key, and how many rules.
const ALIGNS: [Align; 5] = [
    Align::Right,
    Align::Left,
    Align::Right,
    Align::Left,
    Align::Right,
];

/// The names of the columns.
const HEADER: [&str; 5] = ["Entry", "Origin", "Number", "Tag", "Rules"];

/// The place of the entry whose policy applies to all reports, counted from 0: the last one that sets a policy. `None` where none does.
pub fn applied_policy(state: &State) -> Option<usize>
    ensures { result ≡ policy_place state.now.entries }
{
    let mut found = None;
    for place in 0..state.entries() {
        if sets_policy(state.head(place)) {
            found = Some(place);
        }
    }
    found
}

// Whether an entry sets a policy, by its head.
fn sets_policy(head: &Head) -> bool
    ensures { result ≡ is_policy head.now.content }
{
    match head.content() {
        Content::SetPolicy(_) => true,
        Content::Post { .. }
        | Content::Commit(_)
        | Content::Withdraw(_)
        | Content::AddPurchase(_) => false,
    }
}

/// The policies that a warehouse accepted, in order, as a table: a line for each one, with the place of its entry, counted from 1, its origin, its
/// number among those of the origin, the key, and how many rules it has. The one error is that memory ran out.
pub fn policies_text(alloc: Global, state: &State) -> Result<String, AllocError> {
    let mut lines = Vec::new(alloc);
    lines.push(header_line(alloc)?)?;
    for place in 0..state.entries() {
        let head = state.head(place);
        if let Content::SetPolicy(policy) = head.content() {
            let entry = (place as u64).saturating_add(1);
            lines.push(policy_line(alloc, entry, head, policy)?)?;
        }
    }
    table_text(alloc, &ALIGNS, lines.as_slice())
}

// The line of names.
fn header_line(alloc: Global) -> Result<Line, AllocError> {
    let mut cells = Vec::new(alloc);
    for name in &HEADER {
        cells.push(String::from_str(alloc, name)?)?;
    }
    Ok(Line::Cells(cells))
}

// The line of a policy, with the number of its entry among all.
fn policy_line(
    alloc: Global,
    entry: u64,
    head: &Head,
    policy: &Policy,
) -> Result<Line, AllocError> {
    let mut cells = Vec::new(alloc);
    cells.push(count_text(alloc, entry)?)?;
    cells.push(String::from_str(alloc, head.origin())?)?;
    cells.push(count_text(alloc, head.seq())?)?;
    cells.push(String::from_str(alloc, policy.key())?)?;
    cells.push(count_text(alloc, policy.rules().len() as u64)?)?;
    Ok(Line::Cells(cells))
}
