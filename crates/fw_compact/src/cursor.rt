//! The entries of a warehouse that count, taken from the front.
ghost use Rattle.std.specs.Prelude.{◌≡◌, ◌+◌, ◌++◌, ◌<◌, [], ℕ, List, IfOk, IfSome, None, OnErr, OnOk, Some, if◌then◌else◌, slice_get, string_bytes, true};
ghost use Rattle.std.specs.Option.{option_to_list};
ghost use Rattle.std.specs.Str.{bytes_eq};
ghost use Rattle.fw_entries.specs.Taking.{IsNext};
ghost use Rattle.fw_entry.specs.Entry.{EntryValue};
ghost use Rattle.fw_persistent.specs.Counts.{count_of};
ghost use Rattle.fw_compact.specs.ByHead.{head_counts};
ghost use Rattle.fw_compact.specs.Compacted.{compacted, counting_of, does_count, with_number};

use fw_entries::EntriesLeft;
use fw_entry::Entry;
use fw_persistent::Counters;
use fw_snapshot::{Content, Head, State};
use std::alloc::{AllocError, Global};
use std::marker::Model;
use std::sync::Arc;

/// The entries of a warehouse that count and aren't taken yet, in order, each under its new number. A contract sees their list. An entry is
/// made once it is taken: at most one is held here.
pub struct EntriesThatCount<'s> {
    state: &'s State,
    /// The entries that weren't looked at yet.
    left: EntriesLeft<'s>,
    /// The next one that counts, under its old number, where it was made already.
    front: Option<Entry>,
    /// How many entries of each origin were taken.
    taken: Counters,
}

impl Drop for EntriesThatCount<'_> {
    fn drop(self) {
        let Self {
            state: _,
            left: _,
            front: _,
            taken: _,
        } = self;
    }
}

impl<'s> Model for EntriesThatCount<'s> {
    ghost use Rattle.std.specs.Prelude.{List};
    ghost use Rattle.fw_entry.specs.Entry.{EntryValue};

    ghost Value = { List EntryValue };

    ghost use Rattle.fw_compact.specs.Cursor.{counting_left};

    ghost view = { counting_left };
}

impl<'s> EntriesThatCount<'s> {
    /// All entries of a warehouse that count. It takes no memory.
    #[tactic(auto, unfolding(crate::specs::Compacted::compacted))]
    pub fn of(state: &'s State) -> EntriesThatCount<'s>
        ensures { result ≡ compacted state.now.entries }
    {
        EntriesThatCount {
            state,
            left: EntriesLeft::of(state),
            front: None,
            taken: Counters::new(),
        }
    }

    /// Takes the next entry, under its new number; `None` where there is none. What is left is the rest of the list.
    /// The error comes where memory ran out. Nothing is taken then.
    pub fn next(&mut self, alloc: Global) -> Result<Option<Entry>, AllocError>
        ensures taken { IfOk result (λ next. IsNext next self.old self.new) }
        ensures refused { OnErr result (self.new ≡ self.old) }
    {
        make_front(alloc, self.state, &mut self.left, &mut self.front)?;
        let Some(entry) = &self.front else {
            return Ok(None);
        };
        let taken = counted(alloc, &self.taken, entry.origin())?;
        let numbered = renumbered(alloc, entry, taken.count(entry.origin()))?;
        self.taken = taken;
        self.front = None;
        Ok(Some(numbered))
    }
}

// Makes the next entry that counts, unless it was made already.
fn make_front(
    alloc: Global,
    state: &State,
    left: &mut EntriesLeft<'_>,
    front: &mut Option<Entry>,
) -> Result<(), AllocError>
    ensures same { option_to_list front.new ++ counting_of state.now.entries left.new
        ≡ option_to_list front.old ++ counting_of state.now.entries left.old }
    ensures ends { OnOk result (front.new ≡ None
        → counting_of state.now.entries left.new ≡ []) }
{
    if front.is_some() {
        return Ok(());
    }
    *front = next_that_counts(alloc, state, left)?;
    Ok(())
}

// Takes the next entry that counts, and those before it; `None` where there is none. Where memory ran out, all that count are left.
fn next_that_counts(
    alloc: Global,
    state: &State,
    left: &mut EntriesLeft<'_>,
) -> Result<Option<Entry>, AllocError>
    ensures taken { IfOk result (λ next. IsNext next
        (counting_of state.now.entries left.old) (counting_of state.now.entries left.new)) }
    ensures refused { OnErr result (counting_of state.now.entries left.new
        ≡ counting_of state.now.entries left.old) }
{
    pass_over(state, left);
    left.next(alloc)
}

// Passes over the entries before the next one that counts, or over all where none does.
fn pass_over(state: &State, left: &mut EntriesLeft<'_>)
    ensures same { counting_of state.now.entries left.new
        ≡ counting_of state.now.entries left.old }
    ensures first { (e : EntryValue) → slice_get left.new 0 ≡ Some e
        → does_count state.now.entries e ≡ true }
{
    while let Some(head) = left.head() {
        if counts(state, head) {
            return;
        }
        left.skip();
    }
}

// Whether an entry of a warehouse counts.
fn counts(state: &State, head: &Head) -> bool
    ensures { result ≡ head_counts state.now.entries head.now }
{
    match head.content() {
        Content::Post { .. } => !state.is_withdrawn(head.origin(), head.seq()),
        Content::Withdraw(_) => false,
        Content::Commit(_) | Content::SetPolicy(_) | Content::AddPurchase(_) => true,
    }
}

// The counts with a text counted once more.
// None is counted too often for a `u64`: a count is the new number of an entry, and `counting_entries_are_numbered_in_turn` says that it is
// no greater than the old one.
fn counted(alloc: Global, counts: &Counters, text: &str) -> Result<Counters, AllocError>
    ensures { IfOk result (λ after. (other : List ℕ) → count_of other after
        ≡ count_of other counts.now + (if bytes_eq other text.now then 1 else 0)) }
{
    let shared = shared_text(alloc, counts.key(text), text)?;
    counts.raised(alloc, &shared)
}

// The text that is kept already and equals this one, or a new one where none is kept.
fn shared_text(
    alloc: Global,
    kept: Option<&Arc<String>>,
    text: &str,
) -> Result<Arc<String>, AllocError>
    requires { IfSome kept (λ same. string_bytes same.now.value ≡ text.now) }
    ensures { IfOk result (λ shared. string_bytes shared.value ≡ text.now) }
{
    match kept {
        Some(shared) => Arc::try_clone(shared),
        None => Ok(Arc::new(alloc, String::from_str(alloc, text)?)?),
    }
}

// The same entry under another number.
fn renumbered(alloc: Global, entry: &Entry, number: u64) -> Result<Entry, AllocError>
    requires { 0 < number }
    ensures { IfOk result (λ same. same ≡ with_number number entry.now) }
{
    let command = entry.command().copy(alloc)?;
    let origin = String::from_str(alloc, entry.origin())?;
    Ok(Entry::of_measured(origin, number, command, entry.encoded_len()))
}
