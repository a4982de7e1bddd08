//! The entries of a warehouse, taken from the front.
ghost use Rattle.std.specs.Prelude.{◌≡◌, IfOk, IsTrue, OnErr, OnOk, Some, drop, map, slice_get, take};
ghost use Rattle.std.specs.Option.{option_copied};
ghost use Rattle.fw_entry.specs.Spelling.{IsCommand, IsEntry};
ghost use Rattle.fw_entry.specs.View.{command_view};
ghost use Rattle.fw_snapshot.specs.HeadView.{content_view};
ghost use Rattle.fw_snapshot.specs.Heads.{command_of, entry_of, head_of, row_count};
ghost use Rattle.fw_snapshot.specs.Heads.ContentValue.{posted_rows};
ghost use Rattle.fw_snapshot.specs.History.{rows_posted};
ghost use Rattle.fw_entries.specs.Taking.{IsNext};
ghost use Rattle.fw_entries.specs.RowsLeft.{rows_left};

use crate::rows_left::RowsLeft;
use crate::runs::Runs;
use fw_columns::Columns;
use fw_entry::{Command, Entry};
use fw_persistent::Sequence;
use fw_snapshot::{Content, Head, State};
use fw_stored_rows::are_same_runs;
use std::alloc::{AllocError, Global};
use std::marker::Model;

/// The entries of a warehouse that aren't taken yet, in order. A contract sees their list. An entry is made once it is taken: none is
/// held here.
#[derive(Drop)]
pub struct EntriesLeft<'a> {
    heads: &'a Sequence<Head>,
    /// How many entries were taken or passed over.
    taken: usize,
    /// The rows of the others.
    rows: RowsLeft<'a>,
}

impl<'a> Model for EntriesLeft<'a> {
    ghost use Rattle.std.specs.Prelude.{List};
    ghost use Rattle.fw_entry.specs.Entry.{EntryValue};

    ghost Value = { List EntryValue };

    ghost use Rattle.fw_entries.specs.EntriesLeft.{entries_left, KeepsEntries};

    ghost view = { entries_left };

    ghost invariant = { KeepsEntries };
}

impl<'a> EntriesLeft<'a> {
    /// All entries of a warehouse. It takes no memory.
    pub fn of(state: &'a State) -> EntriesLeft<'a>
        ensures { result ≡ state.now.entries }
    {
        // Proves that each entry keeps its limits.
        let _count = state.entries();
        EntriesLeft {
            heads: state.heads(),
            taken: 0,
            rows: RowsLeft::of(state.segments()),
        }
    }

    /// The head of the next entry; `None` where there is none. It takes no memory.
    pub fn head(&self) -> Option<&'a Head>
        ensures { option_copied result ≡ slice_get (map head_of self.now) 0 }
    {
        if self.taken >= self.heads.len() {
            return None;
        }
        Some(self.heads.get(self.taken))
    }

    /// Takes the next entry, with its rows where it is a post; `None` where there is none. What is left is the rest of the list.
    /// The error comes where memory ran out. Nothing is taken then.
    pub fn next(&mut self, alloc: Global) -> Result<Option<Entry>, AllocError>
        ensures taken { IfOk result (λ next. IsNext next self.old self.new) }
        ensures refused { OnErr result (self.new ≡ self.old) }
    {
        let first = self.first(alloc)?;
        self.skip();
        Ok(first)
    }

    /// The next entry, with its rows where it is a post; `None` where there is none. It isn't taken. The error comes where memory ran out.
    pub fn first(&self, alloc: Global) -> Result<Option<Entry>, AllocError>
        ensures { IfOk result (λ first. first ≡ slice_get self.now 0) }
    {
        if self.taken >= self.heads.len() {
            return Ok(None);
        }
        let mut rows = self.rows;
        let entry = entry_of(alloc, self.heads.get(self.taken), &mut rows)?;
        Ok(Some(entry))
    }

    /// The rows of the next entry, where they stand in segments: none where it is no post, and where there is none. It takes no memory.
    pub fn runs(&self) -> Runs<'a>
        ensures { result ≡ rows_posted (take 1 self.now) }
    {
        if self.taken >= self.heads.len() {
            return Runs::of(self.rows, 0);
        }
        Runs::of(self.rows, row_count(self.heads.get(self.taken).content()))
    }

    /// Whether the next entry is this post, in all of its fields. Its rows are compared where they stand: none is made.
    pub fn starts_with_post(&self, alloc: Global, post: &Entry) -> bool
        ensures { IsTrue result → slice_get self.now 0 ≡ Some post.now }
    {
        if self.taken >= self.heads.len() {
            return false;
        }
        let Command::Post(rows) = post.command() else {
            return false;
        };
        has_front_of(self.heads.get(self.taken), post, rows.len())
            && have_rows(alloc, self.runs(), rows)
    }

    /// Passes over the next entry, if there is one. None of its rows is made, and it takes no memory.
    pub fn skip(&mut self)
        ensures { self.new ≡ drop 1 self.old }
    {
        if self.taken >= self.heads.len() {
            return;
        }
        let head = self.heads.get(self.taken);
        self.rows.skip_front(row_count(head.content()));
        self.taken += 1;
    }
}

/// How many rows an entry brought: none where it is no post.
pub fn row_count(content: &Content) -> usize
    ensures { result ≡ row_count (content_view content.now) }
{
    match content {
        Content::Post { rows } => *rows as usize,
        Content::Commit(_)
        | Content::SetPolicy(_)
        | Content::Withdraw(_)
        | Content::AddPurchase(_) => 0,
    }
}

// Whether a head is that of a post with so many rows, but for the rows.
fn has_front_of(head: &Head, post: &Entry, count: usize) -> bool
    ensures { IsTrue result → head.now
        ≡ record { origin = post.now.origin; seq = post.now.seq; content = posted_rows count } }
{
    let is_post = match head.content() {
        Content::Post { rows } => *rows as usize == count,
        Content::Commit(_)
        | Content::SetPolicy(_)
        | Content::Withdraw(_)
        | Content::AddPurchase(_) => false,
    };
    is_post && head.origin() == post.origin() && head.seq() == post.seq()
}

// Whether runs have the rows of a post, and no others.
fn have_rows(alloc: Global, runs: Runs<'_>, rows: &Columns) -> bool
    ensures { IsTrue result → runs.entry ≡ rows.now }
{
    let mut runs = runs;
    let mut place = 0;
    while let Some(run) = runs.next() {
        let count = run.end - run.first;
        if rows.len() - place < count
            || !are_same_runs(alloc, run.columns, run.first, rows, place, count)
        {
            return false;
        }
        place += count;
    }
    place == rows.len()
}

// The entry of a head, whose rows are the next ones.
fn entry_of(alloc: Global, head: &Head, rows: &mut RowsLeft<'_>) -> Result<Entry, AllocError>
    requires { IsEntry (entry_of head.now
        (take (row_count head.now.content) (rows_left rows.old))) }
    ensures entry { IfOk result (λ entry. entry
        ≡ entry_of head.now (take (row_count head.now.content) (rows_left rows.old))) }
    ensures rest { OnOk result (rows_left rows.new
        ≡ drop (row_count head.now.content) (rows_left rows.old)) }
{
    let command = command_of(alloc, head.content(), rows)?;
    let origin = String::from_str(alloc, head.origin())?;
    Ok(Entry::of_fields(origin, head.seq(), command))
}

// The command of what a head keeps of it, whose rows are the next ones.
fn command_of(
    alloc: Global,
    content: &Content,
    rows: &mut RowsLeft<'_>,
) -> Result<Command, AllocError>
    requires { let brought = content_view content.now in IsCommand
        (command_of brought (take (row_count brought) (rows_left rows.old))) }
    ensures command { let brought = content_view content.now in IfOk result (λ command.
        command_view command ≡ command_of brought (take (row_count brought) (rows_left rows.old))) }
    ensures rest { OnOk result (rows_left rows.new
        ≡ drop (row_count (content_view content.now)) (rows_left rows.old)) }
{
    match content {
        Content::Post { rows: count } => {
            let front = rows.take_front(alloc, *count as usize)?;
            let columns = front.finish()?;
            Ok(Command::Post(columns))
        }
        Content::Commit(commitment) => Ok(Command::Commit(commitment.copy()?)),
        Content::SetPolicy(policy) => Ok(Command::SetPolicy(policy.copy(alloc)?)),
        Content::Withdraw(target) => Ok(Command::Withdraw(*target)),
        Content::AddPurchase(added) => Ok(Command::AddPurchase(added.copy(alloc)?)),
    }
}
