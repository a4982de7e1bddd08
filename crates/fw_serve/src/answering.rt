//! Commands that are run on a store, and what they are answered.
ghost use Rattle.std.specs.Prelude.{◌≡◌, ◌≤◌, ◌⊎◌, Ok};
ghost use Rattle.fw_entry.specs.Spelling.{HasRowCount, IsEntry};
ghost use Rattle.fw_entry.specs.View.{command_view};
ghost use Rattle.fw_sums.specs.ReportCache.{AreKept};
ghost use Rattle.fw_script.specs.Plain as plain;
ghost use Rattle.fw_script.specs.Plain.{plain_command};
ghost use Rattle.fw_serve.specs.Answers.{Answer, Entered, Takes, Submits, Checkpoints, RanOut};
ghost use Rattle.fw_serve.specs.Flight.{FailsOnMade, FailsOnSent, FailsOnThis};
ghost use Rattle.fw_serve.specs.ReplyText.{reply_text};
ghost use Rattle.fw_serve.specs.Served.{most_workers};
ghost use Rattle.fw_serve.specs.Standings.{standing_of, Moves};
ghost use Rattle.fw_snapshot.specs.History.{commitments_of, rows_of};

use crate::content::read_content;
use crate::questions::{answer_lines, answer_report, answer_state};
use crate::refusals::{entry_reply, store_reply, verdict_reply};
use crate::reply::Reply;
use fw_ahead::Posts;
use fw_disk::Volume;
use fw_entry::{Command as EntryCommand, Entry};
use fw_query::ReportCache;
use fw_recover::Store;
use fw_script::{Command, EntryKind, sequence_number};
use std::alloc::Global;
use std::thread::Threads;

/// Runs a command, and returns the reply. Only an entry that is accepted changes the warehouse, and it is on the volume, synced,
/// before this returns. Where the content of an entry is refused, where it was accepted before, leaves a gap or is refused, where the
/// form of the side in use doesn't have it, where the volume has no room for it, or out of memory, the store stays as it was. Where the device fails the store has failed from then on: it
/// still answers questions, from the entries that were accepted by then. What a crash leaves from then on has these, and perhaps the entry that the
/// command sends, and no other one.
///
/// A report is made by so many workers, and by what reports before it kept of what commitments cover. Nothing of this is kept behind an entry, which may bring rows or
/// commitments, add to the purchases of a commitment, or withdraw rows. Posts are read by as many workers, ahead of their commands, which has no effect on an answer.
pub(crate) fn answer<V: Volume>(
    rt: &(impl Threads + Sync),
    alloc: Global,
    store: &mut Store<V>,
    cache: &mut ReportCache,
    posts: &mut Posts,
    command: Command<'_>,
    workers: u32,
) -> Reply
    requires some_workers { 1 ≤ workers }
    requires few_workers { workers ≤ most_workers }
    requires kept { AreKept (commitments_of store.old.history.entries)
        (rows_of store.old.history.entries) cache.old }
    ensures kept { AreKept (commitments_of store.new.history.entries)
        (rows_of store.new.history.entries) cache.new }
    ensures answer { Answer (standing_of V.view store.old) (plain_command command.entry)
        (reply_text result) (standing_of V.view store.new) }
    ensures moves { Moves V.tells V.view (FailsOnSent (standing_of V.view store.old)
        (plain_command command.entry) (reply_text result)) store.old store.new }
{
    match command {
        Command::Entry {
            kind,
            origin,
            sequence,
            content,
        } => {
            cache.clear();
            enter(rt, alloc, store, posts, kind, origin, sequence, content)
        }
        Command::Checkpoint => checkpoint(alloc, store),
        Command::Report { key, from, to } => {
            store.settle();
            answer_report(rt, alloc, store.state(), cache, key, from, to, workers)
        }
        Command::Lines { from, to } => {
            store.settle();
            answer_lines(alloc, store.state(), from, to)
        }
        Command::State => answer_state(store.state()),
        Command::BadCommand => Reply::BadCommand,
        Command::BadEnd => Reply::BadEnd,
    }
}

// Reads the content of an entry, and then takes the entry.
fn enter<V: Volume>(
    rt: &(impl Threads + Sync),
    alloc: Global,
    store: &mut Store<V>,
    posts: &mut Posts,
    kind: EntryKind,
    origin: &[u8],
    sequence: &[u8],
    content: &[u8],
) -> Reply
    ensures entered { Entered (standing_of V.view store.old) kind origin.now sequence.now
        content.now (reply_text result) (standing_of V.view store.new) }
    ensures moves { Moves V.tells V.view (FailsOnSent (standing_of V.view store.old)
        (plain.entry kind origin.now sequence.now content.now) (reply_text result)) store.old
        store.new }
{
    let number = sequence_number(sequence).unwrap_or(0);
    match read_content(
        rt,
        alloc,
        posts,
        kind,
        content,
        store.state().state().currency(),
    ) {
        Ok(command) => take(alloc, store, origin, number, command),
        Err(reply) => reply,
    }
}

// Makes the entry, and commits it, or answers why not. A number 0 is that of no entry.
fn take<V: Volume>(
    alloc: Global,
    store: &mut Store<V>,
    origin: &[u8],
    number: u64,
    command: EntryCommand,
) -> Reply
    requires { HasRowCount (command_view command) }
    ensures takes { Takes (standing_of V.view store.old) origin.now number
        (Ok (command_view command)) (reply_text result) (standing_of V.view store.new)
        ⊎ RanOut (standing_of V.view store.old) (reply_text result) (standing_of V.view store.new) }
    ensures moves { Moves V.tells V.view (FailsOnMade (standing_of V.view store.old) origin.now
        number (command_view command) (reply_text result)) store.old store.new }
{
    match Entry::new(alloc, origin, number, command) {
        Ok(entry) => submit(alloc, store, &entry),
        Err(fault) => entry_reply(fault),
    }
}

// Commits an entry, or answers why not. An entry keeps its limits.
fn submit<V: Volume>(alloc: Global, store: &mut Store<V>, entry: &Entry) -> Reply
    ensures submits { Submits (standing_of V.view store.old) entry.now (reply_text result)
        (standing_of V.view store.new)
        ⊎ RanOut (standing_of V.view store.old) (reply_text result) (standing_of V.view store.new) }
    ensures moves { Moves V.tells V.view (FailsOnThis (standing_of V.view store.old) entry.now
        (reply_text result)) store.old store.new }
    ensures valid { IsEntry entry.now }
{
    let _seq = entry.seq();
    match store.commit(alloc, entry) {
        Ok(verdict) => verdict_reply(store.state(), verdict),
        Err(fault) => store_reply(fault),
    }
}

// Makes a checkpoint, or answers why not. No entry is in flight meanwhile.
fn checkpoint<V: Volume>(alloc: Global, store: &mut Store<V>) -> Reply
    ensures checkpoints { Checkpoints (standing_of V.view store.old) (reply_text result)
        (standing_of V.view store.new) }
    ensures moves { Moves V.tells V.view (λ e. ⊥) store.old store.new }
{
    match store.checkpoint(alloc) {
        Ok(()) => Reply::Checkpointed,
        Err(fault) => store_reply(fault),
    }
}
