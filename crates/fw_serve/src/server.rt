//! Scripts that are served: read, run command by command, and answered.
ghost use Rattle.std.specs.Prelude.{◌≡◌, ◌≢◌, ◌<◌, ◌≤◌, List, false, true, length, OnOk, IfErr, IfSome, IsTrue, Err};
ghost use Rattle.fw_disk.specs.Volume.{Image, Rose};
ghost use Rattle.fw_entry.specs.Entry.{EntryValue};
ghost use Rattle.fw_recover.specs.Stands.{EachStandsFor, StandsForEither};
ghost use Rattle.fw_serve.specs.Flight.{IsOneRun, RunsTo};
ghost use Rattle.fw_serve.specs.Served.{IsServed, IsServedInPart, Serves, ServesInPart, most_bytes, most_workers};
ghost use Rattle.fw_serve.specs.Standings.{standing_of};

use crate::answering::answer;
use crate::fault::ServeFault;
use crate::input::read_script;
use crate::writing::write_reply;
use fw_ahead::Posts;
use fw_disk::Volume;
use fw_query::ReportCache;
use fw_recover::Store;
use fw_script::ScriptText;
use std::alloc::Global;
use std::io::{Read, Write};
use std::thread::Threads;

/// Reads a script to its end, runs its commands on the store in order, writes their answers, and flushes the writer.
///
/// A script has at most 2^30 bytes: a longer one is `TooLong`. On `Read`, `TooLong`
/// and `NoMemory` no command was run and nothing written. On `Write` the commands before were run and stay so, and the last
/// of them may have its answer written in part, or not at all. A command that runs out of memory is answered
/// `no memory` and changes nothing, and the script goes on.
///
/// An entry is answered `accepted` only when it is on the volume, synced. What a crash leaves at any moment stands for the
/// warehouse before the call with the entries that were accepted by then; where the device fails in the middle of an entry,
/// it may have that one too, the one whose command was answered `store S3 Device`, and every later entry is answered `store S4 Failed`. So after the
/// call, whatever it returns, each image has all that was answered `accepted`. Command by command: as long as the device hasn't failed, a crash at any
/// moment of one leaves what the commands before it left, perhaps with the entry that it sends, and after it what it left. Once the device has failed, a crash
/// leaves what the commands left, perhaps with the entry that the failed one sent. A store that had failed before stays as it was, and so does its volume.
/// Of one list of commands and their answers `one_run` says what was read, what was written, what each did, and what a crash leaves: where nothing failed
/// these are all commands of the script.
///
/// Posts are read and reports are made by 1 to 64 workers: each reads some of the next posts, ahead of their commands, and counts a piece of a report's rows.
/// Their number changes no answer.
pub fn serve<R: Read, W: Write, V: Volume>(
    rt: &(impl Threads + Sync),
    alloc: Global,
    reader: &mut R,
    writer: &mut W,
    store: &mut Store<V>,
    workers: u32,
) -> Result<(), ServeFault>
    requires some_worker { 1 ≤ workers }
    requires few_workers { workers ≤ most_workers }
    ensures done { OnOk result (IsServed (R.remaining reader.old) (standing_of V.view store.old)
        (standing_of V.view store.new) (W.contents writer.old) (W.contents writer.new)) }
    ensures write { result ≡ Err ServeFault.Write
        → IsServedInPart (R.remaining reader.old) (standing_of V.view store.old)
        (standing_of V.view store.new) (W.contents writer.old) (W.contents writer.new) }
    ensures untouched { IfErr result (λ why. (why ≢ ServeFault.Write)
        → (store.new ≡ store.old) × (writer.new ≡ writer.old)) }
    ensures too_long { result ≡ Err ServeFault.TooLong
        → IfSome (R.remaining reader.old) (λ bytes. most_bytes < length bytes) }
    ensures one_run { IsOneRun V.tells V.view result (R.remaining reader.old)
        store.old store.new (W.contents writer.old) (W.contents writer.new) }
    ensures each { IsTrue V.tells → store.new.failed ≡ false
        → EachStandsFor store.new.history (V.view store.new.volume) }
    ensures each_once_failed { IsTrue V.tells → store.new.failed ≡ true
        → (more : List EntryValue) × ((c : Image) → (V.view store.new.volume).may_leave c
        → StandsForEither store.new.history more c) }
    ensures once_failed { store.old.failed ≡ true → store.new ≡ store.old }
    ensures cause { store.old.failed ≡ false → store.new.failed ≡ true
        → Rose (V.view store.old.volume).failures (V.view store.new.volume).failures }
{
    store.keeps();
    let mut posts = Posts::new(alloc, workers);
    let currency = store.state().state().currency();
    let text = read_script(rt, alloc, reader, &mut posts, currency)?;
    let served = answer_all(rt, alloc, &text, &mut posts, writer, store, workers);
    posts.stop(rt);
    store.keeps();
    served
}

// Runs the commands of a script, and writes their answers.
fn answer_all<W: Write, V: Volume>(
    rt: &(impl Threads + Sync),
    alloc: Global,
    text: &ScriptText,
    posts: &mut Posts,
    writer: &mut W,
    store: &mut Store<V>,
    workers: u32,
) -> Result<(), ServeFault>
    requires some_worker { 1 ≤ workers }
    requires few_workers { workers ≤ most_workers }
    ensures done { OnOk result (Serves text.now (standing_of V.view store.old)
        (standing_of V.view store.new) (W.contents writer.old) (W.contents writer.new)) }
    ensures write { IfErr result (λ why. (why ≡ ServeFault.Write)
        × ServesInPart text.now (standing_of V.view store.old) (standing_of V.view store.new)
        (W.contents writer.old) (W.contents writer.new)) }
    ensures runs { RunsTo V.tells V.view result text.now store.old store.new (W.contents writer.old)
        (W.contents writer.new) }
{
    let mut script = text.commands();
    let mut cache = ReportCache::new(alloc);
    while let Some(command) = script.next_command() {
        store.keeps();
        let reply = answer(rt, alloc, store, &mut cache, posts, command, workers);
        store.keeps();
        write_reply(writer, &reply)?;
    }
    match writer.flush() {
        Ok(()) => Ok(()),
        Err(_) => Err(ServeFault::Write),
    }
}
