//! The running system as one function: events, one after the other.
ghost use Rattle.std.specs.Prelude.{◌≡◌, ◌⊎◌, ◌↔◌, ◌++◌, ◌∷◌, ◌<◌, ◌≤◌, ℕ, Bool, false, [], List, length, take, All, IfOk, IfErr, OnOk, OnErr, IsTrue, IsSome, IsErrOf, slice_get, None, Some, vec_capacity};
ghost use Rattle.fw_disk.specs.Volume.{LeavesOnly};
ghost use Rattle.fw_entry.specs.Entry.{EntryValue};
ghost use Rattle.fw_entry.specs.Spelling.{IsEntry};
ghost use Rattle.fw_snapshot.specs.History.{History};
ghost use Rattle.fw_group.specs.declared.event.EventAnswer.{EventAnswer};
ghost use Rattle.fw_group.specs.declared.event.House.{House};
ghost use Rattle.fw_group.specs.Limits.{Fits};
ghost use Rattle.fw_group.specs.Answers.{IsGroupFault, refusal, for_each};
ghost use Rattle.fw_group.specs.Turns.{MayPost, Posts, Takes, Views, Learns, IsJudged, IsRefused, Stores, Commits, Checkpoints, Reopens, WhileOpen, Acts, Stays, IsDesk};
ghost use Rattle.fw_group.specs.Steps.{State, receipt_at};
ghost use Rattle.fw_group.specs.Laws.{shown_in, IsShown};
ghost use Rattle.fw_group.specs.declared.answer.Receipt.{Receipt};
ghost use Rattle.fw_group.specs.Runs.{start, Stands, HasRun};

use crate::hand::answer_all;
use crate::{Answer, Event, EventAnswer, Front, Hand, House, Inbox};
use fw_disk::{Stoppable, Volume};
use fw_recover::{Prepared, Store, StoreFault};
use fw_snapshot::{Entry, Snapshot};
use std::alloc::{AllocError, Global};

/// What the actors share: what waits and what is in hand, and how many importers and analysts there are.
#[derive(Drop)]
struct Desk {
    inbox: Inbox,
    hand: Hand,
    importers: usize,
    analysts: usize,
}

// Whether a post of the importer applies: it has no item that waits or is in hand.
fn may_post(desk: &Desk, importer: usize) -> bool
    ensures { IsTrue result ↔ MayPost desk.now importer }
{
    importer < desk.importers && desk.inbox.is_free(importer) && desk.hand.is_free(importer)
}

fn post(desk: &mut Desk, importer: usize, entry: Entry) -> Result<EventAnswer, AllocError>
    requires open { desk.old.inbox.closed ≡ false }

    ensures ok { IfOk result (λ a. Posts desk.old importer entry a desk.new) }
    ensures refused { OnErr result (desk.new ≡ desk.old) }
{
    if !may_post(desk, importer) {
        return Ok(EventAnswer::Ignored);
    }
    match desk.inbox.push(importer, entry) {
        Ok(()) => Ok(EventAnswer::Posted),
        Err(_) => Err(AllocError),
    }
}

fn take(desk: &mut Desk) -> Result<EventAnswer, AllocError>
    ensures ok { IfOk result (λ a. Takes desk.old a desk.new) }
    ensures refused { OnErr result (desk.new ≡ desk.old) }
{
    let count = desk.inbox.take(&mut desk.hand)?;
    Ok(EventAnswer::Took(count))
}

fn view<V: Volume>(
    store: &Store<V>,
    analysts: usize,
    analyst: usize,
) -> Result<EventAnswer, AllocError>
    ensures { IfOk result (λ a. Views store.now.history analysts analyst a) }
{
    if analyst >= analysts {
        return Ok(EventAnswer::Ignored);
    }
    Ok(EventAnswer::Viewed(store.state().copy()?))
}

fn learn(
    answers: &[EventAnswer],
    analysts: usize,
    analyst: usize,
    event: usize,
    place: usize,
) -> EventAnswer
    ensures { Learns answers.now analysts analyst event place result }
{
    if analyst < analysts && has_receipt(answers, event, place) {
        EventAnswer::Learned
    } else {
        EventAnswer::Ignored
    }
}

// Whether the event answered a receipt at this place.
fn has_receipt(answers: &[EventAnswer], event: usize, place: usize) -> bool
    ensures { IsTrue result ↔ IsSome (receipt_at (slice_get answers.now event) place) }
{
    let Some(EventAnswer::Committed(list)) = answers.get(event) else {
        return false;
    };
    matches!(list.get(place), Some(Answer::Accepted(_)))
}

// Each entry keeps the limits of entries.
fn each_is_entry(entries: &[Entry])
    ensures { All IsEntry entries.now }
{
    for entry in entries {
        let _seq = entry.seq();
    }
}

/// A group that was judged, the snapshot with it, and a copy of this for each answer.
#[derive(Drop)]
pub struct Judged {
    pub prepared: Prepared,
    pub next: Snapshot,
    pub fronts: Vec<Snapshot>,
}

// Copies of a snapshot.
fn copies(alloc: Global, snapshot: &Snapshot, count: usize) -> Result<Vec<Snapshot>, AllocError>
    ensures count { IfOk result (λ copies. length copies.items ≡ count) }
    ensures same { IfOk result (λ copies. All (λ copy. copy ≡ snapshot.now) copies.items) }
{
    let mut copies = Vec::with_capacity(alloc, count)?;
    for _ in 0..count {
        copies.push_reserved(snapshot.copy()?);
    }
    Ok(copies)
}

/// Judges what is in hand, and makes all that its commit takes before anything is written. It changes nothing.
///
/// # Errors
/// `Failed` where the device had failed before; then `OldSide` where the form of the side in use doesn't have an accepted entry,
/// then `TooLarge` where the volume has no room for the group, or `NoMemory` in place of these two.
pub fn judge_hand<V: Volume>(
    alloc: Global,
    store: &Store<V>,
    hand: &Hand,
) -> Result<Judged, StoreFault>
    requires some { hand.now ≡ [] → ⊥ }
    requires fits { Fits hand.now }

    ensures judged { IfOk result (λ group. IsJudged V.view store.now hand.now group) }
    ensures refused { IfErr result (IsRefused V.view store.now hand.now) }
{
    let entries = hand.entries();
    each_is_entry(entries);
    let prepared = store.prepare(alloc, entries)?;
    let Ok(next) = prepared.next().copy() else {
        return Err(StoreFault::NoMemory);
    };
    let Ok(fronts) = copies(alloc, &next, hand.len()) else {
        return Err(StoreFault::NoMemory);
    };
    Ok(Judged {
        prepared,
        next,
        fronts,
    })
}

// Stores a group that was judged, and answers each item: by its verdict, or as unknown.
fn store_group<V: Volume>(
    alloc: Global,
    store: &mut Store<V>,
    hand: &Hand,
    group: Judged,
    room: Vec<Answer<Snapshot>>,
) -> Result<Vec<Answer<Snapshot>>, AllocError>
    requires judged { IsJudged V.view store.old hand.now group }
    requires room { (room.items ≡ []) × (length hand.now ≤ vec_capacity room) }

    ensures ok { IfOk result (λ answers. Stores V.tells V.view store.old hand.now answers.items
        store.new) }
    ensures refused { OnErr result (store.new ≡ store.old) }
{
    let Judged {
        prepared,
        next,
        fronts,
    } = group;
    let outcome = store.write(alloc, prepared);
    if let Err(StoreFault::NoMemory) = outcome {
        return Err(AllocError);
    }
    Ok(answer_all(hand, &next, fronts, room, &outcome))
}

// `Closed` to each item in hand.
fn close_all<F: Front>(hand: &Hand, room: Vec<Answer<F>>) -> Vec<Answer<F>>
    requires room { (room.items ≡ []) × (length hand.now ≤ vec_capacity room) }
    ensures { result.items ≡ for_each Answer.Closed hand.now }
{
    let mut answers = room;
    for _ in 0..hand.len() {
        answers.push_reserved(Answer::refusal(&StoreFault::Failed));
    }
    answers
}

fn commit<V: Volume>(
    alloc: Global,
    store: &mut Store<V>,
    hand: &mut Hand,
) -> Result<EventAnswer, AllocError>
    requires fits { Fits hand.old }

    ensures ok { IfOk result (λ a. Commits V.tells V.view store.old hand.old a store.new hand.new) }
    ensures refused { OnErr result ((store.new ≡ store.old) × (hand.new ≡ hand.old)) }
{
    if hand.is_empty() {
        return Ok(EventAnswer::Committed(Vec::new(alloc)));
    }
    let room = Vec::with_capacity(alloc, hand.len())?;
    match judge_hand(alloc, store, hand) {
        Ok(group) => {
            let answers = store_group(alloc, store, hand, group, room)?;
            hand.clear();
            Ok(EventAnswer::Committed(answers))
        }
        Err(StoreFault::Failed) => {
            let answers = close_all(hand, room);
            hand.clear();
            Ok(EventAnswer::Committed(answers))
        }
        Err(StoreFault::NoMemory) => Err(AllocError),
        Err(fault) => Ok(EventAnswer::Failed(fault)),
    }
}

fn checkpoint<V: Volume>(alloc: Global, store: &mut Store<V>) -> Result<EventAnswer, AllocError>
    ensures ok { IfOk result (λ a. Checkpoints V.tells V.view store.old a store.new) }
    ensures refused { OnErr result (store.new ≡ store.old) }
{
    match store.checkpoint(alloc) {
        Ok(()) => Ok(EventAnswer::Checkpointed),
        Err(StoreFault::NoMemory) => Err(AllocError),
        Err(fault) => Ok(EventAnswer::Failed(fault)),
    }
}

fn reopen<V: Volume>(alloc: Global, volume: V) -> (House<V>, Result<EventAnswer, AllocError>)
    ensures ok { IfOk result.1 (λ a. Reopens V.tells V.view volume a result.0) }
    ensures refused { OnErr result.1 (Stays V.tells V.view (House.Stopped volume) result.0) }
{
    match Store::open(alloc, volume) {
        Ok(store) => match store.state().copy() {
            Ok(found) => (House::Open(store), Ok(EventAnswer::Reopened(found))),
            Err(refused) => (House::Stopped(store.close()), Err(refused)),
        },
        Err((volume, StoreFault::NoMemory)) => (House::Stopped(volume), Err(AllocError)),
        Err((volume, fault)) => (House::Stopped(volume), Ok(EventAnswer::Failed(fault))),
    }
}

// An event on an open house, but for a stop.
fn while_open<V: Volume>(
    alloc: Global,
    store: &mut Store<V>,
    desk: &mut Desk,
    answers: &[EventAnswer],
    event: Event,
) -> Result<EventAnswer, AllocError>
    requires desk { IsDesk desk.old }

    ensures ok { IfOk result (λ a. WhileOpen V.tells V.view store.old desk.old answers.now event a
        store.new desk.new) }
    ensures refused { OnErr result ((store.new ≡ store.old) × (desk.new ≡ desk.old)) }
{
    match event {
        Event::Post { importer, entry } => post(desk, importer, entry),
        Event::Take => take(desk),
        Event::Commit => commit(alloc, store, &mut desk.hand),
        Event::Checkpoint => checkpoint(alloc, store),
        Event::View { analyst } => view(store, desk.analysts, analyst),
        Event::Learn {
            analyst,
            event,
            place,
        } => Ok(learn(answers, desk.analysts, analyst, event, place)),
        Event::Stop | Event::Reopen => Ok(EventAnswer::Ignored),
    }
}

fn act<V: Stoppable>(
    alloc: Global,
    house: House<V>,
    desk: &mut Desk,
    answers: &[EventAnswer],
    event: Event,
) -> (House<V>, Result<EventAnswer, AllocError>)
    requires desk { IsDesk desk.old }

    ensures ok { IfOk result.1 (λ a. Acts V.tells V.view house desk.old answers.now event a result.0
        desk.new) }
    ensures refused { OnErr result.1 (Stays V.tells V.view house result.0 × (desk.new ≡ desk.old)) }
{
    match (house, event) {
        (House::Open(store), Event::Stop) => {
            desk.inbox = Inbox::new(alloc);
            desk.hand.clear();
            (
                House::Stopped(store.close().stop()),
                Ok(EventAnswer::Stopped),
            )
        }
        (House::Open(store), event) => {
            let mut store = store;
            let answer = while_open(alloc, &mut store, desk, answers, event);
            (House::Open(store), answer)
        }
        (House::Stopped(volume), Event::Reopen) => reopen(alloc, volume),
        (House::Stopped(volume), _) => (House::Stopped(volume), Ok(EventAnswer::Ignored)),
    }
}

// One event. The room for its answer is made first.
fn step<V: Stoppable>(
    alloc: Global,
    house: House<V>,
    desk: &mut Desk,
    answers: &mut Vec<EventAnswer>,
    event: Event,
) -> (House<V>, Result<(), AllocError>)
    requires desk { IsDesk desk.old }

    ensures ok { OnOk result.1 ((a : EventAnswer)
        × Acts V.tells V.view house desk.old answers.old.items event a result.0 desk.new
        × (answers.new.items ≡ answers.old.items ++ a ∷ [])) }
    ensures refused { OnErr result.1 (Stays V.tells V.view house result.0 × (desk.new ≡ desk.old)
        × (answers.new.items ≡ answers.old.items)) }
{
    if let Err(refused) = answers.reserve(1) {
        return (house, Err(refused));
    }
    match act(alloc, house, desk, answers, event) {
        (house, Ok(answer)) => {
            answers.push_reserved(answer);
            (house, Ok(()))
        }
        (house, Err(refused)) => (house, Err(refused)),
    }
}

/// Runs events on a house, one after the other, for so many importers and analysts. Where memory runs out the run ends
/// before that event: the answers are those of the events before it, and the house is as these left it.
///
/// An entry that was answered as accepted stands at its number in each list that is viewed or found by a later event,
/// whatever was stopped, failed or opened in between.
pub fn run_events<V: Stoppable>(
    alloc: Global,
    house: House<V>,
    importers: usize,
    analysts: usize,
    events: Vec<Event>,
) -> (House<V>, Vec<EventAnswer>, Option<AllocError>)
    ensures run { IsTrue V.tells → (published : History) (group : List EntryValue) (failed : Bool)
        → Stands V.view house (start house published group failed importers analysts)
        → HasRun V.view house (start house published group failed importers analysts)
        (take (length result.1.items) events.items) result.1.items result.0 }
    ensures shown { IsTrue V.tells → (published : History) (group : List EntryValue) (failed : Bool)
        → Stands V.view house (start house published group failed importers analysts)
        → (i j place : ℕ) (receipt : Receipt History) (list : History) → i < j
        → receipt_at (slice_get result.1.items i) place ≡ Some receipt
        → shown_in (slice_get result.1.items j) ≡ Some list
        → IsShown (take (length result.1.items) events.items) result.1.items i receipt list }
    ensures whole { result.2 ≡ None → length result.1.items ≡ length events.items }
{
    let mut house = house;
    let mut desk = Desk {
        inbox: Inbox::new(alloc),
        hand: Hand::new(alloc),
        importers,
        analysts,
    };
    let mut answers = Vec::new(alloc);
    let mut left = events;
    left.reverse();
    while let Some(event) = left.pop() {
        let (next, answered) = step(alloc, house, &mut desk, &mut answers, event);
        house = next;
        if let Err(refused) = answered {
            return (house, answers, Some(refused));
        }
    }
    (house, answers, None)
}
