//! Storing a group and publishing it.
ghost use Rattle.std.specs.Prelude.{◌≡◌, ◌≤◌, [], drop, false, length, All, IfOk, IfErr, MatchBool, IsTrue, vec_len, vec_capacity};
ghost use Rattle.fw_disk.specs.Volume.{LeavesOnly};
ghost use Rattle.fw_snapshot.specs.Verdicts.{accepted_of, with_more};
ghost use Rattle.fw_recover.specs.Stands.{StandsForEither};
ghost use Rattle.fw_recover.specs.Committing.{Committed};
ghost use Rattle.fw_group.specs.Answers.{answers_on};
ghost use Rattle.fw_group.specs.Items.{entries_of};
ghost use Rattle.fw_group.specs.Laws.{Begins};
ghost use Rattle.fw_group.specs.Limits.{Fits};
ghost use Rattle.fw_group.specs.Turns.{IsRefused};
ghost use Rattle.fw_threads.specs.Flushed.{IsReady, Checkpoints, Publishes, Fails, FailsBetween};

use crate::mark::Mark;
use crate::naming::Naming;
use crate::published::{OfSplit, Page, Published};
use core::mem::replace_with;
use fw_disk::Volume;
use fw_group::{Answer, Front, Hand, Judged, answer_all, judge_hand};
use fw_growing::Growing;
use fw_recover::{Store, StoreFault};
use fw_snapshot::Snapshot;
use left_right::writer::Writer;
use std::alloc::Global;
use std::marker::Model;
use std::sync::Wait;
use thiserror::Error;

pub(crate) type Start<J> = Writer<Page, Page, Option<Snapshot>, OfSplit<J>>;

/// Why a commit failed.
#[derive(Clone, Copy, Debug, PartialEq, Eq, Error)]
pub enum CommitFault {
    /// The store refused the group.
    #[error("{0}")]
    Store(StoreFault),
    /// The group is stored, and could not be published.
    #[error("G3 Unpublished")]
    Unpublished,
}

/// A store, and what readers take of it. It is not `Drop`: end it by `close`.
pub(crate) struct Publisher<J: Naming, V: Volume> {
    alloc: Global,
    store: Store<V>,
    front: Published<J>,
    growing: Growing<Snapshot>,
    writer: Start<J>,
    /// A group was stored, and could not be published.
    unpublished: bool,
}

impl<J: Naming, V: Volume> Model for Publisher<J, V> {
    ghost use Rattle.std.specs.Prelude.{◌≡◌, [], drop, false};
    ghost use Rattle.fw_threads.specs.Flushed.{PublisherState};

    ghost Value = { PublisherState V };

    ghost view = { λ p. record { published = p.writer.desk.shown.value.front; store = p.store; unpublished = p.unpublished } };

    ghost invariant = { λ p. (p.front ≡ p.writer.desk.shown.value.front) × (p.growing ≡ J.fronts)
        × (p.unpublished ≡ false → (p.store.history ≡ p.writer.desk.shown.value.front) × (drop p.writer.behind p.writer.log.items ≡ [])) };
}

/// What a commit did: how many entries it added, and the answer to each item in hand.
#[derive(Drop)]
pub(crate) struct Done<J: Naming> {
    pub accepted: usize,
    pub answers: Vec<Answer<Published<J>>>,
}

// A group that was judged, with all that storing, publishing and answering it takes.
#[derive(Drop)]
struct Ready<J: Naming> {
    group: Judged,
    page: Snapshot,
    fronts: Vec<Published<J>>,
    answers: Vec<Answer<Published<J>>>,
}

// A group that was stored and published.
#[derive(Drop)]
struct Stored<J: Naming> {
    front: Published<J>,
    answers: Vec<Answer<Published<J>>>,
}

impl<J: Naming, V: Volume> Publisher<J, V> {
    pub fn new(
        alloc: Global,
        store: Store<V>,
        front: Published<J>,
        growing: Growing<Snapshot>,
        writer: Start<J>,
    ) -> Publisher<J, V>
        requires front { (front ≡ store.history) × (writer.desk.shown.value.front ≡ store.history) }
        requires growing { growing ≡ J.fronts }
        requires pending { drop writer.behind writer.log.items ≡ [] }
        ensures { result ≡ record {
          published = store.history;
          store = store;
          unpublished = false;
        } }
    {
        Publisher {
            alloc,
            store,
            front,
            growing,
            writer,
            unpublished: false,
        }
    }

    /// Judges what is in hand, stores it, and publishes it, in this order.
    pub fn commit<R: Wait>(&mut self, rt: &R, hand: &Hand) -> Result<Done<J>, CommitFault>
        requires some { hand.now ≡ [] → ⊥ }
        requires fits { Fits hand.now }
        ensures done { IfOk result (λ d. Publishes V.tells V.view self.old hand.now d.accepted
            self.new) }
        ensures answers { IfOk result (λ d. d.answers.items
            ≡ answers_on self.new.published self.old.published.entries (entries_of hand.now)) }
        ensures failed { IfErr result (λ fault.
            Fails V.tells V.view self.old hand.now fault self.new) }
    {
        if self.unpublished {
            return Err(CommitFault::Store(StoreFault::Failed));
        }
        let ready = match make_ready(self.alloc, &self.store, hand) {
            Ok(ready) => ready,
            Err(fault) => return Err(CommitFault::Store(fault)),
        };
        let stored = store_group(
            rt,
            self.alloc,
            &mut self.store,
            hand,
            &self.growing,
            &mut self.writer,
            &self.front,
            ready,
        );
        match stored {
            Ok(stored) => {
                let Stored { front, answers } = stored;
                let accepted = front.entries() - self.front.entries();
                self.front = front;
                Ok(Done { accepted, answers })
            }
            Err(fault) => {
                if let CommitFault::Unpublished = fault {
                    self.unpublished = true;
                }
                Err(fault)
            }
        }
    }
}

impl<J: Naming, V: Volume> Publisher<J, V> {
    /// What the store's checkpoint answers; `Failed` where a group was stored and could not be published.
    pub fn checkpoint(&mut self) -> Result<(), StoreFault>
        ensures same { self.new ≡ record self.old { store = self.new.store } }
        ensures checkpoint { Checkpoints V.tells V.view self.old.unpublished result self.old.store
            self.new.store }
    {
        if self.unpublished {
            return Err(StoreFault::Failed);
        }
        self.store.checkpoint(self.alloc)
    }

    /// The store. Readers find nothing any more.
    pub fn close<R: Wait>(self, rt: &R) -> Store<V>
        ensures { result ≡ self.store }
    {
        let Publisher {
            alloc: _,
            store,
            front: _,
            growing: _,
            writer,
            unpublished: _,
        } = self;
        drop(writer.take(rt));
        store
    }
}

// Judges what is in hand, and makes each copy that the commit takes.
fn make_ready<J: Naming, V: Volume>(
    alloc: Global,
    store: &Store<V>,
    hand: &Hand,
) -> Result<Ready<J>, StoreFault>
    requires some { hand.now ≡ [] → ⊥ }
    requires fits { Fits hand.now }
    ensures ready { IfOk result (λ r. IsReady V.view store.now hand.now r) }
    ensures refused { IfErr result (IsRefused V.view store.now hand.now) }
{
    let group = judge_hand(alloc, store, hand)?;
    let Ok(page) = group.next.copy() else {
        return Err(StoreFault::NoMemory);
    };
    let Ok(fronts) = Vec::with_capacity(alloc, hand.len()) else {
        return Err(StoreFault::NoMemory);
    };
    let Ok(answers) = Vec::with_capacity(alloc, hand.len()) else {
        return Err(StoreFault::NoMemory);
    };
    Ok(Ready {
        group,
        page,
        fronts,
        answers,
    })
}

// Stores a group that was judged, publishes it, and answers it.
fn store_group<J: Naming, V: Volume, R: Wait>(
    rt: &R,
    alloc: Global,
    store: &mut Store<V>,
    hand: &Hand,
    growing: &Growing<Snapshot>,
    writer: &mut Start<J>,
    front: &Published<J>,
    ready: Ready<J>,
) -> Result<Stored<J>, CommitFault>
    requires front { front.now ≡ store.old.history }
    requires shown { writer.old.desk.shown.value.front ≡ store.old.history }
    requires growing { growing.now ≡ J.fronts }
    requires pending { drop writer.old.behind writer.old.log.items ≡ [] }
    requires ready { IsReady V.view store.old hand.now ready }

    ensures committed { IfOk result (λ s. Committed V.tells V.view store.old store.new
        (accepted_of store.old.history.entries (entries_of hand.now))) }
    ensures front { IfOk result (λ s. s.front
        ≡ with_more store.old.history
        (accepted_of store.old.history.entries (entries_of hand.now))) }
    ensures answers { IfOk result (λ s. s.answers.items
        ≡ answers_on s.front store.old.history.entries (entries_of hand.now)) }
    ensures shown { IfOk result (λ s. (writer.new.desk.shown.value.front ≡ s.front)
        × (drop writer.new.behind writer.new.log.items ≡ [])) }
    ensures moment { IsTrue V.tells → LeavesOnly (V.view store.old.volume) (V.view store.new.volume)
        (StandsForEither store.old.history (accepted_of store.old.history.entries
        (entries_of hand.now))) }
    ensures failed { IfErr result (λ fault. FailsBetween V.tells V.view store.old hand.now fault
        store.new) }
    ensures not_shown { IfErr result (λ fault.
        (writer.new.desk.shown.value.front ≡ writer.old.desk.shown.value.front)
        × ((fault ≡ CommitFault.Unpublished → ⊥)
        → drop writer.new.behind writer.new.log.items ≡ [])) }
{
    let Ready {
        group,
        page,
        fronts,
        answers,
    } = ready;
    let Judged {
        prepared,
        next,
        fronts: copies,
    } = group;
    let verdicts = match store.write(alloc, prepared) {
        Ok(verdicts) => verdicts,
        Err(fault) => return Err(CommitFault::Store(fault)),
    };
    let Some(mark) = front.mark().next(growing, &next) else {
        return Err(CommitFault::Unpublished);
    };
    let shown = Published::new(page, mark.again());
    if !replace_with(writer, shown, |writer, shown| publish(writer, rt, shown)) {
        return Err(CommitFault::Unpublished);
    }
    let fronts = fronts_of(&mark, copies, fronts);
    let after = Published::new(next, mark);
    let answers = answer_all(hand, &after, fronts, answers, &Ok(verdicts));
    Ok(Stored {
        front: after,
        answers,
    })
}

// Publishes a front that begins with what is shown, and says whether it did.
pub(crate) fn publish<J: Naming, R: Wait>(
    writer: Start<J>,
    rt: &R,
    front: Published<J>,
) -> (Start<J>, bool)
    requires pending { drop writer.behind writer.log.items ≡ [] }
    requires follows { Begins writer.desk.shown.value.front front }
    ensures { MatchBool result.1
        ((result.0.desk.shown.value.front ≡ front) × (drop result.0.behind result.0.log.items ≡ []))
        (result.0.desk.shown.value ≡ writer.desk.shown.value) }
{
    let mut writer = writer;
    if writer.append(Page::of(front)).is_err() {
        return (writer, false);
    }
    let (writer, done) = writer.publish_as::<OfSplit<J>, R>(rt);
    (writer, done.is_ok())
}

// A front of each copy of its snapshot.
fn fronts_of<J: Naming>(
    mark: &Mark,
    mut copies: Vec<Snapshot>,
    mut fronts: Vec<Published<J>>,
) -> Vec<Published<J>>
    requires of { mark.now.of ≡ J.fronts }
    requires same { All (λ s. s ≡ mark.now.front) copies.items }
    requires room { (fronts.items ≡ []) × (vec_len copies ≤ vec_capacity fronts) }
    ensures count { length result.items ≡ length copies.items }
    ensures same { All (λ f. f ≡ mark.now.front) result.items }
{
    for _ in 0..copies.len() {
        let copy = copies.pop().unwrap();
        fronts.push_reserved(Published::new(copy, mark.again()));
    }
    fronts
}
