//! Events, what answers them, and the house in which they happen.
use crate::Answer;
use fw_disk::Volume;
use fw_recover::{Store, StoreFault};
use fw_snapshot::{Entry, Snapshot};

/// An open store, or a volume that was stopped as by a crash.
#[derive(Drop)]
pub enum House<V: Volume> {
    Open(Store<V>),
    Stopped(V),
}

/// One step of one actor.
#[derive(Drop)]
pub enum Event {
    /// An importer posts an entry.
    Post {
        importer: usize,
        entry: Entry,
    },
    /// The next group is taken in hand.
    Take,
    /// What is in hand is stored and published, and each item answered.
    Commit,
    /// The whole warehouse is written anew.
    Checkpoint,
    /// An analyst looks at what is published.
    View {
        analyst: usize,
    },
    /// An analyst learns of a receipt: the one at a place, counted from 0, of what an earlier event answered. The events are
    /// counted from 0 too.
    Learn {
        analyst: usize,
        event: usize,
        place: usize,
    },
    /// The system stops as by a crash. What waits and is in hand is dropped.
    Stop,
    /// The stopped volume is opened.
    Reopen,
}

/// What an event answers.
#[derive(Drop)]
pub enum EventAnswer {
    /// The item waits.
    Posted,
    /// So many items went into the hand.
    Took(usize),
    /// The answer to each item that was in hand, in order.
    Committed(Vec<Answer<Snapshot>>),
    Checkpointed,
    /// The store refused the call, and the lists are as they were.
    Failed(StoreFault),
    /// What is published.
    Viewed(Snapshot),
    Learned,
    Stopped,
    /// The warehouse that was found, which is published from now on.
    Reopened(Snapshot),
    /// The event doesn't apply, and changes nothing.
    Ignored,
}
