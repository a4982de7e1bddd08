//! What waits for the next groups.
ghost use Rattle.std.specs.Prelude.{◌≡◌, ◌↔◌, ◌+◌, ◌≤◌, ◌++◌, ◌∷◌, [], length, take, drop, IfOk, IfErr, OnErr, OnOk, IsErrOf, IsTrue, Ok, true, false, vec_len, vec_capacity};
ghost use Rattle.std.specs.VecDeque.{deque_len};
ghost use Rattle.fw_entry.specs.Spelling.{entry};
ghost use Rattle.fw_group.specs.declared.inbox.PushFault.TheVariants.{Closed};
ghost use Rattle.fw_group.specs.Items.{entries_of, importers_of, IsFree};
ghost use Rattle.fw_group.specs.Limits.{IsLongest};

use crate::Hand;
use fw_snapshot::Entry;
use std::alloc::{AllocError, Global};
use std::collections::VecDeque;
use std::marker::Model;
use thiserror::Error;

/// Why an item wasn't taken in. Nothing changed.
#[derive(Clone, Copy, Debug, PartialEq, Eq, Error)]
pub enum PushFault {
    /// The inbox is closed.
    #[error("the inbox is closed")]
    Closed,
    /// The allocator refused a growth.
    #[error("out of memory")]
    NoMemory,
}

/// An entry, and the importer who posted it.
#[derive(Drop)]
pub struct Item {
    pub importer: usize,
    pub entry: Entry,
}

/// The items that wait, in the order in which they came.
pub struct Inbox {
    items: VecDeque<Item>,
    closed: bool,
}

impl Drop for Inbox {
    fn drop(self) {
        let Self {
            items: _,
            closed: _,
        } = self;
    }
}

impl Model for Inbox {
    ghost use Rattle.fw_group.specs.Items.{InboxState};

    ghost Value = { InboxState };

    ghost view = { λ i. record { waiting = i.items.items; closed = i.closed } };
}

impl Inbox {
    /// The most entries of a group.
    pub const MOST_ENTRIES: usize = 64;

    /// The most bytes that a group is written in.
    pub const MOST_BYTES: usize = 8_388_608;

    /// An open inbox in which nothing waits. It takes no memory.
    pub fn new(alloc: Global) -> Inbox
        ensures { result ≡ record { waiting = []; closed = false } }
    {
        Inbox {
            items: VecDeque::new(alloc),
            closed: false,
        }
    }

    /// Whether no item of the importer waits.
    pub(crate) fn is_free(&self, importer: usize) -> bool
        ensures { IsTrue result ↔ IsFree importer self.now.waiting }
    {
        self.items.iter().all(|item| item.importer != importer)
    }

    /// Puts an item last.
    ///
    /// # Errors
    /// `Closed` exactly where the inbox is closed; then `NoMemory`. Both change nothing, and drop the entry.
    pub fn push(&mut self, importer: usize, entry: Entry) -> Result<(), PushFault>
        ensures pushed { OnOk result (self.new
            ≡ record self.old {
              waiting = self.old.waiting
                  ++ record { importer = importer; entry = entry } ∷ [];
            }) }
        ensures refused { OnErr result (self.new ≡ self.old) }
        ensures closed { IsErrOf result Closed ↔ (self.old.closed ≡ true) }
    {
        if self.closed {
            return Err(PushFault::Closed);
        }
        match self.items.push_back(Item { importer, entry }) {
            Ok(()) => Ok(()),
            Err(_) => Err(PushFault::NoMemory),
        }
    }

    /// Refuses each later item. What waits stays. It takes no memory.
    pub fn close(&mut self)
        ensures { self.new ≡ record self.old { closed = true } }
    {
        self.closed = true;
    }

    /// Moves the items of the next group into the hand: the longest beginning of what waits that is within the limits of
    /// a group, 64 entries and 8,388,608 bytes. With items in hand it moves nothing, and answers 0.
    ///
    /// # Errors
    /// Where the allocator refused a growth. Nothing changes.
    pub fn take(&mut self, hand: &mut Hand) -> Result<usize, AllocError>
        ensures moved { IfOk result (λ n. hand.old ≡ []
            → IsLongest self.old.waiting n × (hand.new ≡ take n self.old.waiting)
            × (self.new ≡ record self.old { waiting = drop n self.old.waiting })) }
        ensures in_hand { (hand.old ≡ [] → ⊥)
            → (result ≡ Ok 0) × (hand.new ≡ hand.old) × (self.new ≡ self.old) }
        ensures refused { OnErr result ((hand.new ≡ hand.old) × (self.new ≡ self.old)) }
    {
        if !hand.is_empty() {
            return Ok(0);
        }
        let count = group_len(&self.items);
        hand.fill(&mut self.items, count)?;
        Ok(count)
    }
}

// How many of the items that wait make the next group.
fn group_len(items: &VecDeque<Item>) -> usize
    ensures { IsLongest items.now.items result }
{
    // The number of entries stands first.
    let mut bytes = 4;
    for n in 0..items.len() {
        let more = items[n].entry.encoded_len();
        if n == Inbox::MOST_ENTRIES || more > Inbox::MOST_BYTES - bytes {
            return n;
        }
        bytes += more;
    }
    items.len()
}
