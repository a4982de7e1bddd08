//! What waits and what is in hand, with the ticket of each item.
ghost use Rattle.std.specs.Prelude.{◌≡◌, ◌↔◌, ◌+◌, ◌-◌, ◌<◌, ◌≤◌, ◌++◌, ◌∷◌, [], true, false, length, take, drop, get_or, IfNone, IfOk, IfSome, OnErr, IsOk, IsErrOf, IsTrue, Ok, vec_len, vec_capacity};
ghost use Rattle.std.specs.VecDeque.{deque_len};
ghost use Rattle.fw_group.specs.declared.inbox.PushFault.TheVariants.{Closed};
ghost use Rattle.fw_group.specs.Items.{entries_of, importers_of};
ghost use Rattle.fw_group.specs.Limits.{Fits, IsLongest};
ghost use Rattle.fw_threads.specs.Posts.{IsIdle, no_entry};

use crate::naming::Naming;
use crate::ticket::Ticket;
use fw_group::{Hand, Inbox, PushFault};
use fw_growing::{Beginning, Growing};
use fw_snapshot::Entry;
use std::alloc::{AllocError, Global};
use std::collections::VecDeque;
use std::marker::Model;

/// What lies under the lock: the inbox, a ticket for each item that waits, and how many importers have not left. Contracts see the
/// items that wait, whether the inbox is closed, and how many importers have not left.
pub struct Waiting<J: Naming> {
    inbox: Inbox,
    tickets: VecDeque<Ticket<J>>,
    posts: Beginning<Entry>,
    growing: Growing<Entry>,
    importers: usize,
}

impl<J: Naming> Drop for Waiting<J> {
    fn drop(self) {
        let Self {
            inbox: _,
            tickets: _,
            posts: _,
            growing: _,
            importers: _,
        } = self;
    }
}

impl<J: Naming> Model for Waiting<J> {
    ghost use Rattle.std.specs.Prelude.{◌≡◌, map};
    ghost use Rattle.fw_group.specs.Items.{entries_of};
    ghost use Rattle.fw_threads.specs.Posts.{WaitingState, posted_entry};

    ghost Value = { WaitingState };

    ghost view = { λ w. record { waiting = w.inbox.waiting; closed = w.inbox.closed; importers = w.importers } };

    ghost invariant = { λ w. (map posted_entry w.tickets.items ≡ entries_of w.inbox.waiting) × (w.posts.of ≡ J.posts) × (w.growing ≡ J.posts) };
}

/// The group in hand, with the ticket of each item. Contracts see the items.
pub struct InHand<J: Naming> {
    items: Hand,
    tickets: Vec<Ticket<J>>,
}

impl<J: Naming> Drop for InHand<J> {
    fn drop(self) {
        let Self {
            items: _,
            tickets: _,
        } = self;
    }
}

impl<J: Naming> Model for InHand<J> {
    ghost use Rattle.std.specs.Prelude.{◌≡◌, List, map};
    ghost use Rattle.fw_group.specs.declared.inbox.Item.{Item};
    ghost use Rattle.fw_group.specs.Items.{entries_of};
    ghost use Rattle.fw_group.specs.Limits.{Fits};
    ghost use Rattle.fw_threads.specs.Posts.{posted_entry};

    ghost Value = { List Item };

    ghost view = { λ h. h.items };

    ghost invariant = { λ h. (map posted_entry h.tickets.items ≡ entries_of h.items) × Fits h.items };
}

impl<J: Naming> Waiting<J> {
    /// An open inbox in which nothing waits, for so many importers. It takes no memory.
    pub fn new(
        alloc: Global,
        growing: Growing<Entry>,
        posts: Beginning<Entry>,
        importers: usize,
    ) -> Waiting<J>
        requires { (growing ≡ J.posts) × (posts.of ≡ J.posts) }
        ensures { result ≡ record { waiting = []; closed = false; importers = importers } }
    {
        Waiting {
            inbox: Inbox::new(alloc),
            tickets: VecDeque::new(alloc),
            posts,
            growing,
            importers,
        }
    }

    /// Whether nothing waits, and an importer has not left.
    pub fn is_idle(&self) -> bool
        ensures { IsTrue result ↔ IsIdle self.now }
    {
        self.tickets.is_empty() && self.importers > 0
    }

    /// Puts an item last.
    ///
    /// # Errors
    /// `Closed` where the inbox is closed, or `NoMemory`. Both change nothing, and drop the entry.
    pub fn post(&mut self, importer: usize, entry: Entry) -> Result<Ticket<J>, PushFault>
        ensures posted { IfOk result (λ t. (t.entry ≡ entry)
            × (self.new ≡ record self.old {
              waiting = self.old.waiting
                  ++ record { importer = importer; entry = entry } ∷ [];
            })) }
        ensures refused { OnErr result (self.new ≡ self.old) }
        ensures open { IsOk result → self.old.closed ≡ false }
        ensures closed { IsErrOf result Closed → self.old.closed ≡ true }
    {
        let Some(ticket) = Ticket::next(&self.growing, &mut self.posts, &entry) else {
            return Err(PushFault::NoMemory);
        };
        if self.tickets.push_back(ticket.again()).is_err() {
            return Err(PushFault::NoMemory);
        }
        match self.inbox.push(importer, entry) {
            Ok(()) => Ok(ticket),
            Err(fault) => {
                let _ = self.tickets.pop_back();
                Err(fault)
            }
        }
    }

    /// Moves the items of the next group into the hand, as [`Inbox::take`] does.
    ///
    /// # Errors
    /// Where the allocator refused a growth. Nothing changes.
    pub fn take(&mut self, hand: &mut InHand<J>) -> Result<usize, AllocError>
        ensures moved { IfOk result (λ n. hand.old ≡ []
            → IsLongest self.old.waiting n × (hand.new ≡ take n self.old.waiting)
            × (self.new ≡ record self.old { waiting = drop n self.old.waiting })) }
        ensures in_hand { (hand.old ≡ [] → ⊥)
            → (result ≡ Ok 0) × (hand.new ≡ hand.old) × (self.new ≡ self.old) }
        ensures refused { OnErr result ((hand.new ≡ hand.old) × (self.new ≡ self.old)) }
    {
        if !hand.items.is_empty() {
            return Ok(0);
        }
        hand.tickets.reserve(self.tickets.len())?;
        let count = self.inbox.take(&mut hand.items)?;
        move_front(&mut self.tickets, &mut hand.tickets, count);
        Ok(count)
    }

    /// Moves the items of the next group into an empty hand, as [`Waiting::take`] does. `None` where nothing waits and all importers have left.
    ///
    /// # Errors
    /// Where the allocator refused a growth. Nothing changes.
    pub fn next(&mut self, hand: &mut InHand<J>) -> Result<Option<usize>, AllocError>
        requires empty { hand.old ≡ [] }
        requires goes_on { IsIdle self.old → ⊥ }
        ensures moved { IfOk result (λ found.
            IfSome found (λ n. IsLongest self.old.waiting n
            × (hand.new ≡ take n self.old.waiting)
            × (self.new ≡ record self.old { waiting = drop n self.old.waiting }))) }
        ensures over { IfOk result (λ found. IfNone found
            ((self.old.waiting ≡ []) × (self.old.importers ≡ 0) × (self.new ≡ self.old)
            × (hand.new ≡ hand.old))) }
        ensures refused { OnErr result ((hand.new ≡ hand.old) × (self.new ≡ self.old)) }
    {
        if self.tickets.is_empty() {
            return Ok(None);
        }
        Ok(Some(self.take(hand)?))
    }

    /// Refuses each later item. What waits stays.
    pub fn close(&mut self)
        ensures { self.new ≡ record self.old { closed = true } }
    {
        self.inbox.close();
    }

    /// One importer has left.
    pub fn leave(&mut self)
        ensures { self.new ≡ record self.old { importers = self.old.importers - 1 } }
    {
        self.importers = self.importers.saturating_sub(1);
    }
}

impl<J: Naming> InHand<J> {
    /// Nothing in hand. It takes no memory.
    pub fn new(alloc: Global) -> InHand<J>
        ensures { result ≡ [] }
    {
        InHand {
            items: Hand::new(alloc),
            tickets: Vec::new(alloc),
        }
    }

    /// The items.
    pub fn items(&self) -> &Hand
        ensures items { result.now ≡ self.now }
        ensures fits { Fits self.now }
    {
        let _ = &self.tickets;
        &self.items
    }

    /// The ticket of the item at a place.
    pub fn ticket(&self, place: usize) -> Ticket<J>
        requires { place < length self.now }
        ensures { result.entry ≡ get_or (entries_of self.now) place no_entry }
    {
        self.tickets[place].again()
    }

    /// Drops what is in hand. It takes no memory.
    pub fn clear(&mut self)
        ensures { self.new ≡ [] }
    {
        self.items.clear();
        self.tickets.clear();
    }
}

// Moves the first tickets.
fn move_front<J: Naming>(from: &mut VecDeque<Ticket<J>>, to: &mut Vec<Ticket<J>>, count: usize)
    requires have { count ≤ deque_len from.old }
    requires room { vec_len to.old + count ≤ vec_capacity to.old }
    ensures moved { to.new.items ≡ to.old.items ++ take count from.old.items }
    ensures rest { from.new.items ≡ drop count from.old.items }
{
    for _ in 0..count {
        if let Some(ticket) = from.pop_front() {
            to.push_reserved(ticket);
        }
    }
}
