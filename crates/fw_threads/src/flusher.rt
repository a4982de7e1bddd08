//! The flusher.
ghost use Rattle.std.specs.Prelude.{◌≡◌, List, [], length, IfOk, IfErr, IfNone, IfSome, OnErr};
ghost use Rattle.fw_group.specs.Answers.{IsGroupFault};
ghost use Rattle.fw_group.specs.Items.{entries_of};
ghost use Rattle.fw_group.specs.declared.inbox.Item.{Item};
ghost use Rattle.fw_threads.specs.Flushed.{IsTaken, Checkpoints, Commits, CommitFails, StaysInHand, answered_by, closes_inbox, state_of};
ghost use Rattle.fw_threads.specs.Told.{AreRight};

use crate::naming::Naming;
use crate::published::Published;
use crate::publisher::{CommitFault, Done, Publisher};
use crate::shared::{Reply, Shared};
use crate::waiting::InHand;
use fw_disk::Volume;
use fw_group::Answer;
use fw_recover::{Store, StoreFault};
use std::alloc::{AllocError, Global};
use std::marker::Model;
use std::sync::{Arc, Wait};

/// What a take moved.
#[derive(Clone, Copy, Debug, PartialEq, Eq)]
pub enum Taken {
    /// So many items.
    Took(usize),
    /// None, and none will come: all importers have left.
    Over,
}

/// It stores and publishes what importers post, group by group. It is not `Drop`: end it by [`Flusher::close`]. Contracts see what is
/// published, the store, whether a group was stored and could not be published, and what is in hand.
pub struct Flusher<J: Naming, V: Volume> {
    publisher: Publisher<J, V>,
    hand: InHand<J>,
    shared: Arc<Shared<J>, Global>,
}

impl<J: Naming, V: Volume> Model for Flusher<J, V> {
    ghost use Rattle.fw_threads.specs.Flushed.{Flushed};

    ghost Value = { Flushed V };

    ghost view = { λ f. record { published = f.publisher.published; store = f.publisher.store; unpublished = f.publisher.unpublished; hand = f.hand } };
}

impl<J: Naming, V: Volume> Flusher<J, V> {
    pub(crate) fn new(
        publisher: Publisher<J, V>,
        hand: InHand<J>,
        shared: Arc<Shared<J>, Global>,
    ) -> Flusher<J, V>
        requires { hand ≡ [] }
        ensures state { state_of result ≡ publisher }
        ensures hand { result.hand ≡ [] }
    {
        Flusher {
            publisher,
            hand,
            shared,
        }
    }

    /// Takes the next group in hand. It waits where no item waits and an importer has not left. With items in hand it takes none, and
    /// answers `Took(0)`.
    ///
    /// # Errors
    /// Where the allocator refused a growth. Nothing changes.
    pub fn take<R: Wait>(&mut self, rt: &R) -> Result<Taken, AllocError>
        ensures same { state_of self.new ≡ state_of self.old }
        ensures taken { IfOk result (λ taken. IsTaken self.old.hand taken self.new.hand) }
        ensures refused { OnErr result (self.new.hand ≡ self.old.hand) }
    {
        if !self.hand.items().is_empty() {
            return Ok(Taken::Took(0));
        }
        let shared: &Shared<J> = &self.shared;
        let mut waiting = shared
            .arrived
            .wait_while(rt, shared.waiting.lock(rt), |waiting| waiting.is_idle());
        match waiting.next(&mut self.hand)? {
            Some(count) => Ok(Taken::Took(count)),
            None => Ok(Taken::Over),
        }
    }

    /// Judges what is in hand, stores what is accepted as one group, publishes it, and answers each importer. It answers how many
    /// entries were accepted: 0 where nothing is in hand.
    ///
    /// # Errors
    /// `Store(Failed)` where the device had failed before, or a group was stored and couldn't be published: the importers are answered
    /// `Closed`. `Store(OldSide)` where the form of the side in use doesn't have an accepted entry, then `Store(TooLarge)` where the
    /// volume has no room: what is in hand stays there. `Store(NoMemory)`, which may come in place of these two: they are answered so.
    /// `Store(Device)` where the device failed, and `Unpublished` where the group was stored and could not be published: they are
    /// answered `Unknown`, and the inbox is closed. Nothing is published in these cases.
    pub fn commit<R: Wait>(&mut self, rt: &R) -> Result<usize, CommitFault>
        ensures done { IfOk result (λ n. Commits V.tells V.view self.old n self.new) }
        ensures failed { IfErr result (λ why. CommitFails V.tells V.view self.old why self.new) }
    {
        if self.hand.items().is_empty() {
            return Ok(0);
        }
        match self.publisher.commit(rt, self.hand.items()) {
            Ok(done) => {
                let Done { accepted, answers } = done;
                send(rt, &self.shared, &self.hand, answers);
                self.hand.clear();
                Ok(accepted)
            }
            Err(why) => {
                self.refuse(rt, why);
                Err(why)
            }
        }
    }

    // Answers a fault to each item in hand, unless they stay there.
    fn refuse<R: Wait>(&mut self, rt: &R, why: CommitFault)
        ensures same { state_of self.new ≡ state_of self.old }
        ensures hand { StaysInHand why self.old.hand self.new.hand }
    {
        if closes_inbox(why) {
            self.shared.close(rt);
        }
        let Some(fault) = answered_by(why) else {
            return;
        };
        send_refusal(rt, &self.shared, &self.hand, fault);
        self.hand.clear();
    }

    /// Writes the whole warehouse anew, as [`Store::checkpoint`] does. It publishes nothing.
    ///
    /// # Errors
    /// `Failed` where the device had failed before, or a group was stored and couldn't be published. Then those of the store:
    /// `Generations` where there is no greater generation, `TooLarge` where the volume's limit is below the side's length,
    /// `NoMemory`, `Device`. `Device` closes the inbox.
    pub fn checkpoint<R: Wait>(&mut self, rt: &R) -> Result<(), StoreFault>
        ensures same { self.new ≡ record self.old { store = self.new.store } }
        ensures checkpoint { Checkpoints V.tells V.view self.old.unpublished result self.old.store
            self.new.store }
    {
        let done = self.publisher.checkpoint();
        if let Err(why) = done {
            if closes_inbox(CommitFault::Store(why)) {
                self.shared.close(rt);
            }
        }
        done
    }

    /// Ends the flusher, and hands back the store. What waits or is in hand is answered `Closed`, and so is each later post.
    pub fn close<R: Wait>(self, rt: &R) -> Store<V>
        ensures { result ≡ self.store }
    {
        let Flusher {
            publisher,
            hand: _,
            shared,
        } = self;
        shared.close(rt);
        for slot in shared.slots.iter() {
            slot.end(rt);
        }
        publisher.close(rt)
    }
}

// The fault by which each item in hand is answered where a commit failed so. `None` where they stay in hand.
fn answered_by(why: CommitFault) -> Option<StoreFault>
    ensures answered { result ≡ answered_by why }
    ensures of_a_group { IfSome result IsGroupFault }
    ensures stays { IfNone result ((items : List Item) → StaysInHand why items items) }
    ensures goes { IfSome result (λ _. (items : List Item) → StaysInHand why items []) }
{
    match why {
        CommitFault::Store(StoreFault::OldSide | StoreFault::TooLarge) => None,
        CommitFault::Store(StoreFault::Device) | CommitFault::Unpublished => {
            Some(StoreFault::Device)
        }
        CommitFault::Store(StoreFault::Failed) => Some(StoreFault::Failed),
        CommitFault::Store(_) => Some(StoreFault::NoMemory),
    }
}

// Whether the inbox is closed where a commit or a checkpoint failed so.
fn closes_inbox(why: CommitFault) -> bool
    ensures { result ≡ closes_inbox why }
{
    match why {
        CommitFault::Store(StoreFault::Device) | CommitFault::Unpublished => true,
        CommitFault::Store(_) => false,
    }
}

// Sends each answer to its importer.
fn send<J: Naming, R: Wait>(
    rt: &R,
    shared: &Shared<J>,
    hand: &InHand<J>,
    answers: Vec<Answer<Published<J>>>,
)
    requires { AreRight (entries_of hand.now) answers.items }
{
    let importers = hand.items().importers();
    let mut answers = answers;
    for _ in 0..importers.len() {
        let answer = answers.pop().unwrap();
        let place = answers.len();
        if let Some(slot) = shared.slots.get(importers[place]) {
            slot.put(rt, Reply::new(hand.ticket(place), answer));
        }
    }
}

// Sends the answer of a fault to each importer in hand.
fn send_refusal<J: Naming, R: Wait>(rt: &R, shared: &Shared<J>, hand: &InHand<J>, fault: StoreFault)
    requires { IsGroupFault fault }
{
    let importers = hand.items().importers();
    for place in 0..importers.len() {
        if let Some(slot) = shared.slots.get(importers[place]) {
            slot.put(rt, Reply::new(hand.ticket(place), Answer::refusal(&fault)));
        }
    }
}
