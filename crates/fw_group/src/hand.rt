//! The items of the group that is being committed.
ghost use Rattle.std.specs.Prelude.{◌≡◌, ◌≢◌, ◌↔◌, ◌+◌, ◌<◌, ◌≤◌, ◌++◌, [], length, take, drop, All, OnErr, OnOk, IsTrue, vec_len, vec_capacity};
ghost use Rattle.std.specs.VecDeque.{deque_len};
ghost use Rattle.fw_group.specs.Items.{entries_of, importers_of, IsFree};
ghost use Rattle.fw_group.specs.Answers.{accepted_in, IsOutcome, AnswerIs, AnswersAre};

use crate::{Answer, Front, Item};
use fw_recover::StoreFault;
use fw_snapshot::{Entry, Verdict};
use std::alloc::{AllocError, Global};
use std::collections::VecDeque;
use std::marker::Model;

/// The items of the group that is being committed, in order. Their entries stand side by side, as the store takes them.
#[derive(Drop)]
pub struct Hand {
    importers: Vec<usize>,
    entries: Vec<Entry>,
}

impl Model for Hand {
    ghost use Rattle.std.specs.Prelude.{List};
    ghost use Rattle.fw_group.specs.declared.inbox.Item.{Item};
    ghost use Rattle.fw_group.specs.HandView.{hand_view, KeepsHand};

    ghost Value = { List Item };

    ghost view = { hand_view };

    ghost invariant = { KeepsHand };
}

impl Hand {
    /// Nothing in hand. It takes no memory.
    pub fn new(alloc: Global) -> Hand
        ensures { result ≡ [] }
    {
        Hand {
            importers: Vec::new(alloc),
            entries: Vec::new(alloc),
        }
    }

    /// How many items are in hand.
    pub fn len(&self) -> usize
        ensures { result ≡ length self.now }
    {
        let _ = &self.importers;
        self.entries.len()
    }

    /// Whether nothing is in hand.
    pub fn is_empty(&self) -> bool
        ensures { IsTrue result ↔ (self.now ≡ []) }
    {
        self.len() == 0
    }

    /// The entries in hand, in order.
    pub fn entries(&self) -> &[Entry]
        ensures { result.now ≡ entries_of self.now }
    {
        &self.entries
    }

    /// Who posted the entries, in their order.
    pub fn importers(&self) -> &[usize]
        ensures { result.now ≡ importers_of self.now }
    {
        &self.importers
    }

    /// Whether no item of the importer is in hand.
    pub(crate) fn is_free(&self, importer: usize) -> bool
        ensures { IsTrue result ↔ IsFree importer self.now }
    {
        is_none(self.importers(), importer)
    }

    /// Drops what is in hand. It takes no memory.
    pub fn clear(&mut self)
        ensures { self.new ≡ [] }
    {
        self.importers.clear();
        self.entries.clear();
    }

    /// Moves the first items into an empty hand.
    ///
    /// # Errors
    /// Where the allocator refused a growth. Nothing changes.
    pub(crate) fn fill(
        &mut self,
        items: &mut VecDeque<Item>,
        count: usize,
    ) -> Result<(), AllocError>
        requires empty { self.old ≡ [] }
        requires have { count ≤ deque_len items.old }

        ensures filled { OnOk result ((self.new ≡ take count items.old.items)
            × (items.new.items ≡ drop count items.old.items)) }
        ensures refused { OnErr result ((self.new ≡ self.old)
            × (items.new.items ≡ items.old.items)) }
    {
        self.importers.reserve(count)?;
        self.entries.reserve(count)?;
        move_front(items, &mut self.importers, &mut self.entries, count);
        Ok(())
    }

    /// The answer to the item at a place, by what the store answered for the group: for verdicts with a front that has
    /// the accepted entries, for a fault by [`Answer::refusal`]. It takes no memory.
    pub fn answer<F: Front>(
        &self,
        place: usize,
        front: F,
        outcome: &Result<Vec<Verdict>, StoreFault>,
    ) -> Answer<F>
        requires item { place < length self.now }
        requires outcome { IsOutcome F.list self.now front outcome.now }
        ensures { AnswerIs F.list self.now outcome.now front place result }
    {
        match outcome {
            Ok(verdicts) => {
                let before = front.entries() - accepted(verdicts);
                let at = before + accepted(&verdicts[..place]);
                Answer::told(front, at, verdicts[place])
            }
            Err(fault) => Answer::refusal(fault),
        }
    }
}

// Whether none of the importers is this one.
fn is_none(importers: &[usize], importer: usize) -> bool
    ensures { IsTrue result ↔ All (λ other. other ≢ importer) importers.now }
{
    importers.iter().all(|other| *other != importer)
}

// How many verdicts accept their entry.
fn accepted(verdicts: &[Verdict]) -> usize
    ensures { result ≡ accepted_in verdicts.now }
{
    verdicts
        .iter()
        .filter(|verdict| verdict.is_accept())
        .count()
}

// Moves the first items, the importer of each to one list and its entry to the other.
fn move_front(
    items: &mut VecDeque<Item>,
    importers: &mut Vec<usize>,
    entries: &mut Vec<Entry>,
    count: usize,
)
    requires have { count ≤ deque_len items.old }
    requires room { vec_len importers.old + count ≤ vec_capacity importers.old }
    requires entry_room { vec_len entries.old + count ≤ vec_capacity entries.old }

    ensures importers { importers.new.items ≡ importers.old.items
        ++ importers_of (take count items.old.items) }
    ensures entries { entries.new.items ≡ entries.old.items
        ++ entries_of (take count items.old.items) }
    ensures rest { items.new.items ≡ drop count items.old.items }
{
    for _ in 0..count {
        let Item { importer, entry } = items.pop_front().unwrap();
        importers.push_reserved(importer);
        entries.push_reserved(entry);
    }
}

/// The answers to the items in hand, in order, by what the store answered for the group. Each takes one of the fronts,
/// which are copies of this one, and the answers are put into a list that has the room.
pub fn answer_all<F: Front>(
    hand: &Hand,
    front: &F,
    fronts: Vec<F>,
    room: Vec<Answer<F>>,
    outcome: &Result<Vec<Verdict>, StoreFault>,
) -> Vec<Answer<F>>
    requires fronts { (length fronts.items ≡ length hand.now)
        × All (λ f. f ≡ front.now) fronts.items }
    requires room { (room.items ≡ []) × (length hand.now ≤ vec_capacity room) }
    requires outcome { IsOutcome F.list hand.now front.now outcome.now }
    ensures { AnswersAre F.list hand.now outcome.now front.now result.items }
{
    let mut fronts = fronts;
    let mut answers = room;
    for place in 0..hand.len() {
        let front = fronts.pop().unwrap();
        answers.push_reserved(hand.answer(place, front, outcome));
    }
    answers
}
