//! Importers.
ghost use Rattle.std.specs.Prelude.{◌≡◌, ◌<◌, ◌≤◌, length, IfOk, IfSome, MatchBool};
ghost use Rattle.fw_group.specs.Laws.{Begins};
ghost use Rattle.fw_threads.specs.Told.{IsRight, Extends};

use crate::mark::Mark;
use crate::naming::Naming;
use crate::published::Published;
use crate::shared::Shared;
use crate::ticket::Ticket;
use fw_group::{Answer, PushFault, Seen};
use fw_snapshot::Entry;
use std::alloc::Global;
use std::marker::Model;
use std::sync::{Arc, Wait};

/// It posts entries, one at a time. Contracts see an importer as the longest front that it was answered; before its first answer that is
/// what was published at the split.
pub struct Importer<J: Naming> {
    number: usize,
    mark: Mark,
    shared: Arc<Shared<J>, Global>,
}

impl<J: Naming> Drop for Importer<J> {
    fn drop(self) {
        let Self {
            number: _,
            mark: _,
            shared: _,
        } = self;
    }
}

impl<J: Naming> Model for Importer<J> {
    ghost use Rattle.std.specs.Prelude.{◌≡◌, ◌<◌, length};
    ghost use Rattle.std.specs.Arc.{arc_value};
    ghost use Rattle.fw_snapshot.specs.History.{History};

    ghost Value = { History };

    ghost view = { λ i. i.mark.front };

    ghost invariant = { λ i. (i.number < length (arc_value i.shared).slots.items) × (i.mark.of ≡ J.fronts) };
}

impl<J: Naming> Importer<J> {
    ghost use Rattle.std.specs.Arc.{arc_value};

    pub(crate) fn new(number: usize, mark: Mark, shared: Arc<Shared<J>, Global>) -> Importer<J>
        requires slot { number < length (arc_value shared).slots.items }
        requires of { mark.of ≡ J.fronts }
        ensures { result ≡ mark.front }
    {
        Importer {
            number,
            mark,
            shared,
        }
    }

    /// Posts an entry, and waits for its answer. `Closed` where the flusher takes no more posts, or has ended; `NoMemory` where the
    /// allocator refused a growth: then nothing is stored. `Unknown` where the device failed: the entry is stored or not.
    pub fn post<R: Wait>(&mut self, rt: &R, entry: Entry) -> Answer<Published<J>>
        ensures right { IsRight entry result }
        ensures seen { Extends self.old result self.new }
    {
        let ticket = match self.place(rt, entry) {
            Ok(ticket) => ticket,
            Err(PushFault::Closed) => return Answer::Closed,
            Err(PushFault::NoMemory) => return Answer::NoMemory,
        };
        let answer = self.answer_to(rt, &ticket);
        self.learn(answer, &ticket)
    }

    // Puts an entry into the inbox, under its lock.
    fn place<R: Wait>(&self, rt: &R, entry: Entry) -> Result<Ticket<J>, PushFault>
        ensures { IfOk result (λ t. t.entry ≡ entry) }
    {
        let mut waiting = self.shared.waiting.lock(rt);
        let posted = waiting.post(self.number, entry);
        self.shared.arrived.notify_all();
        posted
    }

    // Waits for the reply. One to another entry is `Unknown`.
    fn answer_to<R: Wait>(&self, rt: &R, ticket: &Ticket<J>) -> Answer<Published<J>>
        ensures { IsRight ticket.now.entry result }
    {
        let Some(reply) = self.shared.slots[self.number].take(rt) else {
            return Answer::Closed;
        };
        match reply.answer_to(ticket) {
            Some(answer) => answer,
            None => Answer::Unknown,
        }
    }

    // Takes in the front of an answer. An answer that goes back is `Unknown`.
    fn learn(&mut self, answer: Answer<Published<J>>, ticket: &Ticket<J>) -> Answer<Published<J>>
        requires { IsRight ticket.now.entry answer }
        ensures right { IsRight ticket.now.entry result }
        ensures seen { Extends self.old result self.new }
    {
        match answer {
            Answer::Accepted(receipt) => {
                if receipt.number <= self.mark.entries() {
                    return Answer::Unknown;
                }
                self.see(&receipt.front);
                Answer::Accepted(receipt)
            }
            Answer::Already { last, seen } => {
                if self.is_behind(&seen) {
                    return Answer::Unknown;
                }
                Answer::Already { last, seen }
            }
            Answer::Gap { expected, seen } => {
                if self.is_behind(&seen) {
                    return Answer::Unknown;
                }
                Answer::Gap { expected, seen }
            }
            Answer::Refused { why, seen } => {
                if self.is_behind(&seen) {
                    return Answer::Unknown;
                }
                Answer::Refused { why, seen }
            }
            Answer::Unknown => Answer::Unknown,
            Answer::NoMemory => Answer::NoMemory,
            Answer::Closed => Answer::Closed,
        }
    }

    // Sees a front that is no shorter than what was seen.
    fn see(&mut self, front: &Published<J>)
        requires { length self.old.entries ≤ length front.now.entries }
        ensures begins { Begins self.old front.now }
        ensures seen { self.new ≡ front.now }
    {
        let mark = front.mark();
        self.mark.meet(&mark);
        self.mark = mark;
    }

    // Whether a verdict was judged on less than what was seen. If not, its front is seen.
    fn is_behind(&mut self, seen: &Seen<Published<J>>) -> bool
        requires { seen.now.at ≤ length seen.now.front.entries }
        ensures { MatchBool result (self.new ≡ self.old)
            (Begins self.old seen.now.front × (length self.old.entries ≤ seen.now.at)
            × (self.new ≡ seen.now.front)) }
    {
        if seen.at < self.mark.entries() {
            return true;
        }
        self.see(&seen.front);
        false
    }

    /// Ends an importer. One that is only dropped hasn't left: the flusher then waits for it.
    pub fn leave<R: Wait>(self, rt: &R) {
        let mut waiting = self.shared.waiting.lock(rt);
        waiting.leave();
        self.shared.arrived.notify_all();
    }
}
