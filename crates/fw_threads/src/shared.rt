//! What importers and the flusher share: the inbox under one lock, and a slot for the reply to each importer.
ghost use Rattle.std.specs.Prelude.{◌≡◌, length, IfOk, IfSome};
ghost use Rattle.fw_threads.specs.Told.{IsRight};

use crate::naming::Naming;
use crate::published::Published;
use crate::ticket::Ticket;
use crate::waiting::Waiting;
use fw_group::Answer;
use fw_growing::{Beginning, Growing};
use fw_snapshot::Entry;
use std::alloc::{AllocError, Global};
use std::marker::Model;
use std::sync::{Condvar, Mutex, Wait};

/// An answer, with the ticket of the entry of which it is right.
pub struct Reply<J: Naming> {
    ticket: Ticket<J>,
    answer: Answer<Published<J>>,
}

impl<J: Naming> Drop for Reply<J> {
    fn drop(self) {
        let Self {
            ticket: _,
            answer: _,
        } = self;
    }
}

impl<J: Naming> Model for Reply<J> {
    ghost use Rattle.fw_snapshot.specs.History.{History};
    ghost use Rattle.fw_group.specs.declared.answer.Answer.{Answer};
    ghost use Rattle.fw_threads.specs.Posts.{Posted};
    ghost use Rattle.fw_threads.specs.Told.{IsRight};

    ghost Value = { Posted × Answer History };

    ghost view = { λ r. (r.ticket, r.answer) };

    ghost invariant = { λ r. IsRight r.ticket.entry r.answer };
}

impl<J: Naming> Reply<J> {
    pub fn new(ticket: Ticket<J>, answer: Answer<Published<J>>) -> Reply<J>
        requires { IsRight ticket.entry answer }
    {
        Reply { ticket, answer }
    }

    /// The answer to the post of this ticket. `None` where the reply is to another one.
    pub fn answer_to(self, ticket: &Ticket<J>) -> Option<Answer<Published<J>>>
        ensures { IfSome result (λ a. IsRight ticket.now.entry a) }
    {
        let Reply {
            ticket: posted,
            answer,
        } = self;
        if posted.is(ticket) {
            Some(answer)
        } else {
            None
        }
    }
}

// A reply, and whether none comes any more.
#[derive(Drop)]
struct Place<J: Naming> {
    reply: Option<Reply<J>>,
    ended: bool,
}

/// Where one importer waits for its reply.
pub struct Slot<J: Naming> {
    place: Mutex<Place<J>>,
    ready: Condvar,
}

impl<J: Naming> Drop for Slot<J> {
    fn drop(self) {
        let Self { place: _, ready: _ } = self;
    }
}

impl<J: Naming> Slot<J> {
    fn new() -> Slot<J> {
        Slot {
            place: Mutex::new(Place {
                reply: None,
                ended: false,
            }),
            ready: Condvar::new(),
        }
    }

    pub fn put<R: Wait>(&self, rt: &R, reply: Reply<J>) {
        let mut place = self.place.lock(rt);
        place.reply = Some(reply);
        self.ready.notify_all();
    }

    /// No reply comes any more.
    pub fn end<R: Wait>(&self, rt: &R) {
        let mut place = self.place.lock(rt);
        place.ended = true;
        self.ready.notify_all();
    }

    /// Waits for a reply, and takes it. `None` where none comes any more.
    pub fn take<R: Wait>(&self, rt: &R) -> Option<Reply<J>> {
        let mut place = self.ready.wait_while(rt, self.place.lock(rt), |place| {
            place.reply.is_none() && !place.ended
        });
        place.reply.take()
    }
}

/// What the threads of one split share.
pub struct Shared<J: Naming> {
    pub waiting: Mutex<Waiting<J>>,
    pub arrived: Condvar,
    pub slots: Vec<Slot<J>>,
}

impl<J: Naming> Drop for Shared<J> {
    fn drop(self) {
        let Self {
            waiting: _,
            arrived: _,
            slots: _,
        } = self;
    }
}

impl<J: Naming> Shared<J> {
    pub fn new(
        alloc: Global,
        growing: Growing<Entry>,
        posts: Beginning<Entry>,
        importers: usize,
    ) -> Result<Shared<J>, AllocError>
        requires { (growing ≡ J.posts) × (posts.of ≡ J.posts) }
        ensures { IfOk result (λ s. length s.slots.items ≡ importers) }
    {
        let mut slots = Vec::new(alloc);
        for _ in 0..importers {
            slots.push(Slot::new())?;
        }
        Ok(Shared {
            waiting: Mutex::new(Waiting::new(alloc, growing, posts, importers)),
            arrived: Condvar::new(),
            slots,
        })
    }

    /// Refuses each later post.
    pub fn close<R: Wait>(&self, rt: &R) {
        let mut waiting = self.waiting.lock(rt);
        waiting.close();
    }
}
