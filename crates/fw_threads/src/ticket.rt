//! Tickets: by one an importer knows the answer to its own entry.
ghost use Rattle.std.specs.Prelude.{◌≡◌, ◌==◌, IsTrue, IfSome};

use crate::naming::Naming;
use fw_growing::{Beginning, Growing};
use fw_snapshot::Entry;
use std::marker::{Model, PhantomData};

/// A place in the list of all entries that were posted in a split. It takes no memory. Contracts see the place, and the entry that
/// stands there.
pub struct Ticket<J: Naming> {
    place: u64,
    posts: Beginning<Entry>,
    of: PhantomData<J>,
}

impl<J: Naming> Drop for Ticket<J> {
    fn drop(self) {
        let Self {
            place: _,
            posts: _,
            of: _,
        } = self;
    }
}

impl<J: Naming> Model for Ticket<J> {
    ghost use Rattle.std.specs.Prelude.{◌≡◌, ◌<◌, length, get_or};
    ghost use Rattle.fw_threads.specs.Posts.{Posted, no_entry};

    ghost Value = { Posted };

    ghost view = { λ t. record { place = t.place; entry = get_or t.posts.list t.place no_entry } };

    ghost invariant = { λ t. (t.place < length t.posts.list) × (t.posts.of ≡ J.posts) };
}

impl<J: Naming> Ticket<J> {
    /// The ticket of an entry that is posted now. `None` where the list can't take it.
    pub fn next(
        growing: &Growing<Entry>,
        posts: &mut Beginning<Entry>,
        entry: &Entry,
    ) -> Option<Ticket<J>>
        requires list { (growing.now ≡ J.posts) × (posts.old.of ≡ J.posts) }
        ensures ticket { IfSome result (λ t. t.entry ≡ entry.now) }
        ensures same { posts.new.of ≡ J.posts }
    {
        let place = posts.len();
        if !posts.add(growing, entry) {
            return None;
        }
        Some(Ticket {
            place,
            posts: posts.again(),
            of: PhantomData,
        })
    }

    /// A copy.
    pub fn again(&self) -> Ticket<J>
        ensures { result ≡ self.now }
    {
        Ticket {
            place: self.place,
            posts: self.posts.again(),
            of: PhantomData,
        }
    }

    /// Whether it is the ticket of the same post.
    pub fn is(&self, other: &Ticket<J>) -> bool
        ensures place { result ≡ (self.now.place == other.now.place) }
        ensures entry { IsTrue result → self.now.entry ≡ other.now.entry }
    {
        self.posts.meet(&other.posts);
        other.posts.meet(&self.posts);
        self.place == other.place
    }
}
