//! The shared length, and beginnings that were seen.
ghost use Rattle.std.specs.Prelude.{◌≡◌, ◌⊎◌, ◌-◌, ◌^◌, ◌<◌, ◌≤◌, ◌++◌, ◌∷◌, [], length, MatchBool};
ghost use mathlib.Core.List.{IsPrefix};

use crate::rule::{Add, Law, Nothing};
use logbook::{Offer, Seen, Start, Word};
use std::marker::Model;

/// The length of a list, which threads share. Contracts see which list it is.
pub struct Growing<E> {
    head: Word<E, u64, Law>,
}

impl<E: Drop> Drop for Growing<E> {
    fn drop(self) {
        let Self { head: _ } = self;
    }
}

impl<E> Model for Growing<E> {
    ghost use Rattle.std.specs.Prelude.{◌≡◌};
    ghost use Rattle.logbook.specs.Pages.{Book};
    ghost use Rattle.fw_growing.specs.Rule.{head_of};

    ghost Value = { Book };

    ghost view = { λ g. g.head.book };

    ghost invariant = { λ g. g.head ≡ head_of g.head.book };
}

/// A beginning of a list that was seen. It takes no memory. Contracts see it as its elements, and which list they begin.
pub struct Beginning<E> {
    count: u64,
    seen: Seen<E, u64, Law>,
}

impl<E: Drop> Drop for Beginning<E> {
    fn drop(self) {
        let Self { count: _, seen: _ } = self;
    }
}

impl<E> Model for Beginning<E> {
    ghost use Rattle.std.specs.Prelude.{◌≡◌, length};
    ghost use Rattle.fw_growing.specs.Rule.{Begun};

    ghost Value = { Begun E };

    ghost view = { λ b. record { list = b.seen.log; of = b.seen.book } };

    ghost invariant = { λ b. b.count ≡ length b.seen.log };
}

impl<E> Growing<E> {
    /// A list that has nothing yet, and its beginning.
    pub fn new() -> (Growing<E>, Beginning<E>)
        ensures empty { result.1.list ≡ [] }
        ensures same { result.1.of ≡ result.0 }
    {
        let (seen, mut first, _second) = Seen::open(Start::alone(), 0, 0);
        (
            Growing {
                head: Word::tracked(0, &mut first),
            },
            Beginning { count: 0, seen },
        )
    }
}

impl<E> Beginning<E> {
    /// How many elements it has.
    pub fn len(&self) -> u64
        ensures { result ≡ length self.now.list }
    {
        self.count
    }

    /// A copy.
    pub fn again(&self) -> Beginning<E>
        ensures { result ≡ self.now }
    {
        Beginning {
            count: self.count,
            seen: self.seen.again(),
        }
    }

    /// Of two beginnings of one list the shorter begins the longer. It does nothing.
    pub fn meet(&self, other: &Beginning<E>)
        requires { other.now.of ≡ self.now.of }
        ensures { length self.now.list ≤ length other.now.list
            → IsPrefix self.now.list other.now.list }
    {
        let _count = other.count;
        let mut both = self.seen.again();
        both.learn(&other.seen);
    }

    /// Adds an element where this is the whole list, and says whether it did. It doesn't where the list has more elements than this
    /// beginning, or 2^64 - 1.
    pub fn add(&mut self, growing: &Growing<E>, element: &E) -> bool
        requires { growing.now ≡ self.old.of }
        ensures added { MatchBool result (self.new.list ≡ self.old.list ++ element.now ∷ [])
            (IsPrefix self.old.list self.new.list) }
        ensures refused { MatchBool result (Unit {0})
            ((length self.old.list < length self.new.list) ⊎ (length self.old.list ≡ 2 ^ 64 - 1)) }
        ensures same { self.new.of ≡ self.old.of }
    {
        let count = self.count;
        let Some(next) = count.checked_add(1) else {
            return false;
        };
        let mut offer: Offer<E, u64, Law, Nothing> = self.seen.plain::<Nothing, E, Add>(element);
        let mut pen = self.seen.no_pen();
        let found = growing
            .head
            .compare_exchange::<Add, Nothing>(count, next, &mut self.seen, &mut offer, &mut pen);
        self.count = if found == count { next } else { found };
        found == count
    }
}
