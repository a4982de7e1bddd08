//! Published fronts.
ghost use Rattle.std.specs.Prelude.{◌≡◌, IfOk};

use crate::mark::Mark;
use crate::naming::Naming;
use crossbeam_utils::rule::{Outcome, Protocol};
use fw_group::Front;
use fw_snapshot::Snapshot;
use left_right::Absorb;
use std::alloc::AllocError;
use std::marker::{Model, PhantomData};

/// A front that was published in a split: a snapshot, with its mark in the list of the split's fronts. Contracts see it as the warehouse
/// that the snapshot shows.
#[derive(Drop)]
pub struct Published<J: Naming> {
    snapshot: Snapshot,
    mark: Mark,
    of: PhantomData<J>,
}

impl<J: Naming> Model for Published<J> {
    ghost use Rattle.std.specs.Prelude.{◌≡◌};
    ghost use Rattle.fw_snapshot.specs.History.{History};

    ghost Value = { History };

    ghost view = { λ f. f.snapshot };

    ghost invariant = { λ f. (f.mark.front ≡ f.snapshot) × (f.mark.of ≡ J.fronts) };
}

impl<J: Naming> Published<J> {
    pub(crate) fn new(snapshot: Snapshot, mark: Mark) -> Published<J>
        requires front { mark.front ≡ snapshot }
        requires of { mark.of ≡ J.fronts }
        ensures { result ≡ snapshot }
    {
        Published {
            snapshot,
            mark,
            of: PhantomData,
        }
    }

    /// The same front, which shares the snapshot. The error comes only where the state has as many owners as can be counted.
    pub fn copy(&self) -> Result<Published<J>, AllocError>
        ensures { IfOk result (λ f. f ≡ self.now) }
    {
        Ok(Published {
            snapshot: self.snapshot.copy()?,
            mark: self.mark.again(),
            of: PhantomData,
        })
    }

    /// The snapshot. It takes no memory.
    pub fn snapshot(&self) -> &Snapshot
        ensures { result.now ≡ self.now }
    {
        &self.snapshot
    }

    pub(crate) fn mark(&self) -> Mark
        ensures front { result.front ≡ self.now }
        ensures of { result.of ≡ J.fronts }
    {
        self.mark.again()
    }

    pub(crate) fn into_snapshot(self) -> Snapshot
        ensures { result ≡ self }
    {
        self.snapshot
    }
}

impl<J: Naming> Front for Published<J> {
    ghost list = { λ f. f.entries };

    fn entries(&self) -> usize {
        self.snapshot.state().entries()
    }
}

/// What readers take: a front whose split is not in its type. Contracts see it as its mark.
pub struct Page {
    snapshot: Snapshot,
    mark: Mark,
}

impl Drop for Page {
    fn drop(self) {
        let Self {
            snapshot: _,
            mark: _,
        } = self;
    }
}

impl Model for Page {
    ghost use Rattle.std.specs.Prelude.{◌≡◌};
    ghost use Rattle.fw_threads.specs.Fronts.{Marked};

    ghost Value = { Marked };

    ghost view = { λ p. p.mark };

    ghost invariant = { λ p. p.mark.front ≡ p.snapshot };
}

impl Page {
    fn copy(&self) -> Result<Page, AllocError>
        ensures { IfOk result (λ p. p ≡ self.now) }
    {
        Ok(Page {
            snapshot: self.snapshot.copy()?,
            mark: self.mark.again(),
        })
    }

    pub fn of<J: Naming>(front: Published<J>) -> Page
        ensures front { result.front ≡ front }
        ensures of { result.of ≡ J.fronts }
    {
        let Published {
            snapshot,
            mark,
            of: _,
        } = front;
        Page { snapshot, mark }
    }

    /// A copy of the front.
    pub fn front<J: Naming>(&self) -> Result<Published<J>, AllocError>
        requires { self.now.of ≡ J.fronts }
        ensures { IfOk result (λ f. f ≡ self.now.front) }
    {
        Ok(Published {
            snapshot: self.snapshot.copy()?,
            mark: self.mark.again(),
            of: PhantomData,
        })
    }
}

/// To take in a page is to show it in place of the one before.
impl Absorb<Page> for Page {
    type State = Page;

    ghost state = { λ p. p };

    ghost applied = { λ _ next. next };

    fn absorb_first(&mut self, next: &Page, _other: &Page) -> Result<(), AllocError> {
        *self = next.copy()?;
        Ok(())
    }
}

/// The rule of what readers take: it is a front of the split, and each front that was taken begins it. So it only grows.
pub struct OfSplit<J> {
    of: PhantomData<J>,
}

impl<J: Naming> Protocol<Page, Option<Snapshot>> for OfSplit<J> {
    ghost use Rattle.std.specs.Prelude.{None};
    ghost use Rattle.fw_threads.specs.Fronts.{BeginsWithAll};

    ghost holds = { BeginsWithAll J.fronts };

    ghost first = { None };
}

impl<J: Naming> Outcome<Page, Option<Snapshot>> for OfSplit<J> {
    ghost use Rattle.fw_threads.specs.Fronts.{TakesNext};

    ghost then = { TakesNext J.fronts };
}
