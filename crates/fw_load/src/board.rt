//! Where importers leave what they were answered, and analysts find it.
use fw_group::Answer;
use fw_serve::Reply;
use fw_threads::{Analyst, Naming, Published};
use std::alloc::{AllocError, Global};
use std::sync::{Condvar, Mutex, Wait};

/// What became of a file.
#[derive(Drop)]
pub(crate) enum Outcome<A: Drop> {
    /// It was posted, and this is the answer.
    Posted(A),
    /// It was not posted, and this is why.
    NotPosted(Reply),
}

/// What became of one file, once that is known.
#[derive(Drop)]
pub(crate) struct Place<A: Drop> {
    outcome: Mutex<Option<Outcome<A>>>,
    known: Condvar,
}

impl<A: Drop> Place<A> {
    fn new() -> Place<A> {
        Place {
            outcome: Mutex::new(None),
            known: Condvar::new(),
        }
    }

    pub(crate) fn put<R: Wait>(&self, rt: &R, outcome: Outcome<A>) {
        let mut place = self.outcome.lock(rt);
        *place = Some(outcome);
        self.known.notify_all();
    }

    /// What became of the file, which is looked at under a lock.
    pub(crate) fn outcome(&self) -> &Mutex<Option<Outcome<A>>> {
        &self.outcome
    }
}

impl<J: Naming> Place<Answer<Published<J>>> {
    // Waits until it is known what became of the file. Where it was accepted, the analyst learns the receipt, and this is its number.
    fn learned<R: Wait>(&self, rt: &R, analyst: &mut Analyst<J>) -> Option<usize> {
        let outcome = self
            .known
            .wait_while(rt, self.outcome.lock(rt), |outcome| outcome.is_none());
        match &*outcome {
            Some(Outcome::Posted(Answer::Accepted(receipt))) => {
                analyst.learn(receipt);
                Some(receipt.number)
            }
            _ => None,
        }
    }
}

/// The places of all files, in order.
pub(crate) fn places<A: Drop>(alloc: Global, count: usize) -> Result<Vec<Place<A>>, AllocError> {
    let mut places = Vec::with_capacity(alloc, count)?;
    for _ in 0..count {
        places.push(Place::new())?;
    }
    Ok(places)
}

/// Learns each receipt as it comes, and views. It answers how many views lacked an entry that was learned.
pub(crate) fn watch<J: Naming, R: Wait>(
    rt: &R,
    analyst: Analyst<J>,
    places: &[Place<Answer<Published<J>>>],
) -> u64 {
    let mut analyst = analyst;
    let mut stale: u64 = 0;
    for place in places {
        if let Some(number) = place.learned(rt, &mut analyst) {
            if lacks(&mut analyst, number) {
                stale = stale.saturating_add(1);
            }
        }
    }
    stale
}

// Whether a view has fewer entries than this. An analyst who can view no more has no view.
fn lacks<J: Naming>(analyst: &mut Analyst<J>, number: usize) -> bool {
    match analyst.view() {
        Ok(seen) => seen.state().entries() < number,
        Err(_) => false,
    }
}
