//! What an importer is answered.
ghost use Rattle.std.specs.Prelude.{◌≡◌, ◌<◌, ◌-◌, ◌^◌, length};
ghost use Rattle.fw_snapshot.specs.declared.verdict.Verdict.TheVariants.{Accept};
ghost use Rattle.fw_group.specs.Answers.{told, refusal, IsGroupFault};

use fw_recover::StoreFault;
use fw_snapshot::{Conflict, Snapshot, Verdict};

/// A published list of entries, by whatever type shows it.
pub trait Front: Drop {
    ghost use Rattle.std.specs.Prelude.{List};
    ghost use Rattle.fw_entry.specs.Entry.{EntryValue};

    /// The entries, in the order in which they were accepted.
    ghost list: { Self → List EntryValue };

    /// How many entries the front has.
    fn entries(&self) -> usize
        ensures { result ≡ length (list self.now) };
}

impl Front for Snapshot {
    ghost list = { λ s. s.entries };

    fn entries(&self) -> usize {
        self.state().entries()
    }
}

/// The entry stands in the front at this number, counted from 1.
#[derive(Drop)]
pub struct Receipt<F> {
    pub front: F,
    pub number: usize,
}

/// The verdict is the one after the first `at` entries of the front.
#[derive(Drop)]
pub struct Seen<F> {
    pub front: F,
    pub at: usize,
}

/// What becomes of an entry that was posted. The verdicts come with a front that has the group of the entry.
#[derive(Drop)]
pub enum Answer<F> {
    /// The entry is stored and published.
    Accepted(Receipt<F>),
    /// The origin has had an entry of this number accepted: its last one has the number `last`.
    Already { last: u64, seen: Seen<F> },
    /// The number isn't the next one of its origin, which would be `expected`.
    Gap { expected: u64, seen: Seen<F> },
    /// What the entry brings doesn't go with what was accepted before.
    Refused { why: Conflict, seen: Seen<F> },
    /// The device failed while the group was written: the entry is stored or not.
    Unknown,
    /// The allocator refused a growth. Nothing of the group is stored.
    NoMemory,
    /// The device had failed before. Nothing of the group is stored.
    Closed,
}

impl<F> Answer<F> {
    /// The answer to each entry of a group that the store refused by this fault.
    pub fn refusal(fault: &StoreFault) -> Answer<F>
        requires { IsGroupFault fault.now }
        ensures { result ≡ refusal fault.now }
    {
        match fault {
            StoreFault::Device => Answer::Unknown,
            StoreFault::Failed => Answer::Closed,
            _ => Answer::NoMemory,
        }
    }

    /// The answer of a verdict on the front's first `at` entries.
    pub(crate) fn told(front: F, at: usize, verdict: Verdict) -> Answer<F>
        requires { verdict ≡ Accept → at < 2 ^ 64 - 1 }
        ensures { result ≡ told front at verdict }
    {
        match verdict {
            Verdict::Accept => Answer::Accepted(Receipt {
                front,
                number: at + 1,
            }),
            Verdict::Already { last } => Answer::Already {
                last,
                seen: Seen { front, at },
            },
            Verdict::Gap { expected } => Answer::Gap {
                expected,
                seen: Seen { front, at },
            },
            Verdict::Refused(why) => Answer::Refused {
                why,
                seen: Seen { front, at },
            },
        }
    }
}
