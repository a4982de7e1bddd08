//! What the threads of eight importers share.
use crate::ends::Told;
use fw_threads::{Analyst, Importer, Naming};
use std::alloc::Global;
use std::sync::Mutex;
use std::sync::atomic::{AtomicBool, AtomicUsize, Ordering};

/// How many importers post at once.
pub(crate) const IMPORTERS: usize = 8;

/// How many entries are posted.
pub(crate) const ALL: usize = 32;

/// What the answers were.
#[derive(Drop)]
pub(crate) struct Tally {
    /// Which numbers were answered.
    numbers: [bool; ALL + 1],
    /// How many answers were none of a new number, or were followed by a view that lacked the entry.
    wrong: usize,
    pub(crate) ran_out: bool,
}

impl Tally {
    pub(crate) fn new() -> Tally {
        Tally {
            numbers: [false; ALL + 1],
            wrong: 0,
            ran_out: false,
        }
    }

    pub(crate) fn note(&mut self, told: Told, viewed: usize) {
        match told {
            Told::Accepted(number) if number <= viewed => self.note_number(number),
            Told::NoMemory => self.ran_out = true,
            _ => self.wrong = self.wrong.saturating_add(1),
        }
    }

    fn note_number(&mut self, number: usize) {
        match self.numbers.get_mut(number) {
            Some(answered) if !*answered => *answered = true,
            _ => self.wrong = self.wrong.saturating_add(1),
        }
    }

    // Whether the answers had the numbers 1 to 32, each once.
    pub(crate) fn is_right(&self) -> bool {
        self.wrong == 0 && self.numbers[1..].iter().all(|answered| *answered)
    }
}

/// What the importers' threads share.
#[derive(Drop)]
pub(crate) struct Seats<J: Naming> {
    pub(crate) alloc: Global,
    pub(crate) importers: Mutex<Vec<Importer<J>>>,
    pub(crate) analyst: Mutex<Analyst<J>>,
    pub(crate) tally: Mutex<Tally>,
}

/// What each side tells the other.
#[derive(Drop)]
pub(crate) struct Signs {
    /// How many importers were answered at least once.
    pub(crate) began: AtomicUsize,
    /// An importer has posted all its entries.
    pub(crate) over: AtomicBool,
    /// The analyst needs no importer any more.
    pub(crate) enough: AtomicBool,
    pub(crate) accepted: AtomicUsize,
    /// How many answers were neither `Accepted` nor `NoMemory`.
    pub(crate) wrong: AtomicUsize,
    pub(crate) ran_out: AtomicBool,
}

impl Signs {
    pub(crate) fn new() -> Signs {
        Signs {
            began: AtomicUsize::new(0),
            over: AtomicBool::new(false),
            enough: AtomicBool::new(false),
            accepted: AtomicUsize::new(0),
            wrong: AtomicUsize::new(0),
            ran_out: AtomicBool::new(false),
        }
    }

    pub(crate) fn note(&self, told: Told) {
        match told {
            Told::Accepted(_) => {
                self.accepted.fetch_add(1, Ordering::SeqCst);
            }
            Told::NoMemory => self.ran_out.store(true, Ordering::SeqCst),
            _ => {
                self.wrong.fetch_add(1, Ordering::SeqCst);
            }
        }
    }

    pub(crate) fn is_enough(&self) -> bool {
        self.enough.load(Ordering::SeqCst)
    }

    /// Whether all importers post.
    pub(crate) fn is_busy(&self) -> bool {
        self.began.load(Ordering::SeqCst) == IMPORTERS && !self.over.load(Ordering::SeqCst)
    }
}

/// What the threads of importers beside an analyst share.
#[derive(Drop)]
pub(crate) struct Posting<J: Naming> {
    pub(crate) alloc: Global,
    pub(crate) importers: Mutex<Vec<Importer<J>>>,
    pub(crate) signs: Signs,
}
