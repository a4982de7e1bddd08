//! What reports find of a key, kept from one report to the next.
ghost use Rattle.std.specs.Prelude.{◌≡◌, ◌⊎◌, ◌<◌, ◌+◌, ◌^◌, ℕ, List, [], Some, false, true, length, map, option_copied, slice_index_or, All, IfOk, IfSome};
ghost use Rattle.std.specs.Bool.{OnTrue};
ghost use Rattle.std.specs.List.{range_with_len};
ghost use Rattle.fw_charge.specs.Charge.{Charge};
ghost use Rattle.fw_sums.specs.ReportCache.{AreFound, AreKept, AreKeptUnder, IsFound, IsKept, KeepsMore, is_open, kept_at};
ghost use Rattle.fw_sums.specs.Hours.{all_rows, lent};
ghost use Rattle.fw_terms.specs.Commitment.{CommitmentValue};

use crate::groups::Groups;
use crate::wholes::Wholes;
use fw_columns::Columns;
use indexmap::IndexMap;
use std::alloc::{AllocError, Global};

// Of so many keys sums are kept. The key that was asked for longest ago gives way to a new one.
const MOST_KEYS: usize = 8;

// Of a key sums are kept for so many groups of hours, those of each hour counted, and for about as many of segments: some 31 MB either. What is past
// that is found anew for each report.
pub(crate) const MOST_GROUPS: usize = 262_144;

/// What reports found of a key, kept for the next reports on the same entries: what commitments bring to its groups in the hours that were asked for,
/// and the sums of the rows of whole segments.
///
/// Under commitments most of a report's time goes into covering its hours and sharing what they cost, and without them into summing the rows of its
/// hours by group. What an hour's commitments and a segment's rows bring to the groups of a key is the same for each report until rows or commitments
/// come. So whoever asks for many reports makes a `ReportCache` once, lends it to each [`totals_keeping`](crate::totals_keeping), and clears it when an entry
/// was accepted. It keeps the sums of the last 8 keys. For each key, and each hour that a commitment has a line in, these are some 120 bytes for each
/// group that a commitment, or a row that one took of, is in there. From the second report on a key they are so many for each group in each segment of
/// the rows too: a later report sums the rows of those segments alone that have rows both in and out of its range. Of a key it keeps 262,144 groups of
/// hours at most, and about as many of segments, each some 31 MB; the hours and segments behind them are counted anew for each report.
pub struct ReportCache {
    alloc: Global,
    keys: Vec<KeySums>,
}

impl Drop for ReportCache {
    fn drop(self) {
        let Self { alloc: _, keys: _ } = self;
    }
}

// A key, and what is kept of it.
#[derive(Drop)]
struct KeySums {
    key: String,
    kept: Kept,
}

// What reports found of one key: what commitments bring to hours, and the sums of the rows of whole segments.
#[derive(Drop)]
pub(crate) struct Kept {
    pub(crate) hours: HourSums,
    pub(crate) wholes: Wholes,
}

// What commitments bring to the groups of one key in an hour.
#[derive(Drop)]
pub(crate) struct HourSum {
    pub(crate) hour: u32,
    pub(crate) sums: Groups,
}

// What commitments bring to the groups of one key, by hour.
#[derive(Drop)]
pub(crate) struct HourSums {
    by_hour: IndexMap<u32, Groups>,
    // How many groups there are in all, those of each hour counted.
    groups: usize,
}

impl ReportCache {
    /// Nothing is kept.
    #[tactic(auto, unfolding(crate::specs::ReportCache::AreKept))]
    pub fn new(alloc: Global) -> ReportCache
        ensures none { result.keys.items ≡ [] }
        ensures kept { (cs : List CommitmentValue) (rows : List Charge) → AreKept cs rows result }
    {
        ReportCache {
            alloc,
            keys: Vec::new(alloc),
        }
    }

    /// Keeps nothing any more.
    #[tactic(auto, unfolding(crate::specs::ReportCache::AreKept))]
    pub fn clear(&mut self)
        ensures none { self.new.keys.items ≡ [] }
        ensures kept { (cs : List CommitmentValue) (rows : List Charge) → AreKept cs rows self.new }
    {
        self.keys.clear();
    }

    // Takes out what is kept of a key. Of one that was asked for before, the sums of whole segments that aren't kept yet are found first; of a new key
    // there is nothing.
    pub(crate) fn take(&mut self, key: &str, segments: &[&Columns]) -> Kept
        ensures cache { (cs : List CommitmentValue) (rows : List Charge) → AreKept cs rows self.old
            → AreKept cs rows self.new }
        ensures kept { (cs : List CommitmentValue)
            → AreKept cs (all_rows (lent segments.now)) self.old
            → IsKept cs (all_rows (lent segments.now)) key.now result }
    {
        match self.remove(key) {
            Some(Kept { hours, mut wholes }) => {
                wholes.fill(self.alloc, key, segments);
                Kept { hours, wholes }
            }
            None => Kept::new(self.alloc),
        }
    }

    // Takes out what is kept of a key, if it was asked for before.
    #[tactic(auto, unfolding(crate::specs::ReportCache::AreKept))]
    fn remove(&mut self, key: &str) -> Option<Kept>
        ensures cache { (cs : List CommitmentValue) (rows : List Charge) → AreKept cs rows self.old
            → AreKept cs rows self.new }
        ensures kept { (cs : List CommitmentValue) (rows : List Charge) → AreKept cs rows self.old
            → IfSome result (IsKept cs rows key.now) }
    {
        let place = self.keys.iter().position(|sums| sums.key.as_str() == key)?;
        Some(self.keys.remove(place).kept)
    }

    // Lets go of the key that was asked for longest ago, where there are as many as are kept.
    #[tactic(auto, unfolding(crate::specs::ReportCache::AreKept))]
    fn make_room(&mut self)
        ensures { (cs : List CommitmentValue) (rows : List Charge) → AreKept cs rows self.old
            → AreKept cs rows self.new }
    {
        if self.keys.len() >= MOST_KEYS {
            let _oldest = self.keys.remove(0);
        }
    }

    // Keeps what was found of a key. Where memory is short nothing of it is kept, and the next report finds it anew.
    pub(crate) fn put(&mut self, key: &str, kept: Kept)
        ensures { (cs : List CommitmentValue) (rows : List Charge) → AreKept cs rows self.old
            → IsKept cs rows key.now kept → AreKept cs rows self.new }
    {
        self.make_room();
        if let Ok(key) = String::from_str(self.alloc, key) {
            let _pushed = self.keys.push(KeySums { key, kept });
        }
    }
}

impl Kept {
    // Nothing is kept.
    pub(crate) fn new(alloc: Global) -> Kept
        ensures { (cs : List CommitmentValue) (rows : List Charge) (key : List ℕ)
            → IsKept cs rows key result }
    {
        Kept {
            hours: HourSums::new(alloc),
            wholes: Wholes::new(alloc),
        }
    }
}

impl HourSums {
    // Nothing is kept.
    pub(crate) fn new(alloc: Global) -> HourSums
        ensures { result.by_hour.entries ≡ [] }
    {
        HourSums {
            by_hour: IndexMap::new(alloc),
            groups: 0,
        }
    }

    // What is kept of an hour.
    pub(crate) fn of_hour(&self, hour: u32) -> Option<&Groups>
        ensures { option_copied result ≡ kept_at self.now hour }
    {
        self.by_hour.get(&hour)
    }

    // Keeps what commitments bring to an hour. Where memory is short, or as many groups are kept as may be, nothing is kept, and the next report finds it anew.
    pub(crate) fn keep(&mut self, hour: u32, sums: Groups)
        ensures { (h : ℕ) → (kept_at self.new h ≡ kept_at self.old h)
            ⊎ ((h ≡ hour) × (kept_at self.new h ≡ Some sums)) }
    {
        let groups = self.groups.saturating_add(sums.by_group.len());
        if groups > MOST_GROUPS {
            return;
        }
        if self.by_hour.insert(hour, sums).is_ok() {
            self.groups = groups;
        }
    }

    // Whether more may be kept.
    pub(crate) fn has_room(&self) -> bool {
        self.groups < MOST_GROUPS
    }

    // Keeps what was found of hours.
    fn keep_found(&mut self, found: Vec<HourSum>)
        ensures kept { (cs : List CommitmentValue) (rows : List Charge) (key : List ℕ)
            → All (IsFound cs rows key) found.items → AreKeptUnder cs rows key self.old
            → AreKeptUnder cs rows key self.new }
        ensures more { KeepsMore self.old self.new }
    {
        for one in found {
            let HourSum { hour, sums } = one;
            self.keep(hour, sums);
        }
    }

    // Keeps what a worker found of the hours that it took: nothing where memory was short.
    fn keep_any(&mut self, found: Result<Vec<HourSum>, AllocError>)
        ensures kept { (cs : List CommitmentValue) (rows : List Charge) (key : List ℕ)
            → AreFound cs rows key found → AreKeptUnder cs rows key self.old
            → AreKeptUnder cs rows key self.new }
        ensures more { KeepsMore self.old self.new }
    {
        if let Ok(found) = found {
            self.keep_found(found);
        }
    }

    // Keeps what workers found, each of the hours that it took.
    pub(crate) fn keep_each(&mut self, each: Vec<Result<Vec<HourSum>, AllocError>>)
        ensures kept { (cs : List CommitmentValue) (rows : List Charge) (key : List ℕ)
            → All (AreFound cs rows key) each.items → AreKeptUnder cs rows key self.old
            → AreKeptUnder cs rows key self.new }
        ensures more { KeepsMore self.old self.new }
    {
        for found in each {
            self.keep_any(found);
        }
    }

    // Whether an hour is open: touched, and nothing is kept of it.
    fn is_open(&self, is_touched: bool, hour: u64) -> bool
        requires early { OnTrue is_touched (hour < 2 ^ 32) }
        ensures { result ≡ is_open self.now is_touched hour }
    {
        is_touched && self.of_hour(hour as u32).is_none()
    }

    // The marks of the open hours, where the touched ones are marked and the first mark is of this hour.
    pub(crate) fn open_hours(
        &self,
        alloc: Global,
        touched: &[bool],
        from: u64,
    ) -> Result<Vec<bool>, AllocError>
        requires fits { from + length touched.now < 2 ^ 64 }
        requires early { (k : ℕ) → slice_index_or touched.now k false ≡ true → from + k < 2 ^ 32 }
        ensures { IfOk result (λ marks. marks.items
            ≡ map (λ k. is_open self.now (slice_index_or touched.now k false) (from + k))
            (range_with_len 0 (length touched.now))) }
    {
        let mut marks = Vec::with_capacity(alloc, touched.len())?;
        for (place, is_touched) in touched.iter().enumerate() {
            marks.push(self.is_open(*is_touched, from + place as u64))?;
        }
        Ok(marks)
    }
}
