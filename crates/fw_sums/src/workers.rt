//! The rows of a report, counted by several workers.
ghost use Rattle.std.specs.Prelude.{◌≡◌, ◌<◌, ◌*◌, ◌++◌, drop, take, List, map, IfOk, OnOk};
ghost use Rattle.std.specs.List.{AllZip};
ghost use Rattle.fw_sums.specs.Costs.{Cost};
ghost use Rattle.fw_sums.specs.Hours.{all_rows, lent, row_cost, rows_marked};
ghost use Rattle.fw_sums.specs.Parts.{PartCounts, in_turn};
ghost use Rattle.fw_sums.specs.Sums.{Counts};

use crate::groups::Groups;
use fw_columns::Columns;
use fw_workers::in_threads;
use std::alloc::{AllocError, Global};
use std::thread::Threads;

// The piece at a place, where each piece has this size, and the last ones may have less.
fn piece<T>(items: &[T], size: usize, place: usize) -> &[T]
    ensures { result.now ≡ take size (drop (size * place) items.now) }
{
    let from = size
        .checked_mul(place)
        .unwrap_or(items.len())
        .min(items.len());
    let rest = &items[from..];
    &rest[..size.min(rest.len())]
}

impl Groups {
    // Adds the sums of other lines. More lines than 2^64, which no memory holds, are answered as out of memory.
    pub(crate) fn add_groups(&mut self, other: &Groups) -> Result<(), AllocError>
        requires counts { (costs : List Cost) × Counts self.old costs }
        requires others { (costs : List Cost) × Counts other.now costs }
        ensures { OnOk result ((costs more : List Cost) → Counts self.old costs
            → Counts other.now more → Counts self.new (costs ++ more)) }
    {
        let Some(lines) = self.lines.checked_add(other.lines) else {
            return Err(AllocError);
        };
        for place in 0..other.by_group.len() {
            if let Some((group, sums)) = other.by_group.get_index(place) {
                self.put(group.as_str(), *sums)?;
            }
        }
        self.lines = lines;
        Ok(())
    }

    // The sums of the lines of all parts.
    fn of_parts(alloc: Global, parts: &[Result<Groups, AllocError>]) -> Result<Groups, AllocError>
        requires { (pieces : List (List Cost)) × AllZip PartCounts pieces parts.now }
        ensures { IfOk result (λ groups. (pieces : List (List Cost))
            → AllZip PartCounts pieces parts.now → Counts groups (in_turn pieces)) }
    {
        let mut all = Groups::new(alloc);
        for part in parts {
            let Ok(groups) = part else {
                return Err(AllocError);
            };
            all.add_groups(groups)?;
        }
        Ok(all)
    }

    // The rows of segments that are of marked hours; the first mark is of this hour.
    pub(crate) fn of_piece(
        alloc: Global,
        key: &str,
        segments: &[&Columns],
        from: u64,
        marks: &[bool],
    ) -> Result<Groups, AllocError>
        ensures { PartCounts (map (row_cost key.now)
            (rows_marked marks.now from (all_rows (lent segments.now)))) result }
    {
        let mut groups = Groups::new(alloc);
        groups.add_segments(key, segments, from, marks)?;
        Ok(groups)
    }

    // The same, where each of so many workers counts a piece of the segments.
    pub(crate) fn of_segments(
        rt: &(impl Threads + Sync),
        alloc: Global,
        key: &str,
        segments: &[&Columns],
        from: u64,
        marks: &[bool],
        workers: u32,
    ) -> Result<Groups, AllocError>
        requires { 0 < workers }
        ensures { PartCounts (map (row_cost key.now)
            (rows_marked marks.now from (all_rows (lent segments.now)))) result }
    {
        let workers = (workers as usize).min(segments.len()).max(1);
        let size = segments.len().div_ceil(workers);
        let parts = in_threads(
            rt,
            alloc,
            workers,
            &|worker: usize| -> Result<Groups, AllocError>
                ensures { PartCounts (map (row_cost key.entry.now)
                    (rows_marked marks.entry.now from
                    (all_rows (lent (take size (drop (size * worker) segments.entry.now))))))
                    result }
            { Groups::of_piece(alloc, key, piece(segments, size, worker), from, marks) },
        )?;
        Groups::of_parts(alloc, parts.as_slice())
    }
}
