//! Rows that are summed by column.
ghost use Rattle.std.specs.Prelude.{◌≡◌, ◌<◌, ◌^◌, ◌++◌, length, List, map, nat_abs, pos, false, slice_index_or, IfOk, IfSome, MatchBool, OnOk};
ghost use Rattle.fw_lanes.specs.Masked.{billed_of, effective_of, marks_of};
ghost use Rattle.fw_sums.specs.CodeSums.{AreCodeSums, code_cost, code_text};
ghost use Rattle.fw_sums.specs.Costs.{Cost};
ghost use Rattle.fw_sums.specs.Hours.{all_rows, lent, row_cost, rows_marked};
ghost use Rattle.fw_sums.specs.Sums.{AddsLine, Counts, HasRoom, sums_at};

use crate::groups::{Groups, Sums};
use crate::marks::{has_mark, mask_of};
use fw_columns::{Columns, Names};
use fw_lanes::{CodeSum, Mask, code_count, sums_by_code};
use std::alloc::{AllocError, Global};

// What the rows of a segment bring under a key that a mask picks, by the codes of their groups.
fn code_sums(
    alloc: Global,
    key: &str,
    segment: &Columns,
    mask: &Mask,
) -> Result<Vec<CodeSum>, AllocError>
    requires { length mask.now ≡ length segment.now }
    ensures { IfOk result (λ sums. AreCodeSums key.now segment.now mask.now sums.items) }
{
    let codes = segment.tag_codes(key)?;
    let codes = codes.as_slice();
    let sums = sums_by_code(
        alloc,
        segment.billed(),
        segment.effective(),
        codes,
        mask,
        code_count(codes),
    )?;
    Ok(sums)
}

// The group of a code: the empty text for 0 and for a code that no name has, else the name whose place is 1 less.
fn group_text(names: &Names, code: usize) -> &str
    ensures { result.now ≡ code_text names.now code }
{
    if code == 0 {
        return "";
    }
    let place = code - 1;
    if place >= names.len() {
        return "";
    }
    names.text(place as u32)
}

impl Groups {
    // Adds the sums of a code to those of its group, where a row has the code.
    fn add_code(&mut self, names: &Names, sums: &[CodeSum], code: usize) -> Result<(), AllocError>
        requires within { code < length sums.now }
        requires billed_small { nat_abs (slice_index_or (billed_of sums.now) code (pos 0))
            < 2 ^ 126 }
        requires effective_small { nat_abs (slice_index_or (effective_of sums.now) code (pos 0))
            < 2 ^ 126 }
        requires room { IfSome (sums_at self.old (code_text names.now code)) HasRoom }
        ensures { OnOk result (MatchBool (slice_index_or (marks_of sums.now) code false)
            (AddsLine self.old self.new (code_cost names.now sums.now code))
            (self.new ≡ self.old)) }
    {
        let sum = sums[code];
        if !sum.is_marked {
            return Ok(());
        }
        let added = Sums::of_sums(sum.billed, sum.effective);
        self.put(group_text(names, code), added)
    }

    // Counts the rows of a segment that are of marked hours; the first mark is of this hour. More lines than 2^64, which no memory holds, are
    // answered as out of memory.
    pub(crate) fn add_segment(
        &mut self,
        key: &str,
        segment: &Columns,
        from: u64,
        marks: &[bool],
    ) -> Result<(), AllocError>
        requires { (costs : List Cost) × Counts self.old costs }
        ensures { OnOk result ((costs : List Cost) → Counts self.old costs
            → Counts self.new (costs ++ map (row_cost key.now)
            (rows_marked marks.now from segment.now))) }
    {
        let Some(lines) = self.lines.checked_add(segment.len() as u64) else {
            return Err(AllocError);
        };
        let mask = mask_of(self.alloc, segment, from, marks)?;
        if !has_mark(mask.as_slice()) {
            return Ok(());
        }
        let sums = code_sums(self.alloc, key, segment, &mask)?;
        let sums = sums.as_slice();
        for code in 0..sums.len() {
            self.add_code(segment.names(), sums, code)?;
        }
        self.lines = lines;
        Ok(())
    }

    // Counts the rows of segments that are of marked hours; the first mark is of this hour.
    pub(crate) fn add_segments(
        &mut self,
        key: &str,
        segments: &[&Columns],
        from: u64,
        marks: &[bool],
    ) -> Result<(), AllocError>
        requires { (costs : List Cost) × Counts self.old costs }
        ensures { OnOk result ((costs : List Cost) → Counts self.old costs
            → Counts self.new (costs ++ map (row_cost key.now)
            (rows_marked marks.now from (all_rows (lent segments.now))))) }
    {
        for segment in segments {
            self.add_segment(key, segment, from, marks)?;
        }
        Ok(())
    }
}
