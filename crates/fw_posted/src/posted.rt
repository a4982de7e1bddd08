//! The rows that a warehouse was ever sent.
ghost use Rattle.std.specs.Prelude.{◌≡◌, ◌<◌, ◌≤◌, ◌+◌, ◌++◌, ◌∷◌, [], List, true, length, take, drop, replicate, slice_get, IfOk, Some};
ghost use Rattle.fw_charge.specs.Charge.{Charge};
ghost use Rattle.fw_posted.specs.Marks.{selected, without};
ghost use Rattle.fw_posted.specs.Merging.{merged};
ghost use Rattle.fw_posted.specs.Rows.{rows_before_segment, segment_rows};

use crate::counting::CountingSegments;
use crate::finding::segment_of;
use crate::making::{marked_parts, whole_parts};
use crate::marks::count_true;
use crate::merging::merged_segments;
use crate::part::Part;
use crate::reading::{counting_rows, marks_of};
use crate::settling::settled_parts;
use crate::withdrawing::parts_without;
use fw_columns::Columns;
use fw_persistent::Sequence;
use std::alloc::{AllocError, Global};
use std::marker::Model;

/// The rows that a warehouse was ever sent, in segments, and which of them count.
///
/// It is never changed: a post or a withdrawal makes another, which shares what stays. Every error says that memory ran out, that what is shared has
/// as many owners as can be counted, or that there are more rows than can be; the old value stays as it was.
pub struct PostedRows {
    segments: Sequence<Columns>,
    // one for each segment
    parts: Sequence<Part>,
    // how many rows there are
    rows: usize,
    // how many of them count
    counting: usize,
    // whether there is nothing to make for the rows that count. Only time depends on it
    is_settled: bool,
}

impl Drop for PostedRows {
    fn drop(self) {
        let Self {
            segments: _,
            parts: _,
            rows: _,
            counting: _,
            is_settled: _,
        } = self;
    }
}

impl Model for PostedRows {
    ghost use Rattle.fw_posted.specs.Posted.{PostedValue};

    ghost Value = { PostedValue };

    ghost use Rattle.fw_posted.specs.PostedView.{posted_value, KeepsPosted};

    ghost view = { posted_value };

    ghost invariant = { KeepsPosted };
}

impl PostedRows {
    /// No rows. It takes no memory.
    pub fn new() -> PostedRows
        ensures { result ≡ record { segments = []; counts = [] } }
    {
        PostedRows {
            segments: Sequence::new(),
            parts: Sequence::new(),
            rows: 0,
            counting: 0,
            is_settled: true,
        }
    }

    /// The rows of these segments, all of which count.
    pub fn all_of(alloc: Global, segments: Sequence<Columns>) -> Result<PostedRows, AllocError>
        ensures { IfOk result (λ posted. posted
            ≡ record {
              segments = segments;
              counts = replicate
                  (length (segment_rows segments)) true;
            }) }
    {
        let (parts, rows) = whole_parts(alloc, &segments)?;
        Ok(PostedRows {
            segments,
            parts,
            rows,
            counting: rows,
            is_settled: true,
        })
    }

    /// The rows of these segments, of which those count whose mark is true.
    pub fn marked(
        alloc: Global,
        segments: Sequence<Columns>,
        counts: &[bool],
    ) -> Result<PostedRows, AllocError>
        requires { length counts.now ≡ length (segment_rows segments) }
        ensures { IfOk result (λ posted. posted
            ≡ record { segments = segments; counts = counts.now }) }
    {
        let parts = marked_parts(alloc, &segments, counts)?;
        Ok(PostedRows {
            segments,
            parts,
            rows: counts.len(),
            counting: count_true(counts),
            is_settled: true,
        })
    }

    /// One segment more behind the others, all of whose rows count. Its columns are shared.
    pub fn push(&self, alloc: Global, rows: &Columns) -> Result<PostedRows, AllocError>
        ensures { IfOk result (λ posted. posted
            ≡ record {
              segments = self.now.segments ++ rows.now ∷ [];
              counts = self.now.counts
                  ++ replicate (length rows.now) true;
            }) }
    {
        let len = rows.len();
        let Some(all) = self.rows.checked_add(len) else {
            return Err(AllocError);
        };
        let parts = self.parts.push(alloc, Part::whole(self.rows, len))?;
        let segments = self.segments.push(alloc, rows.copy()?)?;
        Ok(PostedRows {
            segments,
            parts,
            rows: all,
            counting: self.counting + len,
            is_settled: self.is_settled,
        })
    }

    /// The same rows, of which so many, from a place among all rows on, count no more. Each of them counted. The segments stay as they are. It
    /// costs the number of segments that it meets, and not their rows.
    pub fn without(
        &self,
        alloc: Global,
        start: usize,
        count: usize,
    ) -> Result<PostedRows, AllocError>
        requires some { 0 < count }
        requires inside { start + count ≤ length self.now.counts }
        requires counted { take count (drop start self.now.counts) ≡ replicate count true }
        ensures { IfOk result (λ posted. posted
            ≡ record {
              segments = self.now.segments;
              counts = without start count self.now.counts;
            }) }
    {
        let rows = self.len();
        let parts = parts_without(alloc, &self.segments, &self.parts, start, count)?;
        let segments = self.segments.copy()?;
        Ok(PostedRows {
            segments,
            parts,
            rows,
            counting: self.counting - count,
            is_settled: false,
        })
    }

    /// The same rows, whose segments are joined from the front: each with the next one as long as they have at most 65,536 rows together. It costs
    /// what the rows of the segments cost that are joined; the others are shared. Where rows were withdrawn, it costs what all rows cost.
    pub fn merged(&self, alloc: Global) -> Result<PostedRows, AllocError>
        ensures { IfOk result (λ posted. posted
            ≡ record { segments = merged self.now.segments; counts = self.now.counts }) }
    {
        let segments = merged_segments(alloc, &self.segments)?;
        if self.counting == self.rows {
            return PostedRows::all_of(alloc, segments);
        }
        let counts = self.marks(alloc)?;
        PostedRows::marked(alloc, segments, &counts)
    }

    /// The same rows, which share everything. It takes no memory.
    pub fn copy(&self) -> Result<PostedRows, AllocError>
        ensures { IfOk result (λ copy. copy ≡ self.now) }
    {
        let segments = self.segments.copy()?;
        let parts = self.parts.copy()?;
        Ok(PostedRows {
            segments,
            parts,
            rows: self.rows,
            counting: self.counting,
            is_settled: self.is_settled,
        })
    }

    /// The same rows. The columns of what is left of segments that have a withdrawn row are made where they aren't kept, and are kept from then on.
    /// It costs the rows of the segments in which rows were withdrawn since the last time; where there are none it takes no memory.
    pub fn settled(&self, alloc: Global) -> Result<PostedRows, AllocError>
        ensures { IfOk result (λ settled. settled ≡ self.now) }
    {
        if self.is_settled {
            return self.copy();
        }
        let parts = settled_parts(alloc, &self.segments, &self.parts)?;
        let segments = self.segments.copy()?;
        Ok(PostedRows {
            segments,
            parts,
            rows: self.rows,
            counting: self.counting,
            is_settled: true,
        })
    }

    /// The segments, as they were posted or merged, each with one row at least.
    pub fn segments(&self) -> &Sequence<Columns>
        ensures segments { result.now ≡ self.now.segments }
        ensures marks { length self.now.counts ≡ length (segment_rows self.now.segments) }
        ensures few { length self.now.segments ≤ length (segment_rows self.now.segments) }
    {
        &self.segments
    }

    /// How many rows were ever posted.
    pub fn len(&self) -> usize
        ensures rows { result ≡ length (segment_rows self.now.segments) }
        ensures marks { result ≡ length self.now.counts }
    {
        self.rows
    }

    /// How many rows count.
    pub fn counting_len(&self) -> usize
        ensures count { result ≡ length (selected self.now.counts
            (segment_rows self.now.segments)) }
        ensures few { result ≤ length (segment_rows self.now.segments) }
    {
        self.counting
    }

    /// Whether a row counts.
    pub fn counts(&self, place: usize) -> bool
        requires { place < length self.now.counts }
        ensures { slice_get self.now.counts place ≡ Some result }
    {
        let segment = segment_of(&self.segments, &self.parts, place);
        let part = self.parts.get(segment);
        part.counts(place - part.start())
    }

    /// For each row, in order, whether it counts.
    pub fn marks(&self, alloc: Global) -> Result<Vec<bool>, AllocError>
        ensures { IfOk result (λ marks. marks.items ≡ self.now.counts) }
    {
        let marks = marks_of(alloc, &self.parts)?;
        Ok(marks)
    }

    /// The segment that has a row, and the row's place in it, both counted from 0.
    pub fn find(&self, row: usize) -> (usize, usize)
        requires { row < length (segment_rows self.now.segments) }
        ensures segment { result.0 < length self.now.segments }
        ensures row { rows_before_segment self.now.segments result.0 + result.1 ≡ row }
        ensures inside { (rows : List Charge) → slice_get self.now.segments result.0 ≡ Some rows
            → result.1 < length rows }
    {
        let segment = segment_of(&self.segments, &self.parts, row);
        (segment, row - self.parts.get(segment).start())
    }

    /// The rows that count, in order: the columns of each segment that has some. Where all rows of a segment count, they are the segment's own. What
    /// was withdrawn since the rows were settled costs the rows of its segments, each time.
    pub fn counting(&self, alloc: Global) -> Result<CountingSegments, AllocError>
        ensures rows { IfOk result (λ counting. segment_rows counting
            ≡ selected self.now.counts (segment_rows self.now.segments)) }
        ensures few { IfOk result (λ counting. length counting ≤ length self.now.segments) }
    {
        if self.counting == self.rows {
            return Ok(CountingSegments::of_all(alloc, self.segments.copy()?));
        }
        let counting = counting_rows(alloc, &self.segments, &self.parts)?;
        Ok(CountingSegments::of_some(counting))
    }
}
