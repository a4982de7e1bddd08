//! Which rows of a segment count.
ghost use Rattle.std.specs.Prelude.{◌≡◌, ◌<◌, ◌≤◌, ◌+◌, [], false, true, length, replicate, slice_get, unwrap_or, IfOk, None, OnOk, Some};
ghost use Rattle.std.specs.Option.{option_map_or};
ghost use Rattle.fw_posted.specs.Kept.{kept_left};
ghost use Rattle.fw_posted.specs.Marks.{selected, without};
ghost use Rattle.fw_posted.specs.Parts.{IsPartOf, HasLeft};

use crate::gone::{Gone, MOST_GONE, is_gone, withdraw_all};
use crate::left::{Kept, Left, Made, share_left};
use crate::marks::{count_true, withdraw};
use fw_columns::{Columns, ColumnsBuilder};
use fw_persistent::{Sequence, Share};
use std::alloc::{AllocError, Global};
use std::marker::Model;
use std::sync::Arc;

/// What stands beside a segment.
///
/// A withdrawal adds its range to a short list, so it costs the same in a long segment as in a short one. The columns of the rows that are left are
/// made when they are asked for.
pub(crate) struct Part {
    // how many rows stand before the segment
    start: usize,
    // how many rows the segment has
    len: usize,
    // what was written down of the segment's rows, where not all of them counted then
    left: Option<Arc<Left>>,
    // what was withdrawn since
    gone: Sequence<Gone>,
}

impl Drop for Part {
    fn drop(self) {
        let Self {
            start: _,
            len: _,
            left: _,
            gone: _,
        } = self;
    }
}

impl Model for Part {
    ghost use Rattle.fw_posted.specs.Parts.{PartValue};

    ghost Value = { PartValue };

    ghost use Rattle.fw_posted.specs.PartView.{part_value, KeepsPart};

    ghost view = { part_value };

    ghost invariant = { KeepsPart };
}

impl Share for Part {
    fn share(&self) -> Result<Part, AllocError> {
        let left = share_left(&self.left)?;
        let gone = self.gone.copy()?;
        Ok(Part {
            start: self.start,
            len: self.len,
            left,
            gone,
        })
    }
}

impl Part {
    /// The part of a segment of so many rows, all of which count.
    pub(crate) fn whole(start: usize, len: usize) -> Part
        ensures { result ≡ record { start = start; marks = replicate len true; left = Some None } }
    {
        Part {
            start,
            len,
            left: None,
            gone: Sequence::new(),
        }
    }

    /// The part of a segment with these marks.
    pub(crate) fn marked(
        alloc: Global,
        start: usize,
        rows: &Columns,
        counts: &[bool],
    ) -> Result<Part, AllocError>
        requires { length counts.now ≡ length rows.now }
        ensures start { IfOk result (λ part. part.start ≡ start) }
        ensures marks { IfOk result (λ part. part.marks ≡ counts.now) }
        ensures left { IfOk result (λ part. HasLeft part rows.now) }
    {
        if count_true(counts) == counts.len() {
            return Ok(Part::whole(start, rows.len()));
        }
        let mut marks = Vec::with_capacity(alloc, counts.len())?;
        marks.extend_from_slice(counts)?;
        of_marks(alloc, start, rows, marks)
    }

    /// How many rows stand before the segment.
    pub(crate) fn start(&self) -> usize
        ensures { result ≡ self.now.start }
    {
        self.start
    }

    /// How many rows the segment has.
    pub(crate) fn len(&self) -> usize
        ensures { result ≡ length self.now.marks }
    {
        self.len
    }

    /// Whether the row at a place of the segment counts.
    pub(crate) fn counts(&self, place: usize) -> bool
        requires { place < length self.now.marks }
        ensures { slice_get self.now.marks place ≡ Some result }
    {
        let counted = match &self.left {
            None => true,
            Some(left) => left.counts[place],
        };
        counted && !is_gone(&self.gone, place)
    }

    /// Whether the columns of the rows that count are kept.
    #[tactic(auto, unfolding(crate::specs::Kept::kept_left))]
    pub(crate) fn is_settled(&self) -> bool
        ensures { result ≡ option_map_or (λ left. true) self.now.left false }
    {
        match self.kept() {
            Kept::All | Kept::Made(_) => true,
            Kept::Unmade => false,
        }
    }

    /// The columns of the rows of the segment that count, if there are any. Where they aren't kept they are made.
    pub(crate) fn counting(
        &self,
        alloc: Global,
        rows: &Columns,
    ) -> Result<Option<Columns>, AllocError>
        requires { IsPartOf self.now rows.now }
        ensures { IfOk result (λ counting. unwrap_or counting []
            ≡ selected self.now.marks rows.now) }
    {
        match self.kept() {
            Kept::All => Ok(Some(rows.copy()?)),
            Kept::Made(made) => made.share(),
            Kept::Unmade => selected_rows(alloc, rows, &self.marks(alloc)?),
        }
    }

    /// For each row of the segment whether it counts.
    pub(crate) fn marks(&self, alloc: Global) -> Result<Vec<bool>, AllocError>
        ensures { IfOk result (λ marks. marks.items ≡ self.now.marks) }
    {
        let mut marks = match &self.left {
            None => Vec::from_elem(alloc, true, self.len)?,
            Some(left) => left.marks(alloc)?,
        };
        withdraw_all(&mut marks, &self.gone);
        Ok(marks)
    }

    /// The part of the same segment, of which so many rows, from a place on, count no more.
    pub(crate) fn without(
        &self,
        alloc: Global,
        from: usize,
        count: usize,
    ) -> Result<Part, AllocError>
        requires { from + count ≤ length self.now.marks }
        ensures start { IfOk result (λ part. part.start ≡ self.now.start) }
        ensures marks { IfOk result (λ part. part.marks ≡ without from count self.now.marks) }
        ensures left { IfOk result (λ part. part.left ≡ None) }
    {
        if self.gone.len() < MOST_GONE {
            let left = share_left(&self.left)?;
            let gone = self.gone.push(alloc, Gone { from, count })?;
            return Ok(Part {
                start: self.start,
                len: self.len,
                left,
                gone,
            });
        }
        let mut counts = self.marks(alloc)?;
        withdraw(&mut counts, from, count);
        let left = Left { counts, made: None };
        Ok(Part {
            start: self.start,
            len: self.len,
            left: Some(Arc::new(alloc, left)?),
            gone: Sequence::new(),
        })
    }

    /// The same part, with the columns of the rows that count.
    pub(crate) fn settled(&self, alloc: Global, rows: &Columns) -> Result<Part, AllocError>
        requires { IsPartOf self.now rows.now }
        ensures start { IfOk result (λ part. part.start ≡ self.now.start) }
        ensures marks { IfOk result (λ part. part.marks ≡ self.now.marks) }
        ensures left { IfOk result (λ part. HasLeft part rows.now) }
    {
        let marks = self.marks(alloc)?;
        of_marks(alloc, self.start, rows, marks)
    }

    // What is kept of the columns of the rows that count.
    fn kept(&self) -> Kept<'_>
        ensures { kept_left result ≡ self.now.left }
    {
        if self.gone.len() > 0 {
            return Kept::Unmade;
        }
        match &self.left {
            None => Kept::All,
            Some(left) => left.kept(),
        }
    }
}

/// The part of a segment with these marks, which it takes.
fn of_marks(
    alloc: Global,
    start: usize,
    rows: &Columns,
    marks: Vec<bool>,
) -> Result<Part, AllocError>
    requires { length marks.items ≡ length rows.now }
    ensures start { IfOk result (λ part. part.start ≡ start) }
    ensures marks { IfOk result (λ part. part.marks ≡ marks.items) }
    ensures left { IfOk result (λ part. HasLeft part rows.now) }
{
    let made = Made {
        rows: selected_rows(alloc, rows, &marks)?,
    };
    let left = Left {
        counts: marks,
        made: Some(made),
    };
    Ok(Part {
        start,
        len: rows.len(),
        left: Some(Arc::new(alloc, left)?),
        gone: Sequence::new(),
    })
}

/// The rows whose mark is true, if there are any.
fn selected_rows(
    alloc: Global,
    rows: &Columns,
    counts: &[bool],
) -> Result<Option<Columns>, AllocError>
    requires { length counts.now ≡ length rows.now }
    ensures { IfOk result (λ left. unwrap_or left [] ≡ selected counts.now rows.now) }
{
    let mut builder = ColumnsBuilder::new(alloc);
    push_selected(&mut builder, rows, counts)?;
    if builder.len() == 0 {
        return Ok(None);
    }
    Ok(Some(builder.finish()?))
}

/// Adds the rows whose mark is true.
fn push_selected(
    builder: &mut ColumnsBuilder,
    rows: &Columns,
    counts: &[bool],
) -> Result<(), AllocError>
    requires empty { builder.old ≡ [] }
    requires marks { length counts.now ≡ length rows.now }
    ensures { OnOk result (builder.new ≡ selected counts.now rows.now) }
{
    for place in 0..rows.len() {
        if counts[place] {
            builder.push_lent(&rows.lent(place))?;
        }
    }
    Ok(())
}
