//! What is written down of a segment not all of whose rows count.
ghost use Rattle.std.specs.Prelude.{◌≡◌, [], Bool, List, unwrap_or, IfOk};
ghost use Rattle.fw_posted.specs.Kept.{kept_left, kept_marks, kept_rows, left_of};

use fw_columns::Columns;
use std::alloc::{AllocError, Global};
use std::sync::Arc;

/// Which rows of a segment are left, and their columns, once they were made.
pub(crate) struct Left {
    // for each row of the segment whether it counts
    pub(crate) counts: Vec<bool>,
    pub(crate) made: Option<Made>,
}

impl Drop for Left {
    fn drop(self) {
        let Self { counts: _, made: _ } = self;
    }
}

/// The columns of the rows that are left.
#[derive(Drop)]
pub(crate) struct Made {
    // none where no row is left
    pub(crate) rows: Option<Columns>,
}

/// What is kept of the columns of the rows of a segment that count.
pub(crate) enum Kept<'a> {
    /// All rows count, so they are those of the segment.
    All,
    /// They were made.
    Made(&'a Made),
    /// They are not made yet.
    Unmade,
}

impl Left {
    /// The marks, in a list of their own.
    pub(crate) fn marks(&self, alloc: Global) -> Result<Vec<bool>, AllocError>
        ensures { IfOk result (λ marks. marks.items ≡ self.now.counts.items) }
    {
        let mut marks = Vec::with_capacity(alloc, self.counts.len())?;
        marks.extend_from_slice(&self.counts)?;
        Ok(marks)
    }

    /// What is kept of the columns.
    #[tactic(auto, unfolding(crate::specs::Kept::kept_left))]
    pub(crate) fn kept(&self) -> Kept<'_>
        ensures { kept_left result ≡ left_of self.now }
    {
        match &self.made {
            Some(made) => Kept::Made(made),
            None => Kept::Unmade,
        }
    }
}

impl Made {
    /// The rows that count, shared, if there are any.
    pub(crate) fn share(&self) -> Result<Option<Columns>, AllocError>
        ensures { IfOk result (λ rows. unwrap_or rows [] ≡ unwrap_or self.now.rows []) }
    {
        match &self.rows {
            Some(rows) => Ok(Some(rows.copy()?)),
            None => Ok(None),
        }
    }
}

/// The same, shared.
pub(crate) fn share_left(left: &Option<Arc<Left>>) -> Result<Option<Arc<Left>>, AllocError>
    ensures marks { IfOk result (λ same. (all : List Bool)
        → kept_marks all same ≡ kept_marks all left.now) }
    ensures rows { IfOk result (λ same. kept_rows same ≡ kept_rows left.now) }
{
    match left {
        Some(left) => Ok(Some(Arc::try_clone(left)?)),
        None => Ok(None),
    }
}
