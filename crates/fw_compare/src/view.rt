//! How comparisons are written.
use crate::csv_text::csv_text;
use crate::json::json_text;
use crate::line::Line;
use crate::table::table_of;
use fw_calendar::Period;
use std::alloc::{AllocError, Global};

/// How a comparison is written.
#[derive(Clone, Copy, Debug, Drop, PartialEq, Eq)]
pub enum Form {
    /// Columns that line up, in cents.
    Table,
    /// Records, exact to the nano.
    Csv,
    /// One object, exact to the nano.
    Json,
}

/// A key, whose values are the groups.
#[derive(Clone, Copy, Debug)]
pub struct Key<'n> {
    /// The name of the tag or the column.
    pub name: &'n str,
}

/// What was asked, as it is written beside the answer.
#[derive(Clone, Copy, Debug)]
pub struct View<'k, 'n, 'c> {
    /// The keys.
    pub keys: &'k [Key<'n>],
    /// The currency of all costs.
    pub currency: &'c str,
    /// The hours before.
    pub before: Period,
    /// The hours after.
    pub after: Period,
    /// Whether the groups are charged by a policy; else ChargedCost is left out.
    pub has_charges: bool,
    /// How many groups have a line of their own; where there is none, all have.
    pub top: Option<usize>,
}

impl<'k, 'n, 'c> View<'k, 'n, 'c> {
    /// The name of the cost that the lines are ordered by.
    pub(crate) fn cost(&self) -> &'static str {
        if self.has_charges {
            "ChargedCost"
        } else {
            "EffectiveCost"
        }
    }
}

/// The name of what stands for the groups that have no line of their own.
pub(crate) const OTHERS: &str = "(others)";

/// Ranked lines in a form. The one error is that memory ran out, or that a sum of groups passes 128 bits.
pub fn written(
    alloc: Global,
    lines: &[Line<'_>],
    view: &View<'_, '_, '_>,
    form: Form,
) -> Result<Vec<u8>, AllocError> {
    match form {
        Form::Table => Ok(table_of(alloc, lines, view)?.into_bytes()),
        Form::Csv => csv_text(alloc, lines, view),
        Form::Json => Ok(json_text(alloc, lines, view)?.into_bytes()),
    }
}
