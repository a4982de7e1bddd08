//! The segments of the rows that count.
ghost use Rattle.std.specs.Prelude.{◌≡◌, ◌++◌, map, IfOk};

use fw_columns::Columns;
use fw_persistent::Sequence;
use std::alloc::{AllocError, Global};
use std::marker::Model;

/// The rows that count, in order, in segments of one row at least. They share their columns with the value that they were asked of.
pub struct CountingSegments {
    // the segments of which all rows count
    all: Sequence<Columns>,
    // those behind them
    some: Vec<Columns>,
}

impl Drop for CountingSegments {
    fn drop(self) {
        let Self { all: _, some: _ } = self;
    }
}

impl Model for CountingSegments {
    ghost use Rattle.std.specs.Prelude.{List};
    ghost use Rattle.fw_charge.specs.Charge.{Charge};

    ghost Value = { List (List Charge) };

    ghost use Rattle.fw_posted.specs.CountingView.{counting_value};

    ghost view = { counting_value };
}

impl CountingSegments {
    /// Segments all of whose rows count.
    pub(crate) fn of_all(alloc: Global, all: Sequence<Columns>) -> CountingSegments
        ensures { result ≡ all }
    {
        CountingSegments {
            all,
            some: Vec::new(alloc),
        }
    }

    /// What is left of segments.
    pub(crate) fn of_some(some: Vec<Columns>) -> CountingSegments
        ensures { result ≡ some.items }
    {
        CountingSegments {
            all: Sequence::new(),
            some,
        }
    }

    /// References to the segments, in order. The error comes where memory ran out.
    pub fn references(&self, alloc: Global) -> Result<Vec<&Columns>, AllocError>
        ensures { IfOk result (λ references. map (λ r. r.now) references.items ≡ self.now) }
    {
        with_more(self.all.references(alloc)?, &self.some)
    }
}

/// References to segments, and behind them those to more segments.
fn with_more<'a>(
    references: Vec<&'a Columns>,
    more: &'a [Columns],
) -> Result<Vec<&'a Columns>, AllocError>
    ensures { IfOk result (λ all. map (λ r. r.now) all.items
        ≡ map (λ r. r.now) references.entry.items ++ more.now) }
{
    let mut all = references;
    for segment in more {
        all.push(segment)?;
    }
    Ok(all)
}
