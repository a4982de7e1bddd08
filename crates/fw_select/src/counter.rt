//! Sums of lines that come piece by piece.
ghost use Rattle.std.specs.Prelude.{◌++◌, [], List, IfOk, OnOk};
ghost use Rattle.fw_select.specs.Groups.{AreTotals, GroupCost};
ghost use Rattle.fw_select.specs.Selectors.{costs_of};
ghost use Rattle.fw_select.specs.Table.{AreSums};

use crate::group::Group;
use crate::rows::add_lines;
use crate::selector::{Room, Selector};
use crate::table::Table;
use fw_amortise::Line;
use std::alloc::{AllocError, Global};

/// Sums of lines by group, as they grow line by line.
#[derive(Drop)]
pub struct Counter {
    alloc: Global,
    table: Table,
}

impl Counter {
    /// No lines.
    pub fn new(alloc: Global) -> Counter
        ensures { AreSums result.table [] }
    {
        Counter {
            alloc,
            table: Table::new(alloc),
        }
    }

    /// Counts the lines that the selector takes, each in its group. The one error is that memory ran out; some of the lines may be counted then.
    pub fn add_lines(
        &mut self,
        selector: &Selector<'_, '_, '_>,
        lines: &[Line<'_>],
    ) -> Result<(), AllocError>
        ensures { OnOk result ((before : List GroupCost) → AreSums self.old.table before
            → AreSums self.new.table (before ++ costs_of selector.now lines.now)) }
    {
        let mut room = Room::new(self.alloc, selector.keys.len())?;
        add_lines(&mut self.table, &mut room, selector, lines)?;
        Ok(())
    }

    /// The groups of the lines that were counted, in rising order, with the exact sums of both costs.
    pub fn into_groups(self) -> Result<Vec<Group>, AllocError>
        ensures { IfOk result (λ groups. (costs : List GroupCost) → AreSums self.table costs
            → AreTotals costs groups.items) }
    {
        let Counter { alloc: _, table } = self;
        table.into_groups()
    }
}
