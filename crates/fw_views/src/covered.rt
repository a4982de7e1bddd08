//! How well commitments were used, as text.
ghost use Rattle.std.specs.Prelude.{IfErr};
ghost use Rattle.fw_query.specs.Refusals.{AreRefused};

use csv::{Writer, WriterBuilder};
use fw_coverage::{Coverage, coverage};
use fw_query::QueryFault;
use fw_snapshot::Snapshot;
use fw_table::{Align, Line, cents_text, share_text, table_text};
use fw_terms::Terms;
use std::alloc::{AllocError, Global};

/// The columns of a coverage's table.
const ALIGNS: [Align; 10] = [
    Align::Left,
    Align::Left,
    Align::Left,
    Align::Right,
    Align::Right,
    Align::Right,
    Align::Right,
    Align::Right,
    Align::Right,
    Align::Right,
];

/// How a coverage is written.
#[derive(Clone, Copy, Debug, Drop, PartialEq, Eq)]
pub enum CoverageFormat {
    /// Columns that line up; quantities in hundredths, and costs in cents.
    Table,
    /// Records; quantities and costs with nine digits after the point.
    Csv,
}

/// How well the commitments of a snapshot were used in the hours from `from` up to, not including, `to`, counted from 1970, as text: what of
/// each one's capacity was used, in its unit, and what that cost, in units of the currency.
///
/// # Errors
/// `Range` where the range has no hour or more than 26,304; `NoMemory` where memory ran out.
pub fn coverage_text(
    alloc: Global,
    snapshot: &Snapshot,
    from: u64,
    to: u64,
    format: CoverageFormat,
) -> Result<Vec<u8>, QueryFault>
    ensures { IfErr result (AreRefused from to) }
{
    let found = coverage(alloc, snapshot, from, to)?;
    match format {
        CoverageFormat::Csv => Ok(coverage_csv(alloc, found.as_slice())?),
        CoverageFormat::Table => Ok(coverage_table(alloc, found.as_slice())?.into_bytes()),
    }
}

// What the capacity is counted in: the unit of a commitment to a quantity; nothing for one to a cost, which is counted in the currency.
fn unit_of<'a>(coverage: &Coverage<'a>) -> &'a str {
    match coverage.commitment().terms() {
        Terms::Usage { unit, .. } => unit.as_str(),
        Terms::Spend { .. } => "",
    }
}

// A capacity as a signed number. One past 2^127 takes more hours than a range has, and is answered as out of memory.
fn signed(quantity: u128) -> Result<i128, AllocError> {
    match i128::try_from(quantity) {
        Ok(quantity) => Ok(quantity),
        Err(_) => Err(AllocError),
    }
}

// The coverage as CSV: a line of names, and a record for each commitment, with nine digits after each point.
fn coverage_csv(alloc: Global, coverage: &[Coverage<'_>]) -> Result<Vec<u8>, AllocError> {
    let mut writer = WriterBuilder::new().from_writer(Vec::new(alloc));
    let names: [&[u8]; 9] = [
        b"CommitmentDiscountId",
        b"CommitmentDiscountCategory",
        b"Unit",
        b"Capacity",
        b"Used",
        b"Unused",
        b"UsedCost",
        b"UnusedCost",
        b"BilledCost",
    ];
    write_fields(&mut writer, &names)?;
    for one in coverage {
        write_commitment(alloc, &mut writer, one)?;
    }
    match writer.into_inner() {
        Ok(text) => Ok(text),
        Err(_) => Err(AllocError),
    }
}

// Writes the record of a commitment.
fn write_commitment(
    alloc: Global,
    writer: &mut Writer<Vec<u8>>,
    coverage: &Coverage<'_>,
) -> Result<(), AllocError> {
    let commitment = coverage.commitment();
    let capacity = fw_money::text(alloc, signed(coverage.capacity())?)?;
    let used = fw_money::text(alloc, signed(coverage.used())?)?;
    let unused = fw_money::text(alloc, signed(coverage.unused())?)?;
    let used_cost = fw_money::text(alloc, coverage.used_cost())?;
    let unused_cost = fw_money::text(alloc, coverage.unused_cost())?;
    let paid = fw_money::text(alloc, coverage.paid())?;
    let amounts = Amounts::of(
        capacity.as_str(),
        used.as_str(),
        unused.as_str(),
        used_cost.as_str(),
        unused_cost.as_str(),
        paid.as_str(),
    );
    write_texts(
        writer,
        commitment.id(),
        commitment.kind().word(),
        unit_of(coverage),
        amounts,
    )
}

// The amounts of a record, as text.
#[derive(Clone, Copy, Drop)]
struct Amounts<'t> {
    capacity: &'t str,
    used: &'t str,
    unused: &'t str,
    used_cost: &'t str,
    unused_cost: &'t str,
    paid: &'t str,
}

impl<'t> Amounts<'t> {
    fn of(
        capacity: &'t str,
        used: &'t str,
        unused: &'t str,
        used_cost: &'t str,
        unused_cost: &'t str,
        paid: &'t str,
    ) -> Amounts<'t> {
        Amounts {
            capacity,
            used,
            unused,
            used_cost,
            unused_cost,
            paid,
        }
    }
}

// Writes the record of a commitment with this id, of this kind, with this unit and these amounts.
fn write_texts<'t>(
    writer: &mut Writer<Vec<u8>>,
    id: &'t str,
    kind: &'t str,
    unit: &'t str,
    amounts: Amounts<'t>,
) -> Result<(), AllocError> {
    let fields: [&'t [u8]; 9] = [
        id.as_bytes(),
        kind.as_bytes(),
        unit.as_bytes(),
        amounts.capacity.as_bytes(),
        amounts.used.as_bytes(),
        amounts.unused.as_bytes(),
        amounts.used_cost.as_bytes(),
        amounts.unused_cost.as_bytes(),
        amounts.paid.as_bytes(),
    ];
    write_fields(writer, &fields)
}

// Writes a record.
fn write_fields(writer: &mut Writer<Vec<u8>>, fields: &[&[u8]]) -> Result<(), AllocError> {
    let Ok(()) = writer.write_fields(fields) else {
        return Err(AllocError);
    };
    Ok(())
}

// The costs of a line of the table, in nanos.
#[derive(Clone, Copy, Drop)]
struct Costs {
    used: i128,
    unused: i128,
    paid: i128,
}

impl Costs {
    // Those of a commitment.
    fn of(coverage: &Coverage<'_>) -> Costs {
        Costs {
            used: coverage.used_cost(),
            unused: coverage.unused_cost(),
            paid: coverage.paid(),
        }
    }

    // With others, or `None` where a sum passes 128 bits.
    fn with(self, more: Costs) -> Option<Costs> {
        Some(Costs {
            used: self.used.checked_add(more.used)?,
            unused: self.unused.checked_add(more.unused)?,
            paid: self.paid.checked_add(more.paid)?,
        })
    }
}

// The sums of the costs, or `None` where one passes 128 bits.
fn sums_of(coverage: &[Coverage<'_>]) -> Option<Costs> {
    let mut sums = Costs {
        used: 0,
        unused: 0,
        paid: 0,
    };
    for one in coverage {
        sums = sums.with(Costs::of(one))?;
    }
    Some(sums)
}

// The coverage as a table: a line for each commitment, and a line with the sums of the costs. Where a sum passes 128 bits there is none, as out
// of memory.
fn coverage_table(alloc: Global, coverage: &[Coverage<'_>]) -> Result<String, AllocError> {
    let Some(sums) = sums_of(coverage) else {
        return Err(AllocError);
    };
    let mut lines = Vec::new(alloc);
    lines.push(head_line(alloc)?)?;
    lines.push(Line::Rule)?;
    for one in coverage {
        lines.push(commitment_line(alloc, one)?)?;
    }
    lines.push(Line::Rule)?;
    lines.push(sums_line(alloc, sums)?)?;
    table_text(alloc, &ALIGNS, lines.as_slice())
}

// The names of the columns.
fn head_line(alloc: Global) -> Result<Line, AllocError> {
    let names = [
        "Commitment",
        "Kind",
        "Unit",
        "Capacity",
        "Used",
        "Unused",
        "Share",
        "UsedCost",
        "UnusedCost",
        "BilledCost",
    ];
    let mut cells = Vec::new(alloc);
    for name in names {
        cells.push(String::from_str(alloc, name)?)?;
    }
    Ok(Line::Cells(cells))
}

// The line of a commitment, with the share of its capacity that was used.
fn commitment_line(alloc: Global, coverage: &Coverage<'_>) -> Result<Line, AllocError> {
    let commitment = coverage.commitment();
    let capacity = signed(coverage.capacity())?;
    let used = signed(coverage.used())?;
    let mut cells = Vec::new(alloc);
    cells.push(String::from_str(alloc, commitment.id())?)?;
    cells.push(String::from_str(alloc, commitment.kind().word())?)?;
    cells.push(String::from_str(alloc, unit_of(coverage))?)?;
    cells.push(cents_text(alloc, capacity)?)?;
    cells.push(cents_text(alloc, used)?)?;
    cells.push(cents_text(alloc, signed(coverage.unused())?)?)?;
    cells.push(share_text(alloc, used, capacity)?)?;
    push_costs(alloc, &mut cells, Costs::of(coverage))?;
    Ok(Line::Cells(cells))
}

// The line of the sums. Capacities of several units have none.
fn sums_line(alloc: Global, sums: Costs) -> Result<Line, AllocError> {
    let mut cells = Vec::new(alloc);
    cells.push(String::from_str(alloc, "Total")?)?;
    for _column in 0..6 {
        cells.push(String::new(alloc))?;
    }
    push_costs(alloc, &mut cells, sums)?;
    Ok(Line::Cells(cells))
}

// Adds the costs of a line, in cents.
fn push_costs(alloc: Global, cells: &mut Vec<String>, costs: Costs) -> Result<(), AllocError> {
    cells.push(cents_text(alloc, costs.used)?)?;
    cells.push(cents_text(alloc, costs.unused)?)?;
    cells.push(cents_text(alloc, costs.paid)?)?;
    Ok(())
}
