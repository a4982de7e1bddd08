//! Rows that are counted straight from their columns.
ghost use Rattle.std.specs.Prelude.{◌≡◌, ◌++◌, ◌∷◌, ◌<◌, [], All, IfOk, IfSome, List, OnOk, Some, length, map, option_map, slice_get};
ghost use Rattle.fw_amortise.specs.LineView.{discount_of};
ghost use Rattle.fw_charge.specs.Charge.{Charge};
ghost use Rattle.fw_select.specs.Groups.{GroupCost};
ghost use Rattle.fw_select.specs.Rows.{IsFound, IsKnown, plain_line};
ghost use Rattle.fw_select.specs.Selectors.{costs_of};
ghost use Rattle.fw_select.specs.Table.{AreSums, KeepsGroups};
ghost use Rattle.fw_sums.specs.Hours.{rows_of_places};

use crate::known::{Found, Known};
use crate::selector::{Room, Selector};
use crate::table::Table;
use fw_amortise::{Line, LineDiscount, LineFields, LineKind};
use fw_columns::{Columns, LentRow};
use fw_row_table::amount_at;
use std::alloc::{AllocError, Global};

// Counts the rows of a segment at places as lines, of each of which commitments took nothing. What is known of the segment's rows is found first, where
// nothing is known yet.
pub(crate) fn add_rows(
    alloc: Global,
    table: &mut Table,
    room: &mut Room,
    known: &mut Option<Known>,
    selector: &Selector<'_, '_, '_>,
    segment: &Columns,
    places: &[u16],
) -> Result<(), AllocError>
    requires within { All (λ place. place < length segment.now) places.now }
    requires room { length room.old.group.items ≡ length selector.now.keys.now }
    requires known { IfSome known.old (IsKnown selector.now table.old segment.now) }
    ensures sums { OnOk result ((before : List GroupCost) → AreSums table.old before
        → AreSums table.new (before ++ costs_of selector.now (map plain_line (rows_of_places
        segment.now places.now)))) }
    ensures kept { OnOk result (KeepsGroups table.old table.new) }
    ensures known { OnOk result (IfSome known.new (IsKnown selector.now table.new segment.now)) }
    ensures room { length room.new.group.items ≡ length selector.now.keys.now }
{
    if let Some(known) = known {
        return add_known(table, room, known, selector, segment, places);
    }
    let mut found = Known::of_segment(alloc, segment, selector)?;
    add_known(table, room, &mut found, selector, segment, places)?;
    *known = Some(found);
    Ok(())
}

// Counts the rows of a segment at places, where something is known of the segment's rows.
fn add_known(
    table: &mut Table,
    room: &mut Room,
    known: &mut Known,
    selector: &Selector<'_, '_, '_>,
    segment: &Columns,
    places: &[u16],
) -> Result<(), AllocError>
    requires within { All (λ place. place < length segment.now) places.now }
    requires room { length room.old.group.items ≡ length selector.now.keys.now }
    requires known { IsKnown selector.now table.old segment.now known.old }
    ensures sums { OnOk result ((before : List GroupCost) → AreSums table.old before
        → AreSums table.new (before ++ costs_of selector.now (map plain_line (rows_of_places
        segment.now places.now)))) }
    ensures kept { OnOk result (KeepsGroups table.old table.new) }
    ensures known { OnOk result (IsKnown selector.now table.new segment.now known.new) }
    ensures room { length room.new.group.items ≡ length selector.now.keys.now }
{
    for place in places {
        add_row(table, room, known, selector, segment, usize::from(*place))?;
    }
    Ok(())
}

// Counts the rows of a segment at places as lines, and looks at the texts of each.
pub(crate) fn add_each(
    table: &mut Table,
    room: &mut Room,
    selector: &Selector<'_, '_, '_>,
    segment: &Columns,
    places: &[u16],
) -> Result<(), AllocError>
    requires within { All (λ place. place < length segment.now) places.now }
    requires room { length room.old.group.items ≡ length selector.now.keys.now }
    ensures sums { OnOk result ((before : List GroupCost) → AreSums table.old before
        → AreSums table.new (before ++ costs_of selector.now (map plain_line (rows_of_places
        segment.now places.now)))) }
    ensures kept { OnOk result (KeepsGroups table.old table.new) }
    ensures room { length room.new.group.items ≡ length selector.now.keys.now }
{
    for place in places {
        let row = segment.lent(usize::from(*place));
        add_line(table, room, selector, &plain_line(&row))?;
    }
    Ok(())
}

// Counts the row of a segment at a place. Its texts are looked at only where nothing was found of a row like it.
fn add_row(
    table: &mut Table,
    room: &mut Room,
    known: &mut Known,
    selector: &Selector<'_, '_, '_>,
    segment: &Columns,
    place: usize,
) -> Result<(), AllocError>
    requires within { place < length segment.now }
    requires room { length room.old.group.items ≡ length selector.now.keys.now }
    requires known { IsKnown selector.now table.old segment.now known.old }
    ensures sums { OnOk result ((before : List GroupCost) (row : Charge) → slice_get segment.now
        place ≡ Some row → AreSums table.old before
        → AreSums table.new (before ++ costs_of selector.now (plain_line row ∷ []))) }
    ensures kept { OnOk result (KeepsGroups table.old table.new) }
    ensures known { OnOk result (IsKnown selector.now table.new segment.now known.new) }
    ensures room { length room.new.group.items ≡ length selector.now.keys.now }
{
    match known.at(place) {
        Found::Left => Ok(()),
        Found::At(group) => {
            let billed = amount_at(segment.billed(), place);
            let effective = amount_at(segment.effective(), place);
            table.add_at(group, billed, effective)?;
            Ok(())
        }
        Found::Unknown => {
            let row = segment.lent(place);
            let found = add_line(table, room, selector, &plain_line(&row))?;
            known.note(place, found);
            Ok(())
        }
    }
}

// Counts lines, those that the selector takes.
pub(crate) fn add_lines(
    table: &mut Table,
    room: &mut Room,
    selector: &Selector<'_, '_, '_>,
    lines: &[Line<'_>],
) -> Result<(), AllocError>
    requires { length room.old.group.items ≡ length selector.now.keys.now }
    ensures sums { OnOk result ((before : List GroupCost) → AreSums table.old before
        → AreSums table.new (before ++ costs_of selector.now lines.now)) }
    ensures kept { OnOk result (KeepsGroups table.old table.new) }
    ensures room { length room.new.group.items ≡ length selector.now.keys.now }
{
    for line in lines {
        add_line(table, room, selector, line)?;
    }
    Ok(())
}

// Counts a line, where the selector takes it, and returns what was found of it.
fn add_line(
    table: &mut Table,
    room: &mut Room,
    selector: &Selector<'_, '_, '_>,
    line: &Line<'_>,
) -> Result<Found, AllocError>
    requires { length room.old.group.items ≡ length selector.now.keys.now }
    ensures sums { OnOk result ((before : List GroupCost) → AreSums table.old before
        → AreSums table.new (before ++ costs_of selector.now (line.now ∷ []))) }
    ensures kept { OnOk result (KeepsGroups table.old table.new) }
    ensures found { IfOk result (IsFound selector.now table.new line.now) }
    ensures room { length room.new.group.items ≡ length selector.now.keys.now }
{
    let taken = selector.is_taken(&mut room.text, line)?;
    if !taken {
        return Ok(Found::Left);
    }
    selector.put_group(&mut room.group, line)?;
    let place = table.add(&room.group, line.billed(), line.effective())?;
    Ok(Found::At(place))
}

// A row of which commitments took nothing, as a line.
fn plain_line<'a>(row: &LentRow<'a>) -> Line<'a>
    ensures { result ≡ plain_line row.now }
{
    Line::of_fields(LineFields {
        hour: row.hour(),
        kind: LineKind::Given,
        category: row.category(),
        commitment: discount_of_row(row),
        billed: row.billed(),
        effective: row.effective(),
        quantity: row.quantity(),
        sku: row.sku(),
        sub_account: row.sub_account(),
        tags: row.tags(),
    })
}

// The discount that a row belongs to.
fn discount_of_row<'a>(row: &LentRow<'a>) -> Option<LineDiscount<'a>>
    ensures { option_map discount_of result ≡ row.now.discount }
{
    let discount = row.discount()?;
    Some(LineDiscount {
        id: discount.id,
        kind: discount.kind,
        status: discount.status,
    })
}
