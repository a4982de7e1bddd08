//! Names and columns, made and shown.
ghost use Rattle.std.specs.Prelude.{◌≡◌, [], length};

use crate::ended::check;
use crate::given::rows;
use fw_columns::{Columns, Names};
use fw_rows::Row;
use std::alloc::{AllocError, Global};

/// An hour of use of `vm` by the team `web`.
const WEB: &str =
    r#"0.1,0.1,USD,Usage,,2024-01-01T00:00Z,2024-01-01T01:00Z,,,,1,Hours,vm,,"{""team"":""web""}"
"#;

/// Half an hour of use of `vm` by the team `data`.
const DATA: &str =
    r#"0.05,0.05,USD,Usage,,2024-01-01T00:00Z,2024-01-01T01:00Z,,,,0.5,Hours,vm,,"{""team"":""data""}"
"#;

/// A purchase that most columns are null of, with an empty tag.
const BOUGHT: &str =
    r#"-5e-9,7e-9,USD,Purchase,Correction,1970-01-01T00:00Z,1970-01-01T01:00Z,ri-9,Spend,,,,,north,"{""team"":""""}"
"#;

/// An hour of use that starts in the last minute of 01:00.
const LATER: &str =
    r#"0.1,0.1,USD,Usage,,2024-01-01T01:59Z,2024-01-01T02:59Z,,,,1,Hours,vm,,"{""team"":""web""}"
"#;

/// Half an hour of use of `disk` by the team `web`, in the same hour as `WEB` and `DATA`.
const DISK: &str =
    r#"0.1,0.1,USD,Usage,,2024-01-01T00:30Z,2024-01-01T01:00Z,,,,0.5,Hours,disk,,"{""team"":""web""}"
"#;

/// The columns of the rows of these records.
fn columns(alloc: Global, records: &str) -> Result<Box<Columns>, AllocError> {
    let rows = rows(alloc, records)?;
    boxed(alloc, &rows)
}

/// The columns of 1 to 65,536 rows.
fn boxed(alloc: Global, rows: &[Row]) -> Result<Box<Columns>, AllocError> {
    if rows.is_empty() || rows.len() > 65_536 {
        return Err(AllocError);
    }
    Ok(Box::new(alloc, Columns::from_rows(alloc, rows)?)?)
}

/// The columns of the rows of the one and then of the other.
fn joined(alloc: Global, first: &Columns, second: &Columns) -> Result<Box<Columns>, AllocError> {
    if first.len() + second.len() > 65_536 {
        return Err(AllocError);
    }
    Ok(Box::new(alloc, Columns::concat(alloc, first, second)?)?)
}

/// The columns of a row of the team `web` and one of `data`.
fn both(alloc: Global) -> Result<Box<Columns>, AllocError> {
    let web = columns(alloc, WEB)?;
    let data = columns(alloc, DATA)?;
    joined(alloc, &web, &data)
}

/// Whether the names are these texts.
fn are(names: &Names, texts: &[&str]) -> bool {
    if names.len() != texts.len() {
        return false;
    }
    for (place, text) in texts.iter().enumerate() {
        if names.text(place as u32) != *text {
            return false;
        }
    }
    true
}

/// Whether these groups have these codes: 0 has the empty text, and each other code the text of the name one place before it.
fn stand_for(names: &Names, codes: &[u32], groups: &[&str]) -> bool {
    if codes.len() != groups.len() {
        return false;
    }
    for (place, group) in groups.iter().enumerate() {
        let text = match codes[place] {
            0 => "",
            code if code as usize <= names.len() => names.text(code - 1),
            _ => return false,
        };
        if text != *group {
            return false;
        }
    }
    true
}

/// Whether these are the codes and the groups of the rows under a key.
fn have(columns: &Columns, key: &str, codes: &[u32], groups: &[&str]) -> Result<bool, AllocError> {
    let are_codes = columns.tag_codes(key)?.as_slice() == codes;
    Ok(are_codes && stand_for(columns.names(), codes, groups))
}

/// Whether the texts of a new list of names have these codes.
fn have_codes(names: &mut Names) -> Result<bool, AllocError>
    requires { names.old ≡ [] }
{
    Ok((names.code("vm")?, names.code("")?, names.code("vm")?) == (0, 1, 0))
}

fn are_numbered(alloc: Global) -> Result<bool, AllocError> {
    let mut names = Names::new(alloc);
    have_codes(&mut names)
}

#[test]
fn names_number_texts(rt: HostRuntime) {
    check(&rt, are_numbered(rt.alloc()));
}

fn has_data(alloc: Global) -> Result<bool, AllocError> {
    let data = columns(alloc, DATA)?;
    let named = are(data.names(), &["Hours", "vm", "team", "data"]);
    Ok(named && have(&data, "team", &[4], &["data"])?)
}

#[test]
fn one_team(rt: HostRuntime) {
    check(&rt, has_data(rt.alloc()));
}

/// Whether both teams have these codes and groups, and the rows have none under a tag that none of them has.
fn has_both(alloc: Global) -> Result<bool, AllocError> {
    let both = both(alloc)?;
    let named = are(both.names(), &["Hours", "vm", "team", "web", "data"]);
    Ok(
        named
            && have(&both, "team", &[4, 5], &["web", "data"])?
            && have(&both, "x", &[0, 0], &["", ""])?,
    )
}

#[test]
fn two_teams_and_a_tag_that_no_row_has(rt: HostRuntime) {
    check(&rt, has_both(rt.alloc()));
}

/// Whether the row has what no line shows of that purchase; the case `a-purchase-with-few-fields` has the rest.
fn is_bought(row: &Row) -> bool {
    row.is_correction() && row.unit().is_none() && row.tags().value("team") == Some("")
}

/// Whether the first row is that purchase.
fn starts_bought(columns: &Columns) -> Result<bool, AllocError> {
    let _some = columns.len();
    Ok(is_bought(&columns.row(0)?))
}

fn has_bought(alloc: Global) -> Result<bool, AllocError> {
    let columns = columns(alloc, BOUGHT)?;
    let named = are(columns.names(), &["ri-9", "north", "team", ""]);
    Ok(named && have(&columns, "team", &[0], &[""])? && starts_bought(&columns)?)
}

#[test]
fn nulls_and_empty_texts(rt: HostRuntime) {
    check(&rt, has_bought(rt.alloc()));
}

/// Whether these are the hours of the rows, and the places of the rows of each.
fn are_by_hour(columns: &Columns, hours: &[u32], places: &[&[u16]]) -> bool {
    if columns.hours() != hours || places.len() != hours.len() {
        return false;
    }
    for (number, wanted) in places.iter().enumerate() {
        if number >= columns.hours().len() || columns.places_in(number) != *wanted {
            return false;
        }
    }
    true
}

/// Whether rows that come by hour, and the same rows in another order, have their hours. 2024 begins 473,352 hours after 1970.
fn have_hours(alloc: Global) -> Result<bool, AllocError> {
    let in_turn = columns(
        alloc,
        format!(in alloc; "{BOUGHT}{WEB}{DATA}{LATER}")?.as_str(),
    )?;
    let mixed = columns(
        alloc,
        format!(in alloc; "{LATER}{WEB}{BOUGHT}{DATA}")?.as_str(),
    )?;
    let hours = &[0, 473_352, 473_353];
    Ok(
        are_by_hour(&in_turn, hours, &[&[0], &[1, 2], &[3]])
            && are_by_hour(&mixed, hours, &[&[2], &[1, 3], &[0]]),
    )
}

#[test]
fn rows_by_hour(rt: HostRuntime) {
    check(&rt, have_hours(rt.alloc()));
}

/// Whether the rows have so many hours, and the rows of each have SKUs with these codes.
fn are_skus(columns: &Columns, codes: &[&[u32]]) -> bool {
    if columns.hours().len() != codes.len() {
        return false;
    }
    for (number, wanted) in codes.iter().enumerate() {
        if number >= columns.hours().len() || columns.skus_in(number) != *wanted {
            return false;
        }
    }
    true
}

/// Whether the SKUs of each hour are there once, in the order of the hour's rows. Where `BOUGHT`, which has no SKU, comes first, `vm` is the sixth text and `disk` the
/// eighth; where `LATER` and then `DISK` do, they are the second and the fifth.
fn have_skus(alloc: Global) -> Result<bool, AllocError> {
    let in_turn = columns(
        alloc,
        format!(in alloc; "{BOUGHT}{WEB}{DISK}{DATA}{LATER}")?.as_str(),
    )?;
    let mixed = columns(
        alloc,
        format!(in alloc; "{LATER}{DISK}{WEB}{BOUGHT}{DATA}")?.as_str(),
    )?;
    Ok(are_skus(&in_turn, &[&[0], &[6, 8], &[6]]) && are_skus(&mixed, &[&[0], &[5, 2], &[2]]))
}

#[test]
fn skus_by_hour(rt: HostRuntime) {
    check(&rt, have_skus(rt.alloc()));
}
