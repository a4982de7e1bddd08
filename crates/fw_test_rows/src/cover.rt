//! Worked covers.
use crate::ended::check;
use crate::given::{Given, HOUR, read};
use fw_cover::{Taken, cover, cover_hour, in_order};
use std::alloc::{AllocError, Global};

/// A commitment to 2 hours of `vm`.
const TWO_HOURS: &str = "id = 'cu'
category = 'Usage'
start = '2024-01-01T00:00Z'
hours = 1
capacity = '2'
unit = 'Hours'
skus = ['vm']
[[purchase]]
at = '1970-01-01T00:00Z'
billed = '0.000000024'
";

/// A commitment to half an hour of `vm`.
const HALF_AN_HOUR: &str = "id = 'cu'
category = 'Usage'
start = '2024-01-01T00:00Z'
hours = 1
capacity = '0.5'
unit = 'Hours'
skus = ['vm']
[[purchase]]
at = '1970-01-01T00:00Z'
billed = '0.000000024'
";

/// A commitment to a dollar of `vm`, at seven tenths of its cost.
const A_DOLLAR: &str = "id = 'cd-2'
category = 'Spend'
start = '2024-01-01T00:00Z'
hours = 1
capacity = '1'
rates = { vm = 700000 }
[[purchase]]
at = '1970-01-01T00:00Z'
billed = '0.000000024'
";

/// A commitment to ten dollars of `vm`, at its cost.
const TEN_DOLLARS: &str = "id = 'cs'
category = 'Spend'
start = '2024-01-01T00:00Z'
hours = 1
capacity = '10'
rates = { vm = 1000000 }
[[purchase]]
at = '1970-01-01T00:00Z'
billed = '0.000000024'
";

/// A row of the next hour, and two of the hour.
const THREE_ROWS: &str = "1,1,USD,Usage,,2024-01-01T01:00Z,2024-01-01T02:00Z,,,,1,Hours,vm,,
1,1,USD,Usage,,2024-01-01T00:00Z,2024-01-01T01:00Z,,,,1,Hours,vm,,
1,1,USD,Usage,,2024-01-01T00:00Z,2024-01-01T01:00Z,,,,0.5,Hours,vm,,
";

/// A use of four hours.
const FOUR_HOURS: &str = "2,2,USD,Usage,,2024-01-01T00:00Z,2024-01-01T01:00Z,,,,4,Hours,vm,,\n";

/// A use of an hour.
const ONE_HOUR: &str = "2,2,USD,Usage,,2024-01-01T00:00Z,2024-01-01T01:00Z,,,,1,Hours,vm,,\n";

/// What two hours take of the three rows.
const OF_THREE_ROWS: [Taken; 2] = [
    Taken {
        commitment: 0,
        row: 1,
        quantity: 1_000_000_000,
        weight: 1_000_000_000,
    },
    Taken {
        commitment: 0,
        row: 2,
        quantity: 500_000_000,
        weight: 500_000_000,
    },
];

/// What a dollar takes of four hours.
const OF_FOUR_HOURS: [Taken; 1] = [Taken {
    commitment: 0,
    row: 0,
    quantity: 2_857_142_857,
    weight: 1_000_000_000,
}];

/// What half an hour and then ten dollars take of an hour.
const OF_AN_HOUR: [Taken; 2] = [
    Taken {
        commitment: 1,
        row: 0,
        quantity: 500_000_000,
        weight: 500_000_000,
    },
    Taken {
        commitment: 0,
        row: 0,
        quantity: 500_000_000,
        weight: 1_000_000_000,
    },
];

/// Whether the commitments take this of the rows.
fn take(
    alloc: Global,
    texts: &[&str],
    records: &str,
    wanted: &[Taken],
) -> Result<bool, AllocError> {
    let given = read(alloc, texts, records)?;
    are_taken(alloc, &given, wanted)
}

fn are_taken(alloc: Global, given: &Given, wanted: &[Taken]) -> Result<bool, AllocError> {
    let taken = cover(alloc, &given.commitments, &given.rows, HOUR)?;
    Ok(taken.as_slice() == wanted)
}

/// Whether two hours take two rows, a dollar takes part of a row, and half an hour goes before ten dollars.
fn take_as_worked(alloc: Global) -> Result<bool, AllocError> {
    Ok(
        take(alloc, &[TWO_HOURS], THREE_ROWS, &OF_THREE_ROWS)?
            && take(alloc, &[A_DOLLAR], FOUR_HOURS, &OF_FOUR_HOURS)?
            && take(alloc, &[TEN_DOLLARS, HALF_AN_HOUR], ONE_HOUR, &OF_AN_HOUR)?,
    )
}

#[test]
fn worked_covers(rt: HostRuntime) {
    check(&rt, take_as_worked(rt.alloc()));
}

/// Whether two hours leave the row of the next hour and half an hour of their own.
fn leave(alloc: Global) -> Result<bool, AllocError> {
    let given = read(alloc, &[TWO_HOURS], THREE_ROWS)?;
    are_left(alloc, &given)
}

fn are_left(alloc: Global, given: &Given) -> Result<bool, AllocError> {
    let [first, second, third] = given.rows.as_slice() else {
        return Ok(false);
    };
    let covered = cover_hour(alloc, &given.commitments, &[first, second, third], HOUR)?;
    Ok(
        covered.row_left.as_slice() == [1_000_000_000, 0, 0].as_slice()
            && covered.unused.as_slice() == [500_000_000].as_slice(),
    )
}

#[test]
fn what_two_rows_leave(rt: HostRuntime) {
    check(&rt, leave(rt.alloc()));
}

/// Whether the second of two commitments goes first.
fn are_in_order(alloc: Global) -> Result<bool, AllocError> {
    let given = read(alloc, &[TEN_DOLLARS, HALF_AN_HOUR], ONE_HOUR)?;
    is_second_first(alloc, &given)
}

fn is_second_first(alloc: Global, given: &Given) -> Result<bool, AllocError> {
    Ok(in_order(alloc, &given.commitments)?.as_slice() == [1, 0].as_slice())
}

#[test]
fn the_order_of_two(rt: HostRuntime) {
    check(&rt, are_in_order(rt.alloc()));
}
