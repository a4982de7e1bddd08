//! The lines of an hour among rows of two.
use crate::ended::check;
use crate::given::{Given, HOUR, read};
use fw_amortise::{Line, LineKind, lines};
use std::alloc::{AllocError, Global};

/// A commitment to a dollar of `vm` in each hour of a day, at seven tenths of its cost.
const A_DOLLAR: &str = "id = 'cd-2'
category = 'Spend'
start = '2024-01-01T00:00Z'
hours = 24
capacity = '1'
rates = { vm = 700000 }
[[purchase]]
at = '2024-01-01T00:00Z'
billed = '24'
";

/// A row of the next hour, and one of the hour.
const ROWS: &str = "1,1,USD,Usage,,2024-01-01T01:00Z,2024-01-01T02:00Z,,,,1,Hours,vm,,
2,2,USD,Usage,,2024-01-01T00:00Z,2024-01-01T01:00Z,,,,4,Hours,vm,,
";

/// A line's kind, its costs and its quantity; the case `a-cost-used-up` has the rest of these lines.
type Shown = (LineKind, i64, i64, Option<i64>);

fn shown(line: &Line<'_>) -> Shown {
    let quantity = match line.quantity() {
        Some(quantity) => Some(quantity.count()),
        None => None,
    };
    (
        line.kind(),
        line.billed().count(),
        line.effective().count(),
        quantity,
    )
}

/// Whether these are the purchase, what the dollar covers of the row, and what is left of the row.
fn are(lines: &[Line<'_>]) -> bool {
    let [purchase, used, rest] = lines else {
        return false;
    };
    let whole = (LineKind::Purchase, 24_000_000_000, 0, None);
    let part = (LineKind::Used, 0, 1_000_000_000, Some(2_857_142_857));
    let left = (
        LineKind::Rest,
        571_428_571,
        571_428_571,
        Some(1_142_857_143),
    );
    (shown(purchase), shown(used), shown(rest)) == (whole, part, left)
}

/// Whether they are those of the hour.
fn has_lines(alloc: Global, given: &Given) -> Result<bool, AllocError> {
    Ok(are(&lines(alloc, &given.commitments, &given.rows, HOUR)?))
}

fn is_used_up(alloc: Global) -> Result<bool, AllocError> {
    let given = read(alloc, &[A_DOLLAR], ROWS)?;
    has_lines(alloc, &given)
}

#[test]
fn a_cost_used_up(rt: HostRuntime) {
    check(&rt, is_used_up(rt.alloc()));
}
