//! Which hours a question covers, as whoever asks says it.
ghost use Rattle.std.specs.Prelude.{◌≡◌, ◌≤◌};
ghost use Rattle.fw_views.specs.AskedHours.{AreAsked};

use crate::row_span::RowHours;
use fw_calendar::{Period, Step, last_periods};
use fw_charge::LAST_HOUR;

/// Which hours a question covers. What it leaves open comes from the rows.
#[derive(Clone, Copy, Debug, Drop, PartialEq, Eq)]
pub enum AskedHours {
    /// These hours.
    Given(Period),
    /// From an hour on, or from the first one that has a row.
    Open { from: Option<u64>, to: Option<u64> },
    /// The last so many hours, days or months up to and including the one in which the last hour with a row lies: one at least.
    Last { count: u64, step: Step },
}

impl AskedHours {
    /// The hours that are covered where rows start in these hours. `None` where an end comes from the rows and there are none.
    pub fn of_rows(self, rows: Option<RowHours>) -> Option<Period>
        ensures { AreAsked self rows result }
    {
        match (self, rows) {
            (AskedHours::Given(period), _) => Some(period),
            (_, None) => None,
            (AskedHours::Open { from, to }, Some(rows)) => Some(Period {
                from: from.unwrap_or(u64::from(rows.first)),
                to: to.unwrap_or(u64::from(rows.last) + 1),
            }),
            (AskedHours::Last { count, step }, Some(rows)) => {
                let last = rows.last.min(LAST_HOUR);
                Some(last_periods(step, count.max(1), u64::from(last)))
            }
        }
    }
}
