//! The periods of a range of hours.
ghost use Rattle.std.specs.Prelude.{◌≡◌, ◌≤◌, IfOk};
ghost use Rattle.fw_direct.specs.Parts.{ArePeriodsBy};

use fw_calendar::{Period, Step, periods};
use std::alloc::{AllocError, Global};

/// The periods of a range of hours: where there is a step, those that it is cut into, as [`periods`] has them; else the range alone. The one error is
/// that memory ran out.
pub fn periods_by(
    alloc: Global,
    step: Option<Step>,
    from: u64,
    to: u64,
) -> Result<Vec<Period>, AllocError>
    requires { from ≤ to }
    ensures { IfOk result (λ periods. ArePeriodsBy step from to periods.items) }
{
    match step {
        Some(step) => periods(alloc, step, from, to),
        None => Ok(vec![in alloc; Period { from, to }]?),
    }
}
