//! Shares of a whole, in percent.
ghost use Rattle.std.specs.Prelude.{◌≡◌, ◌*◌, ◌+◌, ◌/◌, ◌<◌, ◌≤◌, ◌^◌, IfOk, MatchOption, string_bytes};
ghost use Rattle.fw_table.specs.Shares.{IsShare, IsShareText, share_digits};

use std::alloc::{AllocError, Global};

/// The share of a part in a whole as people read it: in percent with one digit after the point, the nearest such, a tie upwards. It is
/// empty where the whole isn't above 0, or the part is of another sign: such a share says nothing. It is empty too where 2,000 times the
/// part and the whole together pass 128 bits, far beyond what a report can sum to.
pub fn share_text(alloc: Global, part: i128, whole: i128) -> Result<String, AllocError>
    ensures { IfOk result (λ s. IsShareText part whole (string_bytes s)) }
{
    match tenths(part, whole) {
        Some(tenths) => tenths_text(alloc, tenths),
        None => Ok(String::new(alloc)),
    }
}

// Tenths of a percent, in percent.
fn tenths_text(alloc: Global, tenths: u128) -> Result<String, AllocError>
    ensures { IfOk result (λ s. string_bytes s ≡ share_digits tenths) }
{
    format!(in alloc; "{}.{}%", tenths / 10, tenths % 10)
}

// The share in tenths of a percent.
fn tenths(part: i128, whole: i128) -> Option<u128>
    ensures { IsShare part whole result }
{
    if part < 0 || whole <= 0 {
        return None;
    }
    nearest_tenths(part.unsigned_abs(), whole.unsigned_abs())
}

// The share of magnitudes in tenths of a percent.
fn nearest_tenths(part: u128, whole: u128) -> Option<u128>
    requires some { 0 < whole }
    requires small { whole < 2 ^ 127 }
    ensures { MatchOption result (2 ^ 128 ≤ 2000 * part + whole)
        (λ t. t ≡ (2000 * part + whole) / (2 * whole)) }
{
    let above = part.checked_mul(2_000)?.checked_add(whole)?;
    above.checked_div(whole.checked_mul(2)?)
}
