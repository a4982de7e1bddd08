//! The share of a difference.
ghost use Rattle.std.specs.Prelude.{◌≡◌, ◌<◌, ◌^◌, ◌∷◌, IfOk, string_bytes, unsigned_abs};
ghost use Rattle.fw_compare.specs.Shares.{IsDifferenceShare, has_minus, same_sign};

use fw_table::share_text;
use std::alloc::{AllocError, Global};

/// The share of a difference in the whole difference as people read it: in percent with one digit after the point, the nearest such, a tie away
/// from 0; with a minus where the two have other signs, unless it is `0.0%`. It is empty where the whole difference is 0: then there is no share.
/// It is empty too where 2,000 times the part and the whole together pass 128 bits, far beyond what a report can sum to.
pub fn difference_share(alloc: Global, part: i128, whole: i128) -> Result<String, AllocError>
    ensures { IfOk result (λ s. unsigned_abs part < 2 ^ 127 → unsigned_abs whole < 2 ^ 127
        → IsDifferenceShare part whole (string_bytes s)) }
{
    let (Some(part_size), Some(whole_size)) = (part.checked_abs(), whole.checked_abs()) else {
        return Ok(String::new(alloc));
    };
    let size = share_text(alloc, part_size, whole_size)?;
    if has_minus(part, whole, size.as_str()) {
        return format!(in alloc; "-{size}");
    }
    Ok(size)
}

// Whether a share has a minus, whose size is written so.
#[tactic(auto, unfolding(crate::specs::Shares::has_minus))]
fn has_minus(part: i128, whole: i128, size: &str) -> bool
    ensures { result ≡ has_minus part whole size.now }
{
    !have_same_sign(part, whole) && !size.is_empty() && size != "0.0%"
}

// Whether two differences have one sign.
fn have_same_sign(part: i128, whole: i128) -> bool
    ensures { result ≡ same_sign part whole }
{
    if part < 0 { whole < 0 } else { !(whole < 0) }
}
