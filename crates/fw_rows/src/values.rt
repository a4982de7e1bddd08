//! What single texts of a record stand for: amounts, quantities, and texts that may be null.
ghost use Rattle.std.specs.Prelude.{◌≡◌, ℤ, Option, Ok, MatchOption, option_map, string_bytes, IfOk};
ghost use Rattle.fw_money.specs.Reading.{Reads};
ghost use Rattle.fw_rows.specs.Rules.{QuantityReads, not_null};

use fw_money::{MoneyFault, Nanos};
use std::alloc::{AllocError, Global};

/// The amount that a text reads as.
pub(crate) fn amount_of(text: &str) -> Option<Nanos>
    ensures { MatchOption result ((n : ℤ) → ¬ Reads text.now (Ok n)) (λ n. Reads text.now (Ok n)) }
{
    fw_money::parse(text.as_bytes()).ok()
}

/// The amount that a text reads as, beside another text whose amount is known: where both are the same, it isn't read again.
pub(crate) fn amount_beside(text: &str, other: &str, amount: Nanos) -> Option<Nanos>
    requires { Reads other.now (Ok amount) }
    ensures { MatchOption result ((n : ℤ) → ¬ Reads text.now (Ok n)) (λ n. Reads text.now (Ok n)) }
{
    if text == other {
        return Some(amount);
    }
    amount_of(text)
}

/// The quantity that a text reads as: null where the text is null, and where it is a number past the greatest amount.
#[tactic(auto, unfolding(crate::specs::Rules::QuantityReads))]
pub(crate) fn quantity_of(text: &str) -> Option<Option<Nanos>>
    ensures { MatchOption result ((q : Option ℤ) → ¬ QuantityReads text.now q)
        (λ q. QuantityReads text.now q) }
{
    if text.is_empty() {
        return Some(None);
    }
    match fw_money::parse(text.as_bytes()) {
        Ok(quantity) => Some(Some(quantity)),
        Err(fault) => {
            if fault == MoneyFault::Range {
                Some(None)
            } else {
                None
            }
        }
    }
}

/// A text of its own, or `None` where it is null.
#[tactic(auto, unfolding(crate::specs::Rules::not_null))]
pub(crate) fn copy_of(alloc: Global, text: &str) -> Result<Option<String>, AllocError>
    ensures { IfOk result (λ copy. option_map string_bytes copy ≡ not_null text.now) }
{
    if text.is_empty() {
        return Ok(None);
    }
    Ok(Some(String::from_str(alloc, text)?))
}
