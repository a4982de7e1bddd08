//! What each hour of a term carries of a total.
ghost use Rattle.std.specs.Prelude.{◌≡◌, ℕ, ◌<◌, ◌≤ℤ◌, pos, unsigned_abs, sum_by};
ghost use Rattle.std.specs.List.{range_with_len};
ghost use Rattle.fw_amortise.specs.Amount.{amount_of};

use fw_money::Nanos;

/// What an hour of a term of `hours` hours carries of a total of at least 0, in nanos. The first hour of the term is hour 0.
///
/// It is what is carried up to the end of the hour, rounded down, less what is carried up to its beginning, rounded down. So the hours of a
/// term together carry the total, to the last nano ([`amounts_are_the_total`]). Takes no memory.
///
/// Each product stays within 128 bits: the total is at most 10^17 nanos, which is below 2^57, and a term has fewer than 2^32 hours.
#[tactic(auto, unfolding(crate::specs::Amount::amount_of))]
pub fn hour_amount(total: Nanos, hours: u32, hour: u32) -> Nanos
    requires sign { pos 0 ≤ℤ total }
    requires within { hour < hours }
    ensures { result ≡ pos (amount_of (unsigned_abs total) hours hour) }
{
    let total = u128::from(total.count().unsigned_abs());
    let hours = u128::from(hours);
    let hour = u128::from(hour);
    let upto = total * (hour + 1) / hours;
    let before = total * hour / hours;
    Nanos::of_fields((upto - before) as i64)
}

/// The amounts of the hours of a term are the total.
pub fn amounts_are_the_total()
    ensures { (total hours : ℕ) → 0 < hours
        → sum_by (amount_of total hours) (range_with_len 0 hours) ≡ total }
{}
