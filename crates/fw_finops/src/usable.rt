//! What of a commitment's capacity a row could have used.
ghost use Rattle.std.specs.Prelude.{◌≡◌, ◌≤◌, ◌*◌, ◌^◌, IfSome};
ghost use Rattle.fw_cover.specs.Part.{ceil_div};
ghost use Rattle.fw_finops.specs.Usable.{usable, whole_of};

use crate::applied::applied;
use fw_amortise::quantity_of;
use fw_row_table::LentRow;
use fw_terms::Commitment;

// A cost at a rate in parts per million, rounded up. Most products stay within 64 bits.
fn at_rate(cost: u64, rate: u32) -> u64
    requires cost { cost ≤ 10 ^ 17 }
    requires rate { rate ≤ 1000000 }
    ensures value { result ≡ ceil_div (cost * rate) 1000000 }
    ensures within { result ≤ 10 ^ 17 }
{
    match cost.checked_mul(u64::from(rate)) {
        Some(product) => product.div_ceil(1_000_000),
        None => (u128::from(cost) * u128::from(rate)).div_ceil(1_000_000) as u64,
    }
}

// What the whole of a row uses of a capacity to which it counts at a rate, or by its quantity.
fn whole_of(row: &LentRow<'_>, rate: Option<u32>) -> u64
    requires { IfSome rate (λ ppm. ppm ≤ 1000000) }
    ensures value { result ≡ whole_of row.now rate }
    ensures within { result ≤ 10 ^ 17 }
{
    match rate {
        Some(rate) => at_rate(row.billed().count().unsigned_abs(), rate),
        None => quantity_of(row),
    }
}

/// What of a commitment's capacity a row of an hour could have used; nothing where the commitment doesn't apply to it.
#[tactic(auto, unfolding(crate::specs::Usable::usable))]
pub(crate) fn usable(commitment: &Commitment, row: &LentRow<'_>, hour: u32) -> u64
    ensures value { result ≡ usable hour row.now commitment.now }
    ensures within { result ≤ 10 ^ 17 }
{
    match applied(commitment, row, hour) {
        Some(rate) => whole_of(row, rate),
        None => 0,
    }
}
