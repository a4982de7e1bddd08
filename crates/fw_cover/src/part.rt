ghost use Rattle.std.specs.Prelude.{◌≡◌, ℕ, ◌*◌, ◌^◌, ◌<◌, ◌≤◌};
ghost use Rattle.fw_cover.specs.Part.{ceil_div, in_proportion, need_of, usage_part_of, spend_part_for, spend_part_of};

/// What a commitment takes of a row, in nanos: the quantity taken, and its weight, which is what it uses of the commitment's capacity.
#[derive(Clone, Copy, Debug, PartialEq, Eq)]
pub(crate) struct Part {
    pub(crate) quantity: u64,
    pub(crate) weight: u64,
}

/// A commitment to a quantity takes what the row and the commitment both have left.
pub(crate) fn usage_part(row_left: u64, capacity_left: u64) -> Part
    ensures part { result ≡ usage_part_of row_left capacity_left }
    ensures within_row { result.quantity ≤ row_left }
    ensures within_capacity { result.weight ≤ capacity_left }
    ensures nothing { result.quantity ≡ 0 → result.weight ≡ 0 }
{
    let quantity = row_left.min(capacity_left);
    Part {
        quantity,
        weight: quantity,
    }
}

/// The part of an amount for some of a whole, rounded down: all of it for the whole, and nothing for none of it, which divides nothing. Most other
/// products stay within 64 bits, and all within 128.
pub fn in_proportion(amount: u64, whole: u64, some: u64) -> u64
    requires whole { 0 < whole }
    requires some { some ≤ whole }
    ensures part { result ≡ in_proportion amount whole some }
    ensures within { result ≤ amount }
{
    if some == whole {
        return amount;
    }
    if some == 0 {
        return 0;
    }
    match amount.checked_mul(some) {
        Some(product) => product / whole,
        None => (u128::from(amount) * u128::from(some) / u128::from(whole)) as u64,
    }
}

/// What a cost needs of a capacity: the cost at the rate, in parts per million, rounded up. Most products stay within 64 bits, and the others
/// within 10^17 * 10^6.
fn need_of(cost: u64, rate: u32) -> u64
    requires cost { cost ≤ 10 ^ 17 }
    requires rate { rate ≤ 1000000 }
    ensures { result ≡ ceil_div (cost * rate) 1000000 }
{
    match cost.checked_mul(u64::from(rate)) {
        Some(product) => product.div_ceil(1_000_000),
        None => (u128::from(cost) * u128::from(rate)).div_ceil(1_000_000) as u64,
    }
}

/// A commitment to a cost takes all that is left of the row where what it needs for its cost fits in what is left of the capacity, and
/// else the part that does, which then weighs all that is left. Nothing is taken where the cost is too small to need a nano, or the part
/// too small to be one, or nothing is left of the one or the other.
pub(crate) fn spend_part(
    billed: u64,
    quantity: u64,
    rate: u32,
    row_left: u64,
    capacity_left: u64,
) -> Part
    requires billed { billed ≤ 10 ^ 17 }
    requires quantity { 0 < quantity }
    requires left { row_left ≤ quantity }
    requires rate { rate ≤ 1000000 }
    ensures part { result ≡ spend_part_of billed quantity rate row_left capacity_left }
    ensures within_row { result.quantity ≤ row_left }
    ensures within_capacity { result.weight ≤ capacity_left }
    ensures nothing { result.quantity ≡ 0 → result.weight ≡ 0 }
{
    if row_left == 0 {
        return Part {
            quantity: 0,
            weight: 0,
        };
    }
    if capacity_left == 0 {
        return Part {
            quantity: 0,
            weight: 0,
        };
    }
    let need = need_of(in_proportion(billed, quantity, row_left), rate);
    if need == 0 {
        return Part {
            quantity: 0,
            weight: 0,
        };
    }
    if need <= capacity_left {
        return Part {
            quantity: row_left,
            weight: need,
        };
    }
    let part = in_proportion(row_left, need, capacity_left);
    if part == 0 {
        return Part {
            quantity: 0,
            weight: 0,
        };
    }
    Part {
        quantity: part,
        weight: capacity_left,
    }
}
