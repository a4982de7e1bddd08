//! The second that an instant's text stands for.
ghost use Rattle.std.specs.Prelude.{◌≡◌, ◌≤◌, ◌+◌, ◌*◌, ◌<ℤ◌, ℕ, pos, MatchOption, IfSome};
ghost use Rattle.fw_charge.specs.Charge.{last_second};
ghost use Rattle.fw_instants.specs.Instants.{IsSecond, nanos_per_second};

use jiff::Timestamp;

/// Nanoseconds in a second.
const NANOS_PER_SECOND: u128 = 1_000_000_000;

/// The second since 1970 of an instant's text. It is `None` where the text isn't read as an instant, where the instant has a fraction
/// of a second that isn't zero, and where it lies before 1970.
pub fn second_of(text: &str) -> Option<u64>
    ensures value { MatchOption result ((s : ℕ) → ¬ IsSecond text.now s)
        (λ s. IsSecond text.now s) }
    ensures in_range { IfSome result (λ s. s ≤ last_second) }
{
    let Ok(instant) = text.parse::<Timestamp>() else {
        return None;
    };
    whole_second(instant.as_nanosecond())
}

/// The seconds of a count of nanoseconds, if it is whole and not negative.
fn whole_second(nanos: i128) -> Option<u64>
    requires { nanos <ℤ pos ((last_second + 1) * nanos_per_second) }
    ensures value { MatchOption result ((s : ℕ) → ¬ (nanos ≡ pos (s * nanos_per_second)))
        (λ s. nanos ≡ pos (s * nanos_per_second)) }
    ensures in_range { IfSome result (λ s. s ≤ last_second) }
{
    if nanos < 0 {
        return None;
    }
    let count = nanos.unsigned_abs();
    if count % NANOS_PER_SECOND != 0 {
        return None;
    }
    Some((count / NANOS_PER_SECOND) as u64)
}
