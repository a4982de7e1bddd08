//! Times on whole hours.
ghost use Rattle.std.specs.Prelude.{◌≡◌, ◌*◌, ◌^◌, ◌<◌, ℕ, nat_abs, pos, MatchOption};
ghost use Rattle.fw_script.specs.Hours.{IsHourText, hour_nanoseconds};

use jiff::Timestamp;

/// How many nanoseconds an hour has.
const HOUR_NANOSECONDS: u128 = 3_600_000_000_000;

/// The hour that begins at the instant of a text, in hours since 1970, or `None` where the text is no instant, where the
/// instant isn't on a whole hour and where it lies before 1970.
pub fn read_hour(text: &[u8]) -> Option<u64>
    ensures { MatchOption result ((hour : ℕ) → ¬ IsHourText text.now hour) (IsHourText text.now) }
{
    let Ok(text) = str::from_utf8(text) else {
        return None;
    };
    let Ok(instant) = text.parse::<Timestamp>() else {
        return None;
    };
    whole_hour(instant.as_nanosecond())
}

/// The hours that a count of nanoseconds is, or `None` where it isn't whole hours or is negative.
fn whole_hour(nanos: i128) -> Option<u64>
    requires { nat_abs nanos < 2 ^ 80 }
    ensures { MatchOption result
        ((hour : ℕ) → ¬ (nanos ≡ pos (hour * hour_nanoseconds)))
        (λ hour. nanos ≡ pos (hour * hour_nanoseconds)) }
{
    let nanos = u128::try_from(nanos).ok()?;
    (nanos % HOUR_NANOSECONDS == 0).then_some((nanos / HOUR_NANOSECONDS) as u64)
}
