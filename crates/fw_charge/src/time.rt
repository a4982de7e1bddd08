//! Seconds and hours, both counted from 1970.
ghost use Rattle.std.specs.Prelude.{◌≡◌};
ghost use Rattle.fw_charge.specs.Charge.{hour_of};

/// The last second that a charge period or a purchase may have: that before the year 10000.
pub const LAST_SECOND: u64 = 253_402_300_799;

/// The last hour that a charge period may end in: that before the year 10000.
pub const LAST_HOUR: u32 = 70_389_527;

/// How many seconds an hour has.
pub const SECONDS_PER_HOUR: u64 = 3600;

/// The hour in which a second lies. Hour 0 begins with 1970.
#[tactic(auto, unfolding(crate::specs::Charge::hour_of))]
pub fn hour_of(second: u64) -> u64
    ensures { result ≡ hour_of second }
{
    second / SECONDS_PER_HOUR
}
