//! What totals are asked for.
ghost use Rattle.std.specs.Prelude.{◌≡◌, ◌↔◌, IsTrue};
ghost use Rattle.fw_sums.specs.Limits.{IsRange};

/// The most hours of a range.
pub const MOST_HOURS: u64 = 26_304;

/// A tag key and a range of hours.
#[derive(Clone, Copy, Debug, PartialEq, Eq)]
pub struct Query<'a> {
    /// The tag key whose texts are the groups.
    pub key: &'a str,
    /// The first hour, counted from 1970.
    pub from_hour: u64,
    /// The hour after the last.
    pub to_hour: u64,
}

impl Query<'_> {
    /// Whether the range has an hour, and at most [`MOST_HOURS`].
    pub fn is_range(&self) -> bool
        ensures { IsTrue result ↔ IsRange self.now.from_hour self.now.to_hour }
    {
        self.from_hour < self.to_hour && self.to_hour - self.from_hour <= MOST_HOURS
    }
}
