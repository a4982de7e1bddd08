//! The verdict on an entry.
ghost use Rattle.std.specs.Prelude.{◌≡◌};
ghost use Rattle.fw_snapshot.specs.Verdicts.{is_accept};

/// Why what an entry brings doesn't go with what was accepted before.
#[derive(Clone, Copy, Debug, Drop, PartialEq, Eq)]
pub enum Conflict {
    /// More than 4,194,304 rows would have been posted to the warehouse.
    Full,
    /// There is a commitment of this id.
    DoubleId,
    /// A row that counts carries the id of the commitment.
    IdInUse,
    /// A row carries the id of a commitment that there is.
    OwnCommitment,
    /// The warehouse would have more than 256 commitments.
    TooManyCommitments,
    /// The sender has no post of the number that is to be withdrawn.
    NoSuchPost,
    /// The post is withdrawn already.
    Withdrawn,
    /// No commitment has the id that the purchase is added to.
    NoSuchCommitment,
    /// The commitment would have more than 64 purchases, or they would cost more than 10^17 nanos.
    PurchaseLimit,
}

/// What becomes of an entry. The number is looked at first, so an entry that is sent once more is never taken for one
/// that is refused. Only an accepted entry uses its number up.
#[derive(Clone, Copy, Debug, Drop, PartialEq, Eq)]
pub enum Verdict {
    /// The entry is the next of its origin, and goes with what was accepted before.
    Accept,
    /// The origin has had an entry of this number accepted: its last one has the number `last`. What it holds isn't compared.
    Already { last: u64 },
    /// The number isn't the next one of its origin, which would be `expected`.
    Gap { expected: u64 },
    /// The number is the next one, but what the entry brings doesn't go with what was accepted before.
    Refused(Conflict),
}

impl Verdict {
    /// Whether the entry is accepted.
    pub fn is_accept(&self) -> bool
        ensures { result ≡ is_accept self.now }
    {
        matches!(self, Verdict::Accept)
    }
}
