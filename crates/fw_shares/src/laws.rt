//! What holds of all shares: two laws, each the contract of a function that does nothing.
ghost use Rattle.std.specs.Prelude.{◌≡◌, ℕ, ℤ, List};
ghost use Rattle.fw_shares.specs.Shares.{IsShares, IsSharesOf};

/// At most one list is the shares of a natural number over weights.
pub fn counts_are_one()
    ensures { (n : ℕ) (ws s t : List ℕ) → IsShares n ws s → IsShares n ws t → s ≡ t }
{}

/// At most one list is the shares of a total over weights, so [`share`](crate::share) has one answer.
pub fn shares_are_one()
    ensures { (total : ℤ) (ws s t : List ℤ) → IsSharesOf total ws s → IsSharesOf total ws t
        → s ≡ t }
{}
