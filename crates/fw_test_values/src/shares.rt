//! Shares whose values are worked out by hand.
use crate::ended::check;
use fw_shares::{share, share_counts};
use std::alloc::{AllocError, Global};

/// Whether the shares of 100 and of -100 over equal weights are these.
fn are_even(alloc: Global) -> Result<bool, AllocError> {
    let positive = share(alloc, 100, &[1, 1, 1])?;
    let negative = share(alloc, -100, &[1, 1, 1])?;
    Ok(
        positive.as_slice() == [34, 33, 33].as_slice()
            && negative.as_slice() == [-34, -33, -33].as_slice(),
    )
}

/// Whether those of nothing, those over a weight of nothing, and those of a count are these, too.
fn are_as_worked(alloc: Global) -> Result<bool, AllocError> {
    let none = share(alloc, 0, &[5])?;
    let second = share(alloc, 7, &[0, 1])?;
    let halves = share_counts(alloc, 3, &[1_000_000_000, 500_000_000, 500_000_000])?;
    Ok(
        are_even(alloc)?
            && none.as_slice() == [0].as_slice()
            && second.as_slice() == [0, 7].as_slice()
            && halves.as_slice() == [1, 1, 1].as_slice(),
    )
}

#[test]
fn worked_shares(rt: HostRuntime) {
    check(&rt, are_as_worked(rt.alloc()));
}
