//! The reader of a purchase that is added to a commitment.
ghost use Rattle.fw_bytes.specs.Reading.{Gives};
ghost use Rattle.fw_terms_bytes.specs.Reading.{added_at};

use crate::commitment::purchase_of;
use fw_bytes::ReadError;
use fw_fields::short_text_of;
use fw_terms::AddedPurchase;
use std::alloc::Global;

/// A purchase that is added to a commitment, and the bytes after it.
///
/// # Errors
/// [`ReadError::Corrupt`] at the first of its three fields that is cut off or out of its range: the id, of 1 to 256 bytes, the second, and
/// the amount, as of [`purchase_of`]. [`ReadError::NoMemory`] where there is no memory for the id: a fault of a later field isn't looked
/// for.
#[tactic(auto, unfolding(crate::specs::Reading::added_at, crate::specs::Reading::purchase_at, fw_bytes::specs::Reading::both, fw_bytes::specs::Reading::seen))]
pub fn added_of(alloc: Global, bytes: &[u8]) -> Result<(AddedPurchase, &[u8]), ReadError>
    ensures { Gives (λ x. (x.0, x.1.now)) result (added_at bytes.now) }
{
    let (id, rest) = short_text_of(alloc, bytes)?;
    let (purchase, rest) = purchase_of(rest)?;
    Ok((AddedPurchase::of_fields(id, purchase), rest))
}
