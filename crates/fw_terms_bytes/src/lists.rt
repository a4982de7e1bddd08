//! The reader of lists behind their number of items.
ghost use Rattle.fw_bytes.specs.Reading.{Reading, Gives, times, list_at};

use fw_bytes::{ReadError, u32_at};
use std::alloc::Global;

/// What stands in a list, and how one of it is read.
pub(crate) trait Item: Drop {
    ghost item_at: { Reading Self };

    /// An item, and the bytes after it.
    fn read(alloc: Global, bytes: &[u8]) -> Result<(Self, &[u8]), ReadError>
        ensures { Gives (λ x. (x.0, x.1.now)) result (item_at bytes.now) };
}

/// So many items.
fn items_of<T: Item>(alloc: Global, count: u32, bytes: &[u8]) -> Result<(Vec<T>, &[u8]), ReadError>
    ensures { Gives (λ x. (x.0.items, x.1.now)) result (times T.item_at count bytes.now) }
{
    let mut items = Vec::new(alloc);
    let mut rest = bytes;
    for _ in 0..count {
        let (item, after) = T::read(alloc, rest)?;
        items.push(item)?;
        rest = after;
    }
    Ok((items, rest))
}

/// The items behind their number, which is `least` to `most`; another number is a fault where it stands.
#[tactic(auto, unfolding(fw_bytes::specs::Reading::list_at))]
pub(crate) fn list_of<T: Item>(
    alloc: Global,
    least: u32,
    most: u32,
    bytes: &[u8],
) -> Result<(Vec<T>, &[u8]), ReadError>
    ensures { Gives (λ x. (x.0.items, x.1.now)) result (list_at least most T.item_at bytes.now) }
{
    let (count, rest) = u32_at(bytes)?;
    if count < least || count > most {
        return Err(ReadError::Corrupt(bytes.len()));
    }
    items_of(alloc, count, rest)
}
