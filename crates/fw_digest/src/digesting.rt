//! The digest of all entries.
ghost use Rattle.std.specs.Prelude.{◌≡◌, IfOk, OnOk};
ghost use Rattle.fw_digest.specs.Digests.{digest_of};
ghost use Rattle.fw_entry.specs.Spelling.{entry};

use fw_entries::EntriesLeft;
use fw_entry::Entry;
use fw_entry_bytes::put_entry;
use fw_snapshot::State;
use sha2::{Digest, Sha256};
use std::alloc::{AllocError, Global};

/// The digest of a warehouse: the SHA-256 of the letters of its currency and of the bytes of its entries, in order, one
/// behind the other. Beside the warehouse it holds one entry at a time, with its bytes. The one error is that memory ran out.
pub fn digest(alloc: Global, state: &State) -> Result<[u8; 32], AllocError>
    ensures { IfOk result (λ digest. digest ≡ digest_of state.now) }
{
    let mut hasher = Sha256::new();
    hasher.update(state.currency().code());
    let mut left = EntriesLeft::of(state);
    while let Some(entry) = left.next(alloc)? {
        let bytes = bytes_of(alloc, &entry)?;
        hasher.update(bytes.as_slice());
    }
    Ok(hasher.finalize())
}

// The bytes of an entry.
fn bytes_of(alloc: Global, one: &Entry) -> Result<Vec<u8>, AllocError>
    ensures { IfOk result (λ bytes. bytes.items ≡ entry one.now) }
{
    let mut bytes = Vec::new(alloc);
    put_entry(&mut bytes, one)?;
    Ok(bytes)
}
