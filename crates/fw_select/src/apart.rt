//! Numbers of places: equal only where all codes of the places are equal.
ghost use Rattle.std.specs.Prelude.{◌≡◌, ℕ, Some, length, slice_get, IfOk, OnOk};
ghost use Rattle.fw_select.specs.Apart.{TellApart};

use indexmap::IndexSet;
use std::alloc::{AllocError, Global};

// New numbers of places: two of them have one only where they had one before, and have one code.
pub(crate) fn told_apart(alloc: Global, old: &[u32], codes: &[u32]) -> Result<Vec<u32>, AllocError>
    requires { length codes.now ≡ length old.now }
    ensures { IfOk result (λ new. TellApart old.now codes.now new.items) }
{
    let mut pairs = IndexSet::new(alloc);
    let mut new = Vec::with_capacity(alloc, old.len())?;
    for place in 0..old.len() {
        new.push(number_of(&mut pairs, (old[place], codes[place]))?)?;
    }
    Ok(new)
}

// The number of a pair among pairs, which is behind the others where it is new.
fn number_of(pairs: &mut IndexSet<(u32, u32)>, pair: (u32, u32)) -> Result<u32, AllocError>
    ensures there { IfOk result (λ n. slice_get pairs.new.keys n ≡ Some pair) }
    ensures kept { OnOk result ((n : ℕ) (p : ℕ × ℕ) → slice_get pairs.old.keys n ≡ Some p
        → slice_get pairs.new.keys n ≡ Some p) }
{
    let (number, _is_new) = pairs.insert_full(pair)?;
    let Ok(number) = u32::try_from(number) else {
        return Err(AllocError);
    };
    Ok(number)
}
