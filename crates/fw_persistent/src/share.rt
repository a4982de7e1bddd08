//! What can be shared between two values.
ghost use Rattle.std.specs.Prelude.{◌≡◌, IfOk};

use crate::sequence::Sequence;
use std::alloc::AllocError;

/// Values of which one can be had again without copying what they hold.
pub trait Share: Drop {
    /// The same value, which shares what it holds. The error comes only where that has as many owners as can be counted.
    fn share(&self) -> Result<Self, AllocError>
        ensures { IfOk result (λ shared. shared ≡ self.now) };
}

impl Share for u64 {
    fn share(&self) -> Result<u64, AllocError> {
        Ok(*self)
    }
}

impl<T: Drop> Share for Sequence<T> {
    fn share(&self) -> Result<Sequence<T>, AllocError> {
        self.copy()
    }
}
