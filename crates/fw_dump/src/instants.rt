//! Instants of rows that follow one another.
use crate::values::push_second;
use std::alloc::{AllocError, Global};

/// The last instant that was written, and its text.
pub(crate) struct Instants {
    /// The second, if one was written.
    last: Option<u64>,
    text: Vec<u8>,
}

impl Drop for Instants {
    fn drop(self) {
        let Self { last: _, text: _ } = self;
    }
}

impl Instants {
    /// None was written.
    pub(crate) fn new(alloc: Global) -> Instants {
        Instants {
            last: None,
            text: Vec::new(alloc),
        }
    }

    /// Appends the instant of a second since 1970, as [`push_second`] does. The one that was written last is copied.
    pub(crate) fn push(&mut self, out: &mut Vec<u8>, second: u64) -> Result<(), AllocError> {
        if self.last != Some(second) {
            self.last = None;
            self.text.clear();
            push_second(&mut self.text, second)?;
            self.last = Some(second);
        }
        out.extend_from_slice(self.text.as_slice())
    }
}
