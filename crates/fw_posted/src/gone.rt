//! Ranges of a segment's rows that were withdrawn, and not written down among its marks yet.
ghost use Rattle.std.specs.Prelude.{◌≡◌, ◌≤◌, ◌+◌, length, All};
ghost use Rattle.std.specs.List.{list_any};
ghost use Rattle.fw_posted.specs.Gone.{is_in, without_all};

use crate::marks::withdraw;
use fw_persistent::Sequence;

/// How many ranges are kept before they are written down, so that it takes little time to find whether a row is in one of them.
pub(crate) const MOST_GONE: usize = 64;

/// So many rows of a segment, from a place on.
#[derive(Clone, Copy, Drop)]
pub(crate) struct Gone {
    pub(crate) from: usize,
    pub(crate) count: usize,
}

impl Gone {
    /// Whether the row at a place is one of them.
    fn has(&self, place: usize) -> bool
        ensures { result ≡ is_in self.now place }
    {
        self.from <= place && place - self.from < self.count
    }
}

/// Whether the row at a place is in one of the ranges.
pub(crate) fn is_gone(gone: &Sequence<Gone>, place: usize) -> bool
    ensures { result ≡ list_any (λ g. is_in g place) gone.now }
{
    for at in 0..gone.len() {
        if gone.get(at).has(place) {
            return true;
        }
    }
    false
}

/// Makes the marks of the rows in all of the ranges false.
pub(crate) fn withdraw_all(marks: &mut [bool], gone: &Sequence<Gone>)
    requires { All (λ g. g.from + g.count ≤ length marks.old) gone.now }
    ensures { marks.new ≡ without_all gone.now marks.old }
{
    for at in 0..gone.len() {
        let range = gone.get(at);
        withdraw(marks, range.from, range.count);
    }
}
