//! The name of a split.
use fw_growing::{Beginning, Growing};
use fw_snapshot::{Entry, Snapshot};
use std::marker::{Brand, Model};

/// The name of a split: the list of all fronts that were published there, and the list of all entries that were posted. Both exist
/// in the proofs alone.
pub trait Naming {
    ghost use Rattle.logbook.specs.Pages.{Book};

    ghost fronts: { Book };

    ghost posts: { Book };
}

impl Naming for Brand {
    ghost fronts = { record { number = 0; log_name = 0; cells_name = 0 } };

    ghost posts = { record { number = 0; log_name = 0; cells_name = 0 } };
}

/// The two lists of a split that isn't made yet. They have nothing. Contracts see which lists they are.
#[derive(Drop)]
pub struct Opened {
    pub(crate) fronts: Growing<Snapshot>,
    pub(crate) front: Beginning<Snapshot>,
    pub(crate) posts: Growing<Entry>,
    pub(crate) post: Beginning<Entry>,
}

impl Model for Opened {
    ghost use Rattle.std.specs.Prelude.{◌≡◌, []};
    ghost use Rattle.fw_threads.specs.Fronts.{Names};

    ghost Value = { Names };

    ghost view = { λ o. record { fronts = o.fronts; posts = o.posts } };

    ghost invariant = { λ o. (o.front.list ≡ []) × (o.front.of ≡ o.fronts) × (o.post.list ≡ []) × (o.post.of ≡ o.posts) };
}

impl Opened {
    /// Two lists that have nothing yet.
    pub fn new() -> Opened {
        let (fronts, front) = Growing::new();
        let (posts, post) = Growing::new();
        Opened {
            fronts,
            front,
            posts,
            post,
        }
    }
}
