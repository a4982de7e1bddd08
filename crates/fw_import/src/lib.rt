//! Parts of a CSV text as posts of a warehouse.
//!
//! [`import_part`] takes the rows of a part into a store as the post of an origin under a number. Where a post was accepted under this number
//! before, its rows are compared where they stand: so an import that was stopped goes on where it stopped, and no row of another file is
//! dropped unseen. An [`Importer`] is kept from one part to the next, so that an import that is run again looks at each entry and each row of
//! the warehouse once.
//!
//! [`import_part_keeping`] does the same with columns that are kept as tags.
//!
//! A [`Reader`] reads a part before its turn, as a thread does beside the import; the importer is [given](Importer::give) what it read, and takes
//! that where the part is the same.
//!
//! What an import has to know before its first post is here too: which posts an origin has ([`posts_of`]), and whether rows fit ([`fits`],
//! [`surely_fits`]).
#![tactic(auto)]

mod ahead;
mod comparing;
mod fault;
mod fitting;
mod importer;
mod importing;
mod keeping;
mod sent;

pub use ahead::{ReadPart, Reader};
pub use comparing::same_entry;
pub use fault::ImportFault;
pub use fitting::{FEWEST_ROW_BYTES, fits, surely_fits};
pub use importer::Importer;
pub use importing::{Outcome, Taken, import_part, read_part};
pub use keeping::{import_part_keeping, read_part_keeping};
pub use sent::{Sent, posts_of};
