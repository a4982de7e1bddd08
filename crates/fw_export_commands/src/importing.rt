//! The parts of exports as posts of a warehouse.
use crate::ahead::Rewritten;
use crate::messages::{Seen, explain, warn_of_shared};
use crate::others::Others;
use fw_columns::Columns;
use fw_console::{Fault, House, Member};
use fw_cut::Part;
use fw_disk::FileVolume;
use fw_export_files::{Taker, Walk, header_fault, say_header};
use fw_import::{
    ImportFault, Importer, Outcome, ReadPart, Reader, Sent, Taken, import_part,
    import_part_keeping, posts_of, read_part, read_part_keeping,
};
use fw_recover::{Store, StoreFault};
use fw_rows::{Keeper, RowFault};
use std::alloc::{AllocError, Global};
use std::process::ExitCode;

/// What an import did so far.
#[derive(Clone, Copy, Default, Drop)]
pub(crate) struct Imported {
    /// Rows that were added.
    pub(crate) added: u64,
    /// Rows that were there already.
    pub(crate) same: u64,
    /// The posts that these rows are in.
    pub(crate) posts: u64,
    /// How many times a header stood again, which was skipped.
    pub(crate) repeated: u64,
}

impl Imported {
    /// Its members in JSON.
    pub(crate) fn members(self) -> [Member; 4] {
        [
            Member::new("rowsAdded", self.added),
            Member::new("rowsThere", self.same),
            Member::new("posts", self.posts),
            Member::new("repeatedHeaders", self.repeated),
        ]
    }
}

/// An import into a warehouse, and where it stands.
pub(crate) struct Import<'a> {
    pub(crate) house: House,
    pub(crate) origin: &'a str,
    /// The number of the next post.
    pub(crate) number: u64,
    /// Rows that were added.
    pub(crate) added: u64,
    /// Rows that were there already.
    pub(crate) same: u64,
    /// How many times a header stood again in the files, once they were walked.
    pub(crate) repeated: u64,
    // what is kept of the origin from one part to the next
    importer: Importer<'a>,
    // the columns that are kept as tags, if any are
    pub(crate) keeper: Option<Keeper>,
    // the rows of other origins, until rows were found that one of these has too
    others: Option<Others>,
    // what the next part stands for, where a worker rewrote it
    rewritten: Option<Rewritten>,
}

impl<'a> Import<'a> {
    /// Nothing was imported yet.
    pub(crate) fn new(
        alloc: Global,
        house: House,
        origin: &'a str,
        keeper: Option<Keeper>,
    ) -> Import<'a> {
        Import {
            house,
            origin,
            number: 1,
            added: 0,
            same: 0,
            repeated: 0,
            importer: Importer::new(alloc, origin),
            keeper,
            others: None,
            rewritten: None,
        }
    }

    /// One who reads parts before their turn, as this import reads them.
    pub(crate) fn new_reader(&self, alloc: Global) -> Result<Reader, AllocError> {
        match &self.keeper {
            Some(keeper) => Reader::keeping(alloc, keeper.keeps()),
            None => Ok(Reader::new(alloc)),
        }
    }

    /// Takes what the next part stands for and reads as.
    pub(crate) fn give(&mut self, rewritten: Option<Rewritten>, read: ReadPart) {
        self.rewritten = rewritten;
        self.importer.give(read);
    }

    /// The one who read the part that was taken last, where it was read before its turn.
    pub(crate) fn take_reader(&mut self) -> Option<Reader> {
        self.importer.take_reader()
    }

    // The part that a part stands for; none where that is the part itself.
    fn meant(
        &mut self,
        alloc: Global,
        walk: &Walk<'_>,
        part: &Part,
    ) -> Result<Option<Part>, AllocError> {
        match self.rewritten.take() {
            Some(given) if given.part.text == part.text && given.part.header == part.header => {
                Ok(Some(given.meant))
            }
            _ => walk.meant(alloc, part),
        }
    }

    /// What was done so far.
    pub(crate) fn imported(&self) -> Imported {
        Imported {
            added: self.added,
            same: self.same,
            posts: self.number.saturating_sub(1),
            repeated: self.repeated,
        }
    }

    /// What was done by the import. The warehouse is closed.
    pub(crate) fn close(self, done: Result<ExitCode, Fault>) -> Result<ExitCode, Fault> {
        let Import {
            house,
            origin: _origin,
            number: _number,
            added: _added,
            same: _same,
            repeated: _repeated,
            importer: _importer,
            keeper: _keeper,
            others: _others,
            rewritten: _rewritten,
        } = self;
        house.close(done)
    }

    /// Looks for rows that other origins have too from here on.
    pub(crate) fn watch_others(&mut self, alloc: Global) -> Result<(), AllocError> {
        if let Some(state) = self.house.state() {
            let others = Others::of(alloc, state, self.origin)?;
            self.others = if others.are_none() {
                None
            } else {
                Some(others)
            };
        }
        Ok(())
    }

    /// The posts of the origin that the warehouse has.
    pub(crate) fn posts(&self, alloc: Global) -> Result<Vec<Sent>, AllocError> {
        match self.house.state() {
            Some(state) => posts_of(alloc, state, self.origin),
            None => Ok(Vec::new(alloc)),
        }
    }

    // Posts a part. Where there is no warehouse yet, it is made once the part is known to be right.
    fn post(&mut self, rt: &HostRuntime, part: &Part) -> Result<Result<Taken, ImportFault>, Fault> {
        if self.house.is_new() {
            if let Err(fault) = self.read(rt.alloc(), part) {
                return Ok(Err(fault));
            }
            self.house.make(rt)?;
        }
        let Some(store) = self.house.store() else {
            return Err(Fault::Store(StoreFault::NoHouse));
        };
        Ok(match &mut self.keeper {
            Some(keeper) => import_part_keeping(
                rt.alloc(),
                store,
                &mut self.importer,
                keeper,
                self.number,
                &part.text,
            ),
            None => import_part(
                rt.alloc(),
                store,
                &mut self.importer,
                self.number,
                &part.text,
            ),
        })
    }

    // Reads a part, as the next post of a warehouse that is to be made.
    fn read(&mut self, alloc: Global, part: &Part) -> Result<(), ImportFault> {
        let currency = self.house.currency();
        let (importer, number) = (&mut self.importer, self.number);
        let _ = match &mut self.keeper {
            Some(keeper) => {
                read_part_keeping(alloc, importer, keeper, currency, number, &part.text)?
            }
            None => read_part(alloc, importer, currency, number, &part.text)?,
        };
        Ok(())
    }

    // A part was taken, and counts.
    fn count(
        &mut self,
        rt: &HostRuntime,
        walk: &mut Walk<'_>,
        part: &Part,
        taken: Taken,
    ) -> Result<bool, Fault> {
        walk.took(rt, part, taken.rows);
        self.number = self.number.saturating_add(1);
        match taken.outcome {
            Outcome::Added => {
                self.added = self.added.saturating_add(taken.rows);
                self.look_for_shared(rt, walk)?;
            }
            Outcome::Same => self.same = self.same.saturating_add(taken.rows),
        }
        self.make_checkpoint(rt.alloc())?;
        Ok(true)
    }

    // Warns, once, where the rows of the last post are of an hour and a sub-account that another origin has rows of.
    fn look_for_shared(&mut self, rt: &HostRuntime, walk: &mut Walk<'_>) -> Result<(), Fault> {
        let (Some(others), Some(columns)) = (&self.others, last_post(&self.house)) else {
            return Ok(());
        };
        let Some(shared) = others.first_shared(columns) else {
            return Ok(());
        };
        walk.progress.end(rt);
        warn_of_shared(rt, walk.shown.as_str(), &shared)?;
        self.others = None;
        Ok(())
    }

    // Makes a checkpoint where the log has become long. It joins segments, so those that the importer keeps are let go of.
    fn make_checkpoint(&mut self, alloc: Global) -> Result<(), StoreFault> {
        if let Some(store) = self.house.store() {
            if is_long(store) {
                store.checkpoint(alloc)?;
                self.importer.forget_posts();
            }
        }
        Ok(())
    }

    /// Makes a checkpoint at the end, where it pays.
    pub(crate) fn end(&mut self, alloc: Global) -> Result<(), StoreFault> {
        let is_longer = self.added > 0;
        if let Some(store) = self.house.store() {
            if store.checkpoint_pays() || is_longer && pays_at_the_end(store) {
                store.checkpoint(alloc)?;
            }
        }
        Ok(())
    }
}

/// How many times as long as the body the log becomes before an import makes a checkpoint, while it goes on. Where a row takes twice as many bytes in the
/// log as in the body, the rows become three times as many from one checkpoint to the next. Then all of them together write each row about one and a half
/// times, however long the import is, and the one at its end once more.
const LOG_PER_BODY: u64 = 4;

/// How many times as long as the log the body may be for a checkpoint at the end of an import that added rows: such a log takes longer to read than the body
/// to write, so the checkpoint pays with the first question.
const BODY_PER_LOG: u64 = 4;

// Whether the log of a warehouse is so long that a checkpoint pays at the end of an import.
fn pays_at_the_end(store: &Store<FileVolume>) -> bool {
    store.body_len() <= store.log_len().saturating_mul(BODY_PER_LOG)
}

// Whether the log of a warehouse is so much longer than its body that an import makes a checkpoint while it goes on.
fn is_long(store: &Store<FileVolume>) -> bool {
    store.body_len().saturating_mul(LOG_PER_BODY) <= store.log_len()
}

impl Taker for Import<'_> {
    fn take(&mut self, rt: &HostRuntime, walk: &mut Walk<'_>, part: &Part) -> Result<bool, Fault> {
        if let Some(keeper) = &self.keeper {
            if let Some(fault) = header_fault(rt.alloc(), keeper.keeps(), part)? {
                return Ok(say_header(rt, walk, &fault));
            }
        }
        let meant = self.meant(rt.alloc(), walk, part)?;
        let read = meant.as_ref().unwrap_or(part);
        match self.post(rt, read)? {
            Ok(taken) => self.count(rt, walk, part, taken),
            // What follows the last record, as a line feed, is no post, and neither is a header that another one follows.
            Err(ImportFault::Rows(RowFault::NoRows)) if walk.record > 1 || !part.is_last => {
                Ok(true)
            }
            Err(fault) => {
                walk.progress.end(rt);
                explain(rt, self, walk, &Seen { part, read }, fault)
            }
        }
    }
}

// The rows of the segment that came last: those of the last post, until a checkpoint joins segments.
fn last_post(house: &House) -> Option<&Columns> {
    let segments = house.state()?.segments();
    let count = segments.len();
    if count == 0 {
        return None;
    }
    Some(segments.get(count - 1))
}
