//! What is kept from one part of an import to the next.
ghost use Rattle.std.specs.Prelude.{◌≡◌, ◌↔◌, None, IfOk, IfSome, IsTrue};
ghost use Rattle.fw_import.specs.Importer.{HasPart, Knows};
ghost use Rattle.fw_replace.specs.Own.{own_value};
ghost use Rattle.fw_rows.specs.Kept.{RowsKept};
ghost use Rattle.fw_rows.specs.Rows.{RowsRead};

use crate::ahead::{ReadPart, Reader};
use fw_column_rows::{KnownTexts, read_columns_after, read_columns_keeping};
use fw_columns::Columns;
use fw_replace::OwnPosts;
use fw_rows::{Currency, Keep, Keeper, RowFault};
use fw_snapshot::State;
use std::alloc::{AllocError, Global};
use std::marker::Model;

/// What an import keeps from one part of an origin to the next: the texts of tags that were read, so that none is read twice, and the posts
/// of the origin, so that the entries of the warehouse are looked at once, however many parts are there already. It takes
/// what a part reads as from one who read it before its turn. A contract sees the origin, and its posts where they are kept.
pub struct Importer<'a> {
    origin: &'a str,
    pub(crate) texts: KnownTexts,
    // kept from the first part on that was there already, until a part is added
    posts: Option<OwnPosts>,
    // what the next part reads as, where that was given
    ahead: Option<ReadPart>,
    // who read the part that was taken last, if it was read before its turn
    reader: Option<Reader>,
}

impl Drop for Importer<'_> {
    fn drop(self) {
        let Self {
            origin: _,
            texts: _,
            posts: _,
            ahead: _,
            reader: _,
        } = self;
    }
}

impl<'a> Model for Importer<'a> {
    ghost use Rattle.fw_import.specs.Importer.{ImporterValue};

    ghost Value = { ImporterValue };

    ghost use Rattle.fw_import.specs.ImporterView.{importer_view};

    ghost view = { importer_view };
}

impl<'a> Importer<'a> {
    /// Nothing was imported from an origin yet. It takes no memory.
    pub fn new(alloc: Global, origin: &'a str) -> Importer<'a>
        ensures { result ≡ record { origin = origin.now; posts = None } }
    {
        Importer {
            origin,
            texts: KnownTexts::new(alloc),
            posts: None,
            ahead: None,
            reader: None,
        }
    }

    /// The origin.
    pub fn origin(&self) -> &str
        ensures { result.now ≡ self.now.origin }
    {
        self.origin
    }

    /// Takes what the next part reads as, from one who read it before its turn. It is of use where the next part has this text and is read in the
    /// same way; else that is read anew. So it has no effect on what a part reads as.
    pub fn give(&mut self, read: ReadPart)
        ensures { self.new ≡ self.old }
    {
        self.ahead = Some(read);
    }

    /// The one who read the part that was taken last, where it was read before its turn.
    pub fn take_reader(&mut self) -> Option<Reader>
        ensures { self.new ≡ self.old }
    {
        self.reader.take()
    }

    // What a text reads as. It was read before its turn, or is read now.
    pub(crate) fn rows_of(
        &mut self,
        alloc: Global,
        text: &[u8],
        currency: Currency,
    ) -> Result<Columns, RowFault>
        ensures rows { RowsRead currency text.now result }
        ensures same { self.new ≡ self.old }
    {
        match self.rows_ahead(text, currency) {
            Some(rows) => rows,
            None => read_columns_after(alloc, text, currency, &mut self.texts),
        }
    }

    // What a text reads as with the columns of a keeper kept as tags, likewise.
    pub(crate) fn rows_keeping(
        &mut self,
        alloc: Global,
        text: &[u8],
        currency: Currency,
        keeper: &mut Keeper,
    ) -> Result<Columns, RowFault>
        ensures rows { RowsKept currency keeper.old.keeps text.now result }
        ensures same { self.new ≡ self.old }
        ensures keeps { keeper.new.keeps ≡ keeper.old.keeps }
    {
        match self.kept_ahead(text, currency, keeper.keeps()) {
            Some(rows) => rows,
            None => read_columns_keeping(alloc, text, currency, &mut self.texts, keeper),
        }
    }

    // What a text reads as, if it was read before its turn and memory didn't run out.
    fn rows_ahead(&mut self, text: &[u8], currency: Currency) -> Option<Result<Columns, RowFault>>
        ensures rows { IfSome result (RowsRead currency text.now) }
        ensures same { self.new ≡ self.old }
    {
        let read = self.ahead.take()?;
        let is_it = read.is_of(text, currency) && read.is_plain();
        let (reader, rows) = read.into_parts();
        self.reader = Some(reader);
        if is_it { whole(rows) } else { None }
    }

    // What a text reads as with these columns kept as tags, likewise.
    fn kept_ahead(
        &mut self,
        text: &[u8],
        currency: Currency,
        keeps: &[Keep],
    ) -> Option<Result<Columns, RowFault>>
        ensures rows { IfSome result (RowsKept currency keeps.now text.now) }
        ensures same { self.new ≡ self.old }
    {
        let read = self.ahead.take()?;
        let is_it = read.is_of(text, currency) && read.is_with(keeps);
        let (reader, rows) = read.into_parts();
        self.reader = Some(reader);
        if is_it { whole(rows) } else { None }
    }

    /// Forgets the posts of the origin, and lets go of their rows: for one who changed the warehouse, or had its segments joined. The next part
    /// that is there already has them found again.
    pub fn forget_posts(&mut self)
        ensures { self.new ≡ record { origin = self.old.origin; posts = None } }
    {
        self.posts = None;
    }

    /// Whether the warehouse has a part as a post of the origin that counts. The posts are found where they aren't kept yet.
    pub(crate) fn has_part(
        &mut self,
        alloc: Global,
        state: &State,
        number: u64,
        part: &Columns,
    ) -> Result<bool, AllocError>
        ensures part { Knows self.old state.now.entries
            → IfOk result (λ has. IsTrue has
            ↔ HasPart state.now.entries self.old.origin number part.now) }
        ensures knows { Knows self.old state.now.entries → Knows self.new state.now.entries }
        ensures origin { self.new.origin ≡ self.old.origin }
    {
        let mut posts = self.take_posts(alloc, state)?;
        let has = posts.has(number, part);
        self.posts = Some(posts);
        Ok(has)
    }

    // Takes the posts that are kept, or else finds them.
    fn take_posts(&mut self, alloc: Global, state: &State) -> Result<OwnPosts, AllocError>
        ensures own { Knows self.old state.now.entries
            → IfOk result (λ own. own ≡ own_value self.old.origin state.now.entries) }
        ensures left { self.new ≡ record { origin = self.old.origin; posts = None } }
    {
        match self.posts.take() {
            Some(posts) => Ok(posts),
            None => OwnPosts::of(alloc, state, self.origin),
        }
    }
}

// What was read, unless memory ran out.
fn whole(read: Result<Columns, RowFault>) -> Option<Result<Columns, RowFault>>
    ensures { IfSome result (λ rows. rows ≡ read) }
{
    match read {
        Err(RowFault::NoMemory) => None,
        rows => Some(rows),
    }
}
