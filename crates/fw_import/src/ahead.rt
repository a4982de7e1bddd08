//! What a part reads as, read before its turn.
ghost use Rattle.std.specs.Prelude.{◌≡◌, ◌↔◌, IfOk, IsTrue, None, Some, map};
ghost use Rattle.fw_import.specs.Ahead.{IsRead};

use fw_column_rows::{KnownTexts, read_columns_after, read_columns_keeping};
use fw_columns::Columns;
use fw_row_bytes::spelled;
use fw_rows::{Currency, Keep, Keeper, RowFault};
use std::alloc::{AllocError, Global};
use std::marker::Model;

/// One who reads parts before their turn, as a thread does beside whoever takes them. It keeps what it knows of texts of tags from one part to
/// the next. A contract sees which columns it keeps as tags, if it keeps any.
pub struct Reader {
    texts: KnownTexts,
    keeper: Option<Keeper>,
}

impl Drop for Reader {
    fn drop(self) {
        let Self {
            texts: _,
            keeper: _,
        } = self;
    }
}

impl Model for Reader {
    ghost use Rattle.std.specs.Prelude.{List, Option, option_map};
    ghost use Rattle.fw_rows.specs.Keeps.{KeepText};

    ghost Value = { Option (List KeepText) };

    ghost view = { λ r. option_map (λ k. k.keeps) r.keeper };
}

impl Reader {
    /// One who keeps no columns as tags. It takes no memory.
    pub fn new(alloc: Global) -> Reader
        ensures { result ≡ None }
    {
        Reader {
            texts: KnownTexts::new(alloc),
            keeper: None,
        }
    }

    /// One who keeps these columns as tags.
    pub fn keeping(alloc: Global, keeps: &[Keep]) -> Result<Reader, AllocError>
        ensures { IfOk result (λ reader. reader ≡ Some keeps.now) }
    {
        let keeps = copies_of(alloc, keeps)?;
        Ok(Reader {
            texts: KnownTexts::new(alloc),
            keeper: Some(Keeper::new(alloc, keeps)),
        })
    }

    /// Reads the text of a part, where costs are in `currency`.
    pub fn read(self, alloc: Global, text: Vec<u8>, currency: Currency) -> ReadPart
        ensures keeps { result.keeps ≡ self }
        ensures text { result.text ≡ text.items }
        ensures currency { result.currency ≡ currency }
    {
        let Reader { texts, keeper } = self;
        match keeper {
            Some(keeper) => read_keeping(alloc, texts, keeper, text, currency),
            None => read_plain(alloc, texts, text, currency),
        }
    }
}

// Reads a text of which no columns are kept.
fn read_plain(alloc: Global, texts: KnownTexts, text: Vec<u8>, currency: Currency) -> ReadPart
    ensures keeps { result.keeps ≡ None }
    ensures text { result.text ≡ text.items }
    ensures currency { result.currency ≡ currency }
{
    let mut texts = texts;
    let rows = read_columns_after(alloc, text.as_slice(), currency, &mut texts);
    let rows = rows_spelled(alloc, rows);
    ReadPart {
        reader: Reader {
            texts,
            keeper: None,
        },
        currency,
        text,
        rows,
    }
}

// Reads a text with the columns of a keeper kept as tags.
fn read_keeping(
    alloc: Global,
    texts: KnownTexts,
    keeper: Keeper,
    text: Vec<u8>,
    currency: Currency,
) -> ReadPart
    ensures keeps { result.keeps ≡ Some keeper.keeps }
    ensures text { result.text ≡ text.items }
    ensures currency { result.currency ≡ currency }
{
    let mut texts = texts;
    let mut keeper = keeper;
    let rows = read_columns_keeping(alloc, text.as_slice(), currency, &mut texts, &mut keeper);
    let rows = rows_spelled(alloc, rows);
    ReadPart {
        reader: Reader {
            texts,
            keeper: Some(keeper),
        },
        currency,
        text,
        rows,
    }
}

// The same, with the bytes that rows are written as: whoever takes the part copies them.
fn rows_spelled(alloc: Global, read: Result<Columns, RowFault>) -> Result<Columns, RowFault>
    ensures { result ≡ read }
{
    match read {
        Ok(rows) => Ok(spelled(alloc, rows)),
        Err(fault) => Err(fault),
    }
}

/// What the text of a part reads as, and who read it.
pub struct ReadPart {
    reader: Reader,
    currency: Currency,
    text: Vec<u8>,
    rows: Result<Columns, RowFault>,
}

impl Drop for ReadPart {
    fn drop(self) {
        let Self {
            reader: _,
            currency: _,
            text: _,
            rows: _,
        } = self;
    }
}

impl Model for ReadPart {
    ghost use Rattle.fw_import.specs.Ahead.{IsRead, ReadValue};

    ghost Value = { ReadValue };

    ghost view = { λ p. record { keeps = p.reader; currency = p.currency; text = p.text.items; rows = p.rows } };

    ghost invariant = { λ p. IsRead (record { keeps = p.reader; currency = p.currency; text = p.text.items; rows = p.rows }) };
}

impl ReadPart {
    // Whether it is of this text, under this currency.
    pub(crate) fn is_of(&self, text: &[u8], currency: Currency) -> bool
        ensures text { IsTrue result → self.now.text ≡ text.now }
        ensures currency { IsTrue result → self.now.currency ≡ currency }
    {
        self.currency == currency && self.text.as_slice() == text
    }

    // Whether no columns were kept as tags.
    pub(crate) fn is_plain(&self) -> bool
        ensures { IsTrue result → self.now.keeps ≡ None }
    {
        self.reader.keeper.is_none()
    }

    // Whether these columns were kept as tags.
    pub(crate) fn is_with(&self, keeps: &[Keep]) -> bool
        ensures { IsTrue result → self.now.keeps ≡ Some keeps.now }
    {
        match &self.reader.keeper {
            Some(keeper) => are_same(keeper.keeps(), keeps),
            None => false,
        }
    }

    // Who read it, and what it reads as.
    pub(crate) fn into_parts(self) -> (Reader, Result<Columns, RowFault>)
        ensures reader { result.0 ≡ self.keeps }
        ensures rows { result.1 ≡ self.rows }
    {
        let ReadPart {
            reader,
            currency: _currency,
            text: _text,
            rows,
        } = self;
        (reader, rows)
    }
}

// Whether two lists keep the same columns as the same tags, in the same order.
fn are_same(a: &[Keep], b: &[Keep]) -> bool
    ensures { IsTrue result → a.now ≡ b.now }
{
    match (a.split_first(), b.split_first()) {
        (None, None) => true,
        (Some((first, rest)), Some((other, others))) => {
            first.column() == other.column() && first.key() == other.key() && are_same(rest, others)
        }
        _ => false,
    }
}

// Copies of columns that are kept as tags.
fn copies_of(alloc: Global, keeps: &[Keep]) -> Result<Vec<Keep>, AllocError>
    ensures { IfOk result (λ copies. copies.items ≡ keeps.now) }
{
    let mut copies = Vec::new(alloc);
    for keep in keeps {
        let column = String::from_str(alloc, keep.column())?;
        let key = String::from_str(alloc, keep.key())?;
        copies.push(Keep::of_fields(column, key))?;
    }
    Ok(copies)
}
