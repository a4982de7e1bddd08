//! Hashes of rows, by which rows that stand twice are found.
ghost use Rattle.std.specs.Prelude.{◌≡◌, ◌<◌, [], length};
ghost use Rattle.fw_check.specs.Prints.{are_like};

use fw_columns::Columns;
use std::alloc::{AllocError, Global};
use std::hash::{FoldHasher, Hasher};

/// Two hashes of the values of a row, and the number of its record. Rows with the same values have the same hashes, and rows with other values have
/// other ones, but by a chance that is not to be expected.
#[derive(Clone, Copy, Debug, Drop, PartialEq, Eq, PartialOrd, Ord)]
pub(crate) struct Print {
    pub(crate) first: u64,
    pub(crate) second: u64,
    /// The number of the record, counted from 1.
    pub(crate) number: u64,
}

impl Print {
    /// Whether it is of a row with the same values.
    pub(crate) fn is_like(&self, other: &Print) -> bool
        ensures { result ≡ are_like self.now other.now }
    {
        self.first == other.first && self.second == other.second
    }
}

/// Two hashes of the values that were seen so far.
#[derive(Clone, Copy, Drop)]
struct Hashes {
    first: u64,
    second: u64,
}

/// Odd numbers with many bits of either kind, one for each hash.
const MULTIPLIERS: (u64, u64) = (0x9E37_79B9_7F4A_7C15, 0xD6E8_FEB8_6659_FD93);

// The hash of a number behind others: the lower half of a product, its upper bits added to its lower ones by xor.
fn mixed(state: u64, number: u64, multiplier: u64) -> u64 {
    let product = (state ^ number).wrapping_mul(multiplier);
    product ^ (product >> 32)
}

impl Hashes {
    /// Nothing was seen.
    const NONE: Hashes = Hashes {
        first: 0x243F_6A88_85A3_08D3,
        second: 0x1319_8A2E_0370_7344,
    };

    // Those of a text.
    fn of_text(text: &str) -> Hashes {
        let mut state = FoldHasher::default();
        state.write(text.as_bytes());
        let first = state.finish();
        state.write_u64(text.len() as u64);
        state.write(text.as_bytes());
        Hashes {
            first,
            second: state.finish(),
        }
    }

    // With a number.
    fn with(self, number: u64) -> Hashes {
        self.with_both(Hashes {
            first: number,
            second: number,
        })
    }

    // With the hashes of a text.
    fn with_both(self, text: Hashes) -> Hashes {
        Hashes {
            first: mixed(self.first, text.first, MULTIPLIERS.0),
            second: mixed(self.second, text.second, MULTIPLIERS.1),
        }
    }
}

/// The prints of the rows that were seen, 24 bytes for each.
#[derive(Drop)]
pub(crate) struct Prints {
    pub(crate) rows: Vec<Print>,
    // the hashes of the texts of the last columns, by their places
    texts: Vec<Hashes>,
    // the hashes of their lists of tags, by their codes, as far as they were met in turn
    lists: Vec<Hashes>,
}

impl Prints {
    /// No row was seen.
    pub(crate) fn new(alloc: Global) -> Prints
        ensures { result.rows.items ≡ [] }
    {
        Prints {
            rows: Vec::new(alloc),
            texts: Vec::new(alloc),
            lists: Vec::new(alloc),
        }
    }

    /// Adds the prints of rows that stand behind so many records.
    pub(crate) fn add_all(&mut self, rows: &Columns, before: u64) -> Result<(), AllocError> {
        self.hash_texts(rows)?;
        self.lists.clear();
        for place in 0..rows.len() {
            let number = before.saturating_add(place as u64 + 1);
            let tags = self.list(rows, place)?;
            let Hashes { first, second } = self.hashes_of(rows, place, tags);
            self.rows.push(Print {
                first,
                second,
                number,
            })?;
        }
        Ok(())
    }

    // Hashes each text of columns once, however many rows have it.
    fn hash_texts(&mut self, rows: &Columns) -> Result<(), AllocError> {
        self.texts.clear();
        let names = rows.names();
        for place in 0..names.len() {
            self.texts.push(Hashes::of_text(names.text(place as u32)))?;
        }
        Ok(())
    }

    // The hashes of the text at a place.
    fn text(&self, place: u32) -> Hashes {
        self.texts
            .as_slice()
            .get(place as usize)
            .copied()
            .unwrap_or(Hashes::NONE)
    }

    // The hashes of a text that may be null: its code is 1 more than its place.
    fn text_or_null(&self, code: u32) -> Hashes {
        match code.checked_sub(1) {
            Some(place) => self.text(place),
            None => Hashes {
                first: 0,
                second: 0,
            },
        }
    }

    // The hashes of the tags of a row. Rows mostly share their lists of tags, so those of a list are kept.
    fn list(&mut self, rows: &Columns, place: usize) -> Result<Hashes, AllocError>
        requires { place < length rows.now }
    {
        let code = rows.tag_list_code(place) as usize;
        if let Some(known) = self.lists.as_slice().get(code) {
            return Ok(*known);
        }
        let mut hashes = Hashes::NONE;
        for text in rows.tag_places(place) {
            hashes = hashes.with_both(self.text(*text));
        }
        if code == self.lists.len() {
            self.lists.push(hashes)?;
        }
        Ok(hashes)
    }

    // The hashes of all values of a row, whose tags have these.
    fn hashes_of(&self, rows: &Columns, place: usize, tags: Hashes) -> Hashes
        requires { place < length rows.now }
    {
        numbers_of(rows, place)
            .with_both(self.text_or_null(rows.discounts()[place]))
            .with_both(self.text_or_null(rows.units()[place]))
            .with_both(self.text_or_null(rows.skus()[place]))
            .with_both(self.text_or_null(rows.sub_accounts()[place]))
            .with_both(tags)
    }
}

// The hashes of the numbers and codes of a row.
fn numbers_of(rows: &Columns, place: usize) -> Hashes
    requires { place < length rows.now }
{
    let codes = [
        rows.categories()[place],
        rows.classes()[place],
        rows.kinds()[place],
        rows.statuses()[place],
        u8::from(rows.has_quantity()[place]),
        0,
        0,
        0,
    ];
    Hashes::NONE
        .with(rows.billed()[place].cast_unsigned())
        .with(rows.effective()[place].cast_unsigned())
        .with(rows.starts()[place].cast_unsigned())
        .with(rows.ends()[place])
        .with(rows.quantities()[place].cast_unsigned())
        .with(u64::from_le_bytes(codes))
}
