//! Which hours and sub-accounts have rows of other origins.
use fw_columns::Columns;
use fw_snapshot::{Content, State};
use indexmap::IndexMap;
use std::alloc::{AllocError, Global};

/// The hours and sub-accounts of the rows that count and came from other origins than one.
#[derive(Drop)]
pub(crate) struct Others {
    // the names of these origins, in the order in which they came
    origins: IndexMap<String, u32>,
    // the sub-accounts, in the order in which they came; the empty text where there is none
    accounts: IndexMap<String, u32>,
    // the number of the first origin of each hour and sub-account
    pairs: IndexMap<u64, u32>,
}

/// Rows of one hour and sub-account that another origin has too.
#[derive(Drop)]
pub(crate) struct Shared<'a> {
    /// The hour, counted from 1970.
    pub(crate) hour: u32,
    /// The sub-account; the empty text where there is none.
    pub(crate) account: &'a str,
    /// The other origin.
    pub(crate) origin: &'a str,
}

// Where a walk over the segments stands.
#[derive(Drop)]
struct Place {
    // the segment
    number: usize,
    // how many rows stand before it
    before: usize,
}

impl Others {
    /// Those of a warehouse and an origin. It reads the heads of all entries, and of the rows that other origins have the hours and sub-accounts.
    pub(crate) fn of(alloc: Global, state: &State, origin: &str) -> Result<Others, AllocError> {
        let mut others = Others {
            origins: IndexMap::new(alloc),
            accounts: IndexMap::new(alloc),
            pairs: IndexMap::new(alloc),
        };
        others.add_all(alloc, state, origin)?;
        Ok(others)
    }

    /// Whether no other origin has rows.
    pub(crate) fn are_none(&self) -> bool {
        self.origins.is_empty()
    }

    // Adds the rows of all posts of other origins that count.
    fn add_all(&mut self, alloc: Global, state: &State, origin: &str) -> Result<(), AllocError> {
        let heads = state.heads();
        let mut walk = Place {
            number: 0,
            before: 0,
        };
        let mut start: usize = 0;
        for place in 0..heads.len() {
            let head = heads.get(place);
            if let Content::Post { rows } = head.content() {
                let end = start.saturating_add(*rows as usize);
                if head.origin() != origin && !state.is_withdrawn(head.origin(), head.seq()) {
                    let number = number_of(alloc, &mut self.origins, head.origin())?;
                    self.add_post(alloc, state, &mut walk, start, end, number)?;
                }
                start = end;
            }
        }
        Ok(())
    }

    // Adds the rows of a post, which stand together in one segment, between two places among all rows.
    fn add_post(
        &mut self,
        alloc: Global,
        state: &State,
        walk: &mut Place,
        start: usize,
        end: usize,
        origin: u32,
    ) -> Result<(), AllocError> {
        let segments = state.segments();
        for number in walk.number..segments.len() {
            let columns = segments.get(number);
            let behind = walk.before.saturating_add(columns.len());
            if start < behind {
                let first = start.saturating_sub(walk.before);
                let last = end.saturating_sub(walk.before);
                return self.add_rows(alloc, columns, first, last, origin);
            }
            walk.number = number.saturating_add(1);
            walk.before = behind;
        }
        Ok(())
    }

    // Adds the rows of a segment from a place up to another. Rows that follow each other are mostly of one hour and sub-account.
    fn add_rows(
        &mut self,
        alloc: Global,
        columns: &Columns,
        first: usize,
        last: usize,
        origin: u32,
    ) -> Result<(), AllocError> {
        let mut hour = u32::MAX;
        let mut account = "";
        for place in first..last.min(columns.len()) {
            let row = columns.lent(place);
            let next = row.sub_account().unwrap_or("");
            if row.hour() != hour || next != account {
                hour = row.hour();
                account = next;
                self.add_pair(alloc, hour, account, origin)?;
            }
        }
        Ok(())
    }

    // Adds an hour and a sub-account of an origin. The first origin stays.
    fn add_pair(
        &mut self,
        alloc: Global,
        hour: u32,
        account: &str,
        origin: u32,
    ) -> Result<(), AllocError> {
        let number = number_of(alloc, &mut self.accounts, account)?;
        let pair = pair_of(hour, number);
        if self.pairs.get(&pair).is_none() {
            self.pairs.insert(pair, origin)?;
        }
        Ok(())
    }

    /// The first hour and sub-account of rows that another origin has too, if there is one.
    pub(crate) fn first_shared<'a>(&'a self, columns: &'a Columns) -> Option<Shared<'a>> {
        let mut hour = u32::MAX;
        let mut account = "";
        for place in 0..columns.len() {
            let row = columns.lent(place);
            let next = row.sub_account().unwrap_or("");
            if row.hour() != hour || next != account {
                hour = row.hour();
                account = next;
                if let Some(origin) = self.origin_of(hour, account) {
                    return Some(Shared {
                        hour,
                        account,
                        origin,
                    });
                }
            }
        }
        None
    }

    // The origin that has rows of an hour and a sub-account.
    fn origin_of(&self, hour: u32, account: &str) -> Option<&str> {
        let number = self.accounts.get(account)?;
        let origin = self.pairs.get(&pair_of(hour, *number))?;
        let (name, _) = self.origins.get_index(*origin as usize)?;
        Some(name.as_str())
    }
}

// The number of a text. One that is new gets the next one.
fn number_of(
    alloc: Global,
    texts: &mut IndexMap<String, u32>,
    text: &str,
) -> Result<u32, AllocError> {
    if let Some(number) = texts.get(text) {
        return Ok(*number);
    }
    let number = u32::try_from(texts.len()).unwrap_or(u32::MAX);
    let name = String::from_str(alloc, text)?;
    texts.insert(name, number)?;
    Ok(number)
}

// An hour and the number of a sub-account as one number.
fn pair_of(hour: u32, account: u32) -> u64 {
    u64::from(hour) * 4_294_967_296 + u64::from(account)
}
