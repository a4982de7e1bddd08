//! Which lines count, and in which group.
ghost use Rattle.std.specs.Prelude.{◌≡◌, ◌<◌, IfOk, OnOk, length, slice_set, vec_len};
ghost use Rattle.fw_select.specs.Selectors.{fails, group_on, is_taken, is_value};
ghost use Rattle.fw_select.specs.Keys.{value};
ghost use Rattle.fw_select.specs.Table.{texts_of};

use crate::key::Key;
use fw_amortise::Line;
use std::alloc::{AllocError, Global};

/// Which lines count: those on which a key has one of some values, or none of them.
#[derive(Clone, Copy, Debug)]
pub struct Filter<'v, 'k> {
    /// The key.
    pub key: Key<'k>,
    /// The values.
    pub values: &'v [&'k str],
    /// Whether the key has to have one of the values; else it has to have none of them.
    pub is_one: bool,
}

/// Which lines count, and in which group each is.
#[derive(Clone, Copy, Debug)]
pub struct Selector<'s, 'v, 'k> {
    /// The keys whose values are the group of a line, in order.
    pub keys: &'s [Key<'k>],
    /// What has to hold of a line: all of these.
    pub filters: &'s [Filter<'v, 'k>],
}

// Room for the texts of a line.
pub(crate) struct Room {
    pub(crate) text: String,
    pub(crate) group: Vec<String>,
}

impl Drop for Room {
    fn drop(self) {
        let Self { text: _, group: _ } = self;
    }
}

impl Room {
    // Room for so many keys.
    pub(crate) fn new(alloc: Global, keys: usize) -> Result<Room, AllocError>
        ensures { IfOk result (λ room. vec_len room.group ≡ keys) }
    {
        let mut group = Vec::new(alloc);
        for _key in 0..keys {
            group.push(String::new(alloc))?;
        }
        Ok(Room {
            text: String::new(alloc),
            group,
        })
    }
}

// Whether a text is one of some values.
fn is_value(values: &[&str], text: &str) -> bool
    ensures { result ≡ is_value values.now text.now }
{
    values.iter().any(|value| *value == text)
}

impl<'v, 'k> Filter<'v, 'k> {
    // Whether the filter doesn't hold of a line.
    fn fails(&self, text: &mut String, line: &Line<'_>) -> Result<bool, AllocError>
        ensures { IfOk result (λ answer. answer ≡ fails self.now line.now) }
    {
        self.key.put_value(text, line)?;
        let found = is_value(self.values, text.as_str());
        if self.is_one { Ok(!found) } else { Ok(found) }
    }
}

impl<'s, 'v, 'k> Selector<'s, 'v, 'k> {
    // Whether a line counts.
    pub(crate) fn is_taken(&self, text: &mut String, line: &Line<'_>) -> Result<bool, AllocError>
        ensures { IfOk result (λ taken. taken ≡ is_taken self.now line.now) }
    {
        for filter in self.filters {
            if filter.fails(text, line)? {
                return Ok(false);
            }
        }
        Ok(true)
    }

    // Puts the group of a line in the place of other texts.
    pub(crate) fn put_group(
        &self,
        group: &mut Vec<String>,
        line: &Line<'_>,
    ) -> Result<(), AllocError>
        requires { vec_len group.old ≡ length self.now.keys.now }
        ensures group { OnOk result (texts_of group.new ≡ group_on self.now line.now) }
        ensures len { vec_len group.new ≡ vec_len group.old }
    {
        for place in 0..self.keys.len() {
            put_at(group, place, &self.keys[place], line)?;
        }
        Ok(())
    }
}

// Puts the value of a key on a line in the place of one of some texts.
fn put_at(
    group: &mut Vec<String>,
    place: usize,
    key: &Key<'_>,
    line: &Line<'_>,
) -> Result<(), AllocError>
    requires { place < vec_len group.old }
    ensures group { OnOk result (texts_of group.new ≡ slice_set (texts_of group.old) place (value
        key.now line.now)) }
    ensures len { vec_len group.new ≡ vec_len group.old }
{
    key.put_value(&mut group[place], line)?;
    Ok(())
}
