//! A text whose fields are rewritten.
ghost use Rattle.std.specs.Prelude.{◌≡◌, ◌<◌, ◌≤◌, ◌+◌, ◌-◌, ◌++◌, List, ℕ, [], length, take, drop, get_or, IfOk, OnOk};
ghost use Rattle.fw_dialect.specs.Fields.{meaning};
ghost use Rattle.fw_dialect.specs.Reading.{left_at};
ghost use Rattle.fw_dialect.specs.Records.{IsEndedHeader, records_of, records_rewritten, records_with_header};
ghost use Rattle.fw_dialect.specs.Texts.{field_for, rewritten, rewritten_under};
ghost use Rattle.fw_dialect.specs.declared.role.Role.TheVariants as role;

use crate::dialect::Dialect;
use crate::fields::{put_field, roles_in};
use crate::role::Role;
use fw_scan::{Action, Place};
use std::alloc::{AllocError, Global};

/// Where a reader stands in a text, and the field so far.
struct Reading {
    place: Place,
    /// The column of the field, counted from 0.
    column: usize,
    /// Where the bytes of the field begin.
    start: usize,
    /// Its text so far.
    text: Vec<u8>,
}

impl Drop for Reading {
    fn drop(self) {
        let Self {
            place: _,
            column: _,
            start: _,
            text: _,
        } = self;
    }
}

// What a column has.
fn role_at(roles: &[Role], column: usize) -> Role
    ensures { result ≡ get_or roles.now column role.Other }
{
    match roles.get(column) {
        Some(role) => *role,
        None => Role::Other,
    }
}

impl Reading {
    // The next field begins at a place, in a column.
    fn go_to(&mut self, start: usize, column: usize)
        ensures start { self.new.start ≡ start }
        ensures column { self.new.column ≡ column }
        ensures text { self.new.text.items ≡ [] }
        ensures place { self.new.place ≡ self.old.place }
    {
        self.start = start;
        self.column = column;
        self.text.clear();
    }

    // Adds the field that ends at a place.
    fn put(
        &self,
        alloc: Global,
        roles: &[Role],
        all: &[u8],
        end: usize,
        out: &mut Vec<u8>,
    ) -> Result<(), AllocError>
        requires from { self.now.start ≤ end }
        requires to { end ≤ length all.now }
        ensures { OnOk result (out.new.items ≡ out.old.items ++ field_for roles.now self.now.column
            (take (end - self.now.start) (drop self.now.start all.now)) self.now.text.items) }
    {
        let role = role_at(roles, self.column);
        put_field(alloc, out, role, &all[self.start..end], &self.text)
    }

    // Reads the byte at a place.
    fn read(
        &mut self,
        alloc: Global,
        roles: &[Role],
        all: &[u8],
        at: usize,
        out: &mut Vec<u8>,
    ) -> Result<(), AllocError>
        requires within { at < length all.now }
        requires from { self.old.start ≤ at }
        requires column { self.old.column ≤ at }
        ensures from { OnOk result (self.new.start ≤ at + 1) }
        ensures column { OnOk result (self.new.column ≤ at + 1) }
        ensures rest { OnOk result (left_at roles.now all.now (at + 1) self.new out.new.items
            ≡ left_at roles.now all.now at self.old out.old.items) }
    {
        let byte = all[at];
        let (place, action) = self.place.step(byte);
        self.place = place;
        match action {
            Action::EndField => {
                self.put(alloc, roles, all, at, out)?;
                out.push(byte)?;
                self.go_to(at + 1, self.column + 1);
            }
            Action::EndRecord => {
                self.put(alloc, roles, all, at, out)?;
                out.push(byte)?;
                self.go_to(at + 1, 0);
            }
            Action::Copy => self.text.push(byte)?,
            Action::Skip => {
                if !place.is_within() {
                    out.push(byte)?;
                    self.go_to(at + 1, self.column);
                }
            }
        }
        Ok(())
    }
}

// Adds the records of a text, with each field rewritten.
fn put_records(
    alloc: Global,
    roles: &[Role],
    text: &[u8],
    out: &mut Vec<u8>,
) -> Result<(), AllocError>
    ensures { OnOk result (out.new.items ≡ out.old.items ++ rewritten_under roles.now text.now) }
{
    let mut reading = Reading {
        place: Place::StartRecord,
        column: 0,
        start: 0,
        text: Vec::new(alloc),
    };
    for at in 0..text.len() {
        reading.read(alloc, roles, text, at, out)?;
    }
    reading.put(alloc, roles, text, text.len(), out)?;
    Ok(())
}

/// The text of a header and of the records behind it, with each field of these rewritten: a time and a list of tags of the dialect, in the columns of
/// FOCUS that have times and tags, are what they stand for, within quotes. All other bytes stay as they are, so records and fields are as many and in
/// the same order. A list that isn't of the dialect's form stays too, as one in which a key stands twice. A line end within a field stays in it.
///
/// Where the header is whole, so that a record begins behind it, the text reads as the records of the header, and then those of the body, each rewritten.
///
/// # Errors
/// Where memory runs out.
pub fn rewrite(
    alloc: Global,
    dialect: Dialect,
    header: &[u8],
    body: &[u8],
) -> Result<Vec<u8>, AllocError>
    ensures bytes { IfOk result (λ text. text.items ≡ rewritten dialect header.now body.now) }
    ensures records { IsEndedHeader header.now → IfOk result (λ text.
        records_with_header text.items
        ≡ records_with_header header.now
        ++ records_rewritten dialect header.now (records_of body.now)) }
{
    let roles = roles_in(alloc, dialect, header)?;
    let mut text = Vec::with_capacity(alloc, header.len().saturating_add(body.len()))?;
    text.extend_from_slice(header)?;
    put_records(alloc, &roles, body, &mut text)?;
    Ok(text)
}
