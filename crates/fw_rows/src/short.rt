//! The records of a short text.
//!
//! A reader of long texts first makes a table of what each byte does in each state, which costs as
//! much as some thousand bytes of text do. Here each byte is looked at by itself.
ghost use Rattle.std.specs.Prelude.{◌≡◌, ◌++◌, ◌∷◌, [], IfOk};
ghost use Rattle.csv.specs.Machine.{step, in_field, start_field, start_record, ends_at_end};
ghost use Rattle.csv.specs.Machine.{is_end, fields_after, field_after};
ghost use Rattle.csv.specs.Reading.{default_config, strip_bom};
ghost use Rattle.csv.specs.Records.{fields_of, partial_of};
ghost use Rattle.csv.specs.declared.parser.State.TheVariants as st;
ghost use Rattle.fw_rows.specs.Short.{AtShort, state_of, stepped};

use crate::records::Records;
use csv::ByteRecord;
use std::alloc::{AllocError, Global};

/// Where a reader stands in a record.
#[derive(Clone, Copy, Drop)]
pub(crate) enum Place {
    StartRecord,
    StartField,
    InField,
    InQuotes,
    AfterQuote,
    AfterReturn,
}

/// What a byte does.
#[derive(Clone, Copy, Drop)]
pub(crate) enum Action {
    Skip,
    Copy,
    EndField,
    EndRecord,
}

/// What a byte does in a field without quotes.
fn in_field(byte: u8) -> (Place, Action)
    ensures { stepped result ≡ in_field default_config byte }
{
    match byte {
        b',' => (Place::StartField, Action::EndField),
        b'\r' => (Place::AfterReturn, Action::EndRecord),
        b'\n' => (Place::StartRecord, Action::EndRecord),
        _ => (Place::InField, Action::Copy),
    }
}

/// What a byte does at the start of a field.
fn start_field(byte: u8) -> (Place, Action)
    ensures { stepped result ≡ start_field default_config byte }
{
    match byte {
        b'"' => (Place::InQuotes, Action::Skip),
        _ => in_field(byte),
    }
}

/// What a byte does at the start of a record. The ends of empty lines are passed over.
fn start_record(byte: u8) -> (Place, Action)
    ensures { stepped result ≡ start_record default_config byte }
{
    match byte {
        b'\r' | b'\n' => (Place::StartRecord, Action::Skip),
        _ => start_field(byte),
    }
}

impl Place {
    /// What a byte does here.
    fn step(self, byte: u8) -> (Place, Action)
        ensures { stepped result ≡ step default_config (state_of self) byte }
    {
        match self {
            Place::StartRecord | Place::AfterReturn => start_record(byte),
            Place::StartField => start_field(byte),
            Place::InField => in_field(byte),
            Place::InQuotes => match byte {
                b'"' => (Place::AfterQuote, Action::Skip),
                _ => (Place::InQuotes, Action::Copy),
            },
            Place::AfterQuote => match byte {
                b'"' => (Place::InQuotes, Action::Copy),
                _ => in_field(byte),
            },
        }
    }

    /// Whether a text that ends here ends within a record.
    fn is_within(self) -> bool
        ensures { result ≡ ends_at_end (state_of self) }
    {
        !matches!(self, Place::StartRecord | Place::AfterReturn)
    }
}

/// The records of a short text, one at a time.
#[derive(Drop)]
pub(crate) struct ShortText<'a> {
    rest: &'a [u8],
    place: Place,
    field: Vec<u8>,
}

/// A text without a byte order mark at its start.
#[tactic(auto, unfolding(csv::specs::Reading::strip_bom))]
fn without_mark(text: &[u8]) -> &[u8]
    ensures { result.now ≡ strip_bom text.now }
{
    match text {
        [0xEF, 0xBB, 0xBF, rest @ ..] => rest,
        _ => text,
    }
}

impl<'a> ShortText<'a> {
    /// The records of a text, from its start. It takes no memory.
    pub(crate) fn new(alloc: Global, text: &'a [u8]) -> ShortText<'a>
        ensures { AtShort result st.StartRecord (strip_bom text.now) }
    {
        ShortText {
            rest: without_mark(text),
            place: Place::StartRecord,
            field: Vec::new(alloc),
        }
    }

    /// Does what a byte does, to the fields of a record and to the field at hand. It says whether
    /// the record has ended.
    fn take(&mut self, byte: u8, fields: &mut ByteRecord) -> Result<bool, AllocError>
        requires { partial_of fields.old ≡ [] }
        ensures ends { let p = step default_config (state_of self.old.place) byte in
            IfOk result (λ ended. (ended ≡ is_end p.1) × (state_of self.new.place ≡ p.0)
            × (fields_of fields.new ≡ fields_after p.1 (fields_of fields.old) self.old.field.items)
            × (self.new.field.items ≡ field_after p.1 byte self.old.field.items)
            × (partial_of fields.new ≡ [])) }
        ensures rest { self.new.rest ≡ self.old.rest }
    {
        let (place, action) = self.place.step(byte);
        self.place = place;
        match action {
            Action::Skip => Ok(false),
            Action::Copy => {
                self.field.push(byte)?;
                Ok(false)
            }
            Action::EndField => {
                self.end_field(fields)?;
                Ok(false)
            }
            Action::EndRecord => {
                self.end_field(fields)?;
                Ok(true)
            }
        }
    }

    /// Adds the field at hand to a record.
    fn end_field(&mut self, fields: &mut ByteRecord) -> Result<(), AllocError>
        requires { partial_of fields.old ≡ [] }
        ensures ends { IfOk result (λ _.
            (fields_of fields.new ≡ fields_of fields.old ++ (self.old.field.items ∷ []))
            × (partial_of fields.new ≡ []) × (self.new.field.items ≡ [])) }
        ensures rest { self.new.rest ≡ self.old.rest }
        ensures place { self.new.place ≡ self.old.place }
    {
        fields.push_field(&self.field)?;
        self.field.clear();
        Ok(())
    }
}

impl Records for ShortText<'_> {
    ghost at = { AtShort };

    fn advance(&mut self, fields: &mut ByteRecord) -> Result<bool, AllocError> {
        fields.clear();
        self.field.clear();
        'bytes: while let Some((byte, rest)) = self.rest.split_first() {
            self.rest = rest;
            if self.take(*byte, fields)? {
                return Ok(true);
            }
        }
        if !self.place.is_within() {
            return Ok(false);
        }
        self.place = Place::StartRecord;
        self.end_field(fields)?;
        Ok(true)
    }
}
