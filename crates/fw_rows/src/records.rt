//! The records of a text in memory, one at a time.
ghost use Rattle.std.specs.Prelude.{◌≡◌, ◌<◌, ℕ, List, Some, length, IfOk};
ghost use Rattle.csv.specs.Reading.{strip_bom};
ghost use Rattle.csv.specs.Records.{fields_of, field_at};
ghost use Rattle.csv.specs.declared.parser.State.{State};
ghost use Rattle.csv.specs.declared.parser.State.TheVariants as st;
ghost use Rattle.fw_rows.specs.At.{AtLong, Finds};

use csv::{ByteRecord, Reader, ReaderBuilder};
use std::alloc::{AllocError, Global};

/// The records of a text in memory, one at a time.
pub(crate) trait Records {
    /// It reads on from this state, with this text left.
    ghost at: { Self → State → List ℕ → Type 0 };

    /// Reads the next record into `fields`, and says whether there is one. It fails only where
    /// memory runs out.
    fn advance(&mut self, fields: &mut ByteRecord) -> Result<bool, AllocError>
        ensures { IfOk result (λ found. (s : State) (y : List ℕ) → at self.old s y
            → Finds at self.new s y (fields_of fields.new) found) };
}

/// A reader at the start of a text.
pub(crate) fn open<'a>(alloc: Global, text: &'a [u8]) -> Reader<&'a [u8]>
    ensures { AtLong result st.StartRecord (strip_bom text.now) }
{
    ReaderBuilder::new()
        .has_headers(false)
        .flexible(true)
        .from_reader(alloc, text)
}

/// The longest text, in bytes, whose records grow as they are read. A longer one has room for as many fields as it has commas, since growing holds
/// three times that for a moment.
const LONGEST_GROWING: usize = 1 << 23;

/// A record that a text's records are read into.
pub(crate) fn record_for(alloc: Global, text: &[u8]) -> ByteRecord {
    if text.len() <= LONGEST_GROWING {
        return ByteRecord::new(alloc);
    }
    let commas = text.iter().filter(|byte| **byte == b',').count();
    match ByteRecord::with_capacity(alloc, 0, commas.saturating_add(1)) {
        Ok(fields) => fields,
        Err(AllocError) => ByteRecord::new(alloc),
    }
}

impl Records for Reader<&[u8]> {
    ghost at = { AtLong };

    fn advance(&mut self, fields: &mut ByteRecord) -> Result<bool, AllocError> {
        // A text in memory is always read, so it fails only where memory runs out.
        let Ok(found) = self.read_byte_record(fields) else {
            return Err(AllocError);
        };
        Ok(found)
    }
}

/// The field of a record at a place.
pub(crate) fn field<'r>(fields: &'r ByteRecord, place: usize) -> &'r [u8]
    requires { place < length (fields_of fields.now) }
    ensures { field_at (fields_of fields.now) place ≡ Some result.now }
{
    fields.get(place).unwrap()
}
