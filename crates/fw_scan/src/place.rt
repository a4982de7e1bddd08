//! Where a reader stands in a record, and what the next byte does.
ghost use Rattle.std.specs.Prelude.{◌≡◌, ◌≤◌, length, take};
ghost use Rattle.csv.specs.Machine.{ends_at_end, in_field, start_field, start_record, step};
ghost use Rattle.csv.specs.Reading.{default_config};
ghost use Rattle.fw_scan.specs.Places.{Joins, state_of, stepped};
ghost use Rattle.fw_scan.specs.declared.place.Place.TheVariants as place;

/// Where a reader stands in a record.
#[derive(Clone, Copy, Drop)]
pub enum Place {
    /// Before a record.
    StartRecord,
    /// Before a field that isn't the first.
    StartField,
    /// In a field without quotes, or behind its closing quote.
    InField,
    /// Within quotes.
    InQuotes,
    /// Behind a quote that closes a field or is the first of two.
    AfterQuote,
    /// Before a record, behind a carriage return that ended one.
    AfterReturn,
}

/// What a byte does.
#[derive(Clone, Copy, Drop)]
pub enum Action {
    /// It is in no field.
    Skip,
    /// It is the field's next byte.
    Copy,
    /// It ends the field.
    EndField,
    /// It ends the field and the record.
    EndRecord,
}

// What a byte does in a field without quotes.
fn in_field(byte: u8) -> (Place, Action)
    ensures { stepped result ≡ in_field default_config byte }
{
    match byte {
        b',' => (Place::StartField, Action::EndField),
        b'\r' => (Place::AfterReturn, Action::EndRecord),
        b'\n' => (Place::StartRecord, Action::EndRecord),
        _ => (Place::InField, Action::Copy),
    }
}

// What a byte does at the start of a field.
fn start_field(byte: u8) -> (Place, Action)
    ensures { stepped result ≡ start_field default_config byte }
{
    match byte {
        b'"' => (Place::InQuotes, Action::Skip),
        _ => in_field(byte),
    }
}

// What a byte does at the start of a record. The ends of empty lines are passed over.
fn start_record(byte: u8) -> (Place, Action)
    ensures { stepped result ≡ start_record default_config byte }
{
    match byte {
        b'\r' | b'\n' => (Place::StartRecord, Action::Skip),
        _ => start_field(byte),
    }
}

impl Place {
    /// What a byte does here.
    pub fn step(self, byte: u8) -> (Place, Action)
        ensures { stepped result ≡ step default_config (state_of self) byte }
    {
        match self {
            Place::StartRecord | Place::AfterReturn => start_record(byte),
            Place::StartField => start_field(byte),
            Place::InField => in_field(byte),
            Place::InQuotes => match byte {
                b'"' => (Place::AfterQuote, Action::Skip),
                _ => (Place::InQuotes, Action::Copy),
            },
            Place::AfterQuote => match byte {
                b'"' => (Place::InQuotes, Action::Copy),
                _ => in_field(byte),
            },
        }
    }

    /// Whether a text that ends here ends within a record.
    pub fn is_within(self) -> bool
        ensures { result ≡ ends_at_end (state_of self) }
    {
        !matches!(self, Place::StartRecord | Place::AfterReturn)
    }

    /// How many of the next bytes surely end no field and leave the reader where it stands.
    pub fn run(self, text: &[u8]) -> usize
        ensures within { result ≤ length text.now }
        ensures joins { Joins self (take result text.now) }
    {
        match self {
            Place::InField => plain_len(text),
            Place::InQuotes => quoted_len(text),
            _ => 0,
        }
    }
}

// How many bytes stand before the first comma or line end.
fn plain_len(text: &[u8]) -> usize
    ensures within { result ≤ length text.now }
    ensures joins { Joins place.InField (take result text.now) }
{
    let mut at = 0;
    while at < text.len() {
        let byte = text[at];
        if byte == b',' || byte == b'\r' || byte == b'\n' {
            return at;
        }
        at += 1;
    }
    at
}

// How many bytes stand before the quote that closes a field, two quotes in a row being none; where the text ends behind a quote, those before it.
fn quoted_len(text: &[u8]) -> usize
    ensures within { result ≤ length text.now }
    ensures joins { Joins place.InQuotes (take result text.now) }
{
    let mut at = 0;
    while at < text.len() {
        if text[at] != b'"' {
            at += 1;
        } else if at + 1 < text.len() && text[at + 1] == b'"' {
            at += 2;
        } else {
            return at;
        }
    }
    at
}
