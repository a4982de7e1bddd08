//! Where a reader of records stands between two bytes of a text.
ghost use Rattle.std.specs.Prelude.{◌≡◌, ◌≤◌, ◌<◌, ◌+◌, true, false, All, IsTrue, length, take};
ghost use Rattle.csv.specs.Machine.{in_field, start_field, start_record, step};
ghost use Rattle.csv.specs.Reading.{default_config};
ghost use Rattle.fw_cut.specs.Places.{block, state_of, place_behind, Does, GoesOn, IsPassed, IsPlain};
ghost use Rattle.fw_cut.specs.declared.place.Place.TheVariants.{Quoted};

/// The bytes that separate fields and records.
const COMMA: u8 = b',';

const QUOTE: u8 = b'"';

const CARRIAGE_RETURN: u8 = b'\r';

const LINE_FEED: u8 = b'\n';

/// Where a reader stands between two bytes.
#[derive(Clone, Copy, Drop)]
pub(crate) enum Place {
    /// Before a record.
    Start,
    /// Before a record, behind a carriage return that ended one.
    AfterReturn,
    /// Before a field that isn't the first.
    Field,
    /// In a field without quotes, or behind its closing quote.
    Plain,
    /// Within quotes.
    Quoted,
    /// Behind a quote that closes a field or is the first of two.
    AfterQuote,
}

/// What a byte does: where the reader stands behind it, and whether it ended a record.
#[derive(Clone, Copy, Drop)]
pub(crate) struct Step {
    pub(crate) place: Place,
    pub(crate) ends: bool,
}

/// Bytes that end no record: where the reader stands behind them, and how many they are.
#[derive(Clone, Copy, Drop)]
pub(crate) struct Run {
    pub(crate) place: Place,
    pub(crate) len: usize,
}

impl Place {
    /// The bytes that are next and surely end no record: within quotes all before the closing quote, else all before the next quote or line
    /// end. Most bytes of a text are in such a run, and many of them are looked at together. Behind a closing quote there is none, as the next byte
    /// mostly ends the field.
    pub(crate) fn run(self, text: &[u8]) -> Run
        ensures within { result.len ≤ length text.now }
        ensures goes { GoesOn self (take result.len text.now) result.place }
    {
        match self {
            Place::Quoted => Run {
                place: self,
                len: quoted_len(text),
            },
            Place::AfterQuote => Run {
                place: self,
                len: 0,
            },
            _ => {
                let len = plain_len(text);
                Run {
                    place: self.behind(text, len),
                    len,
                }
            }
        }
    }

    // Where a reader outside of quotes stands behind the first bytes, which are neither quotes nor line ends.
    fn behind(self, text: &[u8], len: usize) -> Place
        requires { len ≤ length text.now }
        ensures { result ≡ place_behind self (take len text.now) }
    {
        if len == 0 {
            self
        } else if text[len - 1] == COMMA {
            Place::Field
        } else {
            Place::Plain
        }
    }

    /// What the next byte does.
    pub(crate) fn after(self, byte: u8) -> Step
        ensures { Does (step default_config (state_of self) byte) result }
    {
        match self {
            Place::Start | Place::AfterReturn => before_record(byte),
            Place::Field => before_field(byte),
            Place::Plain => in_field(byte),
            Place::Quoted => {
                if byte == QUOTE {
                    going_on(Place::AfterQuote)
                } else {
                    going_on(Place::Quoted)
                }
            }
            Place::AfterQuote => {
                if byte == QUOTE {
                    going_on(Place::Quoted)
                } else {
                    in_field(byte)
                }
            }
        }
    }
}

// The byte ends no record.
fn going_on(place: Place) -> Step
    ensures { result ≡ record { place = place; ends = false } }
{
    Step { place, ends: false }
}

// The byte ends a record.
fn ending(place: Place) -> Step
    ensures { result ≡ record { place = place; ends = true } }
{
    Step { place, ends: true }
}

// What a byte does before a record.
fn before_record(byte: u8) -> Step
    ensures { Does (start_record default_config byte) result }
{
    if byte == CARRIAGE_RETURN {
        going_on(Place::Start)
    } else if byte == LINE_FEED {
        going_on(Place::Start)
    } else {
        before_field(byte)
    }
}

// What a byte does before a field.
fn before_field(byte: u8) -> Step
    ensures { Does (start_field default_config byte) result }
{
    if byte == QUOTE {
        going_on(Place::Quoted)
    } else {
        in_field(byte)
    }
}

// What a byte does in a field without quotes.
fn in_field(byte: u8) -> Step
    ensures { Does (in_field default_config byte) result }
{
    if byte == COMMA {
        going_on(Place::Field)
    } else if byte == CARRIAGE_RETURN {
        ending(Place::AfterReturn)
    } else if byte == LINE_FEED {
        ending(Place::Start)
    } else {
        going_on(Place::Plain)
    }
}

/// How many bytes are looked at together.
const BLOCK: u8 = 32;

// How many bytes stand before the first quote or line end.
fn plain_len(text: &[u8]) -> usize
    ensures within { result ≤ length text.now }
    ensures plain { All IsPlain (take result text.now) }
{
    if text.is_empty() || !is_plain(text[0]) {
        return 0;
    }
    let mut at = 0;
    while at + usize::from(BLOCK) <= text.len() {
        let len = plain_in_block(text, at);
        if len < BLOCK {
            return at + usize::from(len);
        }
        at += usize::from(BLOCK);
    }
    while at < text.len() && is_plain(text[at]) {
        at += 1;
    }
    at
}

// Whether a byte is no quote and no line end.
#[inline(always)]
fn is_plain(byte: u8) -> bool
    ensures { IsTrue result → IsPlain byte }
{
    (byte != QUOTE) & (byte != CARRIAGE_RETURN) & (byte != LINE_FEED)
}

// How many bytes of a block stand before its first quote or line end. No byte is branched on, so many are looked at together.
#[inline(always)]
fn plain_in_block(text: &[u8], at: usize) -> u8
    requires within { at + block ≤ length text.now }
    requires plain { All IsPlain (take at text.now) }
    ensures within { result ≤ block }
    ensures plain { All IsPlain (take (at + result) text.now) }
{
    let mut len = BLOCK;
    for index in 0..BLOCK {
        let is_plain = is_plain(text[at + usize::from(index)]);
        len = len.min(if is_plain { BLOCK } else { index });
    }
    len
}

// How many bytes stand before the quote that closes a field, two quotes in a row being none; where the text ends behind a quote, those before it.
fn quoted_len(text: &[u8]) -> usize
    ensures within { result ≤ length text.now }
    ensures goes { GoesOn Quoted (take result text.now) Quoted }
{
    let mut at = 0;
    while at < text.len() {
        let passed = blocks_end(text, at);
        let behind = bytes_end(text, passed);
        if behind == at {
            return at;
        }
        at = behind;
    }
    at
}

// Where up to a block of bytes within quotes ends that are looked at one by one: it ends before a quote that closes the field.
fn bytes_end(text: &[u8], from: usize) -> usize
    requires within { from ≤ length text.now }
    requires goes { GoesOn Quoted (take from text.now) Quoted }
    ensures from { from ≤ result }
    ensures within { result ≤ length text.now }
    ensures goes { GoesOn Quoted (take result text.now) Quoted }
{
    let end = text.len().min(from.saturating_add(usize::from(BLOCK)));
    let mut at = from;
    while at < end {
        if text[at] != QUOTE {
            at += 1;
        } else if at + 1 < text.len() && text[at + 1] == QUOTE {
            at += 2;
        } else {
            return at;
        }
    }
    at
}

// Where blocks of bytes within quotes end in which each quote has just one other beside it.
fn blocks_end(text: &[u8], from: usize) -> usize
    requires within { from ≤ length text.now }
    requires goes { GoesOn Quoted (take from text.now) Quoted }
    ensures from { from ≤ result }
    ensures within { result ≤ length text.now }
    ensures goes { GoesOn Quoted (take result text.now) Quoted }
{
    if text.len() - from < 2 || text[from] == QUOTE {
        return from;
    }
    let mut last = from;
    while last + usize::from(BLOCK) + 1 < text.len() {
        let len = pairs_in_block(text, last);
        if len < BLOCK {
            return pairs_end(text, last + usize::from(len));
        }
        last += usize::from(BLOCK);
    }
    pairs_end(text, last)
}

// How many bytes behind a place, at most those of a block, stand before the first quote that hasn't just one other beside it. Quotes before it stand in pairs,
// and none closes a field. No byte is branched on, so many are looked at together, wherever quotes stand.
#[inline(always)]
fn pairs_in_block(text: &[u8], last: usize) -> u8
    requires within { last + block + 1 < length text.now }
    requires passed { IsPassed text.now last }
    ensures within { result ≤ block }
    ensures passed { IsPassed text.now (last + result) }
{
    let mut len = BLOCK;
    for index in 0..BLOCK {
        let at = last + usize::from(index);
        let is_quote = text[at + 1] == QUOTE;
        let (before, behind) = (text[at] == QUOTE, text[at + 2] == QUOTE);
        let has_other = is_quote & !((before & !behind) | (!before & behind));
        len = len.min(if has_other { index } else { BLOCK });
    }
    len
}

// Where bytes end that are passed surely, if those up to a place are: before the quote there, if it is the first of a pair.
fn pairs_end(text: &[u8], last: usize) -> usize
    requires within { last + 1 < length text.now }
    requires passed { IsPassed text.now last }
    ensures from { last ≤ result }
    ensures within { result ≤ length text.now }
    ensures goes { GoesOn Quoted (take result text.now) Quoted }
{
    if text[last] == QUOTE && text[last + 1] == QUOTE {
        last
    } else {
        last + 1
    }
}
