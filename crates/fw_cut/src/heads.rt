//! Whether a record is the header again.
ghost use Rattle.std.specs.Prelude.{◌≡◌, ◌≤◌, length};
ghost use Rattle.std.specs.List.{position_or_len};
ghost use Rattle.fw_cut.specs.Headers.{head_of, is_again, is_line, unblanked, unmarked};
ghost use Rattle.fw_cut.specs.Records.{is_content, mark_len};

/// How many bytes of a text are its byte order mark.
#[tactic(auto, unfolding(crate::specs::Records::mark_len))]
pub(crate) fn mark_len(text: &[u8]) -> usize
    ensures value { result ≡ mark_len text.now }
    ensures within { result ≤ length text.now }
{
    match text {
        [0xEF, 0xBB, 0xBF, ..] => 3,
        _ => 0,
    }
}

/// Whether a byte ends no line.
pub(crate) fn is_content(byte: u8) -> bool
    ensures { result ≡ is_content byte }
{
    byte != b'\n' && byte != b'\r'
}

// How many bytes the empty lines at the start have.
fn blank_len(text: &[u8]) -> usize
    ensures value { result ≡ position_or_len is_content text.now }
    ensures within { result ≤ length text.now }
{
    for (index, byte) in text.iter().enumerate() {
        if is_content(*byte) {
            return index;
        }
    }
    text.len()
}

// The bytes behind the empty lines at the start.
#[tactic(auto, unfolding(crate::specs::Headers::unblanked))]
fn unblanked(text: &[u8]) -> &[u8]
    ensures { result.now ≡ unblanked text.now }
{
    let (_, rest) = text.split_at(blank_len(text));
    rest
}

// The bytes behind the byte order mark.
#[tactic(auto, unfolding(crate::specs::Headers::unmarked))]
fn unmarked(text: &[u8]) -> &[u8]
    ensures { result.now ≡ unmarked text.now }
{
    let (_, rest) = text.split_at(mark_len(text));
    rest
}

/// The bytes of a header itself: without its byte order mark, the empty lines before it and the byte that ends it.
#[tactic(auto, unfolding(crate::specs::Headers::head_of))]
pub(crate) fn head_of(header: &[u8]) -> &[u8]
    ensures { result.now ≡ head_of header.now }
{
    let line = unblanked(unmarked(header));
    let (head, _) = line.split_at(line.len().saturating_sub(1));
    head
}

// Whether a text is this line, or the line and one byte that ends it.
#[tactic(auto, unfolding(crate::specs::Headers::is_line))]
fn is_line(line: &[u8], text: &[u8]) -> bool
    ensures { result ≡ is_line line.now text.now }
{
    if text.len() == line.len() {
        return text == line;
    }
    if text.len() != line.len() + 1 {
        return false;
    }
    let (front, _) = text.split_at(line.len());
    front == line && !is_content(text[line.len()])
}

/// Whether the bytes of a record are the header again. Empty lines and a byte order mark may stand before it.
#[tactic(auto, unfolding(crate::specs::Headers::is_again))]
pub(crate) fn is_again(head: &[u8], bytes: &[u8]) -> bool
    ensures { result ≡ is_again head.now bytes.now }
{
    is_line(head, unmarked(unblanked(bytes)))
}
