//! How many bytes fields have where they are written.
ghost use Rattle.std.specs.Prelude.{◌≡◌, ◌+◌, ◌<◌, ◌^◌, length};
ghost use Rattle.fw_bytes.specs.Spelling.{text};

/// How many bytes a text has behind its length, with the length's four. The text has fewer than 2^32 bytes. Takes no memory.
pub fn text_len(words: &str) -> usize
    requires { length words.now < 2 ^ 32 }
    ensures value { result ≡ length (text words.now) }
    ensures sum { result ≡ 4 + length words.now }
{
    4 + words.len()
}
