//! Whether bytes are ASCII.
ghost use Rattle.std.specs.Prelude.{IsAscii, IsTrue};

/// Whether all bytes are ASCII. It looks at each, with no way out before the end: such a loop takes many bytes at a time.
pub(crate) fn is_ascii(bytes: &[u8]) -> bool
    ensures { IsTrue result → IsAscii bytes.now }
{
    let mut has_others = false;
    for byte in bytes {
        has_others |= *byte >= 128;
    }
    !has_others
}
