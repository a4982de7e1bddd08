//! Short texts: ids, units, SKUs and accounts.
ghost use Rattle.std.specs.Prelude.{◌↔◌, IsTrue};
ghost use Rattle.fw_charge.specs.Charge.{IsShortText};

/// The greatest number of bytes of a short text. The least is 1.
pub const LONGEST_SHORT_TEXT: usize = 256;

/// Whether a text is a short one: of 1 to [`LONGEST_SHORT_TEXT`] bytes.
pub fn is_short_text(text: &str) -> bool
    ensures { IsTrue result ↔ IsShortText text.now }
{
    !text.is_empty() && text.len() <= LONGEST_SHORT_TEXT
}
