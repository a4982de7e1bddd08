//! Texts of others as a terminal may show them.
ghost use Rattle.std.specs.Prelude.{◌≡◌, ◌++◌, ℕ, List, IfOk, OnOk, encode_utf8_all, string_bytes};
ghost use Rattle.std.specs.Str.{IsUtf8, NoCharPasses};
ghost use Rattle.fw_table.specs.Shown.{is_acting, shown, shown_text};

use std::alloc::{AllocError, Global};
use std::marker::Model;

/// A text as a terminal may show it: in place of each character that acts on the terminal instead of being shown stands its code, as
/// `\u{1b}`. These are the control characters, those that end a line or a paragraph, and those that turn the direction of a text.
pub fn shown_text(alloc: Global, text: &str) -> Result<String, AllocError>
    ensures { IfOk result (λ shown. string_bytes shown ≡ shown_text text.now) }
{
    let mut shown = String::with_capacity(alloc, text.len())?;
    for letter in text.chars() {
        push_shown(&mut shown, letter)?;
    }
    Ok(shown)
}

// Adds a character, or its code where it acts on a terminal.
#[tactic(auto, unfolding(crate::specs::Shown::shown))]
fn push_shown(text: &mut String, letter: char) -> Result<(), AllocError>
    ensures { OnOk result (string_bytes text.new
        ≡ string_bytes text.old ++ encode_utf8_all (shown letter)) }
{
    if !is_acting(letter) {
        return text.push(letter);
    }
    for part in letter.escape_unicode() {
        text.push(part)?;
    }
    Ok(())
}

// Whether a character acts on a terminal instead of being shown.
#[tactic(auto, unfolding(crate::specs::Shown::is_acting))]
fn is_acting(letter: char) -> bool
    ensures { result ≡ is_acting letter }
{
    let code = u32::from(letter);
    code < 0x20
        || (0x7f..=0x9f).contains(&code)
        || code == 0x61c
        || (0x200e..=0x200f).contains(&code)
        || (0x2028..=0x202e).contains(&code)
        || (0x2066..=0x2069).contains(&code)
}

/// A text without a character that acts on a terminal.
#[derive(Debug, Drop)]
pub(crate) struct Shown {
    text: String,
}

impl Model for Shown {
    ghost use Rattle.std.specs.Prelude.{ℕ, List, string_bytes};
    ghost use Rattle.std.specs.Str.{NoCharPasses};
    ghost use Rattle.fw_table.specs.Shown.{is_acting};

    ghost Value = { List ℕ };

    ghost view = { λ s. string_bytes s.text };

    ghost invariant = { λ s. NoCharPasses is_acting (string_bytes s.text) };
}

impl Shown {
    /// A text as a terminal may show it.
    pub(crate) fn of_text(alloc: Global, text: &str) -> Result<Shown, AllocError>
        ensures { IfOk result (λ s. s ≡ shown_text text.now) }
    {
        Ok(Shown {
            text: shown_text(alloc, text)?,
        })
    }

    /// The text.
    pub(crate) fn as_str(&self) -> &str
        ensures text { result.now ≡ self.now }
        ensures quiet { NoCharPasses is_acting self.now }
    {
        self.text.as_str()
    }
}

/// A text as it is shown has no character that acts on a terminal, and a text that has none is shown as it stands.
pub fn what_is_shown_acts_on_no_terminal()
    ensures safe { (text : List ℕ) → IsUtf8 text → NoCharPasses is_acting (shown_text text) }
    ensures same { (text : List ℕ) → NoCharPasses is_acting text → IsUtf8 text
        → shown_text text ≡ text }
{}
