//! Texts of others within HTML and JSON.
ghost use Rattle.std.specs.Prelude.{◌≡◌, ◌++◌, IfOk, OnOk, Some, string_bytes};
ghost use Rattle.serde_json.specs.Data.{string};
ghost use Rattle.serde_json.specs.Read.{read};
ghost use Rattle.fw_series.specs.Escapes.{escaped, on_page, reference};

use fw_table::shown_text;
use serde_json::Value;
use std::alloc::{AllocError, Global};

/// Adds what is shown of a text ([`shown_text`]) to a page so that none of it is markup: `&`, `<`, `>`, `"` and `'` become references,
/// as `&lt;`.
pub fn push_shown(alloc: Global, page: &mut Vec<u8>, text: &str) -> Result<(), AllocError>
    ensures { OnOk result (page.new.items ≡ page.old.items ++ on_page text.now) }
{
    let shown = shown_text(alloc, text)?;
    push_escaped(page, shown.as_str())
}

// Adds a text to a page so that none of it is markup.
fn push_escaped(page: &mut Vec<u8>, text: &str) -> Result<(), AllocError>
    ensures { OnOk result (page.new.items ≡ page.old.items ++ escaped text.now) }
{
    for byte in text.as_bytes() {
        page.extend_from_slice(reference(byte))?;
    }
    Ok(())
}

// What stands for a byte in HTML.
#[tactic(auto, unfolding(crate::specs::Escapes::reference))]
fn reference(byte: &u8) -> &[u8]
    ensures { result.now ≡ reference byte.now }
{
    match *byte {
        b'&' => b"&amp;",
        b'<' => b"&lt;",
        b'>' => b"&gt;",
        b'"' => b"&quot;",
        b'\'' => b"&#39;",
        _ => std::slice::from_ref(byte),
    }
}

/// A text as a string of JSON, quotes and all.
pub(crate) fn json_string(alloc: Global, text: &str) -> Result<String, AllocError>
    ensures { IfOk result (λ s. read (string_bytes s) ≡ Some (string text.now)) }
{
    Value::String(String::from_str(alloc, text)?).to_string(alloc)
}
