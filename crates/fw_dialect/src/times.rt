//! Times such as `2024-09-01 00:00:00 UTC`.
ghost use Rattle.std.specs.Prelude.{◌≡◌, IfOk, option_map};
ghost use Rattle.fw_dialect.specs.Fields.{fits, has_form, time_in};

use std::alloc::{AllocError, Global};

/// The form of such a time: any digit may stand for a `0`.
const FORM: &[u8] = b"0000-00-00 00:00:00 UTC";

// Whether a byte stands where a form has this one.
fn fits(form: u8, byte: u8) -> bool
    ensures { result ≡ fits form byte }
{
    if form == b'0' {
        !(byte < 48) && byte < 58
    } else {
        byte == form
    }
}

// Whether a text has a form.
fn has_form(form: &[u8], text: &[u8]) -> bool
    ensures { result ≡ has_form form.now text.now }
{
    if text.len() != form.len() {
        return false;
    }
    for index in 0..form.len() {
        if !fits(form[index], text[index]) {
            return false;
        }
    }
    true
}

/// The instant that a time of the dialect stands for; none where the text is no such time.
#[tactic(auto, unfolding(crate::specs::Fields::time_in))]
pub(crate) fn time_in(alloc: Global, text: &[u8]) -> Result<Option<Vec<u8>>, AllocError>
    ensures { IfOk result (λ time. option_map (λ t. t.items) time ≡ time_in text.now) }
{
    if !has_form(FORM, text) {
        return Ok(None);
    }
    let (day, behind) = text.split_at(10);
    let (_, behind) = behind.split_at(1);
    let (clock, _) = behind.split_at(8);
    let mut time = Vec::with_capacity(alloc, 20)?;
    time.extend_from_slice(day)?;
    time.push(b'T')?;
    time.extend_from_slice(clock)?;
    time.push(b'Z')?;
    Ok(Some(time))
}
