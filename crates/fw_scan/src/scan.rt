//! A record at the start of a text, and one field of it.
ghost use Rattle.std.specs.Prelude.{◌≡◌, ◌≤◌, false, true, length, take, IfOk};
ghost use Rattle.fw_scan.specs.Places.{Joins};
ghost use Rattle.fw_scan.specs.Scans.{FindsRecord};

use crate::place::{Action, Place};
use std::alloc::AllocError;

/// A record at the start of a text.
#[derive(Clone, Copy, Debug, Drop)]
pub struct Scan {
    /// How many bytes the record has, with the empty lines before it and the byte that ends it.
    pub end: usize,
    /// How many fields it has.
    pub fields: usize,
    /// Whether a line feed or a carriage return ends it; else the text does.
    pub is_ended: bool,
}

/// Finds the first record of a text that no byte order mark precedes, as the `csv` crate reads it with its default settings; none where there is none.
/// Its field at a place, counted from 0, is put into `value`, which is empty where the record has no such field.
///
/// # Errors
/// Where memory runs out.
pub fn scan_record(
    text: &[u8],
    wanted: usize,
    value: &mut Vec<u8>,
) -> Result<Option<Scan>, AllocError>
    ensures { IfOk result (λ found. FindsRecord text.now wanted value.new.items found) }
{
    value.clear();
    let mut place = Place::StartRecord;
    let mut fields = 0;
    let mut at = 0;
    while at < text.len() {
        at += passed(place, &text[at..], fields == wanted);
        if at < text.len() {
            let byte = text[at];
            let (next, action) = place.step(byte);
            place = next;
            at += 1;
            match action {
                Action::Skip => {}
                Action::Copy => {
                    if fields == wanted {
                        value.push(byte)?;
                    }
                }
                Action::EndField => fields += 1,
                Action::EndRecord => {
                    return Ok(Some(Scan {
                        end: at,
                        fields: fields + 1,
                        is_ended: true,
                    }));
                }
            }
        }
    }
    if !place.is_within() {
        return Ok(None);
    }
    Ok(Some(Scan {
        end: at,
        fields: fields + 1,
        is_ended: false,
    }))
}

// How many of the next bytes end no field and can be passed over: none of a field that is wanted.
fn passed(place: Place, text: &[u8], is_wanted: bool) -> usize
    ensures within { result ≤ length text.now }
    ensures none { is_wanted ≡ true → result ≡ 0 }
    ensures joins { is_wanted ≡ false → Joins place (take result text.now) }
{
    if is_wanted { 0 } else { place.run(text) }
}
