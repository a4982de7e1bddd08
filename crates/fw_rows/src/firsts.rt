//! The first rows of a text that have the tags of texts that are known.
ghost use Rattle.std.specs.Prelude.{◌≡◌, ℕ, List, None, Some, map, slice_index_or, IfSome, OnOk, string_bytes};
ghost use Rattle.fw_charge.specs.Charge.{Charge};
ghost use Rattle.fw_rows.specs.Keeping.{AreFirsts, HasKept, IsFound};
ghost use Rattle.fw_rows.specs.declared.kept_texts.Found.TheVariants as known;

use crate::kept_texts::{Found, Keeper};
use std::alloc::{AllocError, Global};

/// The place of the first row with the tags of a text that is known, where there is such a row.
pub(crate) fn first_row(firsts: &[Option<usize>], found: Found) -> Option<usize>
    ensures { IfSome result (λ row. (place : ℕ) × (found ≡ known.At place)
        × (slice_index_or firsts.now place None ≡ Some row)) }
{
    match found {
        Found::At(place) => match firsts.get(place) {
            Some(first) => *first,
            None => None,
        },
        Found::Nowhere(_) => None,
    }
}

/// Notes the place of the first row with the tags of a text of tags and of the texts of kept columns beside it. They are
/// known from then on.
pub(crate) fn note_first(
    alloc: Global,
    keeper: &mut Keeper,
    firsts: &mut Vec<Option<usize>>,
    found: Found,
    tags: &str,
    values: Vec<String>,
    row: usize,
) -> Result<(), AllocError>
    requires { IsFound keeper.old.texts (tags.now, map string_bytes values.items) found }
    ensures firsts { (rows : List Charge)
        → AreFirsts keeper.old.keeps keeper.old.texts firsts.old.items rows
        → HasKept keeper.old.keeps (tags.now, map string_bytes values.items) row rows
        → OnOk result (AreFirsts keeper.old.keeps keeper.new.texts firsts.new.items rows) }
    ensures same { keeper.new.keeps ≡ keeper.old.keeps }
{
    match found {
        Found::At(place) => {
            if place < firsts.len() {
                firsts[place] = Some(row);
            }
        }
        Found::Nowhere(hash) => {
            let place = keeper.note(alloc, hash, tags, values)?;
            if place == firsts.len() {
                firsts.push(Some(row))?;
            }
        }
    }
    Ok(())
}
