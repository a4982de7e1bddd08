//! Fields of one value.
ghost use Rattle.std.specs.Prelude.{◌≤◌, ℕ, ℤ, IfSome, MatchOption};
ghost use Rattle.fw_charge.specs.Charge.{IsShortText, last_second};
ghost use Rattle.fw_toml.specs.Tree.{stated};
ghost use Rattle.fw_commitment.specs.FieldNames.{name_of};
ghost use Rattle.fw_commitment.specs.Fields.{HasText, HasAmount, HasSecond};
ghost use Rattle.fw_commitment.specs.Rules.{field_rules};
ghost use Rattle.fw_commitment.specs.Finding.{Finds};

use crate::fault::{CommitmentFault, CommitmentField};
use fw_charge::is_short_text;
use fw_instants::second_of;
use fw_money::Nanos;
use fw_toml::{Table, text};

/// The text of a field, of 1 to 256 bytes.
pub(crate) fn short_text(table: &Table, field: CommitmentField) -> Result<&str, CommitmentFault>
    ensures { let Has = HasText (stated table.now) (name_of field)
        in Finds (field_rules field Has IsShortText)
        (λ text. Has text.now × IsShortText text.now) result }
{
    let Some(text) = text(table, field.name()) else {
        return Err(CommitmentFault::Field(field));
    };
    if !is_short_text(text) {
        return Err(CommitmentFault::Limit(field));
    }
    Ok(text)
}

/// The amount that the text under a name reads as, in nanos.
pub(crate) fn amount(table: &Table, name: &str) -> Option<Nanos>
    ensures { MatchOption result ((n : ℤ) → ¬ HasAmount (stated table.now) name.now n)
        (λ n. HasAmount (stated table.now) name.now n) }
{
    match text(table, name) {
        Some(text) => fw_money::parse(text.as_bytes()).ok(),
        None => None,
    }
}

/// The second since 1970 at which the instant of the text under a name begins.
pub(crate) fn second(table: &Table, name: &str) -> Option<u64>
    ensures value { MatchOption result ((s : ℕ) → ¬ HasSecond (stated table.now) name.now s)
        (λ s. HasSecond (stated table.now) name.now s) }
    ensures in_range { IfSome result (λ s. s ≤ last_second) }
{
    match text(table, name) {
        Some(text) => second_of(text),
        None => None,
    }
}
