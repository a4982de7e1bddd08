//! Objects of JSON, each on a line of its own.
ghost use Rattle.std.specs.Prelude.{◌≡◌, ◌++◌, ◌∷◌, [], IfOk, OnOk, codes, length, map, option_copied, string_bytes};
ghost use Rattle.serde_json.specs.Written.{compact_text};
ghost use Rattle.fw_allocated.specs.Objects.{cell_data, quoted_text};
ghost use Rattle.fw_allocated.specs.Members.{member_before, members_before, object_line};

use crate::tags::json_string;
use std::alloc::{AllocError, Global};

/// Texts as strings of JSON.
pub(crate) fn quoted_all(alloc: Global, texts: &[&str]) -> Result<Vec<String>, AllocError>
    ensures { IfOk result (λ all. map (λ s. string_bytes s) all.items ≡ map
        (λ t. quoted_text t.now) texts.now) }
{
    let mut all = Vec::with_capacity(alloc, texts.len())?;
    for text in texts {
        all.push(json_string(alloc, text)?)?;
    }
    Ok(all)
}

/// Adds an object on a line of its own: cells under their names, and tags behind them.
pub(crate) fn push_object(
    alloc: Global,
    text: &mut String,
    names: &[String],
    cells: &[Option<&str>],
    tags: &str,
) -> Result<(), AllocError>
    requires { length names.now ≡ length cells.now }
    ensures { OnOk result (string_bytes text.new
        ≡ string_bytes text.old ++ object_line (map (λ s. string_bytes s) names.now)
        (map option_copied cells.now) tags.now) }
{
    text.push_str("{")?;
    push_members(alloc, text, names, cells)?;
    push_tags(text, tags)
}

// Adds tags as the last member of an object, and ends its line.
fn push_tags(text: &mut String, tags: &str) -> Result<(), AllocError>
    ensures { OnOk result (string_bytes text.new ≡ string_bytes text.old
        ++ (codes "\"Tags\":" ++ (tags.now ++ 125 ∷ (10 ∷ [])))) }
{
    text.push_str("\"Tags\":")?;
    text.push_str(tags)?;
    text.push_str("}\n")
}

// Adds cells as the members of an object, each with a comma behind it.
fn push_members(
    alloc: Global,
    text: &mut String,
    names: &[String],
    cells: &[Option<&str>],
) -> Result<(), AllocError>
    requires { length names.now ≡ length cells.now }
    ensures { OnOk result (string_bytes text.new ≡ string_bytes text.old
        ++ members_before (map (λ s. string_bytes s) names.now) (map option_copied cells.now)) }
{
    for (place, cell) in cells.iter().enumerate() {
        push_member(alloc, text, names[place].as_str(), *cell)?;
    }
    Ok(())
}

// Adds a cell as a member of an object, and a comma behind it.
fn push_member(
    alloc: Global,
    text: &mut String,
    name: &str,
    cell: Option<&str>,
) -> Result<(), AllocError>
    ensures { OnOk result (string_bytes text.new ≡ string_bytes text.old
        ++ member_before name.now (option_copied cell.entry)) }
{
    text.push_str(name)?;
    text.push_str(":")?;
    push_cell(alloc, text, cell)?;
    text.push_str(",")
}

// Adds a cell as a value of JSON.
fn push_cell(alloc: Global, text: &mut String, cell: Option<&str>) -> Result<(), AllocError>
    ensures { OnOk result (string_bytes text.new ≡ string_bytes text.old
        ++ compact_text (cell_data (option_copied cell.entry))) }
{
    match cell {
        Some(cell) => {
            let value = json_string(alloc, cell)?;
            text.push_str(value.as_str())
        }
        None => text.push_str("null"),
    }
}
