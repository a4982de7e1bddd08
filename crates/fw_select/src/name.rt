//! The name of a group.
ghost use Rattle.std.specs.Prelude.{◌≡◌, IfOk, map, string_bytes};
ghost use Rattle.fw_select.specs.Names.{group_name};

use std::alloc::{AllocError, Global};

/// The texts of a group with ` / ` between them. The one error is that memory ran out.
pub fn group_name(alloc: Global, texts: &[String]) -> Result<String, AllocError>
    ensures { IfOk result (λ name. string_bytes name ≡ group_name (map string_bytes texts.now)) }
{
    let Some((first, rest)) = texts.split_first() else {
        return Ok(String::new(alloc));
    };
    let mut name = String::from_str(alloc, first.as_str())?;
    for text in rest {
        name.push_str(" / ")?;
        name.push_str(text.as_str())?;
    }
    Ok(name)
}
