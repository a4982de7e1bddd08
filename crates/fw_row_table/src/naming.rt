//! The names of texts, and the lists of the places of tags.
ghost use Rattle.std.specs.Prelude.{◌≡◌, ◌+◌, ◌*◌, ◌^◌, ◌≤◌, [], length, map, All, IfOk, OnOk};
ghost use Rattle.fw_row_table.specs.Names.{place_of};
ghost use Rattle.fw_row_table.specs.Texts.{with_texts, texts_of_tags};
ghost use Rattle.fw_row_table.specs.Lists.{tag_places};
ghost use Rattle.fw_row_table.specs.Lending.{tags_lent};

use crate::lending::LentTags;
use crate::names::Names;
use std::alloc::{AllocError, Global};

/// Adds those of other names that are new. Returns the place of each.
pub fn see_names(alloc: Global, names: &mut Names, other: &Names) -> Result<Vec<u32>, AllocError>
    requires { length names.old + length other.now ≤ 2 ^ 30 }
    ensures seen { OnOk result (names.new ≡ with_texts names.old other.now) }
    ensures few { OnOk result (length names.new ≤ length names.old + length other.now) }
    ensures places { IfOk result (λ places. places.items ≡ map (place_of names.new) other.now) }
    ensures within { IfOk result (λ places. All (λ place. place ≤ 2 ^ 30) places.items) }
{
    let mut places = Vec::with_capacity(alloc, other.len())?;
    for place in 0..other.len() as u32 {
        let code = names.code(other.text(place))?;
        places.push(code)?;
    }
    Ok(places)
}

/// Adds the texts of tags that are new, and puts their places into a list. A text that has the place which stands for it in a list like that isn't
/// looked up.
pub fn see_tags(
    names: &mut Names,
    like: &[u32],
    tags: LentTags<'_>,
    list: &mut Vec<u32>,
) -> Result<(), AllocError>
    requires { length names.old + 2 * length (tags_lent tags) ≤ 2 ^ 30 }
    ensures seen { OnOk result (names.new ≡ with_texts names.old
        (texts_of_tags (tags_lent tags.entry))) }
    ensures few { OnOk result (length names.new
        ≤ length names.old + 2 * length (tags_lent tags.entry)) }
    ensures list { OnOk result (list.new.items ≡ tag_places names.new (tags_lent tags.entry)) }
{
    list.clear();
    let mut rest = tags;
    while let Some((tag, after)) = rest.split_first() {
        let key = names.code_near(like.get(list.len()).copied(), tag.key)?;
        list.push(key)?;
        let value = names.code_near(like.get(list.len()).copied(), tag.value)?;
        list.push(value)?;
        rest = after;
    }
    Ok(())
}
