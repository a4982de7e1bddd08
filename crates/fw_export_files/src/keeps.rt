//! The columns that the command line keeps as tags.
use fw_charge::Tag;
use fw_rows::{Column, Keep, Keeper};
use fw_table::shown_text;
use std::alloc::{AllocError, Global};

/// The columns that options keep as tags, or why one of them is none: the words behind the name of the program.
pub fn read_keeps(alloc: Global, texts: &[&str]) -> Result<Result<Vec<Keep>, String>, AllocError> {
    let mut keeps: Vec<Keep> = Vec::with_capacity(alloc, texts.len())?;
    for text in texts {
        let (column, key) = text.split_once('=').unwrap_or((*text, *text));
        let is_double = keeps.iter().any(|keep| keep.key() == key);
        if let Some(why) = what_is_wrong(column, key, is_double) {
            let text = shown_text(alloc, text)?;
            let text = text.as_str();
            return Ok(Err(format!(in alloc; "--keep {text:?}: {why}")?));
        }
        let column = String::from_str(alloc, column)?;
        let key = String::from_str(alloc, key)?;
        keeps.push(Keep::of_fields(column, key))?;
    }
    Ok(Ok(keeps))
}

// What is wrong with a column that is kept as a tag, and with the key of the tag.
fn what_is_wrong(column: &str, key: &str, is_double: bool) -> Option<&'static str> {
    if column.is_empty() {
        return Some("it names no column, e.g. --keep ServiceName=service");
    }
    if column == Column::Tags.name() {
        return Some("Tags is read as tags, so it can't be a tag itself");
    }
    if key.is_empty() {
        return Some("it names no tag, e.g. --keep ServiceName=service");
    }
    if key.len() > Tag::LONGEST {
        return Some("a tag's name has at most 1,024 bytes");
    }
    if is_double {
        return Some("another column is kept as this tag already");
    }
    None
}

/// What keeps columns as tags, if any are kept.
pub fn keeper_of(alloc: Global, keeps: Vec<Keep>) -> Option<Keeper> {
    if keeps.is_empty() {
        return None;
    }
    Some(Keeper::new(alloc, keeps))
}
