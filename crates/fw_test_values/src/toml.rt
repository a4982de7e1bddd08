//! A document, kind by kind.
use crate::ended::check;
use fw_toml::{Table, TableFault, Value, integers, member, named_texts, table_of, tables, texts};
use std::alloc::{AllocError, Global};

/// A table of lists.
const LISTS: &str = "texts = ['b', 'a']
sizes = { b = 2, a = -1 }
words = { y = 'z', x = '' }
rules = [{ k = 1 }, {}]
";

/// Bytes that are no document.
const OTHERS: &[&[u8]] = &[b"k = ", b"k = 1\nk = 2", b"k = '\xFF'"];

/// The value under a name; the table's names are all there.
fn value_of<'a>(table: &'a Table, name: &str) -> Result<&'a Value, AllocError> {
    member(table, name).ok_or(AllocError)
}

/// Whether the texts are `b` and `a`, in the document's order.
fn has_texts(alloc: Global, table: &Table) -> Result<bool, AllocError> {
    match texts(alloc, value_of(table, "texts")?)? {
        Some(found) => Ok(found.as_slice() == ["b", "a"].as_slice()),
        None => Ok(false),
    }
}

/// Whether the sizes are those of the document, by name.
fn has_sizes(alloc: Global, table: &Table) -> Result<bool, AllocError> {
    match integers(alloc, value_of(table, "sizes")?)? {
        Some(found) => Ok(found.as_slice() == [("a", -1), ("b", 2)].as_slice()),
        None => Ok(false),
    }
}

/// Whether the words are those of the document, by name.
fn has_words(alloc: Global, table: &Table) -> Result<bool, AllocError> {
    match named_texts(alloc, value_of(table, "words")?)? {
        Some(found) => Ok(found.as_slice() == [("x", ""), ("y", "z")].as_slice()),
        None => Ok(false),
    }
}

/// Whether the rules are two tables, of one member and of none, and no texts.
fn has_rules(alloc: Global, table: &Table) -> Result<bool, AllocError> {
    let rules = value_of(table, "rules")?;
    let are_texts = texts(alloc, rules)?.is_some();
    match tables(alloc, rules)? {
        Some(found) => {
            Ok(!are_texts && found.len() == 2 && found[0].len() == 1 && found[1].is_empty())
        }
        None => Ok(false),
    }
}

/// The table of a document, where it is one.
fn table(alloc: Global, text: &[u8]) -> Result<Option<Box<Table>>, AllocError> {
    match table_of(alloc, text) {
        Ok(table) => match Box::new(alloc, table) {
            Ok(table) => Ok(Some(table)),
            Err(_) => Err(AllocError),
        },
        Err(TableFault::Syntax) => Ok(None),
        Err(TableFault::NoMemory) => Err(AllocError),
    }
}

/// Whether each list of the document is read by its kind.
fn reads_lists(alloc: Global) -> Result<bool, AllocError> {
    match table(alloc, LISTS.as_bytes())? {
        Some(table) => Ok(
            has_texts(alloc, &table)?
                && has_sizes(alloc, &table)?
                && has_words(alloc, &table)?
                && has_rules(alloc, &table)?,
        ),
        None => Ok(false),
    }
}

#[test]
fn lists_of_a_kind(rt: HostRuntime) {
    check(&rt, reads_lists(rt.alloc()));
}

/// Whether each of the others is no document.
fn refuses_others(alloc: Global) -> Result<bool, AllocError> {
    for text in OTHERS {
        if table(alloc, text)?.is_some() {
            return Ok(false);
        }
    }
    Ok(true)
}

#[test]
fn no_document(rt: HostRuntime) {
    check(&rt, refuses_others(rt.alloc()));
}
