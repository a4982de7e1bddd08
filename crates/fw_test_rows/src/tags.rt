//! The expected tags are those of Python's `json`, with the keys in the order of their UTF-8 bytes.
use crate::ended::check_all;
use crate::lines::tags_line;
use fw_tags::{TagFault, read_tags};
use std::alloc::{AllocError, Global};

/// Texts, each with its tags as `key=value;`.
const TAGS: &[(&str, &str)] = &[
    (r#"{}"#, ""),
    (r#" {"team" : "web", "app":"shop"} "#, "app=shop;team=web;"),
    (
        r#"{"t":true,"f":false,"n":null,"":""}"#,
        "=;f=false;n=;t=true;",
    ),
    (r#"{"a":"first","b":"","a":"last"}"#, "a=last;b=;"),
    (r#"{"a":[1],"a":"x"}"#, "a=x;"),
    (
        r#"{"\u00e9":"\ud83d\ude00\"\\\n","z":"é","A":"日本"}"#,
        "A=日本;z=é;é=😀\"\\\n;",
    ),
    (r#"{"a":"1","aa":"2","a-":"3"}"#, "a=1;a-=3;aa=2;"),
];

/// Texts that are no tags.
const OTHERS: &[&str] = &[
    "",
    "  ",
    "null",
    "[]",
    r#""a""#,
    r#"{"a":"x""#,
    r#"{"a":"x",}"#,
    r#"{"a":"x"} {}"#,
    r#"{"a":"x","b":1}"#,
    r#"{"a":"x","a":1}"#,
    r#"{"a":1e999,"a":"x"}"#,
    r#"{"a":{}}"#,
    r#"{"a":[]}"#,
];

/// How many members with short names an object has, the lengths of a last one's name and value, and whether that is too long.
const SIZES: &[(u32, usize, usize, bool)] = &[
    (0, 1024, 1024, false),
    (0, 1025, 0, true),
    (0, 0, 1025, true),
    (255, 1, 1, false),
    (256, 1, 1, true),
];

/// The tags of a text, each as `key=value;`.
fn shown(alloc: Global, text: &str) -> Result<String, TagFault> {
    let tags = read_tags(alloc, text)?;
    Ok(tags_line(alloc, &tags)?)
}

/// Why a text is no tags, or `None` where it is read.
fn refusal(alloc: Global, text: &str) -> Result<Option<TagFault>, TagFault> {
    match read_tags(alloc, text) {
        Ok(_) => Ok(None),
        Err(TagFault::NoMemory) => Err(TagFault::NoMemory),
        Err(fault) => Ok(Some(fault)),
    }
}

/// Adds so many equal letters to a text.
fn push_letters(text: &mut String, letter: char, count: usize) -> Result<(), AllocError> {
    for _ in 0..count {
        text.push(letter)?;
    }
    Ok(())
}

/// Writes an object of `count` members with short names, and a last one whose name and value have these lengths.
fn write_object(text: &mut String, count: u32, key: usize, value: usize) -> Result<(), TagFault> {
    text.push_str("{")?;
    for number in 0..count {
        write!(text, "\"{number}\":\"\",")?;
    }
    text.push_str("\"")?;
    push_letters(text, 'k', key)?;
    text.push_str("\":\"")?;
    push_letters(text, 'v', value)?;
    text.push_str("\"}")?;
    Ok(())
}

/// The place of the first text that reads as other tags.
fn first_misread(alloc: Global) -> Result<Option<usize>, TagFault> {
    for (place, (text, tags)) in TAGS.iter().enumerate() {
        if shown(alloc, text)?.as_str() != *tags {
            return Ok(Some(place));
        }
    }
    Ok(None)
}

/// The place of the first of the others that is not refused as no tags.
fn first_taken(alloc: Global) -> Result<Option<usize>, TagFault> {
    for (place, text) in OTHERS.iter().enumerate() {
        if refusal(alloc, text)? != Some(TagFault::NotTags) {
            return Ok(Some(place));
        }
    }
    Ok(None)
}

#[test]
fn objects_read_as_tags(rt: HostRuntime) {
    check_all(&rt, first_misread(rt.alloc()));
}

#[test]
fn other_texts_are_no_tags(rt: HostRuntime) {
    check_all(&rt, first_taken(rt.alloc()));
}

/// Whether an object of these sizes is too long, and nothing else.
fn is_too_long(alloc: Global, count: u32, key: usize, value: usize) -> Result<bool, TagFault> {
    let mut text = String::new(alloc);
    write_object(&mut text, count, key, value)?;
    match refusal(alloc, &text)? {
        None => Ok(false),
        Some(TagFault::TooLong) => Ok(true),
        Some(other) => Err(other),
    }
}

/// The place of the first of the sizes with another answer.
fn first_wrong_size(alloc: Global) -> Result<Option<usize>, TagFault> {
    for (place, (count, key, value, wanted)) in SIZES.iter().enumerate() {
        if is_too_long(alloc, *count, *key, *value)? != *wanted {
            return Ok(Some(place));
        }
    }
    Ok(None)
}

#[test]
fn sizes_have_limits(rt: HostRuntime) {
    check_all(&rt, first_wrong_size(rt.alloc()));
}
