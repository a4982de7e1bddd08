//! Sequences and counters, added to and read back.
use crate::ended::{check, check_all};
use fw_persistent::{Counters, Sequence};
use std::alloc::{AllocError, Global};
use std::sync::Arc;
use std::test::Fail;

/// The sequence of the numbers from 0, `count` of them.
fn numbers(alloc: Global, count: u32) -> Result<Sequence<u32>, AllocError> {
    let mut sequence = Sequence::new();
    for number in 0..count {
        sequence = sequence.push(alloc, number)?;
    }
    Ok(sequence)
}

/// Whether the sequence has the numbers from 0, each at its place.
fn counts_up(sequence: &Sequence<u32>) -> bool {
    for place in 0..sequence.len() {
        if *sequence.get(place) as usize != place {
            return false;
        }
    }
    true
}

/// Whether the sequence of so many numbers has each at its place.
fn has_each(alloc: Global, count: u32) -> Result<bool, AllocError> {
    let sequence = numbers(alloc, count)?;
    Ok(sequence.len() == count as usize && counts_up(&sequence))
}

/// The first length whose sequence hasn't.
fn first_wrong_length(alloc: Global) -> Result<Option<u32>, AllocError> {
    for count in 0..40 {
        if !has_each(alloc, count)? {
            return Ok(Some(count));
        }
    }
    Ok(None)
}

#[test]
fn each_item_is_at_its_place(rt: HostRuntime) {
    check_all(&rt, first_wrong_length(rt.alloc()));
}

/// Whether a sequence stays as it was beside one that was made of it.
fn stays(alloc: Global, old: &Sequence<u32>, item: u32) -> Result<bool, AllocError> {
    let longer = Box::new(alloc, old.push(alloc, item)?)?;
    Ok(old.len() == 9 && longer.len() == 10 && *longer.get(9) == item && counts_up(old))
}

/// Whether a sequence stays as it was beside two that were made of it, and so does a copy.
fn old_stays(alloc: Global) -> Result<bool, AllocError> {
    let old = Box::new(alloc, numbers(alloc, 9)?)?;
    let copy = Box::new(alloc, old.copy()?)?;
    Ok(stays(alloc, &old, 9)? && stays(alloc, &old, 100)? && copy.len() == 9 && counts_up(&copy))
}

#[test]
fn a_push_leaves_the_sequence_as_it_was(rt: HostRuntime) {
    check(&rt, old_stays(rt.alloc()));
}

/// Takes what threads may share.
fn lent<T: Send + Sync>(_value: &T) {}

#[test]
fn threads_may_share_both(rt: HostRuntime) -> Result<(), Fail> {
    lent(&numbers(rt.alloc(), 3)?);
    lent(&Counters::new());
    Ok(())
}

/// A shared text.
fn shared(alloc: Global, text: &str) -> Result<Arc<String>, AllocError> {
    Ok(Arc::new(alloc, String::from_str(alloc, text)?)?)
}

/// The counters of the texts.
fn counted(alloc: Global, texts: &[&str]) -> Result<Counters, AllocError> {
    let mut counters = Counters::new();
    for text in texts {
        counters = counters.raised(alloc, &shared(alloc, text)?)?;
    }
    Ok(counters)
}

/// Texts, and how often each is among those counted below.
const COUNTS: &[(&str, u64)] = &[("a", 3), ("ab", 1), ("b", 1), ("c", 1), ("", 1), ("aa", 0)];

/// The first text of which counters have another count.
fn first_of_another_count(counters: &Counters) -> Option<&'static str> {
    for (text, count) in COUNTS {
        if counters.count(text) != *count {
            return Some(text);
        }
    }
    None
}

/// The first text with another count.
fn first_miscounted(alloc: Global) -> Result<Option<&'static str>, AllocError> {
    let counters = Box::new(alloc, counted(alloc, &["b", "a", "c", "a", "", "ab", "a"])?)?;
    Ok(first_of_another_count(&counters))
}

#[test]
fn each_text_has_its_count(rt: HostRuntime) {
    check_all(&rt, first_miscounted(rt.alloc()));
}

/// Whether the new counters have `c` once and the old ones don't, and a copy of the new ones has `b` once.
fn old_ones_stay(alloc: Global) -> Result<bool, AllocError> {
    let old = Box::new(alloc, counted(alloc, &["b", "a"])?)?;
    let text = shared(alloc, "c")?;
    let new = Box::new(alloc, old.raised(alloc, &text)?)?;
    let copy = Box::new(alloc, new.copy()?)?;
    Ok(old.count("c") == 0 && new.count("c") == 1 && copy.count("b") == 1)
}

#[test]
fn raised_counters_leave_the_old_ones(rt: HostRuntime) {
    check(&rt, old_ones_stay(rt.alloc()));
}

/// Whether counters lend a text that equals this one.
fn lend(counters: &Counters, text: &str) -> bool {
    match counters.key(text) {
        Some(key) => key.as_str() == text,
        None => false,
    }
}

/// Whether counters share a text that they count, and lend it, and none that they don't.
fn shares_its_texts(alloc: Global) -> Result<bool, AllocError> {
    let text = shared(alloc, "a")?;
    let old = Box::new(alloc, counted(alloc, &["b", "c"])?)?;
    let counters = Box::new(alloc, old.raised(alloc, &text)?)?;
    Ok(Arc::strong_count(&text) == 2 && lend(&counters, "a") && !lend(&counters, "x"))
}

#[test]
fn texts_are_shared(rt: HostRuntime) {
    check(&rt, shares_its_texts(rt.alloc()));
}

/// Adds the text of a number.
fn push_number(alloc: Global, texts: &mut Vec<Arc<String>>, number: u8) -> Result<(), AllocError> {
    texts.push(Arc::new(alloc, format!(in alloc; "{number:03}")?)?)?;
    Ok(())
}

/// Adds the texts of the numbers below 255, which rise.
fn push_rising(alloc: Global, texts: &mut Vec<Arc<String>>) -> Result<(), AllocError> {
    for number in 0..255 {
        push_number(alloc, texts, number)?;
    }
    Ok(())
}

/// How many of the texts have three owners.
fn owned_by_three(texts: &[Arc<String>]) -> usize {
    let mut count = 0_usize;
    for text in texts {
        if Arc::strong_count(text) == 3 {
            count = count.saturating_add(1);
        }
    }
    count
}

/// The counters of the texts, each counted once.
fn counted_once(alloc: Global, texts: &[Arc<String>]) -> Result<Counters, AllocError> {
    let mut counters = Counters::new();
    for text in texts {
        counters = counters.raised(alloc, text)?;
    }
    Ok(counters)
}

/// How many of the counted texts get a third owner where one of them is counted once more: those on the way down to it.
fn way(
    alloc: Global,
    counters: &Counters,
    texts: &[Arc<String>],
    text: &Arc<String>,
) -> Result<usize, AllocError> {
    let more = Box::new(alloc, counters.raised(alloc, text)?)?;
    let way = owned_by_three(texts);
    Ok(if more.count(text) == 2 { way } else { 0 })
}

/// The longest way down to one of the texts.
fn longest_way(
    alloc: Global,
    counters: &Counters,
    texts: &[Arc<String>],
) -> Result<usize, AllocError> {
    let mut longest = 0;
    for text in texts {
        longest = longest.max(way(alloc, counters, texts, text)?);
    }
    Ok(longest)
}

/// The longest way where it isn't 8.
fn wrong_way(alloc: Global, texts: &mut Vec<Arc<String>>) -> Result<Option<usize>, AllocError> {
    push_rising(alloc, texts)?;
    let counters = Box::new(alloc, counted_once(alloc, texts)?)?;
    let longest = longest_way(alloc, &counters, texts)?;
    Ok(if longest == 8 { None } else { Some(longest) })
}

/// The longest way among the counted texts where it isn't 8.
fn wrong_longest_way(alloc: Global) -> Result<Option<usize>, AllocError> {
    let mut texts = Vec::new(alloc);
    wrong_way(alloc, &mut texts)
}

#[test]
fn rising_texts_make_no_high_tree(rt: HostRuntime) {
    check_all(&rt, wrong_longest_way(rt.alloc()));
}
