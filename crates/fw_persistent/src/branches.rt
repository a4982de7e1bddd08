//! A search tree of texts and their values, whose sides are kept of nearly one height.
ghost use Rattle.std.specs.Prelude.{◌≡◌, ◌∷◌, ◌++◌, IfOk, MatchOption, None, string_bytes};
ghost use Rattle.fw_persistent.specs.Branches.{entry_pair, branch_values, node_values, IsEntry};
ghost use Rattle.fw_persistent.specs.Values.{IsRising, value_at, with_value};

use crate::share::Share;
use std::alloc::{AllocError, Global};
use std::cmp::Ordering;
use std::sync::Arc;

/// A text and its value.
pub(crate) struct Entry<V> {
    pub(crate) text: Arc<String>,
    pub(crate) value: V,
}

impl<V: Drop> Drop for Entry<V> {
    fn drop(self) {
        let Self { text: _, value: _ } = self;
    }
}

impl<V: Share> Entry<V> {
    /// The same entry, which shares its text and its value.
    /// The error comes only where one of them has as many owners as can be counted.
    fn copy(&self) -> Result<Entry<V>, AllocError>
        ensures { IfOk result (λ entry. entry_pair entry ≡ entry_pair self.now) }
    {
        Ok(Entry {
            text: Arc::try_clone(&self.text)?,
            value: self.value.share()?,
        })
    }
}

impl<V: Drop> Entry<V> {
    /// The entry with another value, which shares its text.
    fn with(&self, value: V) -> Result<Entry<V>, AllocError>
        ensures { IfOk result (λ entry. entry_pair entry
            ≡ (string_bytes self.now.text.value, value)) }
    {
        Ok(Entry {
            text: Arc::try_clone(&self.text)?,
            value,
        })
    }
}

/// An entry between the lesser and the greater texts, and how many entries are on the longest way down.
#[cycle(branches)]
pub(crate) struct Node<V> {
    before: Branch<V>,
    entry: Entry<V>,
    height: u32,
    after: Branch<V>,
}

impl<V: Drop> Drop for Node<V> {
    fn drop(self) {
        let Self {
            before: _,
            entry: _,
            height: _,
            after: _,
        } = self;
    }
}

/// Entries by rising texts.
#[cycle(branches)]
#[derive(Drop)]
pub(crate) enum Branch<V> {
    Empty,
    Fork(Arc<Node<V>>),
}

impl<V> Branch<V> {
    /// How many entries are on the longest way down.
    pub(crate) fn height(&self) -> u32 {
        match self {
            Branch::Empty => 0,
            Branch::Fork(node) => node.height,
        }
    }

    /// The entry of a text, if there is one.
    pub(crate) fn entry(&self, text: &str) -> Option<&Entry<V>>
        requires rising { IsRising (branch_values self.now) }
        ensures { MatchOption result (value_at text.now (branch_values self.now) ≡ None)
            (λ entry. IsEntry text.now (branch_values self.now) entry.now) }
    {
        let Branch::Fork(node) = self else {
            return None;
        };
        match text.cmp(node.entry.text.as_str()) {
            Ordering::Less => node.before.entry(text),
            Ordering::Equal => Some(&node.entry),
            Ordering::Greater => node.after.entry(text),
        }
    }
}

impl<V: Drop> Branch<V> {
    /// The same branch, which shares its entries. The error comes only where it has as many owners as can be counted.
    pub(crate) fn copy(&self) -> Result<Branch<V>, AllocError>
        ensures { IfOk result (λ branch. branch_values branch ≡ branch_values self.now) }
    {
        match self {
            Branch::Empty => Ok(Branch::Empty),
            Branch::Fork(node) => Ok(Branch::Fork(Arc::try_clone(node)?)),
        }
    }
}

impl<V: Share> Branch<V> {
    /// The branch with a value at a text, which shares the entries that aren't on the way to the text.
    pub(crate) fn put(
        &self,
        alloc: Global,
        text: &Arc<String>,
        value: V,
    ) -> Result<Branch<V>, AllocError>
        requires rising { IsRising (branch_values self.now) }
        ensures { IfOk result (λ branch. branch_values branch
            ≡ with_value (string_bytes text.now.value) value (branch_values self.now)) }
    {
        let Branch::Fork(node) = self else {
            let entry = Entry {
                text: Arc::try_clone(text)?,
                value,
            };
            return joined(alloc, Branch::Empty, entry, Branch::Empty);
        };
        match text.as_str().cmp(node.entry.text.as_str()) {
            Ordering::Less => {
                let before = node.before.put(alloc, text, value)?;
                balanced(alloc, before, node.entry.copy()?, node.after.copy()?)
            }
            Ordering::Equal => {
                let entry = node.entry.with(value)?;
                joined(alloc, node.before.copy()?, entry, node.after.copy()?)
            }
            Ordering::Greater => {
                let after = node.after.put(alloc, text, value)?;
                balanced(alloc, node.before.copy()?, node.entry.copy()?, after)
            }
        }
    }
}

/// The branch of an entry and its two sides.
fn joined<V: Drop>(
    alloc: Global,
    before: Branch<V>,
    entry: Entry<V>,
    after: Branch<V>,
) -> Result<Branch<V>, AllocError>
    ensures { IfOk result (λ branch. branch_values branch
        ≡ branch_values before ++ entry_pair entry ∷ branch_values after) }
{
    let height = before.height().max(after.height()).saturating_add(1);
    let node = Node {
        before,
        entry,
        height,
        after,
    };
    Ok(Branch::Fork(Arc::new(alloc, node)?))
}

/// The same, turned where one side is two higher than the other.
fn balanced<V: Share>(
    alloc: Global,
    before: Branch<V>,
    entry: Entry<V>,
    after: Branch<V>,
) -> Result<Branch<V>, AllocError>
    ensures { IfOk result (λ branch. branch_values branch
        ≡ branch_values before ++ entry_pair entry ∷ branch_values after) }
{
    if let Branch::Fork(high) = &before {
        if high.height > after.height().saturating_add(1) {
            return leaned_after(alloc, high, entry, after);
        }
    }
    if let Branch::Fork(high) = &after {
        if high.height > before.height().saturating_add(1) {
            return leaned_before(alloc, before, entry, high);
        }
    }
    joined(alloc, before, entry, after)
}

/// The branch whose side before the entry is too high: part of it goes to the other side.
fn leaned_after<V: Share>(
    alloc: Global,
    high: &Node<V>,
    entry: Entry<V>,
    after: Branch<V>,
) -> Result<Branch<V>, AllocError>
    ensures { IfOk result (λ branch. branch_values branch
        ≡ node_values high.now ++ entry_pair entry ∷ branch_values after) }
{
    if let Branch::Fork(middle) = &high.after {
        if middle.height > high.before.height() {
            let lesser = joined(
                alloc,
                high.before.copy()?,
                high.entry.copy()?,
                middle.before.copy()?,
            )?;
            let greater = joined(alloc, middle.after.copy()?, entry, after)?;
            return joined(alloc, lesser, middle.entry.copy()?, greater);
        }
    }
    let greater = joined(alloc, high.after.copy()?, entry, after)?;
    joined(alloc, high.before.copy()?, high.entry.copy()?, greater)
}

/// The branch whose side after the entry is too high: part of it goes to the other side.
fn leaned_before<V: Share>(
    alloc: Global,
    before: Branch<V>,
    entry: Entry<V>,
    high: &Node<V>,
) -> Result<Branch<V>, AllocError>
    ensures { IfOk result (λ branch. branch_values branch
        ≡ branch_values before ++ entry_pair entry ∷ node_values high.now) }
{
    if let Branch::Fork(middle) = &high.before {
        if middle.height > high.after.height() {
            let lesser = joined(alloc, before, entry, middle.before.copy()?)?;
            let greater = joined(
                alloc,
                middle.after.copy()?,
                high.entry.copy()?,
                high.after.copy()?,
            )?;
            return joined(alloc, lesser, middle.entry.copy()?, greater);
        }
    }
    let lesser = joined(alloc, before, entry, high.before.copy()?)?;
    joined(alloc, lesser, high.entry.copy()?, high.after.copy()?)
}
