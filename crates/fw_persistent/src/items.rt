//! A sequence's items in complete trees, and the row of trees that a sequence is.
ghost use Rattle.std.specs.Prelude.{◌≡◌, ◌<◌, ◌+◌, ◌^◌, ◌∷◌, ◌++◌, [], length, set, IfOk, Some, slice_get};
ghost use Rattle.fw_persistent.specs.Items.{tree_items, row_items, IsEven, IsRow};

use crate::share::Share;
use std::alloc::{AllocError, Global};
use std::sync::Arc;

/// Items, oldest first. A fork's own item is its newest, and its two sides have as many items each.
pub(crate) enum Tree<T> {
    Leaf(T),
    Fork {
        older: Arc<Tree<T>>,
        newer: Arc<Tree<T>>,
        item: T,
    },
}

impl<T: Drop> Drop for Tree<T> {
    fn drop(self) {
        match self {
            Self::Leaf(_)
            | Self::Fork {
                older: _,
                newer: _,
                item: _,
            } => {}
        }
    }
}

impl<T> Tree<T> {
    /// The item at a place, of a tree of `size` items.
    fn item(&self, size: usize, place: usize) -> &T
        requires even { IsEven self.now }
        requires size { size ≡ length (tree_items self.now) }
        requires inside { place < size }
        ensures { slice_get (tree_items self.now) place ≡ Some result.now }
    {
        match self {
            Tree::Leaf(item) => item,
            Tree::Fork { older, newer, item } => {
                let half = size / 2;
                if place < half {
                    older.item(half, place)
                } else if place - half < half {
                    newer.item(half, place - half)
                } else {
                    item
                }
            }
        }
    }
}

impl<T: Share> Tree<T> {
    /// The tree of `size` items with another item at a place, which shares the trees that aren't on the way to the place.
    fn set(&self, alloc: Global, size: usize, place: usize, item: T) -> Result<Tree<T>, AllocError>
        requires even { IsEven self.now }
        requires size { size ≡ length (tree_items self.now) }
        requires inside { place < size }
        ensures { IfOk result (λ tree. (tree_items tree ≡ set (tree_items self.now) place item)
            × IsEven tree) }
    {
        match self {
            Tree::Leaf(_) => Ok(Tree::Leaf(item)),
            Tree::Fork {
                older: older_side,
                newer: newer_side,
                item: newest,
            } => {
                let half = size / 2;
                if place < half {
                    let tree = older_side.set(alloc, half, place, item)?;
                    Ok(Tree::Fork {
                        older: Arc::new(alloc, tree)?,
                        newer: Arc::try_clone(newer_side)?,
                        item: newest.share()?,
                    })
                } else if place - half < half {
                    let tree = newer_side.set(alloc, half, place - half, item)?;
                    Ok(Tree::Fork {
                        older: Arc::try_clone(older_side)?,
                        newer: Arc::new(alloc, tree)?,
                        item: newest.share()?,
                    })
                } else {
                    Ok(Tree::Fork {
                        older: Arc::try_clone(older_side)?,
                        newer: Arc::try_clone(newer_side)?,
                        item,
                    })
                }
            }
        }
    }
}

/// Trees, the newest last, each with its number of items.
pub(crate) enum Row<T> {
    Empty,
    More {
        older: Arc<Row<T>>,
        size: usize,
        newest: Arc<Tree<T>>,
    },
}

impl<T: Drop> Drop for Row<T> {
    fn drop(self) {
        match self {
            Self::Empty
            | Self::More {
                older: _,
                size: _,
                newest: _,
            } => {}
        }
    }
}

impl<T> Row<T> {
    /// The item at a place, of a row of `len` items.
    pub(crate) fn item(&self, len: usize, place: usize) -> &T
        requires row { IsRow self.now }
        requires len { len ≡ length (row_items self.now) }
        requires inside { place < len }
        ensures { slice_get (row_items self.now) place ≡ Some result.now }
    {
        match self {
            Row::Empty => unreachable!(),
            Row::More {
                older,
                size,
                newest,
            } => {
                let before = len - *size;
                if place < before {
                    older.item(before, place)
                } else {
                    newest.item(*size, place - before)
                }
            }
        }
    }
}

impl<T: Drop> Row<T> {
    /// The same row, which shares its trees. The error comes only where a tree has as many owners as can be counted.
    pub(crate) fn copy(&self) -> Result<Row<T>, AllocError>
        requires { IsRow self.now }
        ensures { IfOk result (λ row. (row_items row ≡ row_items self.now) × IsRow row) }
    {
        match self {
            Row::Empty => Ok(Row::Empty),
            Row::More {
                older,
                size,
                newest,
            } => Ok(Row::More {
                older: Arc::try_clone(older)?,
                size: *size,
                newest: Arc::try_clone(newest)?,
            }),
        }
    }

    /// The row with one more item at its end. Its two newest trees become one where they are of one size.
    pub(crate) fn with(&self, alloc: Global, item: T) -> Result<Row<T>, AllocError>
        requires row { IsRow self.now }
        requires fits { length (row_items self.now) + 1 < 2 ^ 64 }
        ensures { IfOk result (λ row. (row_items row ≡ row_items self.now ++ item ∷ [])
            × IsRow row) }
    {
        if let Row::More {
            older: next,
            size: newer_size,
            newest: newer,
        } = self
        {
            if let Row::More {
                older: rest,
                size: older_size,
                newest: older,
            } = &**next
            {
                if older_size == newer_size {
                    let tree = Tree::Fork {
                        older: Arc::try_clone(older)?,
                        newer: Arc::try_clone(newer)?,
                        item,
                    };
                    return Ok(Row::More {
                        older: Arc::try_clone(rest)?,
                        size: older_size + newer_size + 1,
                        newest: Arc::new(alloc, tree)?,
                    });
                }
            }
        }
        Ok(Row::More {
            older: Arc::new(alloc, self.copy()?)?,
            size: 1,
            newest: Arc::new(alloc, Tree::Leaf(item))?,
        })
    }
}

impl<T: Share> Row<T> {
    /// The row of `len` items with another item at a place, which shares the trees that aren't on the way to the place.
    pub(crate) fn set(
        &self,
        alloc: Global,
        len: usize,
        place: usize,
        item: T,
    ) -> Result<Row<T>, AllocError>
        requires row { IsRow self.now }
        requires len { len ≡ length (row_items self.now) }
        requires inside { place < len }
        ensures { IfOk result (λ row. (row_items row ≡ set (row_items self.now) place item)
            × IsRow row) }
    {
        match self {
            Row::Empty => unreachable!(),
            Row::More {
                older,
                size,
                newest,
            } => {
                let before = len - *size;
                if place < before {
                    let row = older.set(alloc, before, place, item)?;
                    Ok(Row::More {
                        older: Arc::new(alloc, row)?,
                        size: *size,
                        newest: Arc::try_clone(newest)?,
                    })
                } else {
                    let tree = newest.set(alloc, *size, place - before, item)?;
                    Ok(Row::More {
                        older: Arc::try_clone(older)?,
                        size: *size,
                        newest: Arc::new(alloc, tree)?,
                    })
                }
            }
        }
    }
}
