//! How far a load has come.

/// Shows how far a load has come.
pub trait Progress {
    /// So many files are stored. It is called after each group, on the thread that called [`load`](crate::load).
    fn stored(&mut self, files: usize);
}

/// Shows nothing.
impl Progress for () {
    fn stored(&mut self, _files: usize) {}
}
