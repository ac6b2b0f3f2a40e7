//! A lock, and how many of them a chart holds.

/// The most locks that a chart holds.
pub(crate) const MOST_LOCKS: usize = 32;

/// A lock is on one exit of one mode. (`Default` is what an `ArrayVec` fills its free places with.)
#[derive(Clone, Copy, Debug, Default, PartialEq, Eq)]
pub struct Lock {
    pub mode: u32,
    pub exit: u32,
}
