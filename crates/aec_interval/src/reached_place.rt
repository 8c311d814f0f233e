//! A place that a reader has reached.

/// The place of a `StreamReader` between two steps, or after all was read: the next block, and the
/// bit at which its coded data set would begin.
#[derive(Clone, Copy, Debug, PartialEq, Eq)]
pub struct ReachedPlace {
    /// The number of the next block.
    pub block: u64,
    /// The bit where its coded data set would begin.
    pub bit: u64,
}
