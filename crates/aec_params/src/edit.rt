//! One change of a coded list.

use crate::samples::Samples;

/// A change of a list of samples. Whether it fits a given list is decided when it is applied.
#[derive(Debug, Drop)]
pub enum Edit {
    /// Replaces the samples from place `first` on by the values, one for one.
    Overwrite { first: u64, values: Samples },
    /// Appends the values after the last sample.
    Append { values: Samples },
    /// Keeps the first `count` samples.
    Truncate { count: u64 },
    /// Inserts the values before the sample at place `first`, or after the last sample.
    Insert { first: u64, values: Samples },
    /// Removes the `len` samples from place `first` on.
    Remove { first: u64, len: u64 },
}
