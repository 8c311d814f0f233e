//! The numbers of the copies of large functions. The compiler inlines a large function only if it
//! has one caller. So such a function has a const parameter `COPY`, and each caller passes a number
//! of its own, with the caller's name. A number changes no result. A new caller takes the next
//! number: `checks/copies.py` fails if two numbers are equal, or if two calls of one function for
//! one block size pass the same number. A public number is listed in docs/SURFACE.md.

/// In `reading::values`, for any number of values.
pub(crate) const READ_SPLIT_APART: usize = 0;

/// In `reading::values`, for each usual number of values.
pub(crate) const READ_BLOCK_SPLIT: usize = 1;

/// In `reading::single_sets`, after a reference sample.
pub(crate) const FILL_FIRST: usize = 2;

/// In `writing`, for any block.
pub(crate) const WRITE_BLOCK: usize = 3;

/// In `shortest`, for each usual block size.
pub(crate) const WRITE_WITHOUT_REFERENCE: usize = 4;

/// In `shortest`, for each usual block size.
pub(crate) const WRITE_WITH_REFERENCE: usize = 5;

/// In `reading::untested_blocks` of `aec_interval`, for each usual block size.
pub const FILL_KNOWN_BLOCKS: usize = 6;

/// In `reading::untested_blocks` of `aec_interval`, for any block size.
pub const FILL_ANY_BLOCKS: usize = 7;

/// In `reading::short_interval` of `aec_interval`, for the first block of a short interval.
pub const FILL_UNPREDICTED_BLOCK: usize = 8;

/// The kind of a short interval that is one run of zero blocks. The kinds also number the copies of
/// the functions of `aec_interval` that read short intervals.
pub const ZEROS: usize = 9;

/// The kind of a short interval of single blocks and runs whose samples are predicted.
pub const PREDICTED: usize = 10;

/// The kind of a short interval of single blocks and runs whose samples aren't predicted.
pub const UNPREDICTED: usize = 11;
