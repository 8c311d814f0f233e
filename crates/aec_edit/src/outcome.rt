//! The outcomes of edits.

use aec_params::Fault;

/// The outcome of an edit.
#[derive(Clone, Copy, Debug, PartialEq, Eq, Drop)]
pub enum Outcome {
    /// It was applied, and this many intervals were coded.
    Done { coded: u64 },
    /// It was refused.
    Refused { fault: Fault },
}

/// Where and why a list of edits ended.
#[derive(Clone, Copy, Debug, PartialEq, Eq, Drop)]
pub struct Stop {
    /// The number of edits before the refused one; the number of all edits if `apply_all` lacks
    /// memory.
    pub place: u64,
    /// Why that edit, or all of them, were refused.
    pub fault: Fault,
}
