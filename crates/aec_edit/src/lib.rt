//! A coded list of samples that is edited in place, over any lawful codec of intervals.
//!
//! A `Workspace` applies edits (`apply`, `apply_all`, `run`) and reads samples back (`range`).
#![tactic(auto)]

mod batch;
mod coded;
mod edited;
mod editing;
mod exchanging;
mod index;
pub mod laws;
mod outcome;
mod pieces;
mod ranging;
mod workspace;

pub use edited::{Edited, write_edited};
pub use outcome::{Outcome, Stop};
pub use workspace::Workspace;
