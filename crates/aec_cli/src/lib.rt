//! The command `aec`: its process, its words, its job, the files that it reads and writes, and one
//! whole run.
#![tactic(auto)]

mod done;
mod ending;
mod failure;
mod files;
mod job;
mod program;
mod retrying;
mod start;
mod usage;
mod words;

pub use aec_engine::{EditFault, Script, decode, edit, encode, range, script};
pub use done::Done;
pub use failure::{Failure, status};
pub use files::{DestSink, FileSource};
pub use job::{Action, Job, settings};
pub use program::perform;
pub use start::{StartFault, fill_if_closed, process_words};
pub use usage::Usage;
pub use words::{command, parse};
