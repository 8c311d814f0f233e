//! Why a run of the program did not do its job, and the status that it ends with.

ghost use Rattle.std.specs.Prelude.{◌≡◌};
ghost use Rattle.aec_cli.specs.Statuses.{status_of};

use crate::usage::Usage;
use aec_engine::EditFault;
use aec_params::Fault;
use thiserror::Error;

/// The failure of a run. Its text is printed on a line after `aec: `.
#[derive(Clone, Copy, Debug, PartialEq, Eq, Error)]
pub enum Failure {
    /// The words make no job.
    #[error("{0}")]
    Usage(Usage),
    /// The job was refused.
    #[error("{0}")]
    Fault(Fault),
    /// The job, an edit by a script, was refused.
    #[error("{0}")]
    Edit(EditFault),
}

/// Returns the status that the program ends with after a failure: 2 if the words make no job, else
/// 1. Lack of memory is no fault of the words.
pub fn status(failure: &Failure) -> u8
    ensures { result ≡ status_of failure.now }
{
    match failure {
        Failure::Usage(Usage::Jobs | Usage::Count | Usage::Range | Usage::Setting(_)) => 2,
        Failure::Usage(Usage::Memory) | Failure::Fault(_) | Failure::Edit(_) => 1,
    }
}
