//! How the program ends.

ghost use Rattle.std.specs.Prelude.{◌≡◌};
ghost use Rattle.aec_cli.specs.Ends.{end_status};

use crate::done::Done;
use crate::failure::{Failure, status};

/// How the program ended.
#[derive(Debug, PartialEq, Eq, Drop)]
pub(crate) enum End {
    /// Parsing the words ended the run: help, the version or a mistake in them was printed.
    Unstarted { status: u8 },
    /// The job is done.
    Done(Done),
    /// The words make no job, the job was refused, or there was no memory for the words. The
    /// failure was printed on one line.
    Failed(Failure),
}

impl End {
    /// Returns the status of the process.
    pub(crate) fn status(&self) -> u8
        ensures { result ≡ end_status self.now }
    {
        match self {
            End::Unstarted { status } => *status,
            End::Done(_) => 0,
            End::Failed(failure) => status(failure),
        }
    }
}
