//! The end of a run: a file that the system wrote out, or no file.

ghost use Rattle.std.specs.Prelude.{◌≡◌, ◌⊎◌, ◌↔◌, Some, None, IfOk, IfErr, IsOk, IsTrue};
ghost use Rattle.aec_params.specs.declared.fault.Fault.TheVariants.{Write as WriteFault};
ghost use Rattle.aec_cli.specs.Ends.{IsWrittenOut};

use crate::retrying::{Retrying, SyncAnswer};
use aec_params::Fault;
use std::fs::OpenFile;
use std::io::ErrorKind;

/// The end of a written file: the result of its sync. Without a sync there is no `SyncAnswer`, and
/// without a `SyncAnswer` no `Synced`.
#[derive(Debug, PartialEq, Eq, Drop)]
pub(crate) struct Synced {
    answer: SyncAnswer,
}

/// The end of a `DestSink` that has not failed. It holds the end of the sink's file, or nothing if
/// the sink made no file.
#[derive(Debug, PartialEq, Eq, Drop)]
pub struct Done {
    synced: Option<Synced>,
}

impl Done {
    /// Returns the end of a sink with a file.
    pub(crate) fn of_a_file(synced: Synced) -> Done
        ensures { result.synced ≡ Some synced }
    {
        Done {
            synced: Some(synced),
        }
    }

    /// Returns the end of a sink that made no file, since it was never begun.
    pub(crate) fn without_a_file() -> Done
        ensures { result.synced ≡ None }
    {
        Done { synced: None }
    }
}

/// Returns whether an error of this kind says that the file can't be synced, as a pipe or a
/// terminal can't. Such a file counts as written out. An error of any other kind is a failure of
/// the file.
fn cant_be_synced(kind: ErrorKind) -> bool
    ensures { IsTrue result
        ↔ ((kind ≡ ErrorKind.InvalidInput) ⊎ (kind ≡ ErrorKind.Unsupported)) }
{
    matches!(kind, ErrorKind::InvalidInput | ErrorKind::Unsupported)
}

/// Returns whether the result of its sync shows that a file is written out.
fn is_written_out(answer: &SyncAnswer) -> bool
    ensures { IsTrue result ↔ IsWrittenOut answer.now }
{
    match answer.error() {
        None => true,
        Some(kind) => cant_be_synced(kind),
    }
}

/// Fails with `Write` unless `is_written_out(answer)`.
fn judged(answer: SyncAnswer) -> Result<Synced, Fault>
    ensures done { IsOk result ↔ IsWrittenOut answer }
    ensures answer { IfOk result (λ synced. synced.answer ≡ answer) }
    ensures fault { IfErr result (λ e. e ≡ WriteFault) }
{
    if is_written_out(&answer) {
        Ok(Synced { answer })
    } else {
        Err(Fault::Write)
    }
}

/// Makes the system write out an open file.
pub(crate) fn write_out<T: OpenFile>(file: &Retrying<T>) -> Result<Synced, Fault>
    ensures done { IfOk result (λ synced. IsWrittenOut synced.answer) }
    ensures fault { IfErr result (λ e. e ≡ WriteFault) }
{
    judged(file.sync())
}
