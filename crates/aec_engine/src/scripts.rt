//! The edits of a script, and why a script was not carried out.

use aec_params::{Edit, Fault};
use thiserror::Error;

/// The edits of a script, and their lines.
#[derive(Debug, Drop)]
pub struct Script {
    /// The edits, in order.
    pub edits: Vec<Edit>,
    /// For each edit, the number of its line, counted from 1.
    pub lines: Vec<u64>,
}

/// Why a stream was not edited.
#[derive(Clone, Copy, Debug, PartialEq, Eq, Error)]
pub enum EditFault {
    /// The fault of the script, the stream, memory or a device, not of one edit.
    #[error("{0}")]
    Plain(Fault),
    /// The edit on this line of the script is refused.
    #[error("line {line}: {fault}")]
    Line { line: u64, fault: Fault },
}

/// Converts a fault that isn't that of one edit.
impl From<Fault> for EditFault {
    ghost use Rattle.std.specs.Prelude.{◌≡◌};
    ghost use Rattle.aec_engine.specs.declared.scripts.EditFault.TheVariants.{Plain};

    ghost from_gives = { λ fault e. e ≡ Plain fault };

    fn from(fault: Fault) -> EditFault {
        EditFault::Plain(fault)
    }
}
