//! Why the words of a command make no job.

use aec_params::Fault;
use std::alloc::AllocError;
use thiserror::Error;

/// Why a job is refused, in the order in which the variants are judged.
#[derive(Clone, Copy, Debug, PartialEq, Eq, Error)]
pub enum Usage {
    /// More than one action is asked for.
    #[error("only one of -d, --range and --edit may be given")]
    Jobs,
    /// A sample count is given without an action that reads coded data.
    #[error("--count needs -d, --range or --edit")]
    Count,
    /// The value of `--range` isn't two numbers with one colon between them.
    #[error("--range needs FIRST:LEN")]
    Range,
    /// The settings break a rule of the format; this is the first one.
    #[error("{0}")]
    Setting(Fault),
    /// An allocation failed.
    #[error("out of memory")]
    Memory,
}

impl From<AllocError> for Usage {
    ghost use Rattle.std.specs.Prelude.{◌≡◌};
    ghost use Rattle.aec_cli.specs.declared.usage.Usage.TheVariants.{Memory};

    ghost from_gives = { λ _ e. e ≡ Memory };

    fn from(_e: AllocError) -> Usage {
        Usage::Memory
    }
}
