//! Why something was refused.

use std::alloc::{AllocError, AllocFailed};
use thiserror::Error;

/// A refusal. `bit` is the position in the stream where the refused coded data set begins, or for a
/// call of `BitReader` the reader's place.
#[derive(Clone, Copy, Debug, PartialEq, Eq, Error)]
pub enum Fault {
    /// The number of bits per sample is not 1 to 32.
    #[error("bits per sample must be 1 to 32")]
    BitsPerSample,
    /// Without `even_blocks`: the block size is not 8, 16, 32 or 64.
    #[error("block size must be 8, 16, 32 or 64")]
    BlockSize,
    /// The reference sample interval is not 1 to 4096 blocks.
    #[error("reference sample interval must be 1 to 4096")]
    Interval,
    /// The restricted set of code options is asked for with more than 4 bits per sample.
    #[error("restricted codes need 4 bits per sample or fewer")]
    RestrictedWidth,
    /// A number is no sample of these parameters; the first such number is at place `index`,
    /// counted from 0.
    #[error("sample {index} is out of range")]
    SampleRange { index: u64 },
    /// A coded data set runs off the end of the stream.
    #[error("coded data is cut short at bit {bit}")]
    Truncated { bit: u64 },
    /// A mapped value is above the greatest that the width has.
    #[error("value too large at bit {bit}")]
    ValueTooLarge { bit: u64 },
    /// A run of zero blocks has more blocks than its segment has left.
    #[error("zero run too long at bit {bit}")]
    RunTooLong { bit: u64 },
    /// There are more samples than the limit.
    #[error("more than {limit} samples")]
    TooManySamples { limit: u64 },
    /// A place is outside the samples that are present.
    #[error("position outside the {count} samples")]
    OutOfRange { count: u64 },
    /// The codec's count of coded intervals would exceed `u64::MAX`. Returned before any interval
    /// is coded.
    #[error("coder calls are spent")]
    Spent,
    /// An allocation failed, or a list of bits would have more than 2^62 bits.
    #[error("out of memory")]
    Memory,
    /// The source failed.
    #[error("read failed")]
    Read,
    /// The sink failed.
    #[error("write failed")]
    Write,
    /// A line of a script is no edit; the first such line is `line`, counted from 1.
    #[error("script line {line} is not an edit")]
    Script { line: u64 },
    /// A coded input or a script is longer than the limit.
    #[error("input is longer than {limit} bytes")]
    StreamTooLong { limit: u64 },
    /// With `even_blocks`: the block size is not an even number from 8 to 64.
    #[error("block size must be even, 8 to 64")]
    EvenBlockSize,
}

impl From<AllocError> for Fault {
    ghost use Rattle.std.specs.Prelude.{◌≡◌};
    ghost use Rattle.aec_params.specs.declared.fault.Fault.TheVariants.{Memory};

    ghost from_gives = { λ _ e. e ≡ Memory };

    fn from(_e: AllocError) -> Fault {
        Fault::Memory
    }
}

impl<T: Drop> From<AllocFailed<T>> for Fault {
    ghost use Rattle.std.specs.Prelude.{◌≡◌};
    ghost use Rattle.aec_params.specs.declared.fault.Fault.TheVariants.{Memory};

    ghost from_gives = { λ _ e. e ≡ Memory };

    fn from(_e: AllocFailed<T>) -> Fault {
        Fault::Memory
    }
}
