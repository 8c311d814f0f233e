//! The run of zero blocks that is counted and not yet written: it is written at its end.

ghost use Rattle.std.specs.Prelude.{◌≡◌, ◌-◌, ◌==◌, ◌<◌, if◌then◌else◌};
ghost use Rattle.std.specs.List.{list_all};
ghost use Rattle.aec_params.specs.Runs.{segment_len};
ghost use Rattle.aec_block.specs.Written.{Appends};
ghost use Rattle.aec_interval.specs.Pending.{bits_of_run, longer_run, IsRun};

use aec_bits::BitBuf;
use aec_block::write_run;
use aec_params::{Fault, Params};

/// Zero blocks that have been counted and not yet written: the reference of the first, and their
/// number.
#[derive(Clone, Copy, Debug, PartialEq, Eq)]
pub(crate) struct Run {
    pub(crate) reference: Option<u32>,
    pub(crate) blocks: u32,
}

/// No zero blocks.
pub(crate) const NO_RUN: Run = Run {
    reference: None,
    blocks: 0,
};

impl Run {
    /// Returns the run with one more zero block, which has this reference.
    #[inline(always)]
    pub(crate) fn longer(self, reference: Option<u32>) -> Run
        requires { self.blocks < segment_len }
        ensures { result ≡ longer_run self reference }
    {
        Run {
            reference: if self.blocks == 0 {
                reference
            } else {
                self.reference
            },
            blocks: self.blocks + 1,
        }
    }

    /// Appends the run; `to_end` says whether it ends its segment. Fails with `Memory` if an
    /// allocation fails; nothing is then changed.
    #[inline(always)]
    pub(crate) fn write(self, params: &Params, to_end: bool, out: &mut BitBuf) -> Result<(), Fault>
        requires { IsRun params.now (if to_end then segment_len else segment_len - 1) self }
        ensures { Appends (bits_of_run params.now self.reference self.blocks to_end)
            out.old result out.new }
    {
        if self.blocks == 0 {
            return Ok(());
        }
        write_run(params, self.reference, self.blocks, to_end, out)
    }
}

/// Returns whether all values are 0.
#[inline(always)]
pub(crate) fn are_zero(values: &[u32]) -> bool
    ensures { result ≡ list_all (λ v. v == 0) values.now }
{
    values.iter().all(|v| *v == 0)
}
