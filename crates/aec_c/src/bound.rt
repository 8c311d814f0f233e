//! A length that no code exceeds.

ghost use Rattle.std.specs.Prelude.{◌≡◌, ◌≤◌};
ghost use Rattle.aec_params.specs.Limits.{most_samples};
ghost use Rattle.aec_c.specs.Calls.{settings_of};
ghost use Rattle.aec_c.specs.Bounds.{bound_of, most_bytes};

use crate::options::{Options, settings_of};
use aec_params::{MAX_SAMPLES, Params};

/// Returns the bound for allowed settings: five bits and the plain samples for each block, and a
/// byte for each interval.
fn bound_within(params: &Params, samples: u64) -> u64
    requires { samples ≤ most_samples }
    ensures { result ≡ most_bytes params.now samples }
{
    let size = u64::from(params.block_size());
    let blocks = samples.div_ceil(size);
    let bits = blocks * (5 + size * u64::from(params.bits()));
    bits.div_ceil(8) + blocks.div_ceil(u64::from(params.interval()))
}

/// Returns how many bytes always suffice for the code of this many samples; 0 if the options are
/// refused or the samples are more than `MAX_SAMPLES`.
pub(crate) fn bound_of(options: &Options, samples: u64) -> u64
    ensures { result ≡ bound_of (settings_of options.now) samples }
{
    match Params::new(settings_of(options)) {
        Ok(params) if samples <= MAX_SAMPLES => bound_within(&params, samples),
        _ => 0,
    }
}
