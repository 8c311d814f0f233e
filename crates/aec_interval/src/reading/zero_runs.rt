//! Turns runs of zero blocks back into samples.

ghost use Rattle.std.specs.Prelude.{◌≡◌, ◌≤◌, ◌<◌, ◌+◌, ◌*◌, ◌%◌, ◌^◌, vec_len, vec_capacity, IfSome};
ghost use Rattle.aec_params.specs.Params.{IsAllowed};
ghost use Rattle.aec_params.specs.CodedDataSets.{HasReference};
ghost use Rattle.aec_params.specs.Places.{is_reference_block};
ghost use Rattle.aec_interval.specs.NextBlock.{FillsNext, run_blocks, sample_of_zeros};
ghost use Rattle.aec_interval.specs.Reached.{AreFilled};

use crate::segment::previous_of;
use aec_params::Params;

/// Returns the sample that a zero block repeats after these: that of its reference, or else the
/// prediction, or 0 if nothing is predicted.
#[tactic(auto, using(crate::proofs::ZeroRunLemmas::repeated))]
pub(crate) fn repeated_sample(params: &Params, reference: Option<u32>, samples: &[i64]) -> i64
    requires { IfSome reference (λ r. r < 2 ^ params.now.bits) }
    ensures { result ≡ sample_of_zeros params.now reference samples.now }
{
    match reference {
        Some(pattern) => params.value(pattern),
        None if params.preprocess() => previous_of(samples),
        None => 0,
    }
}

/// Appends the samples of the next `blocks` zero blocks, after `block` others. The first has the
/// reference sample if there is one. All these samples are equal. Allocates nothing.
pub(crate) fn push_zero_run(
    params: &Params,
    reference: Option<u32>,
    blocks: u64,
    block: u64,
    samples: &mut Vec<i64>,
)
    requires allowed { IsAllowed params.now }
    requires some { 1 ≤ blocks }
    requires within { block % params.now.interval + blocks ≤ params.now.interval }
    requires due { HasReference params.now
        (is_reference_block params.now (block % params.now.interval)) reference }
    requires filled { AreFilled params.now block samples.old.items }
    requires room { vec_len samples.old + blocks
        * params.now.block_size ≤ vec_capacity samples.old }
    ensures items { FillsNext params.now samples.old.items samples.new.items
        (run_blocks params.now reference blocks) }
    ensures len { vec_len samples.new ≡ vec_len samples.old + blocks * params.now.block_size }
    ensures capacity { vec_capacity samples.old ≤ vec_capacity samples.new }
{
    let more = blocks * u64::from(params.block_size());
    let sample = repeated_sample(params, reference, samples);
    samples
        .resize(samples.len() + more as usize, sample)
        .unwrap();
}
