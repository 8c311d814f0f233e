//! Maps the samples of whole blocks.

ghost use Rattle.std.specs.Prelude.{◌≡◌, ◌<◌, length};
ghost use Rattle.std.specs.List.{AllByRecursion};
ghost use Rattle.aec_params.specs.Params.{IsHeld};
ghost use Rattle.aec_block.specs.BlockShape.{block_with};
ghost use Rattle.aec_interval.specs.Chunks.{values_after, reference_after, AreBlockAfter, IsFilledBlock};

use aec_block::{map_first, map_list};
use aec_params::Params;

/// Returns the reference of a block of samples after `previous`, or at an interval's start.
#[inline(always)]
pub(crate) fn reference_after(
    params: &Params,
    previous: Option<i64>,
    samples: &[i64],
) -> Option<u32>
    requires some { 0 < length samples.now }
    requires held { AllByRecursion (IsHeld params.now) samples.now }
    ensures { result ≡ reference_after params.now previous samples.now }
{
    if previous.is_none() && params.preprocess() {
        Some(params.pattern(samples[0]))
    } else {
        None
    }
}

/// Fills `values` with what is coded for samples after `previous`, or at an interval's start.
#[inline(always)]
fn map_samples(params: &Params, previous: Option<i64>, samples: &[i64], values: &mut [u32])
    requires block { AreBlockAfter params.now previous samples.now }
    requires len { length samples.now ≡ length values.old }
    ensures { values.new ≡ values_after params.now previous samples.now }
{
    match previous {
        None => map_first(params, samples, values),
        Some(p) => map_list(params, p, samples, values),
    }
}

/// Fills `values` with the values of a whole block of samples after `previous`, or at an interval's
/// start. Returns the reference, if there is one.
#[inline(always)]
pub(crate) fn map_block(
    params: &Params,
    previous: Option<i64>,
    samples: &[i64],
    values: &mut [u32],
) -> Option<u32>
    requires block { AreBlockAfter params.now previous samples.now }
    requires whole { length samples.now ≡ params.now.block_size }
    requires len { length values.old ≡ length samples.now }
    ensures filled { IsFilledBlock params.now previous samples.now
        (block_with result values.new) }
    ensures len { length values.new ≡ length values.old }
{
    map_samples(params, previous, samples, values);
    reference_after(params, previous, samples)
}
