//! Unmaps blocks of values, and appends their samples to those that were read.

ghost use Rattle.std.specs.Prelude.{◌≡◌, ◌+◌, ◌<◌, ◌≤◌, ◌^◌, ◌∷◌, ◌++◌, [], List, pos, length, replicate, vec_len, vec_capacity};
ghost use Rattle.std.specs.List.{AllByRecursion};
ghost use Rattle.aec_params.specs.Params.{IsAllowed, IsHeld};
ghost use Rattle.aec_block.specs.Unmapping.{Unmaps};
ghost use Rattle.aec_interval.specs.NextBlock.{IsNextBlock, FillsNext};

use crate::segment::previous_of;
use aec_block::{Block, unmap_into};
use aec_params::Params;

/// Appends `count` places for the next samples. Allocates nothing.
#[inline(always)]
fn push_places(samples: &mut Vec<i64>, count: usize)
    requires room { vec_len samples.old + count ≤ vec_capacity samples.old }
    ensures items { samples.new.items ≡ samples.old.items ++ replicate count (pos 0) }
    ensures len { vec_len samples.new ≡ vec_len samples.old + count }
    ensures capacity { vec_capacity samples.new ≡ vec_capacity samples.old }
{
    for i in 0..count {
        samples.push_reserved(0);
    }
}

/// Appends the samples for which a block's values are coded, each predicted from the one before it,
/// the first from `previous`. Allocates nothing.
fn push_unmapped(params: &Params, previous: i64, values: &[u32], samples: &mut Vec<i64>)
    requires prediction { IsHeld params.now previous }
    requires mapped { AllByRecursion (λ v. v < 2 ^ params.now.bits) values.now }
    requires room { vec_len samples.old + length values.now ≤ vec_capacity samples.old }
    ensures items { Unmaps params.now previous values.now samples.old.items samples.new.items }
    ensures len { vec_len samples.new ≡ vec_len samples.old + length values.now }
    ensures capacity { vec_capacity samples.new ≡ vec_capacity samples.old }
{
    let from = samples.len();
    push_places(samples, values.len());
    let all = samples.as_mut_slice();
    unmap_into(params, previous, values, &mut all[from..]);
}

/// Appends the samples of the next block. Allocates nothing.
pub(crate) fn push_block(params: &Params, block: &Block, samples: &mut Vec<i64>)
    requires allowed { IsAllowed params.now }
    requires next { IsNextBlock params.now samples.old.items block.now }
    requires held { AllByRecursion (IsHeld params.now) samples.old.items }
    requires room { vec_len samples.old + params.now.block_size ≤ vec_capacity samples.old }
    ensures items { FillsNext params.now samples.old.items samples.new.items (block.now ∷ []) }
    ensures len { vec_len samples.new ≡ vec_len samples.old + params.now.block_size }
    ensures capacity { vec_capacity samples.old ≤ vec_capacity samples.new }
{
    match block.reference() {
        None => {
            let previous = previous_of(samples);
            push_unmapped(params, previous, block.values(), samples);
        }
        Some(pattern) => {
            // The 0 in the reference place is coded for the prediction itself.
            let first = params.value(pattern);
            push_unmapped(params, first, block.values(), samples);
        }
    }
}
