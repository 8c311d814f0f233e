//! Adds up the values of a block without their low bits, in eight lanes of 64 bits.

ghost use Rattle.std.specs.Prelude.{◌≡◌, ◌+◌, ◌*◌, ◌/◌, ◌^◌, ◌<◌, ◌≤◌, length, take, drop};
ghost use Rattle.std.specs.Simd.Lanes.{sum_l};
ghost use Rattle.aec_block.specs.BlockShape.{most_values};
ghost use Rattle.aec_block.specs.Lengths.{CanSum, AddUpTo, IsSum};

use std::simd::prelude::*;

/// Returns eight values without their `k` low bits.
#[inline(always)]
#[tactic(auto, using(crate::proofs::LanesLemmas::shifts))]
fn shifted_lanes(values: &[u32], k: u32) -> u64x8
    requires k { k < 32 }
    requires len { length values.now ≡ 8 }
    ensures len { length result ≡ 8 }
    ensures sum { IsSum k values.now (8 * 2 ^ 32) (sum_l result) }
{
    u32x8::from_slice(values).cast::<u64>() >> u64x8::splat(u64::from(k))
}

/// Adds lane to lane.
#[inline(always)]
#[tactic(auto, using(crate::proofs::LanesLemmas::additions))]
fn added_lanes(sums: u64x8, values: u64x8) -> u64x8
    requires lens { (length sums ≡ 8) × (length values ≡ 8) }
    requires fits { sum_l sums + sum_l values < 2 ^ 64 }
    ensures { AddUpTo result (sum_l sums + sum_l values) }
{
    sums.strict_add(values)
}

/// Returns the sum of the lanes.
#[inline(always)]
#[tactic(auto, using(crate::proofs::LanesLemmas::additions))]
fn sum_of_lanes(sums: u64x8) -> u64
    requires fits { sum_l sums < 2 ^ 64 }
    ensures sum { result ≡ sum_l sums }
{
    sums.strict_reduce_sum()
}

/// Returns the sum, without their `k` low bits, of the values that fill lanes: all but the last
/// few, fewer than eight.
#[inline(always)]
pub(crate) fn sum_by_eights(values: &[u32], k: u32) -> u64
    requires { CanSum k values.now }
    ensures { IsSum k (take (8 * (length values.now / 8)) values.now) (most_values * 2 ^ 32)
        result }
{
    let mut sums = u64x8::splat(0);
    for i in 0..values.len() / 8 {
        sums = added_lanes(sums, shifted_lanes(&values[8 * i..8 * i + 8], k));
    }
    sum_of_lanes(sums)
}

/// Returns the values after the last whole eight, fewer than eight.
#[inline(always)]
#[tactic(auto, using(crate::proofs::LanesLemmas::rests))]
pub(crate) fn rest_of_lanes(values: &[u32]) -> &[u32]
    ensures rest { result.now ≡ drop (8 * (length values.now / 8)) values.now }
{
    &values[8 * (values.len() / 8)..]
}

/// Returns the sum of a few values without their `k` low bits, one by one.
#[inline(always)]
pub(crate) fn sum_one_by_one(values: &[u32], k: u32) -> u64
    requires { CanSum k values.now }
    ensures { IsSum k values.now (most_values * 2 ^ 32) result }
{
    let mut sum = 0u64;
    for v in values {
        sum += u64::from(*v >> k);
    }
    sum
}

/// Adds up the values without their `k` low bits: eight at a time in eight lanes of 64 bits, and
/// the rest one by one.
#[inline(always)]
#[tactic(auto, using(crate::proofs::LanesLemmas::joined_sums))]
pub(crate) fn shifted_sum(values: &[u32], k: u32) -> u64
    requires { CanSum k values.now }
    ensures { IsSum k values.now (2 * (most_values * 2 ^ 32)) result }
{
    sum_by_eights(values, k) + sum_one_by_one(rest_of_lanes(values), k)
}
