//! The sums of a block's values without k, k + 1 and k + 2 low bits, in one pass, if they fit eight
//! lanes of 32 bits.

ghost use Rattle.std.specs.Prelude.{◌≡◌, ◌+◌, ◌-◌, ◌*◌, ◌/◌, ◌^◌, ◌<◌, ◌≤◌, length, take};
ghost use Rattle.std.specs.Simd.Lanes.{sum_l};
ghost use Rattle.aec_block.specs.BlockShape.{most_values};
ghost use Rattle.aec_block.specs.Lengths.{sum_of_shifted, AddUpTo, IsSum, FitsLanes, AreThreeSums};

use crate::choice::sums::{rest_of_lanes, sum_one_by_one};
use std::simd::prelude::*;

/// The sums of values without k low bits, without one more, and without two more.
#[derive(Clone, Copy)]
pub(crate) struct ThreeSums {
    pub(crate) first: u64,
    pub(crate) second: u64,
    pub(crate) third: u64,
}

/// Returns eight values without their `k` low bits.
#[inline(always)]
#[tactic(auto, using(crate::proofs::LanesLemmas::shifts))]
fn small_lanes(values: &[u32], k: u32) -> u32x8
    requires k { k < 32 }
    requires len { length values.now ≡ 8 }
    ensures { AddUpTo result (sum_of_shifted k values.now) }
{
    u32x8::from_slice(values) >> u32x8::splat(k)
}

/// Adds lane to lane.
#[inline(always)]
#[tactic(auto, using(crate::proofs::ThreeSumsLemmas::additions))]
fn small_added(sums: u32x8, values: u32x8) -> u32x8
    requires lens { (length sums ≡ 8) × (length values ≡ 8) }
    requires fits { sum_l sums + sum_l values < 2 ^ 32 }
    ensures { AddUpTo result (sum_l sums + sum_l values) }
{
    sums.strict_add(values)
}

/// Returns the sum of the lanes.
#[inline(always)]
#[tactic(auto, using(crate::proofs::ThreeSumsLemmas::additions))]
fn small_sum(sums: u32x8) -> u64
    requires fits { sum_l sums < 2 ^ 32 }
    ensures sum { result ≡ sum_l sums }
    ensures bound { result < 2 ^ 32 }
{
    u64::from(sums.strict_reduce_sum())
}

/// Returns the sums without `k`, `k + 1` and `k + 2` low bits of the values that fill lanes: of all
/// but the last few, fewer than eight.
#[inline(always)]
fn three_by_eights(values: &[u32], k: u32) -> ThreeSums
    requires k { k < 30 }
    requires small { sum_of_shifted k values.now < 2 ^ 32 }
    ensures { AreThreeSums k (take (8 * (length values.now / 8)) values.now) (2 ^ 32 - 1) result }
{
    let mut first = u32x8::splat(0);
    let mut second = u32x8::splat(0);
    let mut third = u32x8::splat(0);
    for i in 0..values.len() / 8 {
        let eight = &values[8 * i..8 * i + 8];
        first = small_added(first, small_lanes(eight, k));
        second = small_added(second, small_lanes(eight, k + 1));
        third = small_added(third, small_lanes(eight, k + 2));
    }
    ThreeSums {
        first: small_sum(first),
        second: small_sum(second),
        third: small_sum(third),
    }
}

/// Returns the same sums of a few values, one by one.
#[inline(always)]
fn three_of_few(values: &[u32], k: u32) -> ThreeSums
    requires k { k < 30 }
    requires few { length values.now < 8 }
    ensures { AreThreeSums k values.now (2 ^ 38) result }
{
    ThreeSums {
        first: sum_one_by_one(values, k),
        second: sum_one_by_one(values, k + 1),
        third: sum_one_by_one(values, k + 2),
    }
}

/// Returns the sums of values without `k` low bits, without one more, and without two more.
#[inline(always)]
#[tactic(auto, using(crate::proofs::LanesLemmas::joined_sums))]
pub(crate) fn three_sums(values: &[u32], k: u32) -> ThreeSums
    requires k { k < 30 }
    requires len { length values.now ≤ most_values }
    requires small { sum_of_shifted k values.now < 2 ^ 32 }
    ensures { AreThreeSums k values.now (2 ^ 39) result }
{
    let eights = three_by_eights(values, k);
    let few = three_of_few(rest_of_lanes(values), k);
    ThreeSums {
        first: eights.first + few.first,
        second: eights.second + few.second,
        third: eights.third + few.third,
    }
}

/// Returns the sum, without their `k` low bits, of the values that fill lanes: of all but the last
/// few, fewer than eight.
#[inline(always)]
fn small_by_eights(values: &[u32], k: u32) -> u64
    requires { FitsLanes k values.now }
    ensures { IsSum k (take (8 * (length values.now / 8)) values.now) (2 ^ 32 - 1) result }
{
    let mut sums = u32x8::splat(0);
    for i in 0..values.len() / 8 {
        sums = small_added(sums, small_lanes(&values[8 * i..8 * i + 8], k));
    }
    small_sum(sums)
}

/// Returns the sum of the values without their `k` low bits, which fits 32 bits.
#[inline(always)]
#[tactic(auto, using(crate::proofs::LanesLemmas::joined_sums))]
pub(crate) fn small_shifted_sum(values: &[u32], k: u32) -> u64
    requires len { length values.now ≤ most_values }
    requires lanes { FitsLanes k values.now }
    ensures { IsSum k values.now (2 ^ 32 - 1) result }
{
    small_by_eights(values, k) + sum_one_by_one(rest_of_lanes(values), k)
}
