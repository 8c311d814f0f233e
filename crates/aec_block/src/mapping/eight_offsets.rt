//! Maps eight offsets at once, each predicted by the one before it.

ghost use Rattle.std.specs.Prelude.{◌≡◌, ◌+◌, ◌-◌, ◌%◌, ◌^◌, ◌<◌, ◌≤◌, ◌∷◌, ℕ, min, max, length, take, get_or};
ghost use Rattle.std.specs.List.{AllByRecursion};
ghost use Rattle.aec_block.specs.Offsets.{mapped_offsets};

use crate::mapping::small_differences::rooms_at;
use std::simd::prelude::*;

/// Returns the prediction of each of eight offsets: the one before it, for the first `previous`.
#[inline(always)]
#[tactic(auto, using(crate::proofs::EightOffsetsLemmas::shifted))]
fn predictions(previous: u32, offsets: &[u32; 8]) -> [u32; 8]
    ensures { result ≡ previous ∷ take 7 offsets.now }
{
    let all = u32x8::from_array(*offsets);
    u32x8::splat(previous)
        .shuffle(all, [0, 8, 9, 10, 11, 12, 13, 14])
        .to_array()
}

/// Returns the lesser number of each of eight pairs.
#[inline(always)]
#[tactic(auto, using(crate::proofs::EightOffsetsLemmas::lesser_lanes))]
fn lesser_of(xs: &[u32; 8], ys: &[u32; 8]) -> [u32; 8]
    ensures { (i : ℕ) → i < 8
        → get_or result i 0 ≡ min (get_or xs.now i 0) (get_or ys.now i 0) }
{
    u32x8::from_array(*xs)
        .simd_min(u32x8::from_array(*ys))
        .to_array()
}

/// Returns the greater number of each of eight pairs.
#[inline(always)]
#[tactic(auto, using(crate::proofs::EightOffsetsLemmas::greater_lanes))]
fn greater_of(xs: &[u32; 8], ys: &[u32; 8]) -> [u32; 8]
    ensures { (i : ℕ) → i < 8
        → get_or result i 0 ≡ max (get_or xs.now i 0) (get_or ys.now i 0) }
{
    u32x8::from_array(*xs)
        .simd_max(u32x8::from_array(*ys))
        .to_array()
}

/// Returns the sum of each of eight pairs, modulo 2^32.
#[inline(always)]
#[tactic(auto, using(crate::proofs::EightOffsetsLemmas::sum_lanes))]
fn sums_of(xs: &[u32; 8], ys: &[u32; 8]) -> [u32; 8]
    ensures { (i : ℕ) → i < 8
        → get_or result i 0 ≡ (get_or xs.now i 0 + get_or ys.now i 0) % 2 ^ 32 }
{
    (u32x8::from_array(*xs) + u32x8::from_array(*ys)).to_array()
}

/// Returns the difference of each of eight pairs, modulo 2^32.
#[inline(always)]
#[tactic(auto, using(crate::proofs::EightOffsetsLemmas::difference_lanes))]
fn differences_of(xs: &[u32; 8], ys: &[u32; 8]) -> [u32; 8]
    ensures { (i : ℕ) → i < 8
        → get_or result i 0 ≡ (get_or xs.now i 0 + (2 ^ 32 - get_or ys.now i 0)) % 2 ^ 32 }
{
    (u32x8::from_array(*xs) - u32x8::from_array(*ys)).to_array()
}

/// Returns the values that are coded for eight offsets, each predicted by the one before it, the
/// first by `previous`. For an offset below its prediction, adds 1 to the room and subtracts 1 at
/// the end.
#[inline(always)]
pub(crate) fn map_eight(top: u32, previous: u32, offsets: &[u32; 8]) -> [u32; 8]
    requires { AllByRecursion (λ x. x ≤ top) (previous ∷ offsets.now) }
    ensures { result ≡ mapped_offsets top previous offsets.now }
{
    let before = predictions(previous, offsets);
    let above = greater_of(offsets, &before);
    let distances = differences_of(&above, &lesser_of(offsets, &before));
    let below = lesser_of(
        &differences_of(&above, offsets),
        &u32x8::splat(1).to_array(),
    );
    let reached = lesser_of(&distances, &sums_of(&rooms_at(top, &before), &below));
    differences_of(&sums_of(&distances, &reached), &below)
}
