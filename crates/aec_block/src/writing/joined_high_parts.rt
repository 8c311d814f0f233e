//! The codewords of values without their low bits, as one number.

ghost use Rattle.std.specs.Prelude.{◌≡◌, ℕ, ◌+◌, ◌/◌, ◌^◌, ◌<◌, ◌≤◌, length, map};
ghost use Rattle.aec_block.specs.BlockShape.{most_values};
ghost use Rattle.aec_block.specs.HighWords.{GoesOn};
ghost use Rattle.aec_block.specs.Lengths.{FitsLanes};
ghost use Rattle.aec_block.specs.Written.{high_parts, FitsHighWord, Spells};

use crate::choice::sums_of_three::small_shifted_sum;
use std::simd::prelude::*;

/// Returns how many bits the codewords of values without their `k` low bits have. The values
/// without these bits add up to less than 2^32.
#[inline(always)]
pub(crate) fn high_word_len(values: &[u32], k: u32) -> u64
    requires len { length values.now ≤ most_values }
    requires lanes { FitsLanes k values.now }
    ensures { result ≡ length (high_parts k values.now) }
{
    small_shifted_sum(values, k) + values.len() as u64
}

/// Returns eight values without their `k` low bits.
#[inline(always)]
#[tactic(auto, using(crate::proofs::LanesLemmas::shifts))]
pub(crate) fn eight_highs(values: &[u32], k: u32) -> u32x8
    requires k { k < 32 }
    requires len { length values.now ≡ 8 }
    ensures { result ≡ map (λ v. v / 2 ^ k) values.now }
{
    u32x8::from_slice(values) >> u32x8::splat(k)
}

/// Returns a word of codewords, and after them those of eight values without their `k` low bits.
#[inline(always)]
fn with_eight(values: &[u32], k: u32, mut word: u64) -> u64
    requires len { length values.now ≡ 8 }
    requires few { FitsHighWord k values.now }
    ensures { (used : ℕ) → used + length (high_parts k values.now) ≤ 64 → word < 2 ^ used
        → GoesOn k used word values.now result }
{
    let highs = eight_highs(values, k);
    for i in 0..8 {
        word = ((word << highs[i]) << 1) + 1;
    }
    word
}

/// Returns a word of codewords, and after them those of a few values without their `k` low bits.
#[inline(always)]
fn with_each(values: &[u32], k: u32, mut word: u64) -> u64
    requires { FitsHighWord k values.now }
    ensures { (used : ℕ) → used + length (high_parts k values.now) ≤ 64 → word < 2 ^ used
        → GoesOn k used word values.now result }
{
    for v in values {
        word = ((word << (*v >> k)) << 1) + 1;
    }
    word
}

/// Returns the codewords of values without their `k` low bits, one after the other: fewer than 64
/// bits. Takes eight values at a time, whose low bits it removes in lanes, and the last few one by
/// one.
#[inline(always)]
pub(crate) fn high_word(values: &[u32], k: u32) -> u64
    requires { FitsHighWord k values.now }
    ensures { Spells (length (high_parts k values.now)) (high_parts k values.now) result }
{
    let mut word = 0;
    for i in 0..values.len() / 8 {
        word = with_eight(&values[8 * i..8 * i + 8], k, word);
    }
    let whole = 8 * (values.len() / 8);
    with_each(&values[whole..], k, word)
}
