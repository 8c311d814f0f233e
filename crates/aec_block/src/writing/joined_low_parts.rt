//! The low bits of several values as one number.

ghost use Rattle.std.specs.Prelude.{◌≡◌, ◌*◌, ◌%◌, ◌^◌, ◌<◌, ◌≤◌, length, get_or, map as list_map};
ghost use Rattle.std.specs.List.{AllByRecursion, flat_map};
ghost use Rattle.aec_params.specs.Codewords.{binary};
ghost use Rattle.aec_block.specs.Written.{low_parts, Spells};

use std::simd::prelude::*;

/// Returns the lowest `width` bits of the value at a place.
#[inline(always)]
#[tactic(auto, using(crate::proofs::LowWordLemmas::low_words))]
fn low_part(values: &[u32], i: usize, width: u32) -> u64
    requires within { i < length values.now }
    requires width { width ≤ 32 }
    ensures value { result ≡ get_or values.now i 0 % 2 ^ width }
    ensures fits { result < 2 ^ width }
{
    u64::from(values[i]) % (1 << width)
}

/// Returns the lowest `width` bits of eight values.
#[inline(always)]
fn low_parts_of(values: &[u32], width: u32) -> [u32; 8]
    requires eight { length values.now ≡ 8 }
    requires width { width < 32 }
    ensures { result ≡ list_map (λ v. v % 2 ^ width) values.now }
{
    (u32x8::from_slice(values) & u32x8::splat((1 << width) - 1)).to_array()
}

/// Returns eight numbers of `width` bits, one after the other: joined in lanes by twos and fours.
#[inline(always)]
fn joined_eight(numbers: &[u32; 8], width: u32) -> u64
    requires width { width ≤ 7 }
    requires small { AllByRecursion (λ v. v < 2 ^ width) numbers.now }
    ensures { Spells (8 * width) (flat_map (binary width) numbers.now) result }
{
    let all = u32x8::from_array(*numbers);
    let evens: u32x4 = all.swizzle([0, 2, 4, 6]);
    let odds: u32x4 = all.swizzle([1, 3, 5, 7]);
    let twos = (evens << u32x4::splat(width)) + odds;
    let first: u32x2 = twos.swizzle([0, 2]);
    let second: u32x2 = twos.swizzle([1, 3]);
    let fours = ((first << u32x2::splat(2 * width)) + second).to_array();
    (u64::from(fours[0]) << (4 * width)) + u64::from(fours[1])
}

/// Returns the lowest `width` bits of values, one after the other: fewer than 64 bits.
#[inline(always)]
pub(crate) fn low_word(values: &[u32], width: u32) -> u64
    requires width { width ≤ 32 }
    requires few { length values.now * width < 64 }
    ensures { Spells (length values.now * width) (low_parts width values.now) result }
{
    if values.len() == 8 {
        return joined_eight(&low_parts_of(values, width), width);
    }
    let mut word = 0;
    for i in 0..values.len() {
        word = (word << width) + low_part(values, i, width);
    }
    word
}
