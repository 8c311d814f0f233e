//! Unmaps eight values at once if each difference is within the room on both sides of its
//! prediction. Then a value determines its difference, sums modulo 2^32 are the offsets, and the
//! room at each offset confirms the condition. The same sums modulo 2 are the offsets if these and
//! the values are all 0 or 1.

ghost use Rattle.std.specs.Prelude.{◌≡◌, ◌+◌, ◌-◌, ◌*◌, ◌/◌, ◌%◌, ◌^◌, ◌<◌, ◌≤◌, ◌+ℤ◌, true, pos, ℕ, length, take, map as list_map, get_or, vec_len, vec_capacity};
ghost use Rattle.std.specs.List.{AllByRecursion};
ghost use Rattle.aec_params.specs.Params.{x_min};
ghost use Rattle.aec_block.specs.Offsets.{top_offset, offset_room, near_difference, places_before, places_after};
ghost use Rattle.aec_block.specs.Unmapping.{UnmapsTo};

use std::simd::prelude::*;

/// Returns the differences for which eight near values are coded, modulo 2^32: half of an even
/// value, and for an odd one the half with all bits inverted.
#[inline(always)]
#[tactic(auto, using(crate::proofs::NearLaneLemmas::differences))]
pub(crate) fn near_differences(values: &[u32]) -> [u32; 8]
    requires { length values.now ≡ 8 }
    ensures { result ≡ list_map near_difference values.now }
{
    let all = u32x8::from_slice(values);
    let odd = all & u32x8::splat(1);
    let halves = all >> u32x8::splat(1);
    (halves ^ (u32x8::splat(0) - odd)).to_array()
}

/// Returns where each of eight consecutive differences starts, the first at `offset`: modulo 2^32.
#[inline(always)]
#[tactic(auto, using(crate::proofs::NearLaneLemmas::running))]
pub(crate) fn running_places(offset: u32, differences: &[u32; 8]) -> [u32; 8]
    ensures { result ≡ places_before offset differences.now }
{
    let zeros = u32x8::splat(0);
    let steps = u32x8::from_array(*differences);
    // Running sums by doubling: each lane adds the one 1, then 2, then 4 places before it.
    let one = u32x8::splat(offset).shuffle(steps, [0, 8, 9, 10, 11, 12, 13, 14]);
    let two = one + zeros.shuffle(one, [0, 8, 9, 10, 11, 12, 13, 14]);
    let four = two + zeros.shuffle(two, [0, 1, 8, 9, 10, 11, 12, 13]);
    (four + zeros.shuffle(four, [0, 1, 2, 3, 8, 9, 10, 11])).to_array()
}

/// Returns the place that each of eight differences leads to from its own place: modulo 2^32.
#[inline(always)]
#[tactic(auto, using(crate::proofs::NearLaneLemmas::next_lanes))]
pub(crate) fn next_places(before: &[u32; 8], differences: &[u32; 8]) -> [u32; 8]
    ensures { (p : ℕ) → before.now ≡ places_before p differences.now
        → result ≡ places_after p differences.now }
{
    (u32x8::from_array(*before) + u32x8::from_array(*differences)).to_array()
}

/// Returns 1 for each of eight places that is odd, and 0 for each that is even.
#[inline(always)]
#[tactic(auto, using(crate::proofs::NearLaneLemmas::parity_lanes))]
pub(crate) fn parities(places: &[u32; 8]) -> [u32; 8]
    ensures { result ≡ list_map (λ x. x % 2) places.now }
{
    (u32x8::from_array(*places) & u32x8::splat(1)).to_array()
}

/// Returns the least room on both sides that each of eight near values needs.
#[inline(always)]
#[tactic(auto, using(crate::proofs::NearLaneLemmas::room_lanes))]
fn needed_rooms(values: &[u32]) -> [u32; 8]
    requires { length values.now ≡ 8 }
    ensures { result ≡ list_map (λ v. v - v / 2) values.now }
{
    let all = u32x8::from_slice(values);
    (all - (all >> u32x8::splat(1))).to_array()
}

/// Returns the room on both sides of each of eight places that is an offset.
#[inline(always)]
#[tactic(auto, using(crate::proofs::NearLaneLemmas::rooms))]
pub(crate) fn rooms_at(top: u32, places: &[u32; 8]) -> [u32; 8]
    ensures { (i : ℕ) → i < 8 → get_or places.now i 0 ≤ top
        → get_or result i 0 ≡ offset_room top (get_or places.now i 0) }
{
    let below = u32x8::from_array(*places);
    below.simd_min(u32x8::splat(top) - below).to_array()
}

/// Returns true only if none of eight numbers is above its bound; false means nothing. No branch
/// depends on a single number.
#[inline(always)]
fn are_within(numbers: &[u32; 8], bounds: &[u32; 8]) -> bool
    ensures { result ≡ true → (i : ℕ) → i < 8
        → get_or numbers.now i 0 ≤ get_or bounds.now i 0 }
{
    u32x8::from_array(*numbers)
        .simd_le(u32x8::from_array(*bounds))
        .all()
}

/// Returns eight values as an array.
#[inline(always)]
fn array_of(values: &[u32]) -> [u32; 8]
    requires { length values.now ≡ 8 }
    ensures { result ≡ values.now }
{
    u32x8::from_slice(values).to_array()
}

/// Returns true only if none of eight values is above `bound`; false means nothing.
#[inline(always)]
fn are_at_most(values: &[u32], bound: u32) -> bool
    requires { length values.now ≡ 8 }
    ensures { result ≡ true → (i : ℕ) → i < 8 → get_or values.now i 0 ≤ bound }
{
    are_within(&array_of(values), &[bound; 8])
}

/// Returns true only if an offset and each of eight values are 0 or 1; false means nothing.
#[inline(always)]
pub(crate) fn are_below_two(offset: u32, values: &[u32]) -> bool
    requires { length values.now ≡ 8 }
    ensures offset { result ≡ true → offset ≤ 1 }
    ensures values { result ≡ true → (i : ℕ) → i < 8 → get_or values.now i 0 ≤ 1 }
{
    // Most offsets are larger: this test avoids the comparison in lanes.
    offset <= 1 && are_at_most(values, 1)
}

/// Returns true only if for each of eight values `offset` plus eight times the value is at most
/// `top`; false means nothing.
#[inline(always)]
pub(crate) fn are_low(top: u32, offset: u32, values: &[u32]) -> bool
    requires within { offset ≤ top }
    requires len { length values.now ≡ 8 }
    ensures { result ≡ true → (i : ℕ) → i < 8 → offset + 8 * get_or values.now i 0 ≤ top }
{
    are_at_most(values, (top - offset) / 8)
}

/// Returns true only if each of eight values is near at its place, if that place is an offset;
/// false means nothing.
#[inline(always)]
pub(crate) fn are_near(top: u32, values: &[u32], before: &[u32; 8]) -> bool
    requires len { length values.now ≡ 8 }
    ensures { result ≡ true → (i : ℕ) → i < 8 → get_or before.now i 0 ≤ top
        → get_or values.now i 0 ≤ 2 * offset_room top (get_or before.now i 0) }
{
    are_within(&needed_rooms(values), &rooms_at(top, before))
}
