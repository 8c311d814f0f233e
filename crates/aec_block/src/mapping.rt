//! Prediction and mapping: a sample and its prediction as one number without sign, and back.

mod eight_offsets;
pub(crate) mod mapped_blocks;
mod small_differences;
pub(crate) mod unmapping;

ghost use Rattle.std.specs.Prelude.{◌≡◌, ℕ, ◌+◌, ◌<◌, ◌≤◌, ◌^◌, ℤ, pos, ◌+ℤ◌, ◌-ℤ◌, ◌≤ℤ◌, unsigned_abs, true, false, length, vec_len, vec_capacity};
ghost use Rattle.std.specs.List.{AllByRecursion};
ghost use Rattle.aec_params.specs.Params.{IsAllowed, IsHeld, x_min};
ghost use Rattle.aec_params.specs.Mapping.{mapped_value};
ghost use Rattle.aec_block.specs.Offsets.{sample_offset, top_offset, mapped_offset, near_difference, IsUnmapped};
ghost use Rattle.aec_block.specs.Unmapping.{IsOnlySample};

use aec_params::Params;

/// Returns the value that is coded for the offset `x` at the prediction `p`. Differences within the
/// room on both sides of `p` alternate between the sides: twice the difference, and one less below
/// `p`. Larger ones are numbered after these. No branch depends on the sample.
pub(crate) fn map_offset(top: u32, p: u32, x: u32) -> u32
    requires prediction { p ≤ top }
    requires offset { x ≤ top }
    ensures value { result ≡ mapped_offset top p x }
    ensures fits { result ≤ top }
{
    let room = p.min(top - p);
    let distance = x.abs_diff(p);
    distance + distance.min(room) - u32::from((x < p) & (distance <= room))
}

/// Returns the offset for which `m` is coded at the prediction `p`.
pub(crate) fn unmap_offset(top: u32, p: u32, m: u32) -> u32
    requires prediction { p ≤ top }
    requires mapped { m ≤ top }
    ensures { IsUnmapped top p m result }
{
    let half = m / 2;
    let difference = if m % 2 == 0 { half } else { !half };
    unmap_by_difference(top, p, m, difference)
}

/// Returns the offset for which `m` is coded at the prediction `p`. `difference` is the one for
/// which a near `m` is coded, modulo 2^32. Computes the near and the far offset before it selects
/// one, so that no branch depends on the sign or parity.
#[inline(always)]
pub(crate) fn unmap_by_difference(top: u32, p: u32, m: u32, difference: u32) -> u32
    requires prediction { p ≤ top }
    requires mapped { m ≤ top }
    requires difference { difference ≡ near_difference m }
    ensures { IsUnmapped top p m result }
{
    let room = p.min(top - p);
    let near = p.wrapping_add(difference);
    let far = if p <= top - p { m } else { top - m };
    if m <= 2 * room { near } else { far }
}

/// Returns the offset of the greatest sample.
#[tactic(auto, using(crate::proofs::MappingLemmas::offsets))]
pub(crate) fn greatest_offset(params: &Params) -> u32
    ensures value { result ≡ top_offset params.now }
    ensures allowed { IsAllowed params.now }
{
    ((1u64 << params.bits()) - 1) as u32
}

/// Returns how far a sample lies above the least one.
#[tactic(auto, using(crate::proofs::MappingLemmas::offsets))]
pub(crate) fn offset_of(params: &Params, x: i64) -> u32
    requires { IsHeld params.now x }
    ensures value { result ≡ sample_offset params.now x }
    ensures within { result ≤ top_offset params.now }
{
    x.abs_diff(params.x_min()) as u32
}

/// Returns how far a number lies above another.
pub(crate) fn offset_above(least: i64, x: i64) -> u32
    requires above { least ≤ℤ x }
    requires near { unsigned_abs (x -ℤ least) < 2 ^ 32 }
    ensures { result ≡ unsigned_abs (x -ℤ least) }
{
    (x - least) as u32
}

/// Returns the sample that lies `offset` above the least one.
#[tactic(auto, using(crate::proofs::MappingLemmas::offsets))]
fn sample_at(params: &Params, offset: u32) -> i64
    requires { offset ≤ top_offset params.now }
    ensures held { IsHeld params.now result }
    ensures value { sample_offset params.now result ≡ offset }
{
    params.x_min() + i64::from(offset)
}

/// Returns the value, below `2^n`, that is coded for the sample `x` at the prediction `p`: without
/// preprocessing, the sample's pattern.
#[tactic(auto, using(crate::proofs::MappingLemmas::mapping))]
pub fn map(params: &Params, p: i64, x: i64) -> u32
    requires prediction { IsHeld params.now p }
    requires sample { IsHeld params.now x }
    ensures value { result ≡ mapped_value params.now p x }
    ensures fits { result < 2 ^ params.now.bits }
{
    if params.preprocess() {
        let top = greatest_offset(params);
        map_offset(top, offset_of(params, p), offset_of(params, x))
    } else {
        params.pattern(x)
    }
}

/// Returns the one sample for which `m` is coded at the prediction `p`.
#[tactic(auto, using(crate::proofs::MappingLemmas::mapping))]
pub fn unmap(params: &Params, p: i64, m: u32) -> i64
    requires prediction { IsHeld params.now p }
    requires mapped { m < 2 ^ params.now.bits }
    ensures { IsOnlySample params.now p m result }
{
    let top = greatest_offset(params);
    if params.preprocess() {
        let offset = unmap_offset(top, offset_of(params, p), m);
        sample_at(params, offset)
    } else {
        params.value(m)
    }
}
