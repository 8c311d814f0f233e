//! Unmaps values to samples, overwriting a list of samples.

ghost use Rattle.std.specs.Prelude.{◌≡◌, ◌*◌, ◌/◌, ℤ, true, false, length, take};
ghost use Rattle.aec_params.specs.Params.{IsAllowed, IsHeld, x_min};
ghost use Rattle.aec_block.specs.Offsets.{top_offset, near_difference, low_offset, low_offsets, AreUnmapped};
ghost use Rattle.aec_block.specs.Unmapping.{HaveSamplePlaces, PutsSamples, CanUnmap, PutsUnmapped};

use crate::mapping::mapped_blocks::first_prediction;
use crate::mapping::small_differences::{
    are_below_two, are_low, are_near, near_differences, next_places, parities, running_places,
};
use crate::mapping::{greatest_offset, unmap_by_difference, unmap_offset};
use aec_params::Params;

/// Fills `samples` with the samples for which values are coded, the first predicted from the sample
/// at `offset`. Returns the offset of the last.
#[inline(always)]
fn put_each(params: &Params, offset: u32, values: &[u32], samples: &mut [i64]) -> u32
    requires { CanUnmap params.now offset values.now samples.old }
    ensures { PutsUnmapped params.now offset result values.now samples.old samples.new }
{
    let top = greatest_offset(params);
    let least = params.x_min();
    let mut last = offset;
    for i in 0..values.len() {
        last = unmap_offset(top, last, values[i]);
        samples[i] = least + i64::from(last);
    }
    last
}

/// Returns the offset for which `m` is coded at the prediction `p`, if at least `m` offsets lie
/// above `p`. Then a value that isn't near is its own offset. `difference` is the one for which a
/// near `m` is coded, modulo 2^32.
#[inline(always)]
fn unmap_low(p: u32, m: u32, difference: u32) -> u32
    requires { difference ≡ near_difference m }
    ensures { result ≡ low_offset p m }
{
    if u64::from(m) > 2 * u64::from(p) {
        m
    } else {
        p.wrapping_add(difference)
    }
}

/// Fills `samples` with the samples for which eight values are coded, if at least m offsets lie
/// above the prediction of each value m. Returns the offset of the last. `least` is the least
/// sample.
#[inline(always)]
fn put_low(params: &Params, least: i64, offset: u32, values: &[u32], samples: &mut [i64]) -> u32
    requires can { CanUnmap params.now offset values.now samples.old }
    requires eight { length values.now ≡ 8 }
    requires least { least ≡ x_min params.now }
    requires allowed { IsAllowed params.now }
    requires low { AreUnmapped (top_offset params.now) offset values.now
        (low_offsets offset values.now) }
    ensures { PutsUnmapped params.now offset result values.now samples.old samples.new }
{
    let differences = near_differences(values);
    let mut last = offset;
    for i in 0..8 {
        last = unmap_low(last, values[i], differences[i]);
        samples[i] = least + i64::from(last);
    }
    last
}

/// Fills `samples` with the samples for which eight values are coded, one by one. Returns the
/// offset of the last.
#[inline(always)]
fn put_any(params: &Params, offset: u32, values: &[u32], samples: &mut [i64]) -> u32
    requires can { CanUnmap params.now offset values.now samples.old }
    requires eight { length values.now ≡ 8 }
    ensures { PutsUnmapped params.now offset result values.now samples.old samples.new }
{
    let top = greatest_offset(params);
    let least = params.x_min();
    let differences = near_differences(values);
    let mut last = offset;
    for i in 0..8 {
        last = unmap_by_difference(top, last, values[i], differences[i]);
        samples[i] = least + i64::from(last);
    }
    last
}

/// Fills `samples` with the samples for which eight values are coded, whatever they are. Returns
/// the offset of the last. Out of line: values that aren't near are few, and their code would be in
/// the way.
#[inline(never)]
fn put_far(params: &Params, offset: u32, values: &[u32], samples: &mut [i64]) -> u32
    requires can { CanUnmap params.now offset values.now samples.old }
    requires eight { length values.now ≡ 8 }
    ensures { PutsUnmapped params.now offset result values.now samples.old samples.new }
{
    // `params` is read here, before the branch. So the compiler passes these numbers instead of a
    // reference, and the callers keep their copy of `params` in registers.
    let top = greatest_offset(params);
    let least = params.x_min();
    if are_low(top, offset, values) {
        return put_low(params, least, offset, values, samples);
    }
    put_any(params, offset, values, samples)
}

/// Fills `samples` with the samples at `places`, the offsets for which the eight values are coded.
/// Returns the last offset.
#[inline(always)]
fn put_places(
    params: &Params,
    offset: u32,
    values: &[u32],
    places: &[u32; 8],
    samples: &mut [i64],
) -> u32
    requires can { CanUnmap params.now offset values.now samples.old }
    requires eight { length values.now ≡ 8 }
    requires places { AreUnmapped (top_offset params.now) offset values.now places.now }
    ensures { PutsUnmapped params.now offset result values.now samples.old samples.new }
{
    let least = params.x_min();
    let mut place = offset;
    for i in 0..8 {
        place = places[i];
        samples[i] = least + i64::from(place);
    }
    place
}

/// Fills `samples` with the samples for which eight values are coded: at once if the values and
/// `offset` are 0 or 1, or if all values are near; else one by one. Returns the offset of the last.
#[inline(always)]
fn put_eight(params: &Params, offset: u32, values: &[u32], samples: &mut [i64]) -> u32
    requires can { CanUnmap params.now offset values.now samples.old }
    requires eight { length values.now ≡ 8 }
    ensures { PutsUnmapped params.now offset result values.now samples.old samples.new }
{
    let top = greatest_offset(params);
    let differences = near_differences(values);
    let before = running_places(offset, &differences);
    let places = next_places(&before, &differences);
    if are_below_two(offset, values) {
        return put_places(params, offset, values, &parities(&places), samples);
    }
    if are_near(top, values, &before) {
        return put_places(params, offset, values, &places, samples);
    }
    put_far(params, offset, values, samples)
}

/// Writes the samples of the first values to the front of `samples`, eight at a time, until fewer
/// than eight are left. Returns the offset of the last.
#[inline(always)]
fn put_eights(params: &Params, offset: u32, values: &[u32], samples: &mut [i64]) -> u32
    requires { CanUnmap params.now offset values.now samples.old }
    ensures front { PutsUnmapped params.now offset result
        (take (8 * (length values.now / 8)) values.now)
        (take (8 * (length values.now / 8)) samples.old)
        (take (8 * (length values.now / 8)) samples.new) }
    ensures len { length samples.new ≡ length samples.old }
{
    let mut last = offset;
    for i in 0..values.len() / 8 {
        let part = &mut samples[8 * i..8 * i + 8];
        last = put_eight(params, last, &values[8 * i..8 * i + 8], part);
    }
    last
}

/// Fills `samples` with the samples for which values are coded, with preprocessing: eight at a
/// time, and the last few, fewer than eight, one by one.
#[inline(always)]
fn put_offsets(params: &Params, previous: i64, values: &[u32], samples: &mut [i64])
    requires on { params.now.preprocess ≡ true }
    requires prediction { IsHeld params.now previous }
    requires values { HaveSamplePlaces params.now values.now samples.old }
    ensures { PutsSamples params.now previous values.now samples.old samples.new }
{
    let first = first_prediction(params, previous);
    let last = put_eights(params, first, values, samples);
    let done = 8 * (values.len() / 8);
    put_each(params, last, &values[done..], &mut samples[done..]);
}

/// Fills `samples` with the samples of patterns.
fn put_patterns(params: &Params, patterns: &[u32], samples: &mut [i64])
    requires off { params.now.preprocess ≡ false }
    requires values { HaveSamplePlaces params.now patterns.now samples.old }
    ensures { (p : ℤ) → PutsSamples params.now p patterns.now samples.old samples.new }
{
    for i in 0..patterns.len() {
        samples[i] = params.value(patterns[i]);
    }
}

/// Overwrites `samples` with the samples for which values are coded, each predicted from the one
/// before it, the first from `previous`. Without preprocessing the values are their patterns;
/// `previous` then has no effect, but must be a sample. Allocates nothing.
#[inline(always)]
pub fn unmap_into(params: &Params, previous: i64, values: &[u32], samples: &mut [i64])
    requires prediction { IsHeld params.now previous }
    requires values { HaveSamplePlaces params.now values.now samples.old }
    ensures { PutsSamples params.now previous values.now samples.old samples.new }
{
    if params.preprocess() {
        put_offsets(params, previous, values, samples);
    } else {
        put_patterns(params, values, samples);
    }
}
