//! Maps samples to values, overwriting a list of values.

ghost use Rattle.std.specs.Prelude.{◌≡◌, ◌%◌, ◌<◌, ◌≤◌, ◌∷◌, true, length, get_or, map as list_map};
ghost use Rattle.std.specs.List.{AllByRecursion};
ghost use Rattle.aec_params.specs.Params.{IsHeld, sample_pattern};
ghost use Rattle.aec_params.specs.Mapping.{mapped_after, mapped_values};
ghost use Rattle.aec_block.specs.Offsets.{sample_offset, top_offset, mapped_offsets};
ghost use Rattle.aec_block.specs.Unmapping.{HaveValuePlaces};

use crate::mapping::eight_offsets::map_eight;
use crate::mapping::{greatest_offset, map_offset, offset_above};
use aec_params::Params;
use std::simd::prelude::*;

/// Fills `values` with how far samples lie above the least one.
#[inline(always)]
fn put_sample_offsets(params: &Params, samples: &[i64], values: &mut [u32])
    requires { HaveValuePlaces params.now samples.now values.old }
    ensures { values.new ≡ list_map (sample_offset params.now) samples.now }
{
    let least = params.x_min();
    for i in 0..samples.len() {
        values[i] = offset_above(least, samples[i]);
    }
}

/// Replaces offsets, one by one, by the values that are coded for them, each predicted by the
/// offset before it, the first by `previous`.
#[inline(always)]
fn map_each_offset(top: u32, previous: u32, values: &mut [u32])
    requires { AllByRecursion (λ x. x ≤ top) (previous ∷ values.old) }
    ensures { values.new ≡ mapped_offsets top previous values.old }
{
    let mut p = previous;
    for i in 0..values.len() {
        let x = values[i];
        values[i] = map_offset(top, p, x);
        p = x;
    }
}

/// Maps eight offsets in place. Returns the last of them, by which the next one is predicted.
#[inline(always)]
fn map_next_eight(top: u32, previous: u32, values: &mut [u32]) -> u32
    requires len { length values.old ≡ 8 }
    requires within { AllByRecursion (λ x. x ≤ top) (previous ∷ values.old) }
    ensures values { values.new ≡ mapped_offsets top previous values.old }
    ensures last { result ≡ get_or values.old 7 0 }
{
    let offsets = u32x8::from_slice(values).to_array();
    u32x8::from_array(map_eight(top, previous, &offsets)).copy_to_slice(values);
    offsets[7]
}

/// Maps the offsets of a list in place, eight at once. Their number is a multiple of eight.
#[inline(always)]
fn map_by_eights(top: u32, previous: u32, values: &mut [u32])
    requires eights { length values.old % 8 ≡ 0 }
    requires within { AllByRecursion (λ x. x ≤ top) (previous ∷ values.old) }
    ensures { values.new ≡ mapped_offsets top previous values.old }
{
    let mut p = previous;
    for i in 0..values.len() / 8 {
        p = map_next_eight(top, p, &mut values[8 * i..8 * i + 8]);
    }
}

/// Maps the offsets of a list in place: eight at once, or one by one if their number is no multiple
/// of eight. Sixteen too are mapped one by one: the compiler makes better lanes of these.
#[inline(always)]
fn map_offsets(top: u32, previous: u32, values: &mut [u32])
    requires { AllByRecursion (λ x. x ≤ top) (previous ∷ values.old) }
    ensures { values.new ≡ mapped_offsets top previous values.old }
{
    if values.len() == 16 || values.len() % 8 != 0 {
        map_each_offset(top, previous, values);
    } else {
        map_by_eights(top, previous, values);
    }
}

/// Returns how far the sample `previous` lies above the least one. No branch or choice depends on
/// this sample.
#[inline(always)]
pub(crate) fn first_prediction(params: &Params, previous: i64) -> u32
    requires { IsHeld params.now previous }
    ensures value { result ≡ sample_offset params.now previous }
    ensures within { result ≤ top_offset params.now }
{
    offset_above(params.x_min(), previous)
}

/// Fills `values` with what is coded for samples, each predicted by the sample before it. Uses two
/// loops; in each the compiler can take several values at a time.
#[inline(always)]
fn map_predicted(params: &Params, previous: i64, samples: &[i64], values: &mut [u32])
    requires on { params.now.preprocess ≡ true }
    requires prediction { IsHeld params.now previous }
    requires samples { HaveValuePlaces params.now samples.now values.old }
    ensures { values.new ≡ mapped_after params.now previous samples.now }
{
    let top = greatest_offset(params);
    let p = first_prediction(params, previous);
    put_sample_offsets(params, samples, values);
    map_offsets(top, p, values);
}

/// Fills `values` with the patterns of samples.
#[inline(always)]
fn put_patterns(params: &Params, samples: &[i64], values: &mut [u32])
    requires { HaveValuePlaces params.now samples.now values.old }
    ensures { values.new ≡ list_map (sample_pattern params.now) samples.now }
{
    for i in 0..samples.len() {
        values[i] = params.pattern(samples[i]);
    }
}

/// Fills `values` with what is coded for samples, each predicted from the one before it, the first
/// from `previous`. Without preprocessing their patterns are coded; `previous` then has no effect,
/// but must be a sample. Allocates nothing.
#[inline(always)]
pub fn map_list(params: &Params, previous: i64, samples: &[i64], values: &mut [u32])
    requires prediction { IsHeld params.now previous }
    requires samples { HaveValuePlaces params.now samples.now values.old }
    ensures { values.new ≡ mapped_after params.now previous samples.now }
{
    if params.preprocess() {
        map_predicted(params, previous, samples, values);
    } else {
        put_patterns(params, samples, values);
    }
}

/// Fills `values` with what is coded for the first samples of an interval: with preprocessing, 0 in
/// the reference place. Allocates nothing.
#[inline(always)]
pub fn map_first(params: &Params, samples: &[i64], values: &mut [u32])
    requires some { 0 < length samples.now }
    requires samples { HaveValuePlaces params.now samples.now values.old }
    ensures { values.new ≡ mapped_values params.now samples.now }
{
    params.known_allowed();
    map_list(params, samples[0], samples, values);
}
