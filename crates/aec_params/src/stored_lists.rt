//! Lists of stored samples. The width and the byte order are chosen once for each list.

ghost use Rattle.std.specs.Prelude.{None, Ok, Err, IfOk, IfErr, OnOk, OnErr, ◌≡◌, ◌<◌, ◌≤◌, ◌+◌, ◌*◌, ◌/◌, ◌%◌, ◌^◌, ℕ, ℤ, true, length, get_or, vec_len, vec_capacity};
ghost use Rattle.std.specs.Int.{w64};
ghost use Rattle.std.specs.List.{AllByRecursion, flat_map};
ghost use Rattle.std.specs.Result.{result_err};
ghost use Rattle.byteorder.specs.Endian.{low_bytes, IsReadBy};
ghost use Rattle.aec_params.specs.declared.fault.Fault.TheVariants.{Memory};
ghost use Rattle.aec_params.specs.Params.{IsHeld, pattern_value, storage_len};
ghost use Rattle.aec_params.specs.Stored.{samples_of_bytes, samples_behind, stored_bytes, AnswersSamples};

use crate::fault::Fault;
use crate::judging::first_bad;
use crate::numbers::{first_number, put_number};
use crate::params::Params;
use crate::stored::low_sample;
use byteorder::{BigEndian, ByteOrder, LittleEndian};
use std::alloc::Global;

/// Returns the samples that bytes hold, `Params::storage` bytes each; bytes at the end that form no
/// whole sample are ignored.
///
/// Fails with `SampleRange` and the index of the first sample whose unused bits are not what its
/// width allows. The whole input is checked first. Then the call fails with `Memory` if an
/// allocation fails, never for bytes without a whole sample.
pub fn read_samples(alloc: Global, params: &Params, bytes: &[u8]) -> Result<Vec<i64>, Fault>
    ensures answer { AnswersSamples (λ v. v.items) (samples_of_bytes params.now bytes.now) result }
    ensures memory { result ≡ Err Memory → 0 < length bytes.now / storage_len params.now }
{
    if let Some(index) = first_bad(params, bytes) {
        return Err(Fault::SampleRange { index });
    }
    collect_samples(alloc, params, bytes)
}

// bare: it only calls `append_samples`, which has edits
/// Returns the samples of bytes in which `first_bad` finds none. Fails with `Memory` if an
/// allocation fails, never for bytes without a whole sample.
pub fn collect_samples(alloc: Global, params: &Params, bytes: &[u8]) -> Result<Vec<i64>, Fault>
    requires { result_err (samples_of_bytes params.now bytes.now) ≡ None }
    ensures ok { IfOk result (λ v. samples_of_bytes params.now bytes.now ≡ Ok v.items) }
    ensures err { IfErr result (λ e. e ≡ Memory) }
    ensures memory { OnErr result (0 < length bytes.now / storage_len params.now) }
{
    let mut samples = Vec::new(alloc);
    append_samples(params, bytes, &mut samples)?;
    Ok(samples)
}

/// Appends the samples of bytes in which `first_bad` finds none. Fails with `Memory` if an
/// allocation fails; nothing is then appended.
pub fn append_samples(params: &Params, bytes: &[u8], samples: &mut Vec<i64>) -> Result<(), Fault>
    requires { result_err (samples_of_bytes params.now bytes.now) ≡ None }
    ensures ok { OnOk result (samples_behind samples.old.items
        (samples_of_bytes params.now bytes.now) ≡ Ok samples.new.items) }
    ensures len { OnOk result
        (vec_len samples.new ≡ vec_len samples.old + length bytes.now / storage_len params.now) }
    ensures held { OnOk result
        (AllByRecursion (IsHeld params.now) samples.old.items
        → AllByRecursion (IsHeld params.now) samples.new.items) }
    ensures err { OnErr result (samples.new.items ≡ samples.old.items) }
    ensures fault { IfErr result (λ e. e ≡ Memory) }
    ensures full { OnErr result
        (vec_capacity samples.old < vec_len samples.old + length bytes.now
        / storage_len params.now) }
    ensures capacity { vec_capacity samples.old ≤ vec_capacity samples.new }
{
    let start = samples.len();
    samples.resize(start + bytes.len() / params.storage(), 0)?;
    load_samples(params, bytes, &mut samples[start..]);
    Ok(())
}

/// Writes the samples of bytes in which `first_bad` finds none to a slice of exactly their number.
/// Allocates nothing.
pub fn load_samples(params: &Params, bytes: &[u8], out: &mut [i64])
    requires good { result_err (samples_of_bytes params.now bytes.now) ≡ None }
    requires room { length out.old ≡ length bytes.now / storage_len params.now }
    ensures samples { samples_of_bytes params.now bytes.now ≡ Ok out.new }
    ensures held { AllByRecursion (IsHeld params.now) out.new }
{
    let width = params.storage();
    if params.msb_first() {
        load_numbers::<BigEndian>(params, bytes, width, out);
    } else {
        load_numbers::<LittleEndian>(params, bytes, width, out);
    }
}

/// Fills `out` with the samples whose patterns are the low n bits of the numbers of `width` bytes.
fn load_numbers<T: ByteOrder>(params: &Params, bytes: &[u8], width: usize, out: &mut [i64])
    requires few { width ≤ 4 }
    requires some { 1 ≤ width }
    requires room { width * length out.old ≤ length bytes.now }
    ensures samples { IsReadBy
        (λ g. pattern_value params.now (T.number_of width g % 2 ^ params.now.bits)) width bytes.now
        out.new }
    ensures held { (d : ℤ) (k : ℕ) → k < length out.new → IsHeld params.now (get_or out.new k d) }
{
    match width {
        1 => load_each::<T>(params, bytes, 1, out),
        2 => load_each::<T>(params, bytes, 2, out),
        3 => load_each::<T>(params, bytes, 3, out),
        _ => load_each::<T>(params, bytes, 4, out),
    }
}

/// `load_numbers`, inlined for a known width.
#[inline(always)]
fn load_each<T: ByteOrder>(params: &Params, bytes: &[u8], width: usize, out: &mut [i64])
    requires few { width ≤ 4 }
    requires some { 1 ≤ width }
    requires room { width * length out.old ≤ length bytes.now }
    ensures samples { IsReadBy
        (λ g. pattern_value params.now (T.number_of width g % 2 ^ params.now.bits)) width bytes.now
        out.new }
    ensures held { (d : ℤ) (k : ℕ) → k < length out.new → IsHeld params.now (get_or out.new k d) }
{
    // A local copy stays in registers.
    let params = *params;
    for i in 0..out.len() {
        out[i] = loaded_sample(&params, first_number::<T>(&bytes[width * i..], width));
    }
}

/// Returns the sample whose pattern is the low n bits of a number of at most four bytes.
#[inline(always)]
fn loaded_sample(params: &Params, number: u64) -> i64
    requires { number < 2 ^ 32 }
    ensures value { result ≡ pattern_value params.now (number % 2 ^ params.now.bits) }
    ensures held { IsHeld params.now result }
{
    if params.signed() {
        loaded_signed_sample(params, number)
    } else {
        low_sample(params, number)
    }
}

/// `loaded_sample` for signed samples, without a branch on the sign: adds half the number of
/// patterns before it takes the low bits, and subtracts it again.
#[inline(always)]
fn loaded_signed_sample(params: &Params, number: u64) -> i64
    requires signed { params.now.signed ≡ true }
    requires few { number < 2 ^ 32 }
    ensures value { result ≡ pattern_value params.now (number % 2 ^ params.now.bits) }
    ensures held { IsHeld params.now result }
{
    let half = 1u64 << (params.bits() - 1);
    let raised = (number + half) % (1u64 << params.bits());
    raised.cast_signed() - half.cast_signed()
}

/// Writes the bytes of samples that the parameters hold, one after the other; `out` is exactly as
/// long as these bytes. Allocates nothing.
pub fn put_samples(params: &Params, samples: &[i64], out: &mut [u8])
    requires held { AllByRecursion (IsHeld params.now) samples.now }
    requires room { length out.old ≡ storage_len params.now * length samples.now }
    ensures { out.new ≡ flat_map (stored_bytes params.now) samples.now }
{
    let width = params.storage();
    if params.msb_first() {
        put_numbers::<BigEndian>(samples, width, out);
    } else {
        put_numbers::<LittleEndian>(samples, width, out);
    }
}

/// Writes the low bytes of samples, `width` of each, one after the other.
fn put_numbers<T: ByteOrder>(samples: &[i64], width: usize, out: &mut [u8])
    requires few { width ≤ 4 }
    requires some { 1 ≤ width }
    requires room { length out.old ≡ width * length samples.now }
    ensures { out.new ≡ flat_map (λ x. T.bytes_of width (low_bytes w64 width x)) samples.now }
{
    match width {
        1 => put_each::<T>(samples, 1, out),
        2 => put_each::<T>(samples, 2, out),
        3 => put_each::<T>(samples, 3, out),
        _ => put_each::<T>(samples, 4, out),
    }
}

/// `put_numbers`, inlined for a known width.
#[inline(always)]
fn put_each<T: ByteOrder>(samples: &[i64], width: usize, out: &mut [u8])
    requires few { width ≤ 4 }
    requires some { 1 ≤ width }
    requires room { length out.old ≡ width * length samples.now }
    ensures { out.new ≡ flat_map (λ x. T.bytes_of width (low_bytes w64 width x)) samples.now }
{
    for i in 0..samples.len() {
        put_number::<T>(&mut out[width * i..], low_number(samples[i], width), width);
    }
}

/// Returns the number in the low bytes of a sample.
fn low_number(x: i64, width: usize) -> u64
    requires { width ≤ 4 }
    ensures value { result ≡ low_bytes w64 width x }
    ensures fits { result < 256 ^ width }
{
    x.cast_unsigned() % (1u64 << (8 * width))
}
