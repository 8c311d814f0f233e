//! Tests whether the unused bits of stored samples are what their width allows.

ghost use Rattle.std.specs.Prelude.{None, ◌≡◌, ◌≤◌, true};
ghost use Rattle.std.specs.Result.{result_err};
ghost use Rattle.aec_params.specs.StoredLists.{AreOutside, AreUpTo, least_extended as least_number_extended};
ghost use Rattle.aec_params.specs.Stored.{samples_of_bytes};

use crate::numbers::first_number;
use crate::params::Params;
use crate::stored::sample_of;
use byteorder::{BigEndian, ByteOrder, LittleEndian};

/// Returns the index of the first sample whose unused bits are not what its width allows; `None` if
/// no sample is such. Allocates nothing.
pub fn first_bad(params: &Params, bytes: &[u8]) -> Option<u64>
    ensures { result ≡ result_err (samples_of_bytes params.now bytes.now) }
{
    if are_all_good(params, bytes) {
        return None;
    }
    find_bad(params, bytes)
}

/// Does what `first_bad` does, sample by sample.
fn find_bad(params: &Params, bytes: &[u8]) -> Option<u64>
    ensures { result ≡ result_err (samples_of_bytes params.now bytes.now) }
{
    for (index, group) in bytes.chunks_exact(params.storage()).enumerate() {
        if sample_of(params, group).is_none() {
            return Some(index as u64);
        }
    }
    None
}

/// Returns the number from which on the unused bits copy the sign; if samples are unsigned, a
/// number above all.
fn least_extended(params: &Params) -> u64
    ensures { result ≡ least_number_extended params.now }
{
    let past = 1u64 << (8 * params.storage());
    if params.signed() {
        past - (1u64 << (params.bits() - 1))
    } else {
        past
    }
}

/// Returns true only if the unused bits of all samples are what their width allows; false means
/// nothing.
fn are_all_good(params: &Params, bytes: &[u8]) -> bool
    ensures { result ≡ true → result_err (samples_of_bytes params.now bytes.now) ≡ None }
{
    let width = params.storage();
    let low = 1u64 << params.bits();
    let high = least_extended(params);
    if high <= low {
        return true;
    }
    if params.msb_first() {
        are_outside::<BigEndian>(bytes, width, low, high)
    } else {
        are_outside::<LittleEndian>(bytes, width, low, high)
    }
}

/// Returns true only if each number of `width` bytes is below `low` or at least `high`; false means
/// nothing.
fn are_outside<T: ByteOrder>(bytes: &[u8], width: usize, low: u64, high: u64) -> bool
    requires few { width ≤ 4 }
    requires some { 1 ≤ width }
    ensures { result ≡ true → AreOutside (T.number_of width) width bytes.now low high }
{
    if u64::from(joined_bits::<T>(bytes, width)) < low {
        return true;
    }
    match width {
        1 => is_each_outside::<T>(bytes, 1, low, high),
        2 => is_each_outside::<T>(bytes, 2, low, high),
        3 => is_each_outside::<T>(bytes, 3, low, high),
        _ => is_each_outside::<T>(bytes, 4, low, high),
    }
}

/// `are_outside`, inlined for a known width.
#[inline(always)]
fn is_each_outside<T: ByteOrder>(bytes: &[u8], width: usize, low: u64, high: u64) -> bool
    requires few { width ≤ 4 }
    requires some { 1 ≤ width }
    ensures { result ≡ true → AreOutside (T.number_of width) width bytes.now low high }
{
    let mut outside = true;
    for i in 0..bytes.len() / width {
        let number = first_number::<T>(&bytes[width * i..], width);
        // Without a branch.
        outside &= (number < low) | (high <= number);
    }
    outside
}

/// Returns the bits that are set in at least one of the numbers of `width` bytes. The clause says
/// only that no number is greater than the result.
fn joined_bits<T: ByteOrder>(bytes: &[u8], width: usize) -> u32
    requires few { width ≤ 4 }
    requires some { 1 ≤ width }
    ensures { AreUpTo (T.number_of width) width bytes.now result }
{
    match width {
        1 => joined_bits_of_each::<T>(bytes, 1),
        2 => joined_bits_of_each::<T>(bytes, 2),
        3 => joined_bits_of_each::<T>(bytes, 3),
        _ => joined_bits_of_each::<T>(bytes, 4),
    }
}

/// `joined_bits`, inlined for a known width.
#[inline(always)]
fn joined_bits_of_each<T: ByteOrder>(bytes: &[u8], width: usize) -> u32
    requires few { width ≤ 4 }
    requires some { 1 ≤ width }
    ensures { AreUpTo (T.number_of width) width bytes.now result }
{
    let mut joined = 0u32;
    for i in 0..bytes.len() / width {
        joined = joined_with(joined, first_number::<T>(&bytes[width * i..], width) as u32);
    }
    joined
}

/// Returns the bits that are set in either of two numbers. The clauses say only that neither number
/// is greater than the result.
#[inline(always)]
#[tactic(auto, using(crate::proofs::StoredListLemmas::joins))]
fn joined_with(bits: u32, number: u32) -> u32
    ensures bits { bits ≤ result }
    ensures number { number ≤ result }
{
    bits | number
}
