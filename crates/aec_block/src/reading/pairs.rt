//! Reads the pairs of a block in the second extension: by a table if all numbers of its pairs are
//! below 64, else pair by pair.

ghost use Rattle.std.specs.Prelude.{◌≡◌, ◌≤◌, ◌<◌, ◌+◌, ◌*◌, ◌/◌, ◌^◌, nat_lt, if◌then◌else◌, [], length, slice_set};
ghost use Rattle.aec_bits.specs.BitReader.{AreBelow};
ghost use Rattle.aec_block.specs.ReadAt.{map_taken, pair_with_number, before_members, members_at};
ghost use Rattle.aec_block.specs.Gathering.{as_taken_by, when, all_below, members_of_numbers, kept_members, small_members, Takes};

use crate::reading::codewords::{pair_of, read_sequence};
use crate::reading::values::{are_below, value_limit};
use aec_bits::BitReader;
use aec_params::{Fault, Params};

/// Writes a value to a place if the value is below `limit`. Returns whether it is.
fn put_value(values: &mut [u32], place: usize, value: u64, limit: u64) -> bool
    requires place { place < length values.old }
    requires limit { limit ≤ 2 ^ 32 }
    ensures fits { result ≡ nat_lt value limit }
    ensures values { values.new
        ≡ (if nat_lt value limit then slice_set values.old place value else values.old) }
{
    if value >= limit {
        return false;
    }
    values[place] = value as u32;
    true
}

/// Returns what is kept of the first member of a pair: 0 in the reference place, where that member
/// is ignored.
fn kept_member(in_reference_place: bool, member: u64) -> u64
    ensures { result ≡ (if in_reference_place then 0 else member) }
{
    if in_reference_place { 0 } else { member }
}

/// `read_pairs`, pair by pair, out of line: long codewords are few.
#[inline(never)]
fn read_long_pairs(
    params: &Params,
    reader: &mut BitReader,
    is_ref: bool,
    values: &mut [u32],
) -> Result<bool, Fault>
    requires within { reader.old.pos ≤ length reader.old.list }
    requires pairs { length values.old ≡ 2 * (length values.old / 2) }
    requires some { 0 < length values.old }
    requires placed { values.old ≡ kept_members is_ref values.old }
    ensures taken { Takes (λ bits. map_taken (small_members (2 ^ params.now.bits) is_ref)
        (members_at (length values.old / 2) bits)) reader.old
        (as_taken_by (λ fit. when fit values.new) result) reader.new }
    ensures placed { values.new ≡ kept_members is_ref values.new }
    ensures len { length values.new ≡ length values.old }
{
    let limit = value_limit(params);
    let mut fit = true;
    for i in 0..values.len() / 2 {
        let (first, second) = pair_of(read_sequence(reader)?);
        let kept = kept_member(is_ref & (i == 0), first);
        fit &= put_value(values, 2 * i, kept, limit);
        fit &= put_value(values, 2 * i + 1, second, limit);
    }
    Ok(fit)
}

/// The members of the pairs with the numbers 0 to 63.
static SHORT_PAIRS: [[u32; 2]; 64] = [
    [0, 0],
    [1, 0],
    [0, 1],
    [2, 0],
    [1, 1],
    [0, 2],
    [3, 0],
    [2, 1],
    [1, 2],
    [0, 3],
    [4, 0],
    [3, 1],
    [2, 2],
    [1, 3],
    [0, 4],
    [5, 0],
    [4, 1],
    [3, 2],
    [2, 3],
    [1, 4],
    [0, 5],
    [6, 0],
    [5, 1],
    [4, 2],
    [3, 3],
    [2, 4],
    [1, 5],
    [0, 6],
    [7, 0],
    [6, 1],
    [5, 2],
    [4, 3],
    [3, 4],
    [2, 5],
    [1, 6],
    [0, 7],
    [8, 0],
    [7, 1],
    [6, 2],
    [5, 3],
    [4, 4],
    [3, 5],
    [2, 6],
    [1, 7],
    [0, 8],
    [9, 0],
    [8, 1],
    [7, 2],
    [6, 3],
    [5, 4],
    [4, 5],
    [3, 6],
    [2, 7],
    [1, 8],
    [0, 9],
    [10, 0],
    [9, 1],
    [8, 2],
    [7, 3],
    [6, 4],
    [5, 5],
    [4, 6],
    [3, 7],
    [2, 8],
];

/// Returns the two members of the pair with a number below 64.
#[inline(always)]
fn short_pair(number: u32) -> [u32; 2]
    requires { number < 64 }
    ensures { result ≡ before_members (pair_with_number number) [] }
{
    SHORT_PAIRS[number as usize]
}

/// Writes the members of the pairs with these numbers to `values`.
#[inline(always)]
fn put_pairs(numbers: &[u32], values: &mut [u32])
    requires small { AreBelow 64 numbers.now }
    requires len { length values.old ≡ 2 * length numbers.now }
    ensures { values.new ≡ members_of_numbers numbers.now }
{
    for i in 0..numbers.len() {
        let pair = short_pair(numbers[i]);
        values[2 * i] = pair[0];
        values[2 * i + 1] = pair[1];
    }
}

/// Writes 0 to the reference place, if there is one.
#[inline(always)]
pub(crate) fn clear_reference_place(is_ref: bool, values: &mut [u32])
    requires { 0 < length values.old }
    ensures { values.new ≡ kept_members is_ref values.old }
{
    if is_ref {
        values[0] = 0;
    }
}

/// Returns whether all members are below `limit`. Pairs with numbers below 64 have no member above
/// 10.
#[inline(always)]
fn are_small(values: &[u32], limit: u64) -> bool
    requires some { 0 < limit }
    requires small { AreBelow 11 values.now }
    ensures { result ≡ all_below limit values.now }
{
    limit > 10 || are_below(values, limit)
}

/// `read_pairs` for up to `M` pairs, by the table if all their numbers are below 64.
#[inline(always)]
fn read_short_pairs<const M: usize>(
    params: &Params,
    reader: &mut BitReader,
    is_ref: bool,
    values: &mut [u32],
) -> Result<bool, Fault>
    requires within { reader.old.pos ≤ length reader.old.list }
    requires pairs { length values.old ≡ 2 * (length values.old / 2) }
    requires most { length values.old ≤ 2 * M }
    requires small { M ≤ 32 }
    requires some { 0 < length values.old }
    requires placed { values.old ≡ kept_members is_ref values.old }
    ensures taken { Takes (λ bits. map_taken (small_members (2 ^ params.now.bits) is_ref)
        (members_at (length values.old / 2) bits)) reader.old
        (as_taken_by (λ fit. when fit values.new) result) reader.new }
    ensures placed { values.new ≡ kept_members is_ref values.new }
    ensures len { length values.new ≡ length values.old }
{
    let limit = value_limit(params);
    let mut scratch = [0u32; M];
    let numbers = &mut scratch[..values.len() / 2];
    if !reader.read_sequences(numbers) {
        return read_long_pairs(params, reader, is_ref, values);
    }
    put_pairs(numbers, values);
    clear_reference_place(is_ref, values);
    Ok(are_small(values, limit))
}

/// `read_short_pairs` for `N` values, the usual number.
#[inline(always)]
fn read_known_pairs<const N: usize, const M: usize>(
    params: &Params,
    reader: &mut BitReader,
    is_ref: bool,
    values: &mut [u32],
) -> Result<bool, Fault>
    requires within { reader.old.pos ≤ length reader.old.list }
    requires pairs { length values.old ≡ 2 * (length values.old / 2) }
    requires size { N ≡ 2 * M }
    requires small { M ≤ 32 }
    requires count { length values.old ≡ N }
    requires some { 0 < length values.old }
    requires placed { values.old ≡ kept_members is_ref values.old }
    ensures taken { Takes (λ bits. map_taken (small_members (2 ^ params.now.bits) is_ref)
        (members_at (length values.old / 2) bits)) reader.old
        (as_taken_by (λ fit. when fit values.new) result) reader.new }
    ensures placed { values.new ≡ kept_members is_ref values.new }
    ensures len { length values.new ≡ length values.old }
{
    read_short_pairs::<M>(params, reader, is_ref, &mut values[..N])
}

/// Fills `values` with the members of the next pairs, with 0 in the reference place, whatever
/// number is read there. Returns whether all are at most the greatest that the width has; if not,
/// the contents of `values` are unspecified. Marked cold, so that the loops that call it stay as
/// fast for other blocks.
#[cold]
#[inline(never)]
pub(crate) fn read_pairs(
    params: &Params,
    reader: &mut BitReader,
    is_ref: bool,
    values: &mut [u32],
) -> Result<bool, Fault>
    requires within { reader.old.pos ≤ length reader.old.list }
    requires pairs { length values.old ≡ 2 * (length values.old / 2) }
    requires some { 0 < length values.old }
    requires placed { values.old ≡ kept_members is_ref values.old }
    ensures taken { Takes (λ bits. map_taken (small_members (2 ^ params.now.bits) is_ref)
        (members_at (length values.old / 2) bits)) reader.old
        (as_taken_by (λ fit. when fit values.new) result) reader.new }
    ensures placed { values.new ≡ kept_members is_ref values.new }
    ensures len { length values.new ≡ length values.old }
{
    match values.len() {
        8 => read_known_pairs::<8, 4>(params, reader, is_ref, values),
        16 => read_known_pairs::<16, 8>(params, reader, is_ref, values),
        32 => read_known_pairs::<32, 16>(params, reader, is_ref, values),
        64 => read_known_pairs::<64, 32>(params, reader, is_ref, values),
        2..=63 => read_short_pairs::<32>(params, reader, is_ref, values),
        _ => read_long_pairs(params, reader, is_ref, values),
    }
}

/// `read_pairs` for `N` values, the usual number, with a copy of `params`, and an array of its own
/// that is copied to `values` at the end: what is passed to a function out of line doesn't stay in
/// registers.
#[inline(always)]
pub(crate) fn read_usual_pairs<const N: usize>(
    params: &Params,
    reader: &mut BitReader,
    is_ref: bool,
    values: &mut [u32],
) -> Result<bool, Fault>
    requires within { reader.old.pos ≤ length reader.old.list }
    requires pairs { length values.old ≡ 2 * (length values.old / 2) }
    requires some { 0 < length values.old }
    requires placed { values.old ≡ kept_members is_ref values.old }
    ensures taken { Takes (λ bits. map_taken (small_members (2 ^ params.now.bits) is_ref)
        (members_at (length values.old / 2) bits)) reader.old
        (as_taken_by (λ fit. when fit values.new) result) reader.new }
    ensures placed { values.new ≡ kept_members is_ref values.new }
    ensures len { length values.new ≡ length values.old }
{
    if values.len() != N {
        return read_pairs(params, reader, is_ref, values);
    }
    let copied = *params;
    let mut own = [0u32; N];
    let fit = read_pairs(&copied, reader, is_ref, &mut own)?;
    values.copy_from_slice(&own);
    Ok(fit)
}
