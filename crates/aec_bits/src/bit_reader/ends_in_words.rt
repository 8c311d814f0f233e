//! Finds where the first fundamental sequences of a word end, at most 16: byte by byte, by a table.

ghost use Rattle.std.specs.Prelude.{◌≡◌, ◌+◌, ◌-◌, ◌*◌, ◌/◌, ◌%◌, ◌^◌, ◌<◌, ◌≤◌, ℕ, length, take, count_ones};
ghost use Rattle.aec_params.specs.Codewords.{binary};
ghost use Rattle.aec_bits.specs.Ends.{ends_of_ones, ends_in_word, gaps_after, HasEnds, ReadsGaps};

use crate::bit_reader::ends_in_bytes::row_of;
use std::simd::prelude::*;

/// Returns the ends in a byte that begins at place `at` of a word; after them, any numbers.
#[inline(always)]
fn ends_from(byte: u64, at: u8) -> [u8; 8]
    requires byte { byte < 256 }
    requires at { at ≤ 56 }
    ensures { take (count_ones byte) result ≡ ends_of_ones at (binary 8 byte) }
{
    (u8x8::from_array(row_of(byte)) + u8x8::splat(at)).to_array()
}

/// Writes the ends in byte `i` of a word to `ends`, after the `count` ends in the bytes before it.
/// Returns how many ends there are then.
#[inline(always)]
fn put_ends(word: u64, i: u32, count: usize, ends: &mut [u8]) -> usize
    requires byte { i < 8 }
    requires room { count + 8 ≤ length ends.old }
    requires before { HasEnds word (8 * i) count ends.old }
    requires few { count ≤ 8 * i }
    ensures ends { HasEnds word (8 * (i + 1)) result ends.new }
    ensures few { result ≤ 8 * (i + 1) }
    ensures len { length ends.new ≡ length ends.old }
{
    let byte = (word >> (56 - 8 * i)) % 256;
    ends[count..count + 8].copy_from_slice(&ends_from(byte, (8 * i) as u8));
    count + byte.count_ones() as usize
}

/// Writes the ends in the first `N` bytes of a word to `ends`, and other numbers after them.
/// Returns how many ends there are.
#[inline(always)]
fn put_front<const N: u32>(word: u64, ends: &mut [u8]) -> usize
    requires bytes { N ≤ 8 }
    requires room { 8 * N ≤ length ends.old }
    ensures ends { HasEnds word (8 * N) result ends.new }
    ensures few { result ≤ 8 * N }
    ensures len { length ends.new ≡ length ends.old }
{
    let mut count = 0;
    for i in 0..N {
        count = put_ends(word, i, count, ends);
    }
    count
}

/// Writes the first `count` ends in a word to `ends`, and other numbers after them. Reads the
/// word's first `N` bytes, and then as many more as are needed.
#[inline(always)]
fn put_count<const N: u32>(word: u64, count: usize, ends: &mut [u8])
    requires bytes { N ≤ 8 }
    requires room { 8 * N ≤ length ends.old }
    requires few { count + 8 ≤ 8 * N }
    requires there { count ≤ count_ones word }
    ensures ends { take count ends.new ≡ take count (ends_in_word word) }
    ensures len { length ends.new ≡ length ends.old }
{
    let mut found = put_front::<N>(word, ends);
    let mut i = N;
    while found < count {
        found = put_ends(word, i, found, ends);
        i += 1;
    }
}

/// Returns the numbers of zeros before the first eight ends.
#[inline(always)]
fn eight_gaps(ends: &[u8; 24]) -> [u32; 8]
    ensures { result ≡ gaps_after 0 (take 8 ends.now) }
{
    let all = u8x8::from_slice(ends);
    let before = u8x8::splat(0).shuffle(all, [0, 8, 9, 10, 11, 12, 13, 14]);
    (all - before - u8x8::splat(1)).cast::<u32>().to_array()
}

/// Returns the numbers of zeros before the first sixteen ends.
#[inline(always)]
fn sixteen_gaps(ends: &[u8; 40]) -> [u32; 16]
    ensures { result ≡ gaps_after 0 (take 16 ends.now) }
{
    let all = u8x16::from_slice(ends);
    let before = u8x16::splat(0).shuffle(
        all,
        [
            0, 16, 17, 18, 19, 20, 21, 22, 23, 24, 25, 26, 27, 28, 29, 30,
        ],
    );
    (all - before - u8x16::splat(1)).cast::<u32>().to_array()
}

/// Fills `numbers`, eight at most, with those of the fundamental sequences at the top of a word.
/// Returns the place after them. Three bytes nearly always contain eight ends. The last end is
/// loaded before the vector of all ends, since a load of what several stores wrote waits for them.
#[inline(always)]
fn eight_within(word: u64, numbers: &mut [u32]) -> u32
    requires some { 0 < length numbers.old }
    requires few { length numbers.old ≤ 8 }
    requires there { length numbers.old ≤ count_ones word }
    ensures read { ReadsGaps word (length numbers.old) numbers.new result }
    ensures len { length numbers.new ≡ length numbers.old }
{
    let mut ends = [0; 24];
    put_count::<3>(word, numbers.len(), &mut ends);
    let gone = ends[numbers.len() - 1];
    numbers.copy_from_slice(&eight_gaps(&ends)[..numbers.len()]);
    u32::from(gone)
}

/// `eight_within` for sixteen at most. Five bytes nearly always contain sixteen ends.
#[inline(always)]
fn sixteen_within(word: u64, numbers: &mut [u32]) -> u32
    requires some { 0 < length numbers.old }
    requires few { length numbers.old ≤ 16 }
    requires there { length numbers.old ≤ count_ones word }
    ensures read { ReadsGaps word (length numbers.old) numbers.new result }
    ensures len { length numbers.new ≡ length numbers.old }
{
    let mut ends = [0; 40];
    put_count::<5>(word, numbers.len(), &mut ends);
    let gone = ends[numbers.len() - 1];
    numbers.copy_from_slice(&sixteen_gaps(&ends)[..numbers.len()]);
    u32::from(gone)
}

/// Fills `numbers`, sixteen at most, with those of the fundamental sequences at the top of a word.
/// Returns the place after them.
#[inline(always)]
pub(crate) fn gaps_within(word: u64, numbers: &mut [u32]) -> u32
    requires some { 0 < length numbers.old }
    requires few { length numbers.old ≤ 16 }
    requires there { length numbers.old ≤ count_ones word }
    ensures read { ReadsGaps word (length numbers.old) numbers.new result }
    ensures len { length numbers.new ≡ length numbers.old }
{
    if numbers.len() <= 8 {
        return eight_within(word, numbers);
    }
    sixteen_within(word, numbers)
}
