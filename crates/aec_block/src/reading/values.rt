//! Reads values into a list. A value above the greatest that the width has is noted, and reading
//! goes on after it.

ghost use Rattle.std.specs.Prelude.{◌≡◌, ◌≤◌, ◌<◌, ◌+◌, ◌-◌, ◌*◌, ◌/◌, ◌^◌, length};
ghost use Rattle.std.specs.List.{flat_map};
ghost use Rattle.aec_params.specs.Codewords.{fs};
ghost use Rattle.aec_bits.specs.BitReader.{AreBelow};
ghost use Rattle.aec_block.specs.BlockShape.{most_values};
ghost use Rattle.aec_block.specs.ReadAt.{joined_values};
ghost use Rattle.aec_block.specs.Gathering.{all_below, IsSeen, PutsHighs, PutsSplit};

use crate::block::MOST_VALUES;
use crate::copies::{READ_BLOCK_SPLIT, READ_SPLIT_APART};
use crate::reading::codewords::{read_numbers, read_sequence};
use crate::reading::{Seen, UNSEEN};
use aec_bits::BitReader;
use aec_params::{Fault, Params};

/// Returns the number after the greatest value that the width has.
pub(crate) fn value_limit(params: &Params) -> u64
    ensures value { result ≡ 2 ^ params.now.bits }
    ensures least { 0 < result }
    ensures most { result ≤ 2 ^ 32 }
{
    1 << params.bits()
}

/// Returns the number after the greatest high part of a value below `limit`.
pub(crate) fn high_limit(limit: u64, k: u32) -> u64
    requires some { 0 < limit }
    requires limit { limit ≤ 2 ^ 32 }
    requires shift { k < 32 }
    ensures value { result ≡ (limit - 1) / 2 ^ k + 1 }
    ensures most { result ≤ 2 ^ 32 }
{
    ((limit - 1) >> k) + 1
}

/// Returns whether all values are below `limit`.
#[inline(never)]
pub(crate) fn are_below(values: &[u32], limit: u64) -> bool
    requires { 0 < limit }
    ensures { result ≡ all_below limit values.now }
{
    let mut most = 0;
    for value in values {
        most = most.max(*value);
    }
    u64::from(most) < limit
}

/// Fills `highs` with the next numbers, one by one. Returns whether all are below `limit`; if not,
/// the contents of `highs` are unspecified.
fn read_long_highs(reader: &mut BitReader, highs: &mut [u32], limit: u64) -> Result<bool, Fault>
    requires within { reader.old.pos ≤ length reader.old.list }
    requires limit { limit ≤ 2 ^ 32 }
    ensures { PutsHighs limit reader.old highs.old result reader.new highs.new }
{
    let mut fit = true;
    for high in highs.iter_mut() {
        let number = read_sequence(reader)?;
        let fits = number < limit;
        if fits {
            *high = number as u32;
        }
        fit &= fits;
    }
    Ok(fit)
}

/// Returns whether all values are below `limit`; their fundamental sequences are `gone` bits in
/// all. No value is above their sum, the number of zeros in these bits. If the sum isn't below
/// `limit`, each value is tested.
#[inline(always)]
fn are_short(values: &[u32], gone: u64, limit: u64) -> bool
    requires some { 0 < limit }
    requires most { limit ≤ 2 ^ 32 }
    requires gone { gone ≡ length (flat_map fs values.now) }
    ensures { result ≡ all_below limit values.now }
{
    gone < limit + values.len() as u64 || are_below(values, limit)
}

/// Fills `highs` with the next numbers. Returns whether all are below `limit`; if not, the contents
/// of `highs` are unspecified.
#[inline(always)]
pub(crate) fn read_highs(
    reader: &mut BitReader,
    highs: &mut [u32],
    limit: u64,
) -> Result<bool, Fault>
    requires within { reader.old.pos ≤ length reader.old.list }
    requires least { 0 < limit }
    requires limit { limit ≤ 2 ^ 32 }
    ensures { PutsHighs limit reader.old highs.old result reader.new highs.new }
{
    let start = reader.pos();
    if reader.read_sequences(highs) {
        return Ok(are_short(highs, reader.pos() - start, limit));
    }
    read_long_highs(reader, highs, limit)
}

/// `read_highs`, from the word `seen` if that contains all high parts. Each copy has one caller, as
/// those of `read_split` have.
#[inline(always)]
fn read_seen_highs<const M: usize, const COPY: usize>(
    reader: &mut BitReader,
    seen: Seen,
    highs: &mut [u32],
    limit: u64,
) -> Result<bool, Fault>
    requires within { reader.old.pos ≤ length reader.old.list }
    requires seen { 0 < seen.gone → IsSeen reader.old seen.gone seen.word }
    requires least { 0 < limit }
    requires limit { limit ≤ 2 ^ 32 }
    ensures { PutsHighs limit reader.old highs.old result reader.new highs.new }
{
    if seen.gone == 0 {
        return read_highs(reader, highs, limit);
    }
    let start = reader.pos();
    if reader.read_sequences_from(seen.word, seen.gone, highs) {
        return Ok(are_short(highs, reader.pos() - start, limit));
    }
    read_highs(reader, highs, limit)
}

/// Returns a value from its high part and its lowest `k` bits.
fn joined(high: u32, low: u32, k: u32) -> u32
    requires shift { k < 32 }
    requires high { high < 2 ^ (32 - k) }
    requires low { low < 2 ^ k }
    ensures { result ≡ high * 2 ^ k + low }
{
    (high << k) + low
}

/// Joins each high part with the lowest `k` bits of its value.
fn join(values: &mut [u32], lows: &[u32], k: u32)
    requires shift { k < 32 }
    requires len { length values.old ≡ length lows.now }
    requires highs { AreBelow (2 ^ (32 - k)) values.old }
    requires lows { AreBelow (2 ^ k) lows.now }
    ensures { values.new ≡ joined_values k values.old lows.now }
{
    for i in 0..values.len() {
        values[i] = joined(values[i], lows[i], k);
    }
}

/// Fills `values`, `M` at most, with the next values, split at bit `k`. Returns whether all are at
/// most the greatest that the width has. If `k` is at most the width, values with small high parts
/// are small. Each caller passes a `COPY` of its own, as `copies` says.
#[inline(always)]
fn read_split<const M: usize, const COPY: usize>(
    params: &Params,
    reader: &mut BitReader,
    seen: Seen,
    k: u32,
    values: &mut [u32],
) -> Result<bool, Fault>
    requires within { reader.old.pos ≤ length reader.old.list }
    requires shift { k < 32 }
    requires seen { 0 < seen.gone → IsSeen reader.old seen.gone seen.word }
    requires most { length values.old ≤ M }
    requires small { M ≤ most_values }
    ensures { PutsSplit params.now k reader.old values.old result reader.new values.new }
{
    let limit = value_limit(params);
    let mut scratch = [0u32; M];
    let lows = &mut scratch[..values.len()];
    let highs_fit = read_seen_highs::<M, COPY>(reader, seen, values, high_limit(limit, k))?;
    read_numbers(reader, k, lows)?;
    if !highs_fit {
        return Ok(false);
    }
    join(values, lows, k);
    Ok(k <= params.bits() || are_below(values, limit))
}

/// `read_split` for any number of values that a block has, out of line.
#[inline(never)]
fn read_split_apart(
    params: &Params,
    reader: &mut BitReader,
    k: u32,
    values: &mut [u32],
) -> Result<bool, Fault>
    requires within { reader.old.pos ≤ length reader.old.list }
    requires shift { k < 32 }
    requires most { length values.old ≤ most_values }
    ensures { PutsSplit params.now k reader.old values.old result reader.new values.new }
{
    read_split::<MOST_VALUES, READ_SPLIT_APART>(params, reader, UNSEEN, k, values)
}

/// `read_split`, inlined for `N` values, the usual number; out of line for any other number.
#[inline(always)]
pub(crate) fn read_usual_split<const N: usize, const COPY: usize>(
    params: &Params,
    reader: &mut BitReader,
    seen: Seen,
    k: u32,
    values: &mut [u32],
) -> Result<bool, Fault>
    requires within { reader.old.pos ≤ length reader.old.list }
    requires seen { 0 < seen.gone → IsSeen reader.old seen.gone seen.word }
    requires shift { k < 32 }
    requires most { length values.old ≤ most_values }
    ensures { PutsSplit params.now k reader.old values.old result reader.new values.new }
{
    if values.len() == N {
        return read_split::<N, COPY>(params, reader, seen, k, &mut values[..N]);
    }
    read_split_apart(params, reader, k, values)
}

/// `read_split`, with code of its own for each usual number of values.
#[inline(never)]
pub(crate) fn read_block_split(
    params: &Params,
    reader: &mut BitReader,
    k: u32,
    values: &mut [u32],
) -> Result<bool, Fault>
    requires within { reader.old.pos ≤ length reader.old.list }
    requires shift { k < 32 }
    requires most { length values.old ≤ most_values }
    ensures { PutsSplit params.now k reader.old values.old result reader.new values.new }
{
    match values.len() {
        7 => read_usual_split::<7, READ_BLOCK_SPLIT>(params, reader, UNSEEN, k, values),
        8 => read_usual_split::<8, READ_BLOCK_SPLIT>(params, reader, UNSEEN, k, values),
        15 => read_usual_split::<15, READ_BLOCK_SPLIT>(params, reader, UNSEEN, k, values),
        16 => read_usual_split::<16, READ_BLOCK_SPLIT>(params, reader, UNSEEN, k, values),
        31 => read_usual_split::<31, READ_BLOCK_SPLIT>(params, reader, UNSEEN, k, values),
        32 => read_usual_split::<32, READ_BLOCK_SPLIT>(params, reader, UNSEEN, k, values),
        63 => read_usual_split::<63, READ_BLOCK_SPLIT>(params, reader, UNSEEN, k, values),
        64 => read_usual_split::<64, READ_BLOCK_SPLIT>(params, reader, UNSEEN, k, values),
        _ => read_split_apart(params, reader, k, values),
    }
}
