//! Skips values. Values that need no test aren't read.

ghost use Rattle.std.specs.Prelude.{◌≡◌, ◌≤◌, ◌<◌, ◌*◌, ◌^◌, length};
ghost use Rattle.aec_params.specs.CodedDataSets.{written_count};
ghost use Rattle.aec_block.specs.BlockShape.{most_values};
ghost use Rattle.aec_block.specs.ReadAt.{map_taken, fs_at, binary_at, values_at, split_at};
ghost use Rattle.aec_block.specs.Gathering.{as_taken, no_values, all_below, Takes};

use crate::block::MOST_VALUES;
use crate::reading::blocks::block_len;
use crate::reading::values::{high_limit, read_highs, value_limit};
use aec_bits::BitReader;
use aec_params::{Fault, Params};

/// Returns how many values a coded data set writes, of a block with a reference sample or of
/// another.
#[inline(always)]
fn count_written(params: &Params, is_ref: bool) -> usize
    ensures value { result ≡ written_count params.now is_ref }
    ensures most { result ≤ most_values }
{
    block_len(params) - usize::from(is_ref)
}

/// Returns how many bits `count` numbers of `width` bits each have.
#[inline(always)]
fn numbers_len(width: u32, count: usize) -> u64
    requires width { width ≤ 32 }
    requires most { count ≤ most_values }
    ensures { result ≡ width * count }
{
    u64::from(width) * count as u64
}

/// Moves past `count` numbers of `width` bits each.
#[inline(always)]
fn skip_numbers(reader: &mut BitReader, width: u32, count: usize) -> Result<(), Fault>
    requires width { width ≤ 32 }
    requires most { count ≤ most_values }
    requires within { reader.old.pos ≤ length reader.old.list }
    ensures { Takes (λ bits. map_taken no_values (values_at (binary_at width) count bits))
        reader.old (as_taken result) reader.new }
{
    reader.skip_bits(numbers_len(width, count))
}

/// Reads `count` high parts and tests each. Returns whether all are below `limit`. Out of line, so
/// that `skip_highs` clears no array where the sum decides.
#[inline(never)]
fn judge_highs(reader: &mut BitReader, count: usize, limit: u64) -> Result<bool, Fault>
    requires most { count ≤ most_values }
    requires least { 0 < limit }
    requires limit { limit ≤ 2 ^ 32 }
    requires within { reader.old.pos ≤ length reader.old.list }
    ensures { Takes (λ bits. map_taken (all_below limit) (values_at fs_at count bits)) reader.old
        (as_taken result) reader.new }
{
    let mut highs = [0u32; MOST_VALUES];
    read_highs(reader, &mut highs[..count], limit)
}

/// Moves past `count` high parts. Returns whether all are below `limit`. None is above their sum,
/// the number of zeros in the skipped bits. If the sum isn't below `limit`, the high parts are
/// read.
#[inline(always)]
fn skip_highs(reader: &mut BitReader, count: usize, limit: u64) -> Result<bool, Fault>
    requires most { count ≤ most_values }
    requires least { 0 < limit }
    requires limit { limit ≤ 2 ^ 32 }
    requires within { reader.old.pos ≤ length reader.old.list }
    ensures { Takes (λ bits. map_taken (all_below limit) (values_at fs_at count bits)) reader.old
        (as_taken result) reader.new }
{
    let start = reader.pos();
    let gone = reader.skip_ones(count as u64)?;
    if gone < limit + count as u64 {
        return Ok(true);
    }
    reader.seek(start);
    judge_highs(reader, count, limit)
}

/// Moves past the next numbers, each as wide as a sample.
#[inline(always)]
pub(crate) fn skip_uncompressed(
    params: &Params,
    reader: &mut BitReader,
    is_ref: bool,
) -> Result<(), Fault>
    requires within { reader.old.pos ≤ length reader.old.list }
    ensures { Takes (λ bits. map_taken no_values
        (values_at (binary_at params.now.bits) (written_count params.now is_ref) bits)) reader.old
        (as_taken result) reader.new }
{
    skip_numbers(reader, params.bits(), count_written(params, is_ref))
}

/// Moves past the next values, split at bit `k`, which is at most the width. Returns whether all
/// are at most the greatest that the width has; the high parts alone decide it.
#[inline(always)]
pub(crate) fn skip_split(
    params: &Params,
    reader: &mut BitReader,
    is_ref: bool,
    k: u32,
) -> Result<bool, Fault>
    requires within { reader.old.pos ≤ length reader.old.list }
    requires shift { k < 32 }
    requires inside { k ≤ params.now.bits }
    ensures { Takes (λ bits. map_taken (all_below (2 ^ params.now.bits))
        (split_at k (written_count params.now is_ref) bits))
        reader.old (as_taken result) reader.new }
{
    let count = count_written(params, is_ref);
    let fit = skip_highs(reader, count, high_limit(value_limit(params), k))?;
    skip_numbers(reader, k, count)?;
    Ok(fit)
}
