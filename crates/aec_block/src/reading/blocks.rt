//! Reads values into a block, overwriting what it held.

ghost use Rattle.std.specs.Prelude.{◌≡◌, ◌≤◌, ◌<◌, ◌*◌, ◌/◌, ◌^◌, [], length};
ghost use Rattle.std.specs.Option.{is_some};
ghost use Rattle.aec_params.specs.CodedDataSets.{written_count};
ghost use Rattle.aec_params.specs.Places.{placed_values, block_of_values};
ghost use Rattle.aec_block.specs.BlockShape.{most_values};
ghost use Rattle.aec_block.specs.ReadAt.{map_taken, binary_at, values_at, members_at, split_at};
ghost use Rattle.aec_block.specs.Gathering.{as_taken_by, when, small_block, pair_block, Takes};

use crate::block::{Block, reference_places};
use crate::reading::codewords::read_block_numbers;
use crate::reading::pairs::read_pairs;
use crate::reading::values::read_block_split;
use aec_bits::BitReader;
use aec_params::{Fault, Params};

/// Returns how many values a block has.
pub(crate) fn block_len(params: &Params) -> usize
    ensures value { result ≡ params.now.block_size }
    ensures some { 0 < result }
    ensures even { result ≡ 2 * (result / 2) }
    ensures most { result ≤ most_values }
{
    params.block_size() as usize
}

/// Fills the block with the next numbers, each as wide as a sample.
#[inline(always)]
pub(crate) fn fill_uncompressed(
    params: &Params,
    reader: &mut BitReader,
    reference: Option<u32>,
    block: &mut Block,
) -> Result<(), Fault>
    requires within { reader.old.pos ≤ length reader.old.list }
    ensures { Takes (λ bits. map_taken (block_of_values reference)
        (values_at (binary_at params.now.bits) (written_count params.now (is_some reference)) bits))
        reader.old (as_taken_by (λ _. block.new) result) reader.new }
{
    block.restart(reference, block_len(params));
    let values = &mut block.values.as_mut_slice()[reference_places(reference)..];
    read_block_numbers(reader, params.bits(), values)
}

/// Fills the block with the next values, split at bit `k`. Returns whether all are at most the
/// greatest that the width has.
#[inline(always)]
pub(crate) fn fill_split(
    params: &Params,
    reader: &mut BitReader,
    reference: Option<u32>,
    k: u32,
    block: &mut Block,
) -> Result<bool, Fault>
    requires within { reader.old.pos ≤ length reader.old.list }
    requires shift { k < 32 }
    ensures { Takes (λ bits. map_taken (small_block (2 ^ params.now.bits) reference)
        (split_at k (written_count params.now (is_some reference)) bits)) reader.old
        (as_taken_by (λ fit. when fit block.new) result) reader.new }
{
    block.restart(reference, block_len(params));
    let values = &mut block.values.as_mut_slice()[reference_places(reference)..];
    read_block_split(params, reader, k, values)
}

/// Fills the block with the next pairs. Returns whether all values are at most the greatest that
/// the width has. In a reference block the first member of the first pair is not a value: it may be
/// any number.
pub(crate) fn fill_pairs(
    params: &Params,
    reader: &mut BitReader,
    reference: Option<u32>,
    block: &mut Block,
) -> Result<bool, Fault>
    requires within { reader.old.pos ≤ length reader.old.list }
    ensures { Takes (λ bits. map_taken (pair_block (2 ^ params.now.bits) reference)
        (members_at (params.now.block_size / 2) bits)) reader.old
        (as_taken_by (λ fit. when fit block.new) result) reader.new }
{
    block.restart(reference, block_len(params));
    read_pairs(
        params,
        reader,
        reference.is_some(),
        block.values.as_mut_slice(),
    )
}
