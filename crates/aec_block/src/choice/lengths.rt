//! The length of each spelling of a block, as a sum, in bits of the whole coded data set.

ghost use Rattle.std.specs.Prelude.{◌≡◌, ◌+◌, ◌*◌, ◌^◌, ◌≤◌, length};
ghost use Rattle.aec_params.specs.Params.{id_len as identifier_len};
ghost use Rattle.aec_params.specs.CodedDataSets.{pair_number};
ghost use Rattle.aec_block.specs.BlockShape.{most_values};
ghost use Rattle.aec_block.specs.Lengths.{head_length, pairs_length, uncompressed_length, paired_length, IsLengthIfShort};
ghost use Rattle.aec_block.specs.Choices.{IsPrepared};

use crate::block::BlockRef;
use aec_params::Params;

/// Returns the length of an identifier of `id_len` bits, and of the reference sample, if there is
/// one. Identifiers of runs and of the second extension have one bit more.
#[inline(always)]
pub(crate) fn head_len(params: &Params, id_len: u32, reference: Option<u32>) -> u32
    requires id_len { id_len ≡ identifier_len params.now }
    ensures len { result ≡ head_length params.now reference }
    ensures bound { result ≤ 37 }
{
    match reference {
        None => id_len,
        Some(_) => id_len + params.bits(),
    }
}

/// Returns the length of a pair's codeword.
pub(crate) fn pair_len(a: u32, b: u32) -> u128
    ensures len { result ≡ pair_number a b + 1 }
    ensures bound { result ≤ 2 ^ 66 }
{
    let sum = u128::from(a) + u128::from(b);
    sum * (sum + 1) / 2 + u128::from(b) + 1
}

/// Returns the length of a pair's codeword if the pair's sum is below 2^16. The codeword of any
/// other pair is longer than each block by no compression.
#[tactic(auto, using(crate::proofs::LengthLemmas::great_pairs))]
fn small_pair_len(a: u32, b: u32) -> Option<u64>
    ensures { IsLengthIfShort (pair_number a b + 1) (2 ^ 32) result }
{
    let sum = u64::from(a) + u64::from(b);
    if sum < 1 << 16 {
        Some(sum * (sum + 1) / 2 + u64::from(b) + 1)
    } else {
        None
    }
}

/// Returns the length of the codewords of consecutive pairs, or `None` if one codeword alone is too
/// long.
#[tactic(auto, using(crate::proofs::LengthLemmas::pair_steps))]
#[inline(never)]
fn pairs_len(values: &[u32]) -> Option<u64>
    requires { length values.now ≤ most_values }
    ensures { IsLengthIfShort (pairs_length values.now) (most_values * 2 ^ 32) result }
{
    let mut sum = 0u64;
    for i in 0..values.len() / 2 {
        sum += small_pair_len(values[2 * i], values[2 * i + 1])?;
    }
    Some(sum)
}

/// Returns the length by no compression.
#[inline(always)]
pub(crate) fn uncompressed_len(
    params: &Params,
    id_len: u32,
    block: &BlockRef,
    values: &[u32],
) -> u64
    requires { IsPrepared params.now id_len block.now values.now }
    ensures len { result ≡ uncompressed_length params.now block.now }
    ensures bound { result ≤ 37 + 32 * most_values }
{
    u64::from(head_len(params, id_len, block.reference()))
        + values.len() as u64 * u64::from(params.bits())
}

/// Returns the length by the second extension, or `None` if one codeword alone is longer than each
/// block by no compression.
#[inline(always)]
pub(crate) fn paired_len(params: &Params, id_len: u32, block: &BlockRef) -> Option<u64>
    requires id_len { id_len ≡ identifier_len params.now }
    ensures { IsLengthIfShort (paired_length params.now block.now) (2 ^ 39) result }
{
    let pairs = pairs_len(block.values())?;
    Some(u64::from(head_len(params, id_len, block.reference())) + 1 + pairs)
}
