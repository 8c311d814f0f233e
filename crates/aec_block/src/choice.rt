//! The choice of the shortest option for a block.

pub(crate) mod any_block;
pub(crate) mod lengths;
mod splitting;
mod sums;
pub(crate) mod sums_of_three;

ghost use Rattle.std.specs.Prelude.{◌≡◌, ◌*◌, ◌^◌, ◌≤◌, ◌&&◌, ◌||◌, nat_lt, nat_le, length};
ghost use Rattle.aec_params.specs.Params.{IsAllowed, split_count, id_len as identifier_len};
ghost use Rattle.aec_params.specs.Spellings.{written_values};
ghost use Rattle.aec_block.specs.declared.choice.Coding.TheVariants.{SecondExtension, Split};
ghost use Rattle.aec_block.specs.BlockShape.{most_values};
ghost use Rattle.aec_block.specs.Lengths.{paired_length, split_length, IsSplitLen};
ghost use Rattle.aec_block.specs.Choices.{IsPrepared, IsChoice, shorter_choice};

use crate::block::BlockRef;
use crate::choice::lengths::{head_len, paired_len, uncompressed_len};
use crate::choice::splitting::{Splitting, best_split};
use aec_params::Params;

/// An option by which a block that is in no run is written.
#[derive(Clone, Copy, Debug, PartialEq, Eq)]
pub enum Coding {
    /// The values as they are.
    NoCompression,
    /// One codeword for each pair of values.
    SecondExtension,
    /// The values without their k low bits, then those bits.
    Split(u32),
}

/// An option, and the length of the whole coded data set in bits.
#[derive(Clone, Copy, Debug, PartialEq, Eq)]
pub struct Choice {
    pub coding: Coding,
    pub bits: u64,
}

/// Returns how many sample-splitting options there are, by the length of identifiers.
#[inline(always)]
fn split_options(params: &Params, id_len: u32) -> u32
    requires allowed { IsAllowed params.now }
    requires id_len { id_len ≡ identifier_len params.now }
    ensures count { result ≡ split_count params.now }
    ensures bound { result ≤ 30 }
{
    (1 << id_len) - 2
}

/// Returns the option of `bits` bits if it is shorter than the best so far, else the best so far.
#[inline(always)]
fn shorter_of(best: Choice, coding: Coding, bits: u64) -> Choice
    ensures { result ≡ shorter_choice best coding bits }
{
    if bits < best.bits {
        Choice { coding, bits }
    } else {
        best
    }
}

/// Returns the second extension if it is shorter than the best so far, else the best so far.
#[inline(always)]
#[tactic(auto, using(crate::proofs::ChoiceLemmas::too_long))]
fn shorter_of_pairs(params: &Params, id_len: u32, block: &BlockRef, best: Choice) -> Choice
    requires id_len { id_len ≡ identifier_len params.now }
    requires bound { best.bits ≤ 2 ^ 31 }
    ensures { result ≡ shorter_choice best SecondExtension (paired_length params.now block.now) }
{
    match paired_len(params, id_len, block) {
        Some(bits) => shorter_of(best, Coding::SecondExtension, bits),
        None => best,
    }
}

/// Returns whether there are splitting options and either k isn't 0 or the values add up to at
/// least their number. The second extension is then longer than splitting, since a pair's codeword
/// has at least twice as many bits as the pair adds up to.
#[inline(always)]
fn pairs_are_longer(options: u32, split: Splitting, count: u64) -> bool
    requires { count ≤ most_values }
    ensures { result ≡ (nat_lt 0 options && (nat_lt 0 split.k || nat_le (2 * count) split.bits)) }
{
    0 < options && (0 < split.k || 2 * count <= split.bits)
}

/// Returns splitting if it is shorter than the best so far, else the best so far.
#[inline(always)]
fn shorter_of_split(
    params: &Params,
    id_len: u32,
    block: &BlockRef,
    best: Choice,
    split: Splitting,
) -> Choice
    requires id_len { id_len ≡ identifier_len params.now }
    requires counted { IsSplitLen (written_values block.now) split }
    ensures { result ≡ shorter_choice best (Split split.k)
        (split_length params.now block.now split.k) }
{
    let head = head_len(params, id_len, block.reference());
    shorter_of(best, Coding::Split(split.k), u64::from(head) + split.bits)
}

/// Returns the shortest option for a block. `values` are its values after the reference place. They
/// are passed so that the compiler can know their number where this is inlined.
#[inline(always)]
pub(crate) fn choose_among(params: &Params, id_len: u32, block: &BlockRef, values: &[u32]) -> Choice
    requires { IsPrepared params.now id_len block.now values.now }
    ensures { IsChoice params.now block.now result }
{
    let uncompressed = Choice {
        coding: Coding::NoCompression,
        bits: uncompressed_len(params, id_len, block, values),
    };
    let options = split_options(params, id_len);
    let split = best_split(block.values(), values, params.bits(), options);
    if pairs_are_longer(options, split, values.len() as u64) {
        return shorter_of_split(params, id_len, block, uncompressed, split);
    }
    // Stays out of line. It is lent a copy, so that the original can stay in registers.
    let own = *params;
    let best = shorter_of_pairs(&own, id_len, block, uncompressed);
    if options == 0 {
        return best;
    }
    shorter_of_split(params, id_len, block, best, split)
}
