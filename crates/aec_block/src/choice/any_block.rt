//! The choice of the shortest option for any block. It tries k = 0, 1, 2, .. until the next k isn't
//! shorter.

ghost use Rattle.std.specs.Prelude.{◌≡◌, ◌*◌, ◌^◌, ◌<◌, ◌≤◌, length};
ghost use Rattle.aec_block.specs.BlockShape.{most_values};
ghost use Rattle.aec_block.specs.Lengths.{IsBestSplit, IsSplitLen};
ghost use Rattle.aec_block.specs.Choices.{IsFull, IsChoice};

use crate::block::Block;
use crate::choice::lengths::uncompressed_len;
use crate::choice::splitting::{Splitting, is_shorter_next, with_k};
use crate::choice::sums::shifted_sum;
use crate::choice::{Choice, Coding, shorter_of_pairs, shorter_of_split, split_options};
use aec_params::Params;

/// Returns the k below `options` with which the values have the fewest bits, and of equal ones the
/// least. k rises from 0 and stops at the first k whose successor isn't shorter. One more low bit
/// never gains more than the one before it gained, so no later k is shorter.
fn first_best(values: &[u32], options: u32) -> Splitting
    requires some { 0 < options }
    requires options { options ≤ 32 }
    requires len { length values.now ≤ most_values }
    ensures best { IsBestSplit options result.k values.now }
    ensures counted { IsSplitLen values.now result }
{
    let last = options - 1;
    let mut sum = shifted_sum(values, 0);
    for k in 0..last {
        let next = shifted_sum(values, k + 1);
        if !is_shorter_next(sum, next, values.len() as u64) {
            return with_k(sum, values.len(), k);
        }
        sum = next;
    }
    with_k(sum, values.len(), last)
}

/// Returns the shortest option for a block of J values below `2^n`, with a reference below `2^n` if
/// it has one. Of equal lengths (a tie) the first in this order: no compression, second extension,
/// splitting with the least k.
pub fn choose(params: &Params, block: &Block) -> Choice
    requires { IsFull params.now block.now }
    ensures { IsChoice params.now block.now result }
{
    let id_len = params.id_len();
    let view = block.view();
    let values = view.written();
    let uncompressed = Choice {
        coding: Coding::NoCompression,
        bits: uncompressed_len(params, id_len, &view, values),
    };
    let best = shorter_of_pairs(params, id_len, &view, uncompressed);
    let options = split_options(params, id_len);
    if options == 0 {
        return best;
    }
    shorter_of_split(params, id_len, &view, best, first_best(values, options))
}
