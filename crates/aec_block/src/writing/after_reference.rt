//! Gathers the seven values after a reference, in lanes of eight with the 0 in the reference place.

ghost use Rattle.std.specs.Prelude.{◌≡◌, ◌+◌, ◌*◌, ◌^◌, ◌<◌, ◌≤◌, ◌++◌, length, drop};
ghost use Rattle.aec_block.specs.BlockShape.{AreSevenAfterZero};
ghost use Rattle.aec_block.specs.Written.{high_parts, low_parts, split_parts, FitsHighWord, Spells, GathersBits};

use crate::writing::gathered::Gathered;
use crate::writing::joined_high_parts::eight_highs;
use crate::writing::joined_low_parts::low_word;
use aec_bits::BitBuf;

/// Returns the codewords of the last seven of eight values without their `k` low bits, one after
/// the other: fewer than 64 bits.
#[inline(always)]
fn high_word_of_seven(all: &[u32], k: u32) -> u64
    requires len { length all.now ≡ 8 }
    requires few { FitsHighWord k (drop 1 all.now) }
    ensures { Spells (length (high_parts k (drop 1 all.now))) (high_parts k (drop 1 all.now))
        result }
{
    let highs = eight_highs(all, k);
    let mut word = 0;
    for i in 0..7 {
        word = ((word << highs[i + 1]) << 1) + 1;
    }
    word
}

/// Returns the lowest `width` bits of the last seven of eight values, one after the other. The
/// first value is 0, so its low bits add nothing.
#[inline(always)]
fn low_word_of_seven(all: &[u32], width: u32) -> u64
    requires width { width < 8 }
    requires seven { AreSevenAfterZero all.now }
    ensures { Spells (7 * width) (low_parts width (drop 1 all.now)) result }
{
    low_word(all, width)
}

/// Gathers the last seven of eight values, of which the first is 0, split at bit `k`: their
/// codewords, which are `len` bits, and then their low bits.
#[inline(always)]
pub(crate) fn put_seven(
    all: &[u32],
    k: u32,
    len: u64,
    gathered: Gathered,
    out: &mut BitBuf,
) -> Gathered
    requires k { k < 8 }
    requires seven { AreSevenAfterZero all.now }
    requires len { len ≡ length (high_parts k (drop 1 all.now)) }
    requires few { len < 64 }
    requires room { length gathered + length (split_parts k (drop 1 all.now)) ≤ out.old.room }
    ensures { GathersBits (gathered ++ split_parts k (drop 1 all.now)) out.old result out.new }
{
    let high = gathered.put(high_word_of_seven(all, k), len as u32, out);
    high.put(low_word_of_seven(all, k), 7 * k, out)
}
