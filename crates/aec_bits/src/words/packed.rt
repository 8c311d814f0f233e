//! Vectors of words that hold a list of bits, and grow with it.

ghost use Rattle.std.specs.Prelude.{◌∷◌, [], ◌≡◌, ◌+◌, ◌-◌, ◌*◌, ◌<◌, ◌≤◌, ◌^◌, ◌++◌, false, length, take, drop, replicate, max, slice_index_or, vec_len, vec_capacity};
ghost use Rattle.std.specs.Int.{div_ceil};
ghost use Rattle.aec_params.specs.Codewords.{fs, binary};
ghost use Rattle.aec_bits.specs.Words.{bits_of_words};
ghost use Rattle.aec_bits.specs.BitBuf.{FitsWidth};
ghost use Rattle.aec_bits.specs.Packed.{ArePacked, Keep, HasRoomFor, CanGrow, Extends};

use crate::words::copying::{copy_bits, move_bits};
use crate::words::put_number;

/// Appends zero words, for which there is room, until the words hold `len` bits.
pub(crate) fn grow(words: &mut Vec<u64>, len: u64)
    requires { HasRoomFor len words.old }
    ensures bits { bits_of_words words.new.items
        ≡ bits_of_words words.old.items
        ++ replicate (64 * (div_ceil len 64 - vec_len words.old)) false }
    ensures len { vec_len words.new ≡ max (div_ceil len 64) (vec_len words.old) }
    ensures capacity { vec_capacity words.old ≤ vec_capacity words.new }
{
    let count = (len.div_ceil(64) as usize).max(words.len());
    words.resize(count, 0).unwrap();
}

/// Keeps the first `len` bits, and no more words than these need.
pub(crate) fn cut(words: &mut Vec<u64>, len: u64)
    requires within { len ≤ 64 * vec_len words.old }
    requires bound { len ≤ 2 ^ 62 }
    ensures list { Keep words.new.items len (take len (bits_of_words words.old.items)) }
    ensures capacity { vec_capacity words.new ≡ vec_capacity words.old }
{
    let count = len.div_ceil(64);
    words.truncate(count as usize);
    put_number(words.as_mut_slice(), len, (64 * count - len) as u32, 0);
}

/// Returns the last word.
#[inline]
fn last_of(words: &Vec<u64>) -> u64
    requires { 0 < vec_len words.now }
    ensures { result ≡ slice_index_or words.now.items (vec_len words.now - 1) 0 }
{
    words[words.len() - 1]
}

/// Appends the bits of `value` in `width` bits, for which there is room, to a list of `len` bits.
#[inline(always)]
pub(crate) fn push_reserved_number(words: &mut Vec<u64>, len: u64, value: u64, width: u32)
    requires number { FitsWidth width value }
    requires grow { CanGrow len width words.old }
    ensures list { Keep words.new.items (len + width)
        (take len (bits_of_words words.old.items) ++ binary width value) }
    ensures capacity { vec_capacity words.new ≡ vec_capacity words.old }
{
    let used = (len % 64) as u32;
    if used == 0 {
        if width == 0 {
            return;
        }
        words.push_reserved(value << (64 - width));
        return;
    }
    let free = 64 - used;
    let last = words.len() - 1;
    let word = last_of(words);
    if width <= free {
        words[last] = word + (value << (free - width));
        return;
    }
    let over = width - free;
    words[last] = word + (value >> over);
    words.push_reserved(value << (64 - over));
}

/// Appends `v` zeros and a one, for which there is room, to a list of `len` bits.
pub(crate) fn push_unary(words: &mut Vec<u64>, len: u64, v: u64)
    requires { CanGrow len (v + 1) words.old }
    ensures { Extends len (v + 1) (fs v) words.old words.new }
{
    grow(words, len + (v + 1));
    put_number(words.as_mut_slice(), len + v, 1, 1);
}

/// Appends the first `count` bits of other words, for which there is room, to a list of `len` bits.
pub(crate) fn append_bits(words: &mut Vec<u64>, len: u64, with: &[u64], count: u64)
    requires count { count ≤ 64 * length with.now }
    requires grow { CanGrow len count words.old }
    ensures { Extends len count (take count (bits_of_words with.now)) words.old words.new }
{
    grow(words, len + count);
    copy_bits(words.as_mut_slice(), len, with, count);
}

/// Replaces the bits from place `start` up to place `stop` of a list of `len` bits by the first
/// `count` bits of other words. There is room for the bits that the list gains.
pub(crate) fn splice_bits(
    words: &mut Vec<u64>,
    len: u64,
    start: u64,
    stop: u64,
    with: &[u64],
    count: u64,
)
    requires order { start ≤ stop }
    requires within { stop ≤ len }
    requires before { len ≤ 2 ^ 62 }
    requires room { HasRoomFor (start + count + (len - stop)) words.old }
    requires count { count ≤ 64 * length with.now }
    requires packed { ArePacked words.old.items len }
    ensures list { Keep words.new.items (start + count + (len - stop))
        (take start (take len (bits_of_words words.old.items))
        ++ (take count (bits_of_words with.now)
        ++ drop stop (take len (bits_of_words words.old.items)))) }
    ensures capacity { vec_capacity words.old ≤ vec_capacity words.new }
{
    let total = start + count + (len - stop);
    grow(words, total);
    move_bits(words.as_mut_slice(), stop, start + count, len - stop);
    copy_bits(words.as_mut_slice(), start, with, count);
    cut(words, total);
}
