//! Numbers and stretches of bits in words of 64, the most significant bit first.

mod copying;
mod copying_fours;
pub(crate) mod octets;
pub(crate) mod packed;

ghost use Rattle.std.specs.Prelude.{◌≡◌, ◌+◌, ◌-◌, ◌*◌, ◌<◌, ◌≤◌, ◌^◌, ◌++◌, false, length, take, drop, replicate, slice_index_or, MatchOption};
ghost use Rattle.aec_params.specs.Codewords.{fs, binary};
ghost use Rattle.aec_bits.specs.BitBuf.{FitsWidth};
ghost use Rattle.aec_bits.specs.BitReader.{BeginsWithNumber, CountsZeros};
ghost use Rattle.aec_bits.specs.Stretches.{IsPartOfWord, IsInnerPlace, AreOverwritten};
ghost use Rattle.aec_bits.specs.Words.{bits_of_words};
ghost use Rattle.aec_bits.specs.WordBits.{word_bits};
ghost use Rattle.aec_bits.specs.Windows.{bits_from};

/// Returns the number that `width` bits of a word spell from place `at` on.
#[inline(always)]
pub(crate) fn part_of(word: u64, at: u32, width: u32) -> u64
    requires { IsPartOfWord at width }
    ensures { BeginsWithNumber width result (drop at (word_bits word))
        (drop (at + width) (word_bits word)) }
{
    (word << at) >> (64 - width)
}

/// Returns the word that begins at place `at` of the first of two consecutive words.
#[inline(always)]
fn joined(first: u64, second: u64, at: u32) -> u64
    requires { IsInnerPlace at }
    ensures { word_bits result ≡ drop at (word_bits first) ++ take at (word_bits second) }
{
    (first << at) | (second >> (64 - at))
}

/// Returns the number that `width` bits spell from place `start` on, the most significant first.
#[inline(always)]
pub(crate) fn number_at(words: &[u64], start: u64, width: u32) -> u64
    requires width { width ≤ 64 }
    requires within { start + width ≤ 64 * length words.now }
    ensures { BeginsWithNumber width result (drop start (bits_of_words words.now))
        (drop (start + width) (bits_of_words words.now)) }
{
    if width == 0 {
        return 0;
    }
    let place = (start / 64) as usize;
    let at = (start % 64) as u32;
    if at + width <= 64 {
        return part_of(words[place], at, width);
    }
    part_of(joined(words[place], words[place + 1], at), 0, width)
}

/// Returns the word whose bits begin at place `start`.
#[inline(always)]
pub(crate) fn word_at(words: &[u64], start: u64) -> u64
    requires { start + 64 ≤ 64 * length words.now }
    ensures { drop start (bits_of_words words.now)
        ≡ word_bits result ++ drop (start + 64) (bits_of_words words.now) }
{
    let place = (start / 64) as usize;
    let at = (start % 64) as u32;
    if at == 0 {
        return words[place];
    }
    joined(words[place], words[place + 1], at)
}

/// Returns the word at a place, or zero past the end.
#[inline(always)]
fn word_or_zero(words: &[u64], place: usize) -> u64
    ensures { result ≡ slice_index_or words.now place 0 }
{
    words.get(place).copied().unwrap_or(0)
}

/// Returns the word whose bits begin at place `start`; bits past the end are zeros.
#[inline(always)]
pub(crate) fn padded_word_at(words: &[u64], start: u64) -> u64
    requires { start ≤ 64 * length words.now }
    ensures { word_bits result ≡ bits_from start 64 (bits_of_words words.now) }
{
    let place = (start / 64) as usize;
    let at = (start % 64) as u32;
    if place + 1 < words.len() {
        // Two shifts: at place 0 a single one would be by 64.
        return (words[place] << at) | (words[place + 1] >> 1 >> (63 - at));
    }
    word_or_zero(words, place) << at
}

/// Returns a word with `width` bits from place `at` on overwritten by a number.
#[inline(always)]
fn put_in_word(word: u64, at: u32, width: u32, value: u64) -> u64
    requires part { IsPartOfWord at width }
    requires fits { value < 2 ^ width }
    ensures { word_bits result
        ≡ take at (word_bits word) ++ (binary width value ++ drop (at + width) (word_bits word)) }
{
    let behind = 64 - at - width;
    let front = word & !(u64::MAX >> at);
    let back = word & ((1 << behind) - 1);
    front | value << behind | back
}

/// Overwrites `width` bits from place `start` on by a number, the most significant bit first.
pub(crate) fn put_number(words: &mut [u64], start: u64, width: u32, value: u64)
    requires number { FitsWidth width value }
    requires within { start + width ≤ 64 * length words.old }
    ensures { AreOverwritten start width (binary width value) words.old words.new }
{
    if width == 0 {
        return;
    }
    let place = (start / 64) as usize;
    let at = (start % 64) as u32;
    if at + width <= 64 {
        words[place] = put_in_word(words[place], at, width, value);
        return;
    }
    let over = at + width - 64;
    let first = put_in_word(words[place], at, width - over, value >> over);
    let second = put_in_word(words[place + 1], 0, over, value & ((1 << over) - 1));
    words[place] = first;
    words[place + 1] = second;
}

/// Returns the number of zeros in a word from place `at` up to the next 1 bit; `None` if none
/// follows.
#[inline(always)]
fn zeros_in_word(word: u64, at: u32) -> Option<u32>
    requires { at < 64 }
    ensures { MatchOption result
        (drop at (word_bits word) ≡ replicate (64 - at) false)
        (λ v. (at + v < 64) × (drop at (word_bits word)
        ≡ fs v ++ drop (at + v + 1) (word_bits word))) }
{
    let rest = word & (u64::MAX >> at);
    if rest == 0 {
        return None;
    }
    Some(rest.leading_zeros() - at)
}

/// Returns the number of zeros from place `start` up to the next 1 bit; `None` if no 1 bit follows.
pub(crate) fn zeros_at(words: &[u64], start: u64) -> Option<u64>
    requires within { start ≤ 64 * length words.now }
    requires bound { 64 * length words.now ≤ 2 ^ 63 }
    ensures { CountsZeros (bits_of_words words.now) start result }
{
    let mut at = (start % 64) as u32;
    for i in (start / 64) as usize..words.len() {
        if let Some(zeros) = zeros_in_word(words[i], at) {
            return Some(64 * i as u64 + u64::from(at + zeros) - start);
        }
        at = 0;
    }
    None
}
